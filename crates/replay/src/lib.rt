// A take played from reset.

#![tactic(auto)]

ghost use Rattle.std.specs.Prelude.{◌≡◌, ◌-◌, ◌<◌, length};
ghost use Rattle.chip.specs.Interrupts.{acknowledge_answer, acknowledged};
ghost use Rattle.chip.specs.Promises.{Answers};
ghost use Rattle.take.specs.Open.{records_of};
ghost use Rattle.replay.specs.Replay.{fresh, refusal_counted, replayed};
ghost use Rattle.replay.specs.Parts.{progress_of, lines_on, record_replayed, Room, Kept, Calls, Begun, Opened, Tells};
ghost use Rattle.replay.specs.Contract.{Replays};

use chip::{Answered, Chip};
use common::answer::{DONE, Refusal};
use common::size::{RAM, STORE};
use editors::{Editor, Owners};
use reader::Reader;
use sound::{Access, Accesses};
use take::Record;
use take::kind::Kind;

// What replay gives: the chip, the answer, the number of the first bad record, the lines stepped, and how often each refusal number
// came, at the place of that number.
#[repr(C)]
#[derive(Clone, Copy)]
pub struct Replayed {
    pub chip: Chip,
    pub answer: u8,
    pub bad: usize,
    pub lines: u32,
    pub counts: [u32; 24],
}

// What is lent for the calls: RAM, the pixel store, the places of both editors' undo records, and the owners that every start gives.
#[derive(Drop)]
struct Lent<'a> {
    ram: &'a [u8],
    store: &'a mut [u8],
    song: &'a mut [u32; 256],
    picture: &'a mut [u32; 256],
    owners: Owners,
}

// How far a replay is, beside the buffers that are lent.
#[derive(Clone, Copy)]
struct Player {
    chip: Chip,
    lines: u32,
    counts: [u32; 24],
}

// Lines stepped from one number until another is reached, with the processor off the 8255. Only what a line moves goes from line to
// line.
fn lines_on(mut chip: Chip, ram: &[u8], from: u32, to: u32) -> Chip
    requires { length ram.now ≡ 65536 }
    ensures { result ≡ lines_on ram.now (to - from) chip }
{
    let mut sound = chip.sound;
    let mut crtc = chip.crtc;
    let mut raster = chip.interrupts.raster;
    for _ in from..to {
        let off = Accesses {
            first: Access::Off,
            second: Access::Off,
            third: Access::Off,
        };
        let line = chip::line::advance(sound, crtc, chip.video, ram, off);
        sound = line.sound;
        let counters = line.counters;
        crtc.counters = counters;
        raster = line.raster | raster;
    }
    chip.sound = sound;
    chip.crtc = crtc;
    chip.interrupts.raster = raster;
    chip
}

// An acknowledge, without its vector.
fn acknowledged(chip: Chip) -> Answered
    ensures { Answers (acknowledge_answer chip) (acknowledged chip) chip result }
{
    let told = chip::acknowledge::acknowledge(chip);
    Answered {
        answer: told.answer,
        chip: told.chip,
    }
}

// A refusal counted at its number.
fn refusal_counted(mut counts: [u32; 24], answer: u8) -> [u32; 24]
    requires { (answer < 24) × Room counts }
    ensures { result ≡ refusal_counted counts answer }
{
    if answer != DONE {
        counts[answer as usize] += 1;
    }
    counts
}

// Nothing is played yet: the chip is the one after reset.
fn begun() -> Player
    ensures { Begun result.chip result.lines result.counts }
{
    Player {
        chip: chip::start::reset(),
        lines: 0,
        counts: [0; 24],
    }
}

impl Lent<'_> {
    // The call that a record names. A kind that no call has changes nothing.
    fn called(&mut self, chip: Chip, entry: Record) -> Answered
        ensures kept { Kept self.old self.new }
        ensures calls { Calls chip self.old.store.now self.old.song.now self.old.picture.now self.old.owners entry self.new.store.now self.new.song.now self.new.picture.now result }
    {
        let Ok(kind) = Kind::try_from(entry.kind) else {
            return Answered { answer: DONE, chip };
        };
        let Record { address, value, .. } = entry;
        match kind {
            Kind::WriteBc => chip::ports::write_bc(chip, value),
            Kind::WriteBd => chip::ports::write_bd(chip, value),
            Kind::Write7f => chip::ports::write_7f(chip, value),
            Kind::SongWrite => page::page_write(
                chip,
                Editor::Song,
                self.store,
                self.song,
                address,
                value,
            ),
            Kind::Acknowledge => acknowledged(chip),
            Kind::SongUndo => page::undo(chip, Editor::Song, self.store, self.song),
            Kind::PictureWrite => page::page_write(
                chip,
                Editor::Picture,
                self.store,
                self.picture,
                address,
                value,
            ),
            Kind::PictureUndo => page::undo(chip, Editor::Picture, self.store, self.picture),
            Kind::Start => chip::table::start(chip, self.owners),
            Kind::Mute => chip::mute::mute(chip, address, value == 1),
        }
    }

    // One record: its line is reached, then its call is made.
    fn record_replayed(&mut self, p: Player, entry: Record) -> Player
        requires { (length self.old.ram.now ≡ 65536) × Room p.counts }
        ensures kept { Kept self.old self.new }
        ensures played { progress_of result self.new ≡ record_replayed self.old.owners (progress_of p self.old) entry }
    {
        let chip = lines_on(p.chip, self.ram, p.lines, entry.line);
        let told = self.called(chip, entry);
        Player {
            chip: told.chip,
            lines: p.lines.max(entry.line),
            counts: refusal_counted(p.counts, told.answer),
        }
    }

    // Every record of a take that opens, from reset, as a reader over it hands them out.
    fn records(&mut self, file: &[u8]) -> Player
        requires { (length self.old.ram.now ≡ 65536) × Opened file.now }
        ensures kept { Kept self.old self.new }
        ensures played { progress_of result self.new ≡ replayed self.old.owners (fresh self.old.ram.now self.old.store.now self.old.song.now self.old.picture.now) (records_of file.now) }
    {
        let mut p = begun();
        for entry in Reader::over(file) {
            p = self.record_replayed(p, entry);
        }
        p
    }
}

// What replay gives: this answer, and how far it is.
fn told(answer: u8, bad: usize, p: Player) -> Replayed
    ensures { Tells answer bad p result }
{
    let Player {
        chip,
        lines,
        counts,
    } = p;
    Replayed {
        chip,
        answer,
        bad,
        lines,
        counts,
    }
}

// Plays a take from reset, on lent RAM, pixel store and places of both editors' undo records. Every start in it gives these owners.
pub fn replay(
    ram: &[u8],
    store: &mut [u8],
    song: &mut [u32; 256],
    picture: &mut [u32; 256],
    owners: Owners,
    file: &[u8],
) -> Replayed
    ensures { Replays ram.now store.old song.old picture.old owners file.now store.new song.new picture.new result }
{
    if ram.len() != RAM || store.len() != STORE {
        return told(Refusal::WrongLength.number(), 0, begun());
    }
    let opened = take::open(file);
    if opened.answer != DONE {
        return told(opened.answer, opened.bad, begun());
    }
    let mut lent = Lent {
        ram,
        store,
        song,
        picture,
        owners,
    };
    told(DONE, 0, lent.records(file))
}
