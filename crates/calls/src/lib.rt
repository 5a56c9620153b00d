// What an order of a scene can ask for: each is done, and a line answers it.

#![tactic(auto)]

ghost use Rattle.std.specs.Prelude.{◌≡◌, ◌+◌, ◌≤◌, length};
ghost use Rattle.common.specs.Answers.{done};
ghost use Rattle.line.specs.Contract.{Shows};
ghost use Rattle.text.specs.Text.{Room};
ghost use Rattle.text.specs.Lines.{one_line, three_line};
ghost use Rattle.runs.specs.Call.{bc, bd, gate, read, write, undo, ack, remove};
ghost use Rattle.calls.specs.Orders.{calls, pokes, waits, starts, gives, places, resets, exports, hears, shows, foretells, unknown, accesses_in, mute_by, shown, number_in, owners_in, copied, Performs};
ghost use Rattle.calls.specs.Parts.{Tells};

use chip::{Answered, Chip, Stepped};
use common::answer::DONE;
use editors::{Editor, Owners};
use placing::PlacedList;
use sound::Accesses;
use text::Output;

// The chip, and the bytes that wait for a start, an area or a list.
#[derive(Clone, Copy)]
pub struct Machine {
    pub chip: Chip,
    pub waiting: [u8; 16],
}

// The machine with what it is lent: RAM, the pixel store, the places of the song and of the picture editor's record and those of
// placed lists, and the output.
#[derive(Drop)]
pub struct Runner<'a> {
    pub machine: Machine,
    pub ram: &'a mut [u8],
    pub store: &'a mut [u8],
    pub song: &'a mut [u32; 256],
    pub picture: &'a mut [u32; 256],
    pub slots: &'a mut [u32; 64],
    pub out: Output<'a>,
}

// What the processor does at the 8255 for each channel, two bits a channel.
fn accesses_in(value: u8) -> Accesses
    ensures { result ≡ accesses_in value }
{
    Accesses {
        first: sound::access_by(value % 4),
        second: sound::access_by(value / 4 % 4),
        third: sound::access_by(value / 16 % 4),
    }
}

// The number in four waiting bytes, low byte first.
fn number_in(waiting: [u8; 16], at: usize) -> u32
    requires { at ≤ 12 }
    ensures { result ≡ number_in waiting at }
{
    u32::from_le_bytes([
        waiting[at],
        waiting[at + 1],
        waiting[at + 2],
        waiting[at + 3],
    ])
}

// The owners in the first seven waiting bytes, low byte first.
fn owners_in(waiting: [u8; 16]) -> Owners
    ensures { result ≡ owners_in waiting }
{
    Owners {
        palette: number_in(waiting, 0),
        sprites: u16::from_le_bytes([waiting[4], waiting[5]]),
        channels: waiting[6],
    }
}

// The bytes of RAM from an address on, and round its end, copied out.
fn copied_out(ram: &[u8], address: u16, list: &mut [u8])
    ensures { list.new ≡ copied ram.now address (length list.new) }
{
    for (i, byte) in list.iter_mut().enumerate() {
        *byte = common::byte_at(ram, (address as usize + i) % 65536);
    }
}

impl Runner<'_> {
    // A call that answers one number.
    fn answered(&mut self, told: Answered)
        requires { Room self.old.out 1024 }
        ensures { Tells self.old told.chip (one_line told.answer) self.new }
    {
        self.machine.chip = told.chip;
        self.out.answered(told.answer, &[]);
    }

    // Placing, which answers an address and a handle too.
    fn placed(&mut self, told: PlacedList)
        requires { Room self.old.out 1024 }
        ensures { Tells self.old told.chip (three_line told.answer told.address told.handle) self.new }
    {
        self.machine.chip = told.chip;
        self.out.answered(
            told.answer,
            &[u64::from(told.address), u64::from(told.handle)],
        );
    }

    // What is always done.
    fn done(&mut self)
        requires { Room self.old.out 1024 }
        ensures { Tells self.old self.old.machine.chip (one_line done) self.new }
    {
        self.out.answered(DONE, &[]);
    }

    // A byte to BCxx.
    pub fn selected(&mut self, value: u8)
        requires { Room self.old.out 1024 }
        ensures { Performs self.old (calls (bc value)) self.new }
    {
        self.answered(chip::ports::write_bc(self.machine.chip, value));
    }

    // A byte to the 6845's data port.
    pub fn data_written(&mut self, value: u8)
        requires { Room self.old.out 1024 }
        ensures { Performs self.old (calls (bd value)) self.new }
    {
        self.answered(chip::ports::write_bd(self.machine.chip, value));
    }

    // A byte to 7Fxx.
    pub fn gate_written(&mut self, value: u8)
        requires { Room self.old.out 1024 }
        ensures { Performs self.old (calls (gate value)) self.new }
    {
        self.answered(chip::ports::write_7f(self.machine.chip, value));
    }

    // A page write of an editor.
    pub fn page_written(&mut self, editor: Editor, address: u16, value: u8)
        requires { Room self.old.out 1024 }
        ensures { Performs self.old (calls (write editor address value)) self.new }
    {
        let told = match editor {
            Editor::Song => page::page_write(
                self.machine.chip,
                editor,
                self.store,
                self.song,
                address,
                value,
            ),
            Editor::Picture => page::page_write(
                self.machine.chip,
                editor,
                self.store,
                self.picture,
                address,
                value,
            ),
        };
        self.answered(told);
    }

    // An editor's last page write taken back.
    pub fn undone(&mut self, editor: Editor)
        requires { Room self.old.out 1024 }
        ensures { Performs self.old (calls (undo editor)) self.new }
    {
        let told = match editor {
            Editor::Song => page::undo(self.machine.chip, editor, self.store, self.song),
            Editor::Picture => page::undo(self.machine.chip, editor, self.store, self.picture),
        };
        self.answered(told);
    }

    // The registers exported.
    pub fn exported(&mut self)
        requires { Room self.old.out 1024 }
        ensures { Performs self.old exports self.new }
    {
        self.out.exported(self.machine.chip);
    }

    // The PSG's registers shown.
    pub fn psg_shown(&mut self)
        requires { Room self.old.out 1024 }
        ensures { Performs self.old hears self.new }
    {
        self.out.psg(self.machine.chip.sound.psg);
    }

    // A page read of an editor.
    pub fn page_shown(&mut self, editor: Editor, address: u16, bus: u8)
        requires { Room self.old.out 1024 }
        ensures { Performs self.old (calls (read editor address bus)) self.new }
    {
        let store = &mut *self.store;
        let told = page::page_read(self.machine.chip, editor, store, address, bus);
        self.out.answered(told.answer, &[u64::from(told.byte)]);
    }

    // An acknowledge.
    pub fn acknowledged(&mut self)
        requires { Room self.old.out 1024 }
        ensures { Performs self.old (calls ack) self.new }
    {
        let told = chip::acknowledge::acknowledge(self.machine.chip);
        self.machine.chip = told.chip;
        self.out.answered(told.answer, &[u64::from(told.vector)]);
    }

    // The current line drawn, and the chip stepped to the next.
    fn drawn(&mut self, line: &mut [u8; 640], value: u8) -> Stepped
        ensures shows { Shows self.old.machine.chip self.old.ram.now self.old.store.now (accesses_in value) line.old line.new result }
        ensures is { self.new ≡ record self.old { machine = record self.old.machine { chip = result.chip } } }
    {
        let (ram, store) = (&mut *self.ram, &mut *self.store);
        let stepped = line::line(self.machine.chip, ram, store, line, accesses_in(value));
        self.machine.chip = stepped.chip;
        stepped
    }

    // A line that is drawn and stepped.
    pub fn stepped(&mut self, value: u8)
        requires { Room self.old.out 1024 }
        ensures { Performs self.old (calls (shown (accesses_in value))) self.new }
    {
        let told = self.drawn(&mut [0; 640], value);
        self.out.stepped(told.answer, told.report);
    }

    // The same, and the line is shown.
    pub fn painted(&mut self, value: u8)
        requires { Room self.old.out 1024 }
        ensures { Performs self.old (shows (accesses_in value)) self.new }
    {
        let mut line = [0; 640];
        let told = self.drawn(&mut line, value);
        self.out.painted(told.answer, &line, told.report);
    }

    // A forecast.
    pub fn foretold(&mut self, start: u16, prescale: u8)
        requires { Room self.old.out 1024 }
        ensures { Performs self.old (foretells start prescale) self.new }
    {
        let ram = &mut *self.ram;
        let told = forecast::forecast(ram, start, prescale);
        let bytes = forecast::list(ram, start).len();
        self.out.forecast(told, bytes);
    }

    // A byte of RAM changed.
    pub fn poked(&mut self, address: u16, value: u8)
        requires { Room self.old.out 1024 × (length self.old.ram.now ≡ 65536) }
        ensures { Performs self.old (pokes address value) self.new }
    {
        self.ram[address as usize] = value;
        self.done();
    }

    // A byte that is to wait, if there is a place for it.
    pub fn kept_waiting(&mut self, address: u16, value: u8)
        requires { Room self.old.out 1024 }
        ensures { Performs self.old (waits address value) self.new }
    {
        if address < 16 {
            self.machine.waiting[address as usize] = value;
        }
        self.done();
    }

    // A start with the table that waits.
    pub fn started(&mut self)
        requires { Room self.old.out 1024 }
        ensures { Performs self.old starts self.new }
    {
        let owners = owners_in(self.machine.waiting);
        self.answered(chip::table::start(self.machine.chip, owners));
    }

    // The area with the bounds that wait.
    pub fn area_given(&mut self)
        requires { Room self.old.out 1024 }
        ensures { Performs self.old gives self.new }
    {
        let from = number_in(self.machine.waiting, 7);
        let upto = number_in(self.machine.waiting, 11);
        self.answered(placing::area(self.machine.chip, from, upto));
    }

    // A list placed. It stands in RAM from the address on, and the high byte of its length waits.
    pub fn list_placed(&mut self, address: u16, value: u8)
        requires { Room self.old.out 1024 }
        ensures { Performs self.old (places address value) self.new }
    {
        let bytes = u16::from_le_bytes([value, self.machine.waiting[15]]);
        let mut list = [0u8; 65536];
        let list = &mut list[..bytes as usize];
        let ram = &mut *self.ram;
        copied_out(ram, address, list);
        let told = placing::place(self.machine.chip, self.slots, ram, list);
        self.placed(told);
    }

    // A list removed by its handle.
    pub fn list_removed(&mut self, handle: u8)
        requires { Room self.old.out 1024 }
        ensures { Performs self.old (calls (remove handle)) self.new }
    {
        let told = placing::remove(self.machine.chip, self.slots, u32::from(handle));
        self.answered(told);
    }

    // A channel muted by a value that isn't 0, or heard again.
    pub fn muted(&mut self, channel: u16, value: u8)
        requires { Room self.old.out 1024 }
        ensures { Performs self.old (calls (mute_by channel value)) self.new }
    {
        self.answered(chip::mute::mute(self.machine.chip, channel, value != 0));
    }

    // A reset, which clears the waiting bytes.
    pub fn reset(&mut self)
        requires { Room self.old.out 1024 }
        ensures { Performs self.old resets self.new }
    {
        self.machine.chip = chip::start::reset();
        self.machine.waiting = [0; 16];
        self.done();
    }

    // A letter that names nothing.
    pub fn not_known(&mut self)
        requires { Room self.old.out 1024 }
        ensures { Performs self.old unknown self.new }
    {
        self.out.bad();
    }
}
