// The three sound channels and the PSG: what one line does to them, and what it reports.

#![tactic(auto)]

ghost use Rattle.std.specs.Prelude.{true, ◌≡◌};
ghost use Rattle.sound.specs.Channels.{word_at, pause_counted, fetched, looped, paused, repeated, controlled, executed, turn_of};
ghost use Rattle.sound.specs.Line.{access_by, access_of, heard, disturbance, own_cycles, sound_line};

use words::WordKind;

// One channel. `count` is the lines counted towards the next fall of `pause`, `counter` the passes
// that LOOP has left, `mark` where LOOP goes back to. The LOADs of a `muted` one leave the PSG.
#[repr(C)]
#[derive(Clone, Copy, Default)]
pub struct Channel {
    pub enabled: bool,
    pub interrupt: bool,
    pub prescale: u8,
    pub count: u8,
    pub address: u16,
    pub pause: u16,
    pub counter: u16,
    pub mark: u16,
    pub muted: bool,
}

// What the processor does at the 8255 while a channel has its turn: it is off it, it is on it, or its access is itself a write to a
// PSG register.
#[derive(Clone, Copy, PartialEq, Eq)]
pub enum Access {
    Off,
    On,
    PsgWrite,
}

// That of each channel in order, for a line. No array, since the definition `access_of` and the crates above name the fields.
#[derive(Clone, Copy)]
pub struct Accesses {
    pub first: Access,
    pub second: Access,
    pub third: Access,
}

impl Accesses {
    // That of a channel by its number.
    fn of(self, n: usize) -> Access
        ensures { result ≡ access_of self n }
    {
        match n {
            0 => self.first,
            1 => self.second,
            _ => self.third,
        }
    }
}

impl From<u8> for Access {
    ghost from_gives = { λ number access. access ≡ access_by number };

    // By its number: 0 off the 8255, 1 on it, any other a PSG register write.
    fn from(number: u8) -> Access {
        match number {
            0 => Access::Off,
            1 => Access::On,
            _ => Access::PsgWrite,
        }
    }
}

// An access by its number.
pub fn access_by(number: u8) -> Access
    ensures { result ≡ access_by number }
{
    Access::from(number)
}

// The cycles that it takes from a LOAD.
pub fn disturbance(access: Access) -> u8
    ensures { result ≡ disturbance access }
{
    match access {
        Access::Off => 0,
        Access::On => 1,
        Access::PsgWrite => 2,
    }
}

// What a channel did on a line: sat out, or executed a word of this kind with these low 12 bits. No Option, since document 01 names this form.
#[derive(Clone, Copy, PartialEq, Eq)]
pub enum Did {
    SatOut,
    Executed(WordKind, u16),
}

// One channel's line: the channel after it, and what it did.
#[derive(Clone, Copy)]
pub struct Turn {
    pub channel: Channel,
    pub did: Did,
}

// A channel's entry in the report, which the crates above read by this name.
#[derive(Clone, Copy)]
pub struct Entry {
    pub did: Did,
}

// What a line reports: its cycles, and what each channel did.
#[derive(Clone, Copy)]
pub struct Report {
    pub cycles: u8,
    pub entries: [Entry; 3],
}

// The sound state: the channels and the PSG registers.
#[repr(C)]
#[derive(Clone, Copy)]
pub struct Sound {
    pub channels: [Channel; 3],
    pub psg: [u8; 16],
}

// One line's sound: the state after it, and its report.
#[derive(Clone, Copy)]
pub struct SoundLine {
    pub sound: Sound,
    pub report: Report,
}

// The word at an address, low byte first.
#[tactic(auto, unfolding(crate::specs::Channels::word_at))]
pub fn word_at(ram: &[u8], address: u16) -> u16
    ensures { result ≡ word_at ram.now address }
{
    let at = address as usize;
    let low = common::byte_at(ram, at);
    let high = common::byte_at(ram, (at + 1) % 65536);
    high as u16 * 256 + low as u16
}

impl Channel {
    // One more line of the pause, if there is one.
    #[tactic(auto, unfolding(crate::specs::Channels::pause_counted))]
    fn pause_counted(self) -> Channel
        requires { self.enabled ≡ true }
        ensures { (result ≡ pause_counted self) × (result.enabled ≡ true) }
    {
        if self.pause == 0 {
            return self;
        }
        if self.count < self.prescale {
            return Channel {
                count: self.count + 1,
                ..self
            };
        }
        Channel {
            count: 0,
            pause: self.pause - 1,
            ..self
        }
    }

    // The channel with its address past the word that it fetches.
    #[tactic(auto, unfolding(crate::specs::Channels::fetched))]
    fn fetched(self) -> Channel
        ensures { result ≡ fetched self }
    {
        Channel {
            address: self.address.wrapping_add(2),
            ..self
        }
    }

    // LOOP, if its bit is set.
    fn looped(self, on: bool) -> Channel
        ensures { result ≡ looped on self }
    {
        if !on || self.counter == 0 {
            return self;
        }
        Channel {
            counter: self.counter - 1,
            address: self.mark,
            ..self
        }
    }

    // PAUSE, which does nothing with a count of 0.
    fn paused(self, low: u16) -> Channel
        ensures { result ≡ paused low self }
    {
        if low == 0 {
            return self;
        }
        Channel {
            pause: low,
            count: 0,
            ..self
        }
    }

    // REPEAT: the loop counter, and the mark at the next word.
    fn repeated(self, low: u16) -> Channel
        ensures { result ≡ repeated low self }
    {
        Channel {
            counter: low,
            mark: self.address,
            ..self
        }
    }

    // A control word: LOOP, INT and STOP, each by its bit.
    #[tactic(auto, unfolding(crate::specs::Channels::controlled))]
    fn controlled(self, low: u16) -> Channel
        ensures { result ≡ controlled low self }
    {
        let c = self.looped(words::loop_bit(low));
        Channel {
            interrupt: words::int_bit(low) || c.interrupt,
            enabled: !words::stop_bit(low) && c.enabled,
            ..c
        }
    }

    // The channel after a word of this kind.
    fn executed(self, kind: WordKind, low: u16) -> Channel
        ensures { result ≡ executed kind low self }
    {
        match kind {
            WordKind::Load | WordKind::Nothing => self,
            WordKind::Pause => self.paused(low),
            WordKind::Repeat => self.repeated(low),
            WordKind::Control => self.controlled(low),
        }
    }

    // One line of this channel: counting first, then, if it is active, one word.
    #[tactic(auto, unfolding(crate::specs::Channels::turn_of, crate::specs::Channels::active, crate::specs::Channels::pause_counted))]
    pub fn line(self, ram: &[u8]) -> Turn
        ensures { result ≡ turn_of ram.now self }
    {
        if !self.enabled {
            return Turn {
                channel: self,
                did: Did::SatOut,
            };
        }
        let c = self.pause_counted();
        if c.pause != 0 {
            return Turn {
                channel: c,
                did: Did::SatOut,
            };
        }
        let word = word_at(ram, c.address);
        let kind = words::kind_of(word);
        let low = words::low_12(word);
        Turn {
            channel: c.fetched().executed(kind, low),
            did: Did::Executed(kind, low),
        }
    }
}

impl Entry {
    // The channel's own cycles on the line, whatever the processor did: its fetch and its word's cost, or 0.
    pub fn own_cycles(self, access: Access) -> u8
        ensures { result ≡ own_cycles access self.did }
    {
        match self.did {
            Did::SatOut => 0,
            Did::Executed(kind, _) if words::is_load(kind) => 9 + disturbance(access),
            Did::Executed(..) => 2,
        }
    }
}

impl Turn {
    // What the PSG has of it: a LOAD sets its register, if the channel is not muted.
    fn heard(self, psg: &mut [u8; 16])
        ensures { psg.new ≡ heard self.channel psg.old self.did }
    {
        match self.did {
            Did::Executed(kind, low) if words::is_load(kind) && !self.channel.muted => {
                psg[(low / 256 % 16) as usize] = (low % 256) as u8;
            }
            _ => {}
        }
    }
}

// One line of all three channels, worked through in order. A channel that is off is not put back: with none enabled a line takes 85
// instructions fewer so. By number: over `channels.iter_mut()` of a state that is taken apart for it, a line took 50 instructions more
// before that.
pub fn sound_line(mut sound: Sound, ram: &[u8], accesses: Accesses) -> SoundLine
    ensures { result ≡ sound_line ram.now accesses sound }
{
    let mut entries = [Entry { did: Did::SatOut }; 3];
    let mut cycles = 1;
    for n in 0..3 {
        let turn = sound.channels[n].line(ram);
        let entry = Entry { did: turn.did };
        entries[n] = entry;
        cycles += entry.own_cycles(accesses.of(n));
        turn.heard(&mut sound.psg);
        if sound.channels[n].enabled {
            sound.channels[n] = turn.channel;
        }
    }
    SoundLine {
        sound,
        report: Report { cycles, entries },
    }
}
