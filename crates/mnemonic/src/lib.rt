// The line of a sound word: its width, the line handed to a sink part after part, and the line put at a place of a text.

#![tactic(auto)]

pub mod walk;

ghost use Rattle.std.specs.Prelude.{◌≡◌, ◌/◌, leb, length};
ghost use Rattle.std.proofs.Common.{◌∙◌};
ghost use Rattle.common.specs.Storing.{PutsIfRoom};
ghost use Rattle.mnemonic.specs.Mnemonic.{text_line};
ghost use Rattle.mnemonic.specs.Writing.{Writes, then-write};

use walk::{Sink, line};

// The bytes of the longest line, LOOP+INT+STOP and its LF.
pub const LONGEST_LINE: usize = 14;

// The width of a control word's line.
#[tactic(auto, using(crate::proofs::Lines::unnamed_line), unfolding(crate::specs::Mnemonic::text_line, words::specs::Words::kind_of))]
fn control_width(word: u16) -> usize
    requires { word / 4096 ≡ 4 }
    ensures { result ≡ length (text_line word) }
{
    match word {
        0x4000 => 4,
        0x4001 => 5,
        0x4010 => 4,
        0x4011 => 9,
        0x4020 => 5,
        0x4021 => 10,
        0x4030 => 9,
        0x4031 => 14,
        _ => 10,
    }
}

// The bytes of a word's line.
#[tactic(auto, using(crate::proofs::Lines::lengths))]
pub fn width(word: u16) -> usize
    ensures { result ≡ length (text_line word) }
{
    match word / 4096 {
        0 => 9 + digits::count(word / 256),
        1 => 7 + digits::count(word % 4096),
        2 => 8 + digits::count(word % 4096),
        4 => control_width(word),
        _ => 10,
    }
}

// Whether a word's line fits into a room.
#[tactic(auto, using(crate::proofs::Lines::longest))]
pub fn fits(room: usize, word: u16) -> bool
    ensures { result ≡ leb (length (text_line word)) room }
{
    LONGEST_LINE <= room || width(word) <= room
}

// A sink that puts its bytes into a text, and the place where the next one goes.
#[derive(Drop)]
struct Writer<'a> {
    text: &'a mut [u8],
    at: usize,
}

impl Sink for Writer<'_> {
    ghost takes = { λ s bytes t. (t.text.ghost_name ≡ s.text.ghost_name) × Writes s.text.now s.at bytes t.text.now t.at };

    #[inline(always)]
    fn part(&mut self, bytes: &[u8]) {
        self.at = common::put(self.text, self.at, bytes);
    }

    // one byte stored by itself, which is dearer as a part
    #[inline(always)]
    fn byte(&mut self, byte: u8) {
        if self.at < self.text.len() {
            self.text[self.at] = byte;
            self.at += 1;
        }
    }

    ghost joined = { λ s t u a b p q. (q.0 ∙ p.0, then-write p.1 q.1) };
}

// Puts a word's line at a place of a text, where it fits, and answers the place after it.
pub fn put_line(text: &mut [u8], at: usize, word: u16) -> usize
    ensures { PutsIfRoom text.old at (text_line word) text.new result }
{
    if text.len() < at || !fits(text.len() - at, word) {
        return at;
    }
    let mut writer = Writer { text, at };
    line(&mut writer, word);
    writer.at
}
