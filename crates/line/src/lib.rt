// One call for a line: the current line is drawn, and then the chip stepped.

#![tactic(auto)]

ghost use Rattle.line.specs.Contract.{Shows};

use chip::{Chip, Stepped};
use common::answer::answer_number;
use sound::Accesses;

// Draws the current line into 640 bytes, each a palette entry, and steps the chip to the next. Refused, it does neither.
pub fn line(chip: Chip, ram: &[u8], store: &[u8], line: &mut [u8], accesses: Accesses) -> Stepped
    ensures { Shows chip ram.now store.now accesses line.old line.new result }
{
    let drawn = draw::draw(chip, ram, store, line);
    chip::line::step_by(chip, ram, accesses, answer_number(drawn))
}
