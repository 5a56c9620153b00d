// The ports: BCxx, the 6845 data write, 7Fxx.
ghost use Rattle.std.specs.Prelude.{◌≡◌};
ghost use Rattle.chip.specs.Promises.{Answers};
ghost use Rattle.chip.specs.Ports.{Selects, data_answer, data_written, gate_answer, gate_after, gate_written};

use crate::{Answered, Chip, Gate};
use common::answer::{DONE, Refusal};

// A byte written to BCxx: selects a 6845 register and feeds the lock.
#[tactic(auto, unfolding(crate::specs::Ports::selected))]
pub fn write_bc(mut chip: Chip, byte: u8) -> Answered
    ensures { Selects chip byte result }
{
    chip.crtc.selected = byte % 32;
    chip.lock = chip.lock.feed(byte);
    Answered { answer: DONE, chip }
}

// A 6845 data write, to the register selected last.
#[tactic(auto, unfolding(crate::specs::Ports::data_answer, crate::specs::Ports::data_written))]
pub fn write_bd(mut chip: Chip, byte: u8) -> Answered
    ensures { Answers (data_answer chip) (data_written chip byte) chip result }
{
    let number = chip.crtc.selected;
    if !crtc::has_register(number) {
        return Answered {
            answer: Refusal::NothingThere.number(),
            chip,
        };
    }
    chip.crtc.registers = chip.crtc.registers.written(number, byte);
    Answered { answer: DONE, chip }
}

// The gate array after a 7Fxx byte for the page, or else for the mode.
#[tactic(auto, unfolding(crate::specs::Ports::gate_after))]
fn gate_after(gate: Gate, page: bool, byte: u8) -> Gate
    ensures { result ≡ gate_after gate page byte }
{
    if page {
        return Gate {
            mapped: byte / 8 % 4 == 3,
            ..gate
        };
    }
    Gate {
        mode: byte % 4,
        ..gate
    }
}

// A byte written to 7Fxx.
#[tactic(auto, unfolding(crate::specs::Ports::gate_answer, crate::specs::Ports::gate_written))]
pub fn write_7f(mut chip: Chip, byte: u8) -> Answered
    ensures { Answers (gate_answer byte) (gate_written chip byte) chip result }
{
    let top = byte / 32;
    if !matches!(top, 4 | 5) {
        return Answered {
            answer: Refusal::NothingThere.number(),
            chip,
        };
    }
    let page = top == 5 && chip.lock.unlocked;
    chip.gate = gate_after(chip.gate, page, byte);
    chip.interrupts.raster &= page || byte / 16 % 2 != 1;
    Answered { answer: DONE, chip }
}
