// The line step.
ghost use Rattle.std.specs.Prelude.{◌≡◌};
ghost use Rattle.common.specs.Refusals.{answer_number};
ghost use Rattle.chip.specs.Step.{step_answer, idle_report, Moves, MovesBy, StepsBy, Steps};

use crate::{Chip, Crtc, Stepped};
use common::answer::{DONE, Refusal, answer_number};
use common::size::RAM;
use crtc::{Counters, Video};
use sound::{Accesses, Did, Entry, Report, Sound};

// What a line moves: the sound state, the counters, and whether it raises the raster interrupt; with its report.
#[derive(Clone, Copy)]
pub struct Moved {
    pub sound: Sound,
    pub counters: Counters,
    pub raster: bool,
    pub report: Report,
}

// The report of a line that wasn't played: no cycles, each channel sat out.
#[tactic(auto, unfolding(crate::specs::Step::idle_report))]
fn idle_report() -> Report
    ensures { result ≡ idle_report }
{
    Report {
        cycles: 0,
        entries: [Entry { did: Did::SatOut }; 3],
    }
}

// RAM of another length is refused.
#[tactic(auto, unfolding(crate::specs::Step::step_answer))]
fn step_answer(ram: &[u8]) -> Result<(), Refusal>
    ensures { answer_number result ≡ step_answer ram.now }
{
    if ram.len() != RAM {
        return Err(Refusal::WrongLength);
    }
    Ok(())
}

// One line of the parts that it moves: sound, raster compare, split compare, counters. The processor's accesses to the 8255 cost
// cycles and change nothing else.
pub fn advance(sound: Sound, crtc: Crtc, video: Video, ram: &[u8], accesses: Accesses) -> Moved
    ensures { Moves sound crtc video ram.now accesses result }
{
    let line = crtc.counters.line(crtc.registers, video);
    let played = sound::sound_line(sound, ram, accesses);
    Moved {
        sound: played.sound,
        counters: line.counters,
        raster: line.raster,
        report: played.report,
    }
}

// The same in a call that answers this number: with a refusal nothing moves.
fn advance_by(
    sound: Sound,
    crtc: Crtc,
    video: Video,
    ram: &[u8],
    accesses: Accesses,
    answer: u8,
) -> Moved
    ensures { MovesBy answer sound crtc video ram.now accesses result }
{
    if answer == DONE {
        return advance(sound, crtc, video, ram, accesses);
    }
    Moved {
        sound,
        counters: crtc.counters,
        raster: false,
        report: idle_report(),
    }
}

// One line of the chip, in a call that answers this number, which may be any.
#[tactic(auto, using(crate::proofs::Stepping::stepping), unfolding(crate::specs::Step::stepped, crate::specs::Step::counters_stepped, crate::specs::Step::idle_report))]
pub fn step_by(mut chip: Chip, ram: &[u8], accesses: Accesses, answer: u8) -> Stepped
    ensures { StepsBy answer chip ram.now accesses result }
{
    let line = advance_by(chip.sound, chip.crtc, chip.video, ram, accesses, answer);
    chip.sound = line.sound;
    chip.crtc.counters = line.counters;
    chip.interrupts.raster |= line.raster;
    Stepped {
        chip,
        answer,
        report: line.report,
    }
}

// One line of the chip.
pub fn step(chip: Chip, ram: &[u8], accesses: Accesses) -> Stepped
    ensures { Steps chip ram.now accesses result }
{
    step_by(chip, ram, accesses, answer_number(step_answer(ram)))
}
