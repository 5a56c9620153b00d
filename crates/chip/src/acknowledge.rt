// Interrupt acknowledge.
ghost use Rattle.std.specs.Prelude.{◌≡◌, Some, IfSome};
ghost use Rattle.chip.specs.Interrupts.{code, HasChannel, source_of, vector_of, sound_served, Acknowledges};

use crate::{Acknowledged, Chip};
use common::answer::{DONE, Refusal};
use sound::Sound;

// What an acknowledge serves: raster, or a channel.
#[derive(Clone, Copy, PartialEq, Eq)]
enum Source {
    Raster,
    Channel(usize),
}

// The source that is served: raster first, then the highest channel that waits.
#[tactic(auto, unfolding(crate::specs::Interrupts::source_of))]
fn source_of(raster: bool, sound: Sound) -> Option<Source>
    ensures code { code result ≡ source_of raster sound }
    ensures channel { IfSome result HasChannel }
{
    if raster {
        return Some(Source::Raster);
    }
    sound
        .channels
        .iter()
        .rposition(|channel| channel.interrupt)
        .map(Source::Channel)
}

// The vector: the top five bits of IVR, and what tells the source.
#[tactic(auto, unfolding(crate::specs::Interrupts::vector_of))]
fn vector_of(ivr: u8, source: Source) -> u8
    requires { HasChannel source }
    ensures { result ≡ vector_of ivr (code (Some source)) }
{
    let added = match source {
        Source::Raster => 6,
        Source::Channel(n) => 4 - 2 * n as u8,
    };
    ivr / 8 * 8 + added
}

// A channel that is served keeps its interrupt only if IVR bit 0 is 1.
#[tactic(auto, unfolding(crate::specs::Interrupts::sound_served))]
fn sound_served(mut sound: Sound, ivr: u8, source: Source) -> Sound
    requires { HasChannel source }
    ensures { result ≡ sound_served sound ivr (code (Some source)) }
{
    match source {
        Source::Raster => sound,
        Source::Channel(n) => {
            sound.channels[n].interrupt &= ivr % 2 == 1;
            sound
        }
    }
}

// Acknowledge: a source is served and gives the vector. Raster comes first, so afterwards it waits no longer.
#[tactic(auto, using(crate::proofs::Serving::serving), unfolding(crate::specs::Interrupts::acknowledge_answer, crate::specs::Interrupts::acknowledged, crate::specs::Interrupts::vector_on))]
pub fn acknowledge(mut chip: Chip) -> Acknowledged
    ensures { Acknowledges chip result }
{
    let Some(source) = source_of(chip.interrupts.raster, chip.sound) else {
        return Acknowledged {
            answer: Refusal::NoInterrupt.number(),
            chip,
            vector: 0,
        };
    };
    let vector = vector_of(chip.interrupts.ivr, source);
    chip.sound = sound_served(chip.sound, chip.interrupts.ivr, source);
    chip.interrupts.raster = false;
    chip.interrupts.last_raster = source == Source::Raster;
    Acknowledged {
        answer: DONE,
        chip,
        vector,
    }
}
