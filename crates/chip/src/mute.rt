// A channel muted by the host, or heard again.
ghost use Rattle.chip.specs.Promises.{Answers};
ghost use Rattle.chip.specs.Mute.{mute_answer, mute_set};

use crate::{Answered, Chip};
use common::answer::{DONE, Refusal};

// Sets or clears a channel's mute mark: its LOADs then leave the PSG. A number above 2 is no channel.
#[tactic(auto, unfolding(crate::specs::Mute::mute_answer, crate::specs::Mute::mute_set))]
pub fn mute(mut chip: Chip, channel: u16, on: bool) -> Answered
    ensures { Answers (mute_answer channel) (mute_set chip channel on) chip result }
{
    if channel > 2 {
        return Answered {
            answer: Refusal::NothingThere.number(),
            chip,
        };
    }
    chip.sound.channels[channel as usize].muted = on;
    Answered { answer: DONE, chip }
}
