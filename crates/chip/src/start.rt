// Reset.
ghost use Rattle.chip.specs.Reset.{Reset};

use crate::{Chip, Crtc, Editing, Gate, Interrupts};
use crtc::Video;
use editors::Table;
use lists::Area;
use lock::Lock;
use picture::sprite::Sprite;
use ring::Undo;
use sound::{Channel, Sound};

// The chip after reset: IVR is 1, and all else off, 0 and empty.
#[tactic(auto, unfolding(crate::specs::Reset::reset_chip))]
pub fn reset() -> Chip
    ensures { Reset result }
{
    Chip {
        lock: Lock::new(),
        gate: Gate::default(),
        crtc: Crtc::default(),
        video: Video::default(),
        interrupts: Interrupts {
            raster: false,
            last_raster: false,
            ivr: 1,
        },
        sprites: [Sprite::default(); 16],
        palette: [0; 64],
        sound: Sound {
            channels: [Channel::default(); 3],
            psg: [0; 16],
        },
        editing: Editing {
            table: Table::no_table(),
            song: Undo::default(),
            picture: Undo::default(),
            lists: Area::default(),
        },
    }
}
