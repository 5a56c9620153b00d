// The chip: its state, and the calls that read and change it.

#![tactic(auto)]

use crtc::{Counters, Registers, Video};
use editors::Table;
use lists::Area;
use lock::Lock;
use picture::sprite::Sprite;
use ring::Undo;
use sound::{Report, Sound};

pub mod acknowledge;
pub mod line;
pub mod mute;
pub mod ports;
pub mod start;
pub mod table;

// The gate array: the screen mode, and whether the register page is mapped.
#[repr(C)]
#[derive(Clone, Copy, Default)]
pub struct Gate {
    pub mode: u8,
    pub mapped: bool,
}

// The 6845: the register that the next data write goes to, the registers, the counters.
#[repr(C)]
#[derive(Clone, Copy, Default)]
pub struct Crtc {
    pub selected: u8,
    pub registers: Registers,
    pub counters: Counters,
}

// A raster interrupt that waits, whether the last acknowledge was raster, and IVR. A channel's interrupt stands in the channel.
#[repr(C)]
#[derive(Clone, Copy)]
pub struct Interrupts {
    pub raster: bool,
    pub last_raster: bool,
    pub ivr: u8,
}

// What is kept for the editors: the table of who may write what, and for each the record of its page writes that can be taken back,
// whose places are lent; and the area of RAM for placed lists with its handles, whose places are lent too.
#[repr(C)]
#[derive(Clone, Copy)]
pub struct Editing {
    pub table: Table,
    pub song: Undo,
    pub picture: Undo,
    pub lists: Area,
}

// The whole state. The palette has two bytes an entry, low then high. The parts stand so that they leave few bytes between them.
#[repr(C)]
#[derive(Clone, Copy)]
pub struct Chip {
    pub lock: Lock,
    pub gate: Gate,
    pub crtc: Crtc,
    pub video: Video,
    pub interrupts: Interrupts,
    pub sprites: [Sprite; 16],
    pub palette: [u8; 64],
    pub sound: Sound,
    pub editing: Editing,
}

// The chip after a call, and its answer number, which C reads in the place of a Result. The chip stands first in every answer, where it
// is copied whole.
#[repr(C)]
#[derive(Clone, Copy)]
pub struct Answered {
    pub chip: Chip,
    pub answer: u8,
}

// An acknowledge's answer: the chip, the number, the vector. C reads this one too.
#[repr(C)]
#[derive(Clone, Copy)]
pub struct Acknowledged {
    pub chip: Chip,
    pub answer: u8,
    pub vector: u8,
}

// A line step's answer: the chip, the number, the report of sound. StepsBy promises it for every number, so that no Result stands here.
#[derive(Clone, Copy)]
pub struct Stepped {
    pub chip: Chip,
    pub answer: u8,
    pub report: Report,
}
