// What a register reads as.
ghost use Rattle.std.specs.Prelude.{◌≡◌, ◌≤◌, ltb, get_or};
ghost use Rattle.common.specs.Choice.{if};
ghost use Rattle.picture.specs.Sprites.{off_sprite, shown};
ghost use Rattle.registers.specs.Registers.{flag, channel_flag, dcsr, register_read};

use crate::address::Register;
use crate::owners;
use chip::Chip;
use editors::{Editor, Table};
use picture::sprite::Sprite;

// What reads as a sprite past the last one: one that is off.
const OFF: Sprite = Sprite {
    x: 0,
    y: 0,
    magnification: 0,
};

// A weight if the test holds, else 0.
fn flag(on: bool, weight: u8) -> u8
    ensures value { result ≡ flag on weight }
    ensures bound { result ≤ weight }
{
    u8::from(on) * weight
}

// A channel's bit of DCSR, which its owner is shown.
fn channel_flag(table: Table, editor: Editor, n: usize, on: bool, weight: u8) -> u8
    ensures value { result ≡ channel_flag table editor n on weight }
    ensures bound { result ≤ weight }
{
    flag(owners::owns_channel(table, editor, n) & on, weight)
}

// What DCSR reads as to an editor.
#[tactic(auto, unfolding(crate::specs::Registers::dcsr))]
fn dcsr(chip: Chip, editor: Editor) -> u8
    ensures { result ≡ dcsr chip editor }
{
    let [zero, one, two] = chip.sound.channels;
    let table = chip.editing.table;
    flag(!table.held & chip.interrupts.last_raster, 128)
        + channel_flag(table, editor, 0, zero.interrupt, 64)
        + channel_flag(table, editor, 1, one.interrupt, 32)
        + channel_flag(table, editor, 2, two.interrupt, 16)
        + channel_flag(table, editor, 2, two.enabled, 4)
        + channel_flag(table, editor, 1, one.enabled, 2)
        + channel_flag(table, editor, 0, zero.enabled, 1)
}

// What a sprite's register reads as; magnification can't be read.
fn sprite_read(sprites: [Sprite; 16], n: usize, place: u8, bus: u8) -> u8
    ensures { result ≡ if (ltb place 4) (shown (get_or sprites n off_sprite) place) bus }
{
    if 4 <= place {
        return bus;
    }
    sprites.get(n).copied().unwrap_or(OFF).shown(place)
}

// What a register reads as to an editor.
pub fn register_read(chip: Chip, editor: Editor, store: &[u8], register: Register, bus: u8) -> u8
    ensures { result ≡ register_read chip editor store.now register bus }
{
    match register {
        Register::Pixel(i) => common::byte_at(store, i) % 16,
        Register::Sprite(n, place) => sprite_read(chip.sprites, n, place, bus),
        Register::Palette(i) => picture::palette::byte_of(chip.palette, i),
        Register::Converter => 0,
        Register::Channel(_, _) | Register::Dcsr | Register::Status => dcsr(chip, editor),
        Register::Video(_) | Register::Ivr | Register::Empty => bus,
    }
}
