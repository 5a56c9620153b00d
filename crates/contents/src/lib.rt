// The contents of the registers: the bits that each keeps.

#![tactic(auto)]

ghost use Rattle.std.specs.Prelude.{◌≡◌, get_or};
ghost use Rattle.sound.specs.Line.{channel_of};
ghost use Rattle.picture.specs.Sprites.{off_sprite, sprite_contents};
ghost use Rattle.contents.specs.Contents.{video_contents, channel_contents, contents};

use chip::Chip;
use crtc::Video;
use picture::sprite::Sprite;
use registers::address::{ChannelRegister, Register, VideoRegister};
use sound::Channel;

// Of PRI, the split's registers and SSCR.
fn video_contents(video: Video, which: VideoRegister) -> u8
    ensures { result ≡ video_contents video which }
{
    match which {
        VideoRegister::Pri => video.pri,
        VideoRegister::SplitLine => video.split_line,
        VideoRegister::SplitHigh => video.split_high % 64,
        VideoRegister::SplitLow => video.split_low,
        VideoRegister::Sscr => video.sscr,
    }
}

// Of a channel.
fn channel_contents(channel: Channel, which: ChannelRegister) -> u8
    ensures { result ≡ channel_contents channel which }
{
    match which {
        ChannelRegister::StartLow => (channel.address % 256 / 2 * 2) as u8,
        ChannelRegister::StartHigh => (channel.address / 256) as u8,
        ChannelRegister::Prescale => channel.prescale,
    }
}

// Of sprite n; past the last one there are none. The array comes by value: borrowed in the chip it made an export twice as dear.
#[tactic(auto, using(crate::proofs::Off::off))]
fn sprite_contents(sprites: [Sprite; 16], n: usize, place: u8) -> u8
    ensures { result ≡ sprite_contents (get_or sprites n off_sprite) place }
{
    sprites.get(n).map_or(0, |sprite| sprite.contents(place))
}

// Of channel n; past the last one there are none.
#[tactic(auto, using(crate::proofs::Off::off))]
fn one_of_three(channels: [Channel; 3], n: usize, which: ChannelRegister) -> u8
    ensures { result ≡ channel_contents (channel_of channels n) which }
{
    channels
        .get(n)
        .map_or(0, |channel| channel_contents(*channel, which))
}

// Of any register; a pixel's are the whole byte in the store.
pub fn contents_of(chip: Chip, store: &[u8], register: Register) -> u8
    ensures { result ≡ contents chip store.now register }
{
    match register {
        Register::Pixel(i) => common::byte_at(store, i),
        Register::Sprite(n, place) => sprite_contents(chip.sprites, n, place),
        Register::Palette(i) => picture::palette::byte_of(chip.palette, i),
        Register::Video(which) => video_contents(chip.video, which),
        Register::Ivr => chip.interrupts.ivr,
        Register::Channel(n, which) => one_of_three(chip.sound.channels, n, which),
        Register::Converter | Register::Dcsr | Register::Status | Register::Empty => 0,
    }
}
