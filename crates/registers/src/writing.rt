// What a byte written to a register does.
ghost use Rattle.std.specs.Prelude.{false, ◌≡◌};
ghost use Rattle.common.specs.Choice.{if};
ghost use Rattle.common.specs.Refusals.{answer_number};
ghost use Rattle.sound.specs.Channels.{with_flags};
ghost use Rattle.registers.specs.Registers.{owner_answer, register_answer, video_written, channel_written, channels_written, dcsr_written, store_put};

use crate::address::{ChannelRegister, Register, VideoRegister};
use crate::owners;
use common::answer::Refusal;
use crtc::Video;
use editors::{Editor, Table};
use sound::{Channel, Sound};
use std::array;

// What a write to a register that keeps contents answers.
fn owner_answer(owned: bool) -> Result<(), Refusal>
    ensures { answer_number result ≡ owner_answer owned }
{
    if owned {
        Ok(())
    } else {
        Err(Refusal::NotYours)
    }
}

// What an editor's write to the register answers.
pub fn register_answer(table: Table, editor: Editor, register: Register) -> Result<(), Refusal>
    ensures { answer_number result ≡ register_answer table editor register }
{
    match register {
        Register::Pixel(_)
        | Register::Sprite(_, _)
        | Register::Palette(_)
        | Register::Video(_)
        | Register::Ivr
        | Register::Channel(_, _) => owner_answer(owners::owns(table, editor, register)),
        Register::Converter => Err(Refusal::ConverterThere),
        Register::Dcsr => Ok(()),
        Register::Status | Register::Empty => Err(Refusal::NothingThere),
    }
}

// PRI, split and SSCR with one of them written.
pub fn video_written(mut video: Video, which: VideoRegister, byte: u8) -> Video
    ensures { result ≡ video_written video which byte }
{
    match which {
        VideoRegister::Pri => video.pri = byte,
        VideoRegister::SplitLine => video.split_line = byte,
        VideoRegister::SplitHigh => video.split_high = byte % 64,
        VideoRegister::SplitLow => video.split_low = byte,
        VideoRegister::Sscr => video.sscr = byte,
    }
    video
}

// A channel with its start address or prescale written.
fn channel_written(mut channel: Channel, which: ChannelRegister, byte: u8) -> Channel
    ensures { result ≡ channel_written channel which byte }
{
    let [low, high] = channel.address.to_le_bytes();
    match which {
        ChannelRegister::StartLow => channel.address = u16::from_le_bytes([byte / 2 * 2, high]),
        ChannelRegister::StartHigh => channel.address = u16::from_le_bytes([low, byte]),
        ChannelRegister::Prescale => channel.prescale = byte,
    }
    channel
}

// A channel's enable and interrupt after a DCSR write, by its own two bits; one that is not the editor's stays.
fn control_written(channel: Channel, owned: bool, enable: bool, clear: bool) -> Channel
    ensures { result ≡ if owned (with_flags channel enable (if clear false channel.interrupt)) channel }
{
    if !owned {
        return channel;
    }
    Channel {
        enabled: enable,
        interrupt: !clear & channel.interrupt,
        ..channel
    }
}

// The sound state with a channel's start address or prescale written; there are 3 channels.
pub fn channels_written(mut sound: Sound, n: usize, which: ChannelRegister, byte: u8) -> Sound
    ensures { result ≡ record { channels = channels_written sound.channels n which byte; psg = sound.psg } }
{
    // by index, since a proof knows no element that a slice's get_mut lent
    if n < sound.channels.len() {
        sound.channels[n] = channel_written(sound.channels[n], which, byte);
    }
    sound
}

// The sound state with DCSR written by an editor.
pub fn dcsr_written(mut sound: Sound, table: Table, editor: Editor, byte: u8) -> Sound
    ensures { result ≡ record { channels = dcsr_written table editor sound.channels byte; psg = sound.psg } }
{
    let channels = sound.channels;
    let byte = u32::from(byte);
    sound.channels = array::from_fn(|n| {
        let owned = owners::owns_channel(table, editor, n);
        let enable = common::bit_at(byte, n);
        let clear = common::bit_at(byte, 6 - n);
        control_written(channels[n], owned, enable, clear)
    });
    sound
}

// The store with a byte put at a pixel's place; any other register leaves it.
pub fn store_put(store: &mut [u8], register: Register, byte: u8)
    ensures { store.new ≡ store_put store.old register byte }
{
    if let Register::Pixel(i) = register
        && i < store.len()
    {
        // by index too
        store[i] = byte;
    }
}
