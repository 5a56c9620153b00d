// What stands at an address of the register page.
ghost use Rattle.registers.specs.Address.{video_at, channel_at, sprite_at, register_at};
ghost use Rattle.std.specs.Prelude.{◌≡◌};

// PRI, the split's registers and SSCR.
#[derive(Clone, Copy, PartialEq, Eq)]
pub enum VideoRegister {
    Pri,
    SplitLine,
    SplitHigh,
    SplitLow,
    Sscr,
}

// A sound channel's registers.
#[derive(Clone, Copy, PartialEq, Eq)]
pub enum ChannelRegister {
    StartLow,
    StartHigh,
    Prescale,
}

// A register of the page. `Pixel` has the byte's place in the store, `Sprite` the sprite and the register's place in it, `Palette`
// the byte's place, `Channel` the channel. `Status` is an address that only reads, as DCSR does; `Empty` has no register.
#[derive(Clone, Copy, PartialEq, Eq)]
pub enum Register {
    Pixel(usize),
    Sprite(usize, u8),
    Palette(usize),
    Video(VideoRegister),
    Ivr,
    Converter,
    Channel(usize, ChannelRegister),
    Dcsr,
    Status,
    Empty,
}

// At 6000h + offset: from +4 on stand magnification and its mirrors.
#[tactic(auto, unfolding(crate::specs::Address::sprite_at))]
fn sprite_at(offset: u16) -> Register
    ensures { result ≡ sprite_at offset }
{
    Register::Sprite((offset / 8) as usize, (offset % 8).min(4) as u8)
}

// At 6800h + offset.
#[tactic(auto, unfolding(crate::specs::Address::video_at))]
fn video_at(offset: u16) -> Register
    ensures { result ≡ video_at offset }
{
    match offset {
        0 => Register::Video(VideoRegister::Pri),
        1 => Register::Video(VideoRegister::SplitLine),
        2 => Register::Video(VideoRegister::SplitHigh),
        3 => Register::Video(VideoRegister::SplitLow),
        4 => Register::Video(VideoRegister::Sscr),
        5 => Register::Ivr,
        6 | 7 => Register::Empty,
        _ => Register::Converter,
    }
}

// At 6C00h + offset.
#[tactic(auto, unfolding(crate::specs::Address::channel_at))]
fn channel_at(offset: u16) -> Register
    ensures { result ≡ channel_at offset }
{
    let n = (offset / 4) as usize;
    match (offset, offset % 4) {
        (15, _) => Register::Dcsr,
        (12.., _) => Register::Status,
        (_, 0) => Register::Channel(n, ChannelRegister::StartLow),
        (_, 1) => Register::Channel(n, ChannelRegister::StartHigh),
        (_, 2) => Register::Channel(n, ChannelRegister::Prescale),
        _ => Register::Status,
    }
}

// What stands at an address.
#[tactic(auto, unfolding(crate::specs::Address::register_at))]
pub fn register_at(address: u16) -> Register
    ensures { result ≡ register_at address }
{
    match address {
        0x4000..=0x4fff => Register::Pixel((address - 0x4000) as usize),
        0x6000..=0x607f => sprite_at(address - 0x6000),
        0x6400..=0x643f => Register::Palette((address - 0x6400) as usize),
        0x6800..=0x680f => video_at(address - 0x6800),
        0x6c00..=0x6c0f => channel_at(address - 0x6c00),
        _ => Register::Empty,
    }
}
