// The kinds of a record's call, and which parts each has.
ghost use Rattle.std.specs.Prelude.{◌≡◌};
ghost use Rattle.take.specs.Record.{has_address, has_value, value_fits};
ghost use Rattle.take.specs.Kind.{kind_number, KindOf};

use common::answer::Refusal;

// The call of a record.
#[derive(Clone, Copy, PartialEq, Eq)]
pub enum Kind {
    // a byte to BCxx, BDxx or 7Fxx;
    WriteBc,
    WriteBd,
    Write7f,
    // the song editor's page write;
    SongWrite,
    // an interrupt acknowledge;
    Acknowledge,
    // the song editor's undo;
    SongUndo,
    // the picture editor's page write and undo;
    PictureWrite,
    PictureUndo,
    // a start, which gives the table of owners;
    Start,
    // a channel muted, or heard again.
    Mute,
}

// The kind of a number in a record.
impl TryFrom<u8> for Kind {
    type Error = Refusal;

    ghost try_from_gives = { KindOf };

    fn try_from(number: u8) -> Result<Self, Refusal> {
        match number {
            1 => Ok(Kind::WriteBc),
            2 => Ok(Kind::WriteBd),
            3 => Ok(Kind::Write7f),
            4 => Ok(Kind::SongWrite),
            5 => Ok(Kind::Acknowledge),
            6 => Ok(Kind::SongUndo),
            7 => Ok(Kind::PictureWrite),
            8 => Ok(Kind::PictureUndo),
            9 => Ok(Kind::Start),
            10 => Ok(Kind::Mute),
            _ => Err(Refusal::BadRecord),
        }
    }
}

impl Kind {
    // Whether a record of this kind has an address.
    pub(crate) fn has_address(self) -> bool
        ensures { result ≡ has_address (kind_number self) }
    {
        matches!(self, Kind::SongWrite | Kind::PictureWrite | Kind::Mute)
    }

    // Whether it has a value.
    fn has_value(self) -> bool
        ensures { result ≡ has_value (kind_number self) }
    {
        !matches!(
            self,
            Kind::Acknowledge | Kind::SongUndo | Kind::PictureUndo | Kind::Start
        )
    }

    // Whether it may have this value: a mute has 1 or 0.
    pub(crate) fn value_fits(self, value: u8) -> bool
        ensures { result ≡ value_fits (kind_number self) value }
    {
        match self {
            Kind::Mute => value <= 1,
            _ => self.has_value() || value == 0,
        }
    }
}
