// The answers of a call: it is done, or refused with a number of the table.
ghost use Rattle.std.specs.Prelude.{◌≡◌};
ghost use Rattle.common.specs.Refusals.{number, answer_number};

// The number of a call that is served.
pub const DONE: u8 = 0;

// Why a call is refused.
#[derive(Clone, Copy, PartialEq, Eq)]
pub enum Refusal {
    // a lent buffer has another length;
    WrongLength,
    // an address outside the page, or the page is not mapped;
    NotMapped,
    // nothing there to write, or no record with that number;
    NothingThere,
    // the screen mode is 3;
    ModeThree,
    // no interrupt is waiting;
    NoInterrupt,
    // no STOP from the start address to FFFEh;
    NoStop,
    // a text is not of the listing's form;
    NotListing,
    // the output buffer is too small;
    TooSmall,
    // a converter there, which is only read;
    ConverterThere,
    // nothing left to undo;
    NothingToUndo,
    // a file has no trailer, or other letters;
    NoTrailer,
    // a take's offset and count don't meet its trailer;
    NotMet,
    // a take has a bad record;
    BadRecord,
    // the output is too small for a take, or its count or offset too large;
    NoRoom,
    // a register that is not this editor's;
    NotYours,
    // a list has no STOP, and the buffer no room for one;
    NoRoomForStop,
    // the report is too small for the changes;
    ReportTooSmall,
    // bounds that are no area's, an area that stands already or not yet, or a list's length that none can have there;
    WrongArea,
    // all 64 handles have a list;
    AllPlaced,
    // no gap of the area is long enough;
    NoGap,
    // no list has that handle;
    NoHandle,
    // a channel has the list in use.
    ListInUse,
}

impl Refusal {
    // Its number in the table.
    pub fn number(self) -> u8
        ensures { result ≡ number self }
    {
        match self {
            Refusal::WrongLength => 1,
            Refusal::NotMapped => 2,
            Refusal::NothingThere => 3,
            Refusal::ModeThree => 4,
            Refusal::NoInterrupt => 5,
            Refusal::NoStop => 6,
            Refusal::NotListing => 7,
            Refusal::TooSmall => 8,
            Refusal::ConverterThere => 9,
            Refusal::NothingToUndo => 10,
            Refusal::NoTrailer => 11,
            Refusal::NotMet => 12,
            Refusal::BadRecord => 13,
            Refusal::NoRoom => 14,
            Refusal::NotYours => 15,
            Refusal::NoRoomForStop => 16,
            Refusal::ReportTooSmall => 17,
            Refusal::WrongArea => 18,
            Refusal::AllPlaced => 19,
            Refusal::NoGap => 20,
            Refusal::NoHandle => 21,
            Refusal::ListInUse => 22,
        }
    }
}

// The number that a call answers.
pub fn answer_number(told: Result<(), Refusal>) -> u8
    ensures { result ≡ answer_number told }
{
    match told {
        Ok(()) => DONE,
        Err(refusal) => refusal.number(),
    }
}
