// The trailer of a file.
ghost use Rattle.std.specs.Prelude.{◌≡◌};
ghost use Rattle.take.specs.Open.{has_trailer};
ghost use Rattle.take.specs.Parts.{Ending};

use crate::bytes;
use common::answer::Refusal;

// The letters that end a take.
pub const LETTERS: [u8; 4] = *b"PLTK";

// The record count and the offset of the first record.
#[derive(Clone, Copy)]
pub struct Ends {
    pub count: usize,
    pub offset: usize,
}

// Whether a file ends with a trailer: 12 bytes, of which the letters are the last.
#[tactic(auto, using(crate::proofs::Trailers::short, crate::proofs::Trailers::tested))]
fn has_trailer(file: &[u8]) -> bool
    ensures { result ≡ has_trailer file.now }
{
    12 <= file.len() && file.ends_with(&LETTERS)
}

// What the trailer of a file says, where its records meet it.
#[tactic(auto, using(crate::proofs::Trailers::long))]
pub fn trailer(file: &[u8]) -> Result<Ends, Refusal>
    ensures { Ending file.now result }
{
    if !has_trailer(file) {
        return Err(Refusal::NoTrailer);
    }
    let end = file.len() - 12;
    let count = bytes::number_at(file, end) as usize;
    let offset = bytes::number_at(file, end + 4) as usize;
    if offset + 8 * count != end {
        return Err(Refusal::NotMet);
    }
    Ok(Ends { count, offset })
}
