// The only word whose line a text can begin with.

#![tactic(auto)]

mod scan;

ghost use Rattle.std.specs.Prelude.{◌≡◌};
ghost use Rattle.guess.specs.Guess.{guess_of};

use mnemonic::LONGEST_LINE;

// The only word whose line the text can begin with.
pub fn guess(text: &[u8]) -> u16
    ensures { result ≡ guess_of text.now }
{
    if let Some(line) = text.first_chunk() {
        return scan::word(line);
    }
    let mut line = [0u8; LONGEST_LINE];
    line[..text.len()].copy_from_slice(text);
    scan::word(&line)
}
