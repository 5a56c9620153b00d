// A reader over a take that is lent: its records, one by one.

#![tactic(auto)]

ghost use Rattle.std.specs.Prelude.{◌≡◌};
ghost use Rattle.std.specs.Iterator.{item_count};
ghost use Rattle.reader.specs.Reader.{first_place, advanced_at, records_left, Nexted, ReadsTake};

use common::answer::DONE;
use take::Record;

// A place in a take that is lent.
#[derive(Drop)]
pub struct Reader<'a> {
    file: &'a [u8],
    at: usize,
}

// The place of a take's first record, or the end of a file that does not open.
#[tactic(auto, unfolding(crate::specs::Reader::first_place))]
pub fn first_place(file: &[u8]) -> usize
    ensures { result ≡ first_place file.now }
{
    let opened = take::open(file);
    if opened.answer != DONE {
        return file.len();
    }
    opened.offset
}

// The record that stands at a place, or none at the end, and the next place: the work of the reader.
#[tactic(auto, unfolding(crate::specs::Reader::found_at, crate::specs::Reader::after_at))]
pub fn advance(file: &[u8], at: usize) -> (Option<Record>, usize)
    ensures { record { found = result.0; at = result.1 } ≡ advanced_at file.now at }
{
    if file.len() < 20 || file.len() - 20 < at {
        return (None, at);
    }
    (Some(take::record_from(file, at)), at + 8)
}

impl<'a> Reader<'a> {
    // A reader over a file: at its first record, or at the end of one that does not open.
    pub fn over(file: &'a [u8]) -> Reader<'a>
        ensures { ReadsTake file.entry result }
    {
        Reader {
            file,
            at: first_place(file),
        }
    }
}

// The records from its place on.
impl<'a> Iterator for Reader<'a> {
    type Item = Record;

    ghost next_gives = { Nexted };

    ghost remaining = { item_count records_left };

    fn next(&mut self) -> Option<Record> {
        let (found, at) = advance(self.file, self.at);
        self.at = at;
        found
    }
}
