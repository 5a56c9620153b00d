// The rules that a record keeps, and the first record that breaks one.
ghost use Rattle.std.specs.Prelude.{◌≡◌, ℕ, ◌+◌, ◌*◌, ◌<◌, ◌≤◌, List, map, length, drop};
ghost use Rattle.take.specs.Record.{bad, unpacked};
ghost use Rattle.take.specs.Open.{records_from};
ghost use Rattle.take.specs.Parts.{Given, FirstBad};
ghost use Rattle.take.specs.declared.Record.{Record};

use crate::kind::Kind;
use crate::trailer::Ends;
use crate::{Record, bytes};

// Whether a record is bad after one with this line number.
#[tactic(auto, unfolding(crate::specs::Record::bad))]
fn is_bad(before: u32, entry: Record) -> bool
    ensures { result ≡ bad before entry }
{
    let Ok(kind) = Kind::try_from(entry.kind) else {
        return true;
    };
    if !kind.has_address() && entry.address != 0 {
        return true;
    }
    !kind.value_fits(entry.value) || entry.line < before
}

// The number of the first bad record, from 1, of so many that are asked for by their places from 0.
fn first_bad<F: Fn(usize) -> Record>(count: usize, entry_at: F) -> Option<usize>
    requires { (i : ℕ) → i < count → F.pre entry_at i }
    ensures { (all : List Record) → Given (F.post entry_at) count all → FirstBad all result }
{
    let mut before: u32 = 0;
    for i in 0..count {
        let entry = entry_at(i);
        if is_bad(before, entry) {
            return Some(i + 1);
        }
        before = entry.line;
    }
    None
}

// The same of some that are lent as numbers.
pub fn of_numbers(numbers: &[u64]) -> Option<usize>
    ensures { FirstBad (map unpacked numbers.now) result }
{
    first_bad(numbers.len(), |i| Record::from(numbers[i]))
}

// The same of so many in a file.
pub fn of_file(file: &[u8], ends: Ends) -> Option<usize>
    requires { ends.offset + 8 * ends.count ≤ length file.now }
    ensures { FirstBad (records_from ends.count (drop ends.offset file.now)) result }
{
    first_bad(
        ends.count,
        |i| bytes::record_from(file, ends.offset + 8 * i),
    )
}
