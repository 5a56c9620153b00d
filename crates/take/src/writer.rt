// The writer's answer, and the parts of a file stored one after another.
ghost use Rattle.std.specs.Prelude.{◌≡◌, map, ◌+◌, ◌*◌, ◌^◌, ◌<◌, ◌≤◌, length};
ghost use Rattle.common.specs.Storing.{Puts};
ghost use Rattle.take.specs.Record.{unpacked};
ghost use Rattle.take.specs.File.{records_bytes, trailer, file_of};
ghost use Rattle.take.specs.Parts.{fitting, measured_answer, Tells};

use crate::trailer::LETTERS;
use common::answer::Refusal;

// Whether a file with an offset and a count that fit their 4 bytes has the room.
#[tactic(auto, unfolding(crate::specs::Parts::fitting))]
fn fits(offset: usize, count: usize, room: usize) -> bool
    ensures { result ≡ fitting offset count room }
{
    offset < 0x1_0000_0000 && count < 0x1_0000_0000 && offset + 8 * count + 12 <= room
}

// The answer, by the number of the first bad record, the offset, the count and the room.
#[tactic(auto, unfolding(crate::specs::Parts::measured_answer))]
pub fn answer(bad: Option<usize>, offset: usize, count: usize, room: usize) -> Result<(), Refusal>
    ensures { Tells (measured_answer bad offset count room) result }
{
    if bad.is_some() {
        return Err(Refusal::BadRecord);
    }
    if !fits(offset, count, room) {
        return Err(Refusal::NoRoom);
    }
    Ok(())
}

// The records, from a place on.
fn put_records(records: &[u64], output: &mut [u8], offset: usize) -> usize
    requires { offset + 8 * length records.now ≤ length output.old }
    ensures { Puts output.old offset (records_bytes (map unpacked records.now)) output.new result }
{
    let mut at = offset;
    for number in records {
        at = common::put(output, at, &number.to_le_bytes());
    }
    at
}

// The trailer, from a place on.
fn put_trailer(output: &mut [u8], at: usize, count: usize, offset: usize) -> usize
    requires { (at + 12 ≤ length output.old) × (count < 2 ^ 32) × (offset < 2 ^ 32) }
    ensures { Puts output.old at (trailer count offset) output.new result }
{
    let counted = common::put(output, at, &(count as u32).to_le_bytes());
    let placed = common::put(output, counted, &(offset as u32).to_le_bytes());
    common::put(output, placed, &LETTERS)
}

// A whole file that has the room.
pub fn put_file(comment: &[u8], records: &[u64], output: &mut [u8]) -> usize
    requires { (length comment.now + 8 * length records.now + 12 ≤ length output.old) × (length records.now < 2 ^ 32) × (length comment.now < 2 ^ 32) }
    ensures { Puts output.old 0 (file_of comment.now (map unpacked records.now)) output.new result }
{
    let offset = common::put(output, 0, comment);
    let end = put_records(records, output, offset);
    put_trailer(output, end, records.len(), offset)
}
