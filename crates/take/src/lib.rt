// Takes on disc: the writer and the reader of a file of records.

#![tactic(auto)]

mod bytes;
mod first_bad;
pub mod kind;
mod trailer;
mod writer;

ghost use Rattle.std.specs.Prelude.{◌≡◌};
ghost use Rattle.take.specs.Record.{packed, unpacked};
ghost use Rattle.take.specs.Contract.{WritesTake};
ghost use Rattle.take.specs.Open.{Opening, comment_of, no_record, ReadsRecord, record_from};
ghost use Rattle.take.specs.Parts.{Reads};
ghost use Rattle.common.specs.Refusals.{number};

use common::answer::{DONE, Refusal};

// One call of a take.
#[repr(C)]
#[derive(Clone, Copy)]
pub struct Record {
    pub line: u32,
    pub kind: u8,
    pub address: u16,
    pub value: u8,
}

// The record as a number of 64 bits.
impl From<Record> for u64 {
    ghost from_gives = { λ entry number. number ≡ packed entry };

    fn from(entry: Record) -> u64 {
        entry.line as u64
            + entry.kind as u64 * 0x1_0000_0000
            + entry.address as u64 * 0x100_0000_0000
            + entry.value as u64 * 0x100_0000_0000_0000
    }
}

// The record in a number of 64 bits.
#[tactic(auto, unfolding(crate::specs::Record::unpacked))]
impl From<u64> for Record {
    ghost from_gives = { λ number entry. entry ≡ unpacked number };

    fn from(number: u64) -> Record {
        Record {
            line: (number % 0x1_0000_0000) as u32,
            kind: (number / 0x1_0000_0000 % 0x100) as u8,
            address: (number / 0x100_0000_0000 % 0x1_0000) as u16,
            value: (number / 0x100_0000_0000_0000 % 0x100) as u8,
        }
    }
}

pub fn pack(entry: Record) -> u64
    ensures { result ≡ packed entry }
{
    u64::from(entry)
}

pub fn unpack(number: u64) -> Record
    ensures { result ≡ unpacked number }
{
    Record::from(number)
}

// What the writer gives: the answer, the length of the file, and the number of the first bad record.
#[repr(C)]
#[derive(Clone, Copy)]
pub struct Written {
    pub answer: u8,
    pub size: usize,
    pub bad: usize,
}

// Writes a take into a buffer: the comment, the records and the trailer.
pub fn write(comment: &[u8], records: &[u64], output: &mut [u8]) -> Written
    ensures { WritesTake comment.now records.now output.old output.new result.answer result.size result.bad }
{
    let bad = first_bad::of_numbers(records);
    if let Err(refusal) = writer::answer(bad, comment.len(), records.len(), output.len()) {
        return Written {
            answer: refusal.number(),
            size: 0,
            bad: bad.unwrap_or(0),
        };
    }
    let size = writer::put_file(comment, records, output);
    Written {
        answer: DONE,
        size,
        bad: 0,
    }
}

// What opening gives: the answer, the number of the first bad record, the record count and the offset of the first record.
#[repr(C)]
#[derive(Clone, Copy)]
pub struct Opened {
    pub answer: u8,
    pub bad: usize,
    pub count: usize,
    pub offset: usize,
}

// Where opening is refused: why, and the number of the first bad record or 0.
fn not_opened(refusal: Refusal, bad: usize) -> Opened
    ensures { result ≡ record { answer = number refusal; bad = bad; count = 0; offset = 0 } }
{
    Opened {
        answer: refusal.number(),
        bad,
        count: 0,
        offset: 0,
    }
}

// Tests the whole of a take.
pub fn open(file: &[u8]) -> Opened
    ensures { Opening file.now result.answer result.bad result.count result.offset }
{
    let ends = match trailer::trailer(file) {
        Ok(ends) => ends,
        Err(refusal) => return not_opened(refusal, 0),
    };
    if let Some(bad) = first_bad::of_file(file, ends) {
        return not_opened(Refusal::BadRecord, bad);
    }
    Opened {
        answer: DONE,
        bad: 0,
        count: ends.count,
        offset: ends.offset,
    }
}

// The comment of a take.
pub fn comment(file: &[u8]) -> &[u8]
    ensures { result.now ≡ comment_of file.now }
{
    let offset = open(file).offset;
    &file[..offset]
}

// What asking for a record gives: the answer, and the record, which is all 0 where it is refused.
#[repr(C)]
#[derive(Clone, Copy)]
pub struct RecordRead {
    pub answer: u8,
    pub entry: Record,
}

// Where it is refused.
fn no_record(refusal: Refusal) -> RecordRead
    ensures { (result.answer ≡ number refusal) × (result.entry ≡ no_record) }
{
    RecordRead {
        answer: refusal.number(),
        entry: Record::from(0),
    }
}

// The record with this number, from 1, or why there is none.
fn read(file: &[u8], number: usize) -> Result<Record, Refusal>
    ensures { Reads file.now number result }
{
    let ends = trailer::trailer(file)?;
    if number == 0 || ends.count < number {
        return Err(Refusal::NothingThere);
    }
    Ok(bytes::record_from(file, ends.offset + 8 * (number - 1)))
}

// The same, as C gets it.
pub fn record_at(file: &[u8], number: usize) -> RecordRead
    ensures { ReadsRecord file.now number result.answer result.entry }
{
    match read(file, number) {
        Ok(entry) => RecordRead {
            answer: DONE,
            entry,
        },
        Err(refusal) => no_record(refusal),
    }
}

// The record in the 8 bytes from a place on.
#[tactic(auto, unfolding(crate::specs::Open::record_from))]
pub fn record_from(file: &[u8], at: usize) -> Record
    ensures { result ≡ record_from file.now at }
{
    if file.len() < 8 || file.len() - 8 < at {
        return Record::from(0);
    }
    bytes::record_from(file, at)
}
