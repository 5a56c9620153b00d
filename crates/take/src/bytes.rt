// Numbers and records as bytes, low byte first.
ghost use Rattle.std.specs.Prelude.{◌≡◌, ◌+◌, ◌≤◌, length, take, drop};
ghost use Rattle.take.specs.Bytes.{number_of};
ghost use Rattle.take.specs.Record.{record_in};

use crate::Record;

// The number in the 4 bytes from a place on.
pub fn number_at(bytes: &[u8], at: usize) -> u32
    requires { at + 4 ≤ length bytes.now }
    ensures { result ≡ number_of (take 4 (drop at bytes.now)) }
{
    u32::from_le_bytes(bytes[at..at + 4].try_into().unwrap())
}

// The record in the 8 bytes from a place on.
pub fn record_from(file: &[u8], at: usize) -> Record
    requires { at + 8 ≤ length file.now }
    ensures { result ≡ record_in (drop at file.now) }
{
    Record::from(u64::from_le_bytes(file[at..at + 8].try_into().unwrap()))
}
