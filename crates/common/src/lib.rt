// What all crates share: the answer numbers, the lengths of buffers, one bit of a number, a byte of a
// lent buffer, and bytes stored in one.

#![tactic(auto)]

pub mod answer;
pub mod size;

ghost use Rattle.std.specs.Prelude.{◌≡◌, get_or};
ghost use Rattle.common.specs.Choice.{bit};
ghost use Rattle.common.specs.Storing.{PutsIfRoom};

// Bit n of a number.
pub fn bit_at(x: u32, n: usize) -> bool
    ensures { result ≡ bit n x }
{
    if 32 <= n {
        return false;
    }
    (x >> n) % 2 == 1
}

// The byte at a place of a buffer, or 0 past its end.
pub fn byte_at(bytes: &[u8], at: usize) -> u8
    ensures { result ≡ get_or bytes.now at 0 }
{
    bytes.get(at).copied().unwrap_or(0)
}

// Stores bytes in a buffer from a place on and answers the place after them. Where not all have room none is stored, and the
// place stays.
#[tactic(auto, using(crate::proofs::Storing::in_room))]
pub fn put(buffer: &mut [u8], at: usize, bytes: &[u8]) -> usize
    ensures { PutsIfRoom buffer.old at bytes.now buffer.new result }
{
    if buffer.len() < at {
        return at;
    }
    if buffer.len() - at < bytes.len() {
        return at;
    }
    let end = at + bytes.len();
    // byte by byte: a copy of the slice would have an archive for C need memmove from outside
    for (i, byte) in bytes.iter().enumerate() {
        buffer[at + i] = *byte;
    }
    end
}
