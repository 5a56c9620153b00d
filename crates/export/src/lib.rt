// The export: every register's address and contents, three bytes each.

#![tactic(auto)]

ghost use Rattle.std.specs.Prelude.{◌≡◌, ◌+◌, ◌≤◌, ◌<◌, length};
ghost use Rattle.export.specs.Export.{Exports};
ghost use Rattle.export.specs.Parts.{address_of, PutsThree};

use chip::Chip;
use common::answer::{DONE, Refusal};
use common::size::EXPORT;

// How many registers are exported.
const REGISTERS: usize = 159;

// The address of register number k, in rising order: sprites, palette, 6800h to 6805h, channels.
#[tactic(auto, unfolding(crate::specs::Parts::address_of))]
fn address_of(k: usize) -> u16
    requires { k < 159 }
    ensures { result ≡ address_of k }
{
    let address = match k {
        0..80 => 0x6000 + k / 5 * 8 + k % 5,
        80..144 => 0x6400 + (k - 80),
        144..150 => 0x6800 + (k - 144),
        _ => 0x6c00 + (k - 150) / 3 * 4 + (k - 150) % 3,
    };
    address as u16
}

// An address, low byte first, and a byte.
fn put_three(out: &mut [u8], at: usize, address: u16, byte: u8)
    requires { at + 3 ≤ length out.old }
    ensures { PutsThree at address byte out.old out.new }
{
    out[at] = (address % 256) as u8;
    out[at + 1] = (address / 256) as u8;
    out[at + 2] = byte;
}

// Writes the export. Its answer is a number, since plus_export hands it on to C; a buffer of another length than 477 bytes is refused and stays as it was.
pub fn export(chip: Chip, out: &mut [u8]) -> u8
    ensures { Exports chip out.old out.new result }
{
    if out.len() != EXPORT {
        return Refusal::WrongLength.number();
    }
    for k in 0..REGISTERS {
        let address = address_of(k);
        let register = registers::address::register_at(address);
        let byte = contents::contents_of(chip, &[], register);
        put_three(out, k * 3, address, byte);
    }
    DONE
}
