// Whose each register is.
ghost use Rattle.std.specs.Prelude.{◌≡◌};
ghost use Rattle.common.specs.Choice.{bit};
ghost use Rattle.editors.specs.Table.{mine};
ghost use Rattle.registers.specs.Owners.{owns, owns_channel};

use crate::address::Register;
use editors::{Editor, Table};

// Whether thing n is the editor's, by the owners of its kind.
fn owns_bit(table: Table, editor: Editor, owners: u32, n: usize) -> bool
    ensures { result ≡ mine table editor (bit n owners) }
{
    table.mine(editor, common::bit_at(owners, n))
}

// Whether channel n is the editor's.
pub fn owns_channel(table: Table, editor: Editor, n: usize) -> bool
    ensures { result ≡ owns_channel table editor n }
{
    owns_bit(table, editor, u32::from(table.channels), n)
}

// Whether a register is the editor's.
pub fn owns(table: Table, editor: Editor, register: Register) -> bool
    ensures { result ≡ owns table editor register }
{
    match register {
        Register::Pixel(i) => owns_bit(table, editor, u32::from(table.sprites), i / 256),
        Register::Sprite(n, _) => owns_bit(table, editor, u32::from(table.sprites), n),
        Register::Palette(i) => owns_bit(table, editor, table.palette, i / 2),
        Register::Video(_) => table.mine(editor, true),
        Register::Ivr => !table.held,
        Register::Channel(n, _) => owns_channel(table, editor, n),
        Register::Converter | Register::Dcsr | Register::Status | Register::Empty => false,
    }
}
