// One order of a scene: what its letter asks for is done, and a line answers it.

#![tactic(auto)]

ghost use Rattle.std.specs.Prelude.{◌≡◌, length};
ghost use Rattle.text.specs.Text.{Room};
ghost use Rattle.calls.specs.Orders.{running_of, SameBuffers};
ghost use Rattle.orders.specs.Letters.{Serves};

use calls::Runner;
use editors::Editor;

// An order: a letter for what is to be done, an address and a byte.
#[derive(Clone, Copy)]
pub struct Order {
    pub op: u8,
    pub address: u16,
    pub value: u8,
}

// What an order asks for.
pub fn serve(m: &mut Runner<'_>, o: Order)
    requires { Room m.old.out 1024 × (length m.old.ram.now ≡ 65536) }
    ensures serves { Serves (running_of m.old) o (running_of m.new) m.old.out.bytes.now m.old.out.at m.new.out.bytes.now m.new.out.at }
    ensures lent { SameBuffers m.old m.new }
{
    let Order { op, address, value } = o;

    // numbers and no enum: they are the letters that a scene has
    match op {
        b'B' => m.selected(value),
        b'D' => m.data_written(value),
        b'G' => m.gate_written(value),
        b'W' => m.page_written(Editor::Song, address, value),
        b'w' => m.page_written(Editor::Picture, address, value),
        b'R' => m.page_shown(Editor::Song, address, value),
        b'r' => m.page_shown(Editor::Picture, address, value),
        b'U' => m.undone(Editor::Song),
        b'u' => m.undone(Editor::Picture),
        b'E' => m.exported(),
        b'A' => m.acknowledged(),
        b'L' => m.stepped(value),
        b'P' => m.painted(value),
        b'F' => m.foretold(address, value),
        b'M' => m.poked(address, value),
        b'T' => m.kept_waiting(address, value),
        b'S' => m.started(),
        b'N' => m.area_given(),
        b'K' => m.list_placed(address, value),
        b'X' => m.list_removed(value),
        b'Q' => m.muted(address, value),
        b'H' => m.psg_shown(),
        b'Z' => m.reset(),
        _ => m.not_known(),
    }
}
