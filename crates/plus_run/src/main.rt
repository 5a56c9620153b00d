// Plays calls of the chip from standard input and prints a line for each. The input is RAM, the pixel store, then orders of
// four bytes: a letter, the address low and high, a value.

#![tactic(auto)]

ghost use Rattle.std.specs.Prelude.{◌≡◌, ◌/◌, ◌≤◌, length, take};
ghost use Rattle.calls.specs.Orders.{running_of, SameBuffers};
ghost use Rattle.plus_run.specs.Blocks.{Takes, Ready, Roomy, Ends, orders_served};

use calls::{Machine, Runner};
use common::size::{RAM, STORE};
use orders::Order;
use text::Output;

// The descriptor of standard input. The kit's `io` reads it: std's readers that fill a buffer either don't tell how far, or fill a `Vec`,
// and there is no heap.
const STDIN_FILENO: i32 = 0;

// More than the longest line of output.
const LONGEST: usize = 1024;

// The bytes of output that wait.
fn waiting<'a>(out: &'a Output<'_>) -> &'a [u8]
    requires { out.now.at ≤ length out.now.bytes.now }
    ensures { result.now ≡ take out.now.at out.now.bytes.now }
{
    &out.bytes[..out.at]
}

// Writes out what waits. What can't be written is passed over: the orders are served all the same.
fn flush(rt: &impl Print, out: &mut Output<'_>)
    requires { out.old.at ≤ length out.old.bytes.now }
    ensures { out.new ≡ record out.old { at = 0 } }
{
    let _ = rt.write_all(waiting(out));
    out.at = 0;
}

// A runner is given room for a line.
#[tactic(auto, unfolding(crate::specs::Blocks::roomy))]
fn with_room(rt: &impl Print, m: &mut Runner<'_>)
    requires { (m.old.out.at ≤ length m.old.out.bytes.now) × (1024 ≤ length m.old.out.bytes.now) }
    ensures { Roomy m.old m.new }
{
    if m.out.at > m.out.bytes.len() - LONGEST {
        flush(rt, &mut m.out);
    }
}

// The order in four bytes.
fn order_in(bytes: [u8; 4]) -> Order
    ensures { Takes bytes 0 result }
{
    let [op, low, high, value] = bytes;
    Order {
        op,
        address: u16::from_le_bytes([low, high]),
        value,
    }
}

// Every whole order of a block.
fn orders(rt: &impl Print, m: &mut Runner<'_>, block: &[u8])
    requires { Ready m.old }
    ensures ready { Ready m.new }
    ensures lent { SameBuffers m.old m.new }
    ensures served { running_of m.new ≡ orders_served (running_of m.old) block.now (length block.now / 4) }
{
    let (whole, _) = block.as_chunks::<4>();
    for bytes in whole {
        with_room(rt, m);
        orders::serve(m, order_in(*bytes));
    }
}

// The end of the input: a part of an order makes the line `short`.
fn last(rt: &impl Print, m: &mut Runner<'_>, bytes: usize)
    requires { (m.old.out.at ≤ length m.old.out.bytes.now) × (1024 ≤ length m.old.out.bytes.now) }
    ensures { Ends m.old bytes m.new }
{
    if bytes % 4 != 0 {
        with_room(rt, m);
        m.out.short();
    }
}

// Every block of input. A block is filled, so that no order lies across two of them, and one that isn't full is the last.
fn play(rt: &impl Print, m: &mut Runner<'_>, block: &mut [u8])
    requires { Ready m.old }
{
    // a proved loop has to end, so the blocks are counted up to a number that no input reaches
    for _ in 0..0x1_0000_0000u64 {
        let n = io::read_full(STDIN_FILENO, block);
        orders(rt, m, &block[..n]);
        if n < block.len() {
            last(rt, m, n);
            break;
        }
    }
    flush(rt, &mut m.out);
}

fn main(rt: HostRuntime) {
    let mut ram = [0; RAM];
    let mut store = [0; STORE];
    if io::read_full(STDIN_FILENO, &mut ram) < RAM
        || io::read_full(STDIN_FILENO, &mut store) < STORE
    {
        let _ = rt.println("short");
        return;
    }
    let mut lines = [0; 65536];
    let out = Output {
        bytes: &mut lines,
        at: 0,
    };
    let machine = Machine {
        chip: chip::start::reset(),
        waiting: [0; 16],
    };
    let mut runner = Runner {
        machine,
        ram: &mut ram,
        store: &mut store,
        song: &mut [0; 256],
        picture: &mut [0; 256],
        slots: &mut [0; 64],
        out,
    };
    play(&rt, &mut runner, &mut [0; 65536]);
}
