// The main screen's part of a line: where its bytes lie, and their pens.

#![tactic(auto)]

mod pens;

ghost use Rattle.std.specs.Prelude.{◌≡◌, ℕ, ◌+◌, ◌*◌, ◌<◌, ◌≤◌, length};
ghost use Rattle.picture.specs.Pens.{pen, pen_at};
ghost use Rattle.picture.specs.Screen.{character_at, byte_address};
ghost use Rattle.screen.specs.MainLine.{line_pen, LinePens};
ghost use Rattle.screen.specs.Placing.{paired, Placed, LineBytes};

// Where the first of a character's two bytes lies, by the screen address and the line in the row.
#[tactic(auto, unfolding(picture::specs::Screen::byte_address))]
fn character_byte(address: u16, row: u8, c: usize) -> usize
    requires { c < 40 }
    ensures { (result ≡ byte_address (character_at address c) row 0) × (result < 1000000) }
{
    let a = (address as usize + c) % 16384;
    a / 4096 * 16384 + row as usize * 2048 + a % 1024 * 2
}

// A line's 80 screen bytes.
#[tactic(auto, unfolding(crate::specs::Placing::line_byte, picture::specs::Screen::byte_address))]
fn line_bytes(ram: &[u8], address: u16, row: u8) -> [u8; 80]
    ensures { LineBytes ram.now address row result }
{
    let mut bytes = [0u8; 80];
    for c in 0..40 {
        let at = character_byte(address, row, c);
        bytes[2 * c] = common::byte_at(ram, at);
        bytes[2 * c + 1] = common::byte_at(ram, at + 1);
    }
    bytes
}

// Two values of each one, in place from `at` on: what the closure gives for it, which is what `f` gives with 0 and with 1.
#[tactic(auto, unfolding(crate::specs::Placing::paired))]
fn put_paired<F: Fn(u8) -> (u8, u8)>(from: &[u8], pens: &mut [u8], at: usize, each: F)
    ghost f: { ℕ → ℕ → ℕ }
    requires room { at + 2 * length from.now ≤ length pens.old }
    requires calls { F.IsAlwaysCallable each }
    requires gives { (v : ℕ) (r : ℕ × ℕ) → F.post each v r → (r.0 ≡ f v 0) × (r.1 ≡ f v 1) }
    ensures { Placed (paired f from.now) at (2 * length from.now) pens.old pens.new }
{
    for (i, value) in from.iter().enumerate() {
        let (first, second) = each(*value);
        pens[at + 2 * i] = first;
        pens[at + 2 * i + 1] = second;
    }
}

// A byte's pens in mode 1, from the table, each two positions wide.
#[tactic(auto, unfolding(picture::specs::Pens::pen_at))]
fn put_pens(line: &mut [u8; 656], at: usize, byte: u8)
    requires { at ≤ 648 }
    ensures { Placed (pen_at 2 byte) at 8 line.old line.new }
{
    let table = pens::mode_1_table();
    for j in 0..8 {
        line[at + j] = table[byte as usize * 4 + j / 2];
    }
}

// A line's pens in mode 1, a character after the other.
#[tactic(auto, unfolding(picture::specs::Pens::pen_at, picture::specs::Screen::byte_address, crate::specs::MainLine::line_pen))]
fn mode_1_pens(ram: &[u8], address: u16, row: u8, line: &mut [u8; 656])
    ensures { Placed (line_pen ram.now 1 address row) 16 640 line.old line.new }
{
    for c in 0..40 {
        let at = character_byte(address, row, c);
        put_pens(line, 16 + c * 16, common::byte_at(ram, at));
        put_pens(line, 24 + c * 16, common::byte_at(ram, at + 1));
    }
}

// The first pen of a byte in mode 0: bits 7, 3, 5 and 1.
#[tactic(auto, unfolding(picture::specs::Pens::pen), using(crate::proofs::Table::one_bit))]
fn first_pen(byte: u8) -> u8
    ensures { result ≡ pen 4 byte 0 }
{
    byte / 128 % 2 + 2 * (byte / 8 % 2 + 2 * (byte / 32 % 2 + 2 * (byte / 2 % 2)))
}

// The second: the bits one lower.
#[tactic(auto, using(crate::proofs::Pairs::shifted))]
fn second_pen(byte: u8) -> u8
    ensures { result ≡ pen 4 byte 1 }
{
    first_pen(byte % 128 * 2)
}

// A line's pens in mode 0: two a byte, each four positions wide.
fn mode_0_pens(ram: &[u8], address: u16, row: u8, line: &mut [u8; 656])
    ensures { Placed (line_pen ram.now 0 address row) 16 640 line.old line.new }
{
    let bytes = line_bytes(ram, address, row);
    let mut pairs = [0u8; 160];
    let mut twice = [0u8; 320];
    put_paired(
        &bytes,
        &mut pairs,
        0,
        |byte| (first_pen(byte), second_pen(byte)),
    );
    put_paired(&pairs, &mut twice, 0, |pen| (pen, pen));
    put_paired(&twice, line, 16, |pen| (pen, pen));
}

// A line's pens in mode 2, a bit each, bit 7 first: the halves of each byte, their halves, and theirs.
fn mode_2_pens(ram: &[u8], address: u16, row: u8, line: &mut [u8; 656])
    ensures { Placed (line_pen ram.now 2 address row) 16 640 line.old line.new }
{
    let bytes = line_bytes(ram, address, row);
    let mut halves = [0u8; 160];
    let mut quarters = [0u8; 320];
    put_paired(&bytes, &mut halves, 0, |byte| (byte / 16, byte % 16));
    put_paired(&halves, &mut quarters, 0, |half| (half / 4, half % 4));
    put_paired(&quarters, line, 16, |quarter| (quarter / 2, quarter % 2));
}

// The pens at a line's 640 positions, counted from where the scroll starts, after 16 of pen 0.
#[tactic(auto, unfolding(crate::specs::MainLine::line_pen), using(crate::proofs::Table::beyond_1))]
pub fn line_pens(ram: &[u8], mode: u8, address: u16, row: u8) -> [u8; 656]
    ensures { LinePens ram.now mode address row result }
{
    let mut line = [0u8; 656];
    match mode {
        0 => mode_0_pens(ram, address, row, &mut line),
        1 => mode_1_pens(ram, address, row, &mut line),
        _ => mode_2_pens(ram, address, row, &mut line),
    }
    line
}
