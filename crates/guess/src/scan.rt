// The only word whose line a text can begin with, by a few of its bytes. A shorter text has zeros behind it; nothing is checked.
ghost use Rattle.std.specs.Prelude.{◌≡◌, ◌+◌, ◌*◌, ◌≤◌, drop};
ghost use Rattle.mnemonic.specs.Mnemonic.{longest_line};
ghost use Rattle.guess.specs.Guess.{value_of, digits_value, decimal_of, guess_load, guess_loop, guess_of};

use mnemonic::LONGEST_LINE;

// The value of a digit in a base by its character, above 15 only where it is none: char::to_digit tests that, and nothing here asks.
#[tactic(auto, unfolding(crate::specs::Guess::value_of))]
fn value(character: u8, base: u32) -> u32
    ensures { (result ≡ value_of base character) × (result ≤ 42) }
{
    let code = u32::from(character);
    if base <= 10 {
        return code % 16;
    }
    code % 16 + code / 64 * 9
}

// The number that two digits are in a base.
fn two(line: &[u8; LONGEST_LINE], at: usize, base: u32) -> u32
    requires { (at + 2 ≤ longest_line) × (base ≤ 16) }
    ensures { (result ≡ digits_value base 1 (drop at line.now)) × (result ≤ 42 * base + 42) }
{
    value(line[at], base) * base + value(line[at + 1], base)
}

// The number that the decimal digits from a place on are, four at most.
#[tactic(auto, unfolding(crate::specs::Guess::decimal_of))]
fn decimal(line: &[u8; LONGEST_LINE], at: usize) -> u32
    requires { at + 4 ≤ longest_line }
    ensures { (result ≡ decimal_of (drop at line.now)) × (result ≤ 46662) }
{
    if line[at + 1] < b'0' {
        return value(line[at], 10);
    }
    let high = two(line, at, 10);
    if line[at + 2] < b'0' {
        return high;
    }
    if line[at + 3] < b'0' {
        return high * 10 + value(line[at + 2], 10);
    }
    high * 100 + two(line, at + 2, 10)
}

// LOAD, its register and its data.
#[tactic(auto, unfolding(crate::specs::Guess::guess_load))]
fn load(line: &[u8; LONGEST_LINE]) -> u32
    ensures { result ≡ guess_load line.now }
{
    if line[6] < b'0' {
        return value(line[5], 10) * 256 + two(line, 7, 16);
    }
    two(line, 5, 10) * 256 + two(line, 8, 16)
}

// LOOP, and what is joined to it.
fn looped(line: &[u8; LONGEST_LINE]) -> u16
    ensures { result ≡ guess_loop line.now }
{
    if line[4] != b'+' {
        return 0x4001;
    }
    if line[5] != b'I' {
        return 0x4021;
    }
    if line[8] != b'+' {
        return 0x4011;
    }
    0x4031
}

// The word.
#[tactic(auto, unfolding(crate::specs::Guess::guess_of))]
pub fn word(line: &[u8; LONGEST_LINE]) -> u16
    ensures { result ≡ guess_of line.now }
{
    match line {
        [b'L', _, b'A', ..] => (load(line) % 65536) as u16,
        [b'L', ..] => looped(line),
        [b'P', ..] => (0x1000 + decimal(line, 6)) as u16,
        [b'R', ..] => (0x2000 + decimal(line, 7)) as u16,
        [b'W', ..] => ((two(line, 5, 16) * 256 + two(line, 7, 16)) % 65536) as u16,
        [b'I', _, _, b'+', ..] => 0x4030,
        [b'I', ..] => 0x4010,
        [b'S', ..] => 0x4020,
        _ => 0x4000,
    }
}
