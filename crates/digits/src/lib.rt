// The digits of a number: the character of one, and how many there are.

#![tactic(auto)]

ghost use Rattle.std.specs.Prelude.{◌≡◌, ◌%◌, ◌≤◌, length};
ghost use Rattle.digits.specs.Digits.{glyph, decimal};

// The character of a number's last hexadecimal digit.
#[tactic(auto, unfolding(crate::specs::Digits::glyph))]
pub fn character(n: u16) -> u8
    ensures { result ≡ glyph (n % 16) }
{
    match (n % 16) as u8 {
        d @ 0..=9 => b'0' + d,
        d => b'A' + (d - 10),
    }
}

// How many digits a number has in decimal, four at most.
#[tactic(auto, using(crate::proofs::Digits::one, crate::proofs::Digits::two, crate::proofs::Digits::three, crate::proofs::Digits::four))]
pub fn count(n: u16) -> usize
    ensures { (result ≡ length (decimal n)) × (result ≤ 4) }
{
    match n {
        0..=9 => 1,
        10..=99 => 2,
        100..=999 => 3,
        _ => 4,
    }
}
