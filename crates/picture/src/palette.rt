// The palette: two bytes an entry, red and blue in the low one, green in the high one.
ghost use Rattle.std.specs.Prelude.{◌≡◌, get_or};
ghost use Rattle.picture.specs.Palette.{kept_byte_of, grey_of};

// The bits that are kept of a byte written at a place of the palette: all of a low byte, the low 4 of a high one.
#[tactic(auto, unfolding(crate::specs::Palette::kept_byte_of))]
pub fn kept_byte(place: usize, byte: u8) -> u8
    ensures { result ≡ kept_byte_of place byte }
{
    if place % 2 == 0 {
        return byte;
    }
    byte % 16
}

// What the palette has at a place, by the bits that are kept; past its last byte 0.
#[tactic(auto, unfolding(crate::specs::Palette::kept_byte_of))]
pub fn byte_of(palette: [u8; 64], place: usize) -> u8
    ensures { result ≡ kept_byte_of place (get_or palette place 0) }
{
    kept_byte(place, common::byte_at(&palette, place))
}

// The grey of an entry, from its two bytes.
#[tactic(auto, unfolding(crate::specs::Palette::grey_of))]
pub fn grey(low: u8, high: u8) -> u8
    ensures { result ≡ grey_of low high }
{
    9 * (high % 16) + 3 * (low / 16) + low % 16
}
