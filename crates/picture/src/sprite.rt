// A sprite's registers: the position, which is signed, and the magnification.
ghost use Rattle.std.specs.Prelude.{◌≡◌, ◌+◌, ◌*◌, ◌/◌, ◌%◌, ◌<◌, ◌≤◌};
ghost use Rattle.picture.specs.Sprites.{raw_of, coordinate, written, low_shown, high_shown, shown, sprite_contents};

// X from -256 to 767 and Y from -256 to 255 where written through the page; magnification has 4 bits: 3-2 for X, 1-0 for Y.
#[repr(C)]
#[derive(Clone, Copy, PartialEq, Eq, Default)]
pub struct Sprite {
    pub x: i16,
    pub y: i16,
    pub magnification: u8,
}

// An axis: a coordinate's bits are a number below `modulus`, of whose high byte all values count, and negative from `limit` on.
#[derive(Clone, Copy)]
struct Axis {
    modulus: u16,
    limit: u16,
    ghost bytes: { (0 < modulus) × (modulus ≤ 1024) × (modulus % 256 ≡ 0) },
}

// X has 10 bits, and 768 to 1023 mean -256 to -1;
const X: Axis = Axis {
    modulus: 1024,
    limit: 768,
};

// Y is 9 bits of two's complement.
const Y: Axis = Axis {
    modulus: 512,
    limit: 256,
};

impl Axis {
    // The bits of a coordinate.
    fn raw_of(self, z: i16) -> u16
        ensures { (result ≡ raw_of self.modulus z) × (result < self.modulus) }
    {
        z.rem_euclid(self.modulus as i16) as u16
    }

    // The coordinate with these bits.
    #[tactic(auto, unfolding(crate::specs::Sprites::coordinate))]
    fn coordinate(self, raw: u16) -> i16
        requires { raw < self.modulus }
        ensures { result ≡ coordinate self.modulus self.limit raw }
    {
        if self.limit <= raw {
            return raw as i16 - self.modulus as i16;
        }
        raw as i16
    }

    // A coordinate with another low byte.
    fn with_low(self, z: i16, byte: u8) -> i16
        ensures { result ≡ coordinate self.modulus self.limit (raw_of self.modulus z / 256 * 256 + byte) }
    {
        self.coordinate(self.raw_of(z) / 256 * 256 + byte as u16)
    }

    // A coordinate with another high byte, of which the bits that the axis has are kept.
    fn with_high(self, z: i16, byte: u8) -> i16
        ensures { result ≡ coordinate self.modulus self.limit (byte % (self.modulus / 256) * 256 + raw_of self.modulus z % 256) }
    {
        self.coordinate(byte as u16 % (self.modulus / 256) * 256 + self.raw_of(z) % 256)
    }

    // The low 8 bits of a coordinate.
    fn low_byte(self, z: i16) -> u8
        ensures { result ≡ low_shown self.modulus z }
    {
        (self.raw_of(z) % 256) as u8
    }

    // The bits above them.
    fn high_bits(self, z: i16) -> u8
        ensures { result ≡ raw_of self.modulus z / 256 }
    {
        (self.raw_of(z) / 256) as u8
    }

    // The same as they are shown: all set if the coordinate is negative.
    fn high_byte(self, z: i16) -> u8
        ensures { result ≡ high_shown self.modulus z }
    {
        if z < 0 {
            return 255;
        }
        self.high_bits(z)
    }
}

impl Sprite {
    // The sprite after a write to one of its registers, by its place: 0 to 4. Others change nothing.
    #[tactic(auto, unfolding(crate::specs::Sprites::written))]
    pub fn written(self, place: u8, byte: u8) -> Sprite
        ensures { result ≡ written self place byte }
    {
        match place {
            0 => Sprite {
                x: X.with_low(self.x, byte),
                ..self
            },
            1 => Sprite {
                x: X.with_high(self.x, byte),
                ..self
            },
            2 => Sprite {
                y: Y.with_low(self.y, byte),
                ..self
            },
            3 => Sprite {
                y: Y.with_high(self.y, byte),
                ..self
            },
            4 => Sprite {
                magnification: byte % 16,
                ..self
            },
            _ => self,
        }
    }

    // What a read of the sprite's register at this place shows: 0 to 3, the coordinates. Others are not readable and show 0.
    #[tactic(auto, unfolding(crate::specs::Sprites::shown))]
    pub fn shown(self, place: u8) -> u8
        ensures { result ≡ shown self place }
    {
        match place {
            0 => X.low_byte(self.x),
            1 => X.high_byte(self.x),
            2 => Y.low_byte(self.y),
            3 => Y.high_byte(self.y),
            _ => 0,
        }
    }

    // The contents of the sprite's register at this place, 0 to 4: the bits that it keeps. Others have none, which is 0.
    #[tactic(auto, unfolding(crate::specs::Sprites::sprite_contents))]
    pub fn contents(self, place: u8) -> u8
        ensures { result ≡ sprite_contents self place }
    {
        match place {
            0 => X.low_byte(self.x),
            1 => X.high_bits(self.x),
            2 => Y.low_byte(self.y),
            3 => Y.high_bits(self.y),
            4 => self.magnification % 16,
            _ => 0,
        }
    }
}
