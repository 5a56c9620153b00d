// The 6845: its registers, its counters, the raster and split compares, and the screen address.

#![tactic(auto)]

ghost use Rattle.std.specs.Prelude.{◌≡◌, ◌<◌, false};
ghost use Rattle.crtc.specs.Registers.{has_register, written};
ghost use Rattle.crtc.specs.Line.{line_number, raster_due, split_due, captured, frame_ends, position_after, address_after, frame_start, next_line, line_of};

// The registers that are kept. A data write stores no more bits than document 01 gives a register; the fields themselves hold any byte.
#[repr(C)]
#[derive(Clone, Copy, Default)]
pub struct Registers {
    pub r1: u8,
    pub r4: u8,
    pub r5: u8,
    pub r6: u8,
    pub r9: u8,
    pub r12: u8,
    pub r13: u8,
}

// The counters of the current line: row VC, line in the row RC, whether it is an adjust line, its screen
// address, and the split address that was captured, if one is held. The flag `held` with `split` beside it stays: C sees this struct.
#[repr(C)]
#[derive(Clone, Copy, Default)]
pub struct Counters {
    pub vc: u8,
    pub rc: u8,
    pub adjust: bool,
    pub held: bool,
    pub address: u16,
    pub split: u16,
}

// The registers of the page that counting uses: PRI, split line and address, SSCR.
#[repr(C)]
#[derive(Clone, Copy, Default)]
pub struct Video {
    pub pri: u8,
    pub split_line: u8,
    pub split_high: u8,
    pub split_low: u8,
    pub sscr: u8,
}

// Where a line stands in the frame.
#[derive(Clone, Copy)]
pub struct Position {
    pub vc: u8,
    pub rc: u8,
    pub adjust: bool,
}

// One line's counting: the counters after it, and whether the raster interrupt is raised on it.
#[derive(Clone, Copy)]
pub struct Counted {
    pub counters: Counters,
    pub raster: bool,
}

// Whether a data write to this register number is kept.
#[tactic(auto, unfolding(crate::specs::Registers::has_register))]
pub fn has_register(number: u8) -> bool
    ensures { result ≡ has_register number }
{
    matches!(number, 1 | 4 | 5 | 6 | 9 | 12 | 13)
}

impl Registers {
    // The registers after a data write to this number; the bits beyond a register's width are dropped.
    #[tactic(auto, unfolding(crate::specs::Registers::written))]
    pub fn written(mut self, number: u8, byte: u8) -> Registers
        ensures { result ≡ written self number byte }
    {
        match number {
            1 => self.r1 = byte,
            4 => self.r4 = byte % 128,
            5 => self.r5 = byte % 32,
            6 => self.r6 = byte % 128,
            9 => self.r9 = byte % 32,
            12 => self.r12 = byte % 64,
            13 => self.r13 = byte,
            _ => {}
        }
        self
    }
}

impl Counters {
    // The line's number as the two compares see it.
    fn line_number<const ROWS: u16>(self) -> u16
        requires { 0 < ROWS }
        ensures { result ≡ line_number ROWS self }
    {
        self.vc as u16 % ROWS * 8 + self.rc as u16 % 8
    }

    // Whether PRI names this line; an adjust line is never named.
    #[tactic(auto, unfolding(crate::specs::Line::raster_due))]
    fn raster_due(self, v: Video) -> bool
        ensures { result ≡ raster_due v self }
    {
        v.pri != 0 && v.pri as u16 == self.line_number::<64>() && !self.adjust
    }

    // Whether the split line names this line; an adjust line with RC of 8 or more is never named.
    #[tactic(auto, unfolding(crate::specs::Line::split_due))]
    fn split_due(self, v: Video) -> bool
        ensures { result ≡ split_due v self }
    {
        v.split_line != 0
            && v.split_line as u16 == self.line_number::<32>()
            && (!self.adjust || self.rc < 8)
    }

    // The split compare: the split address is captured where it is due.
    #[tactic(auto, unfolding(crate::specs::Line::captured))]
    fn captured(self, v: Video) -> Counters
        ensures { result ≡ captured v self }
    {
        if !self.split_due(v) {
            return self;
        }
        Counters {
            held: true,
            split: v.split_high as u16 * 256 + v.split_low as u16,
            ..self
        }
    }

    // Whether this line is the frame's last.
    #[tactic(auto, unfolding(crate::specs::Line::frame_ends))]
    fn frame_ends(self, r: Registers) -> bool
        ensures { result ≡ frame_ends r self }
    {
        if self.adjust {
            return r.r5 as u16 <= self.rc as u16 + 1;
        }
        self.rc == r.r9 && self.vc == r.r4 && r.r5 == 0
    }

    // The frame's first line.
    #[tactic(auto, unfolding(crate::specs::Line::frame_start))]
    fn frame_start(self, r: Registers) -> Counters
        ensures { result ≡ frame_start r self }
    {
        Counters {
            vc: 0,
            rc: 0,
            adjust: false,
            address: r.r12 as u16 * 256 + r.r13 as u16,
            ..self
        }
    }

    // Where the next line stands, within the frame.
    #[tactic(auto, unfolding(crate::specs::Line::position_after, crate::specs::Line::frame_ends))]
    fn position_after(self, r: Registers) -> Position
        requires { frame_ends r self ≡ false }
        ensures { result ≡ position_after r self }
    {
        if self.adjust {
            return Position {
                vc: self.vc,
                rc: self.rc + 1,
                adjust: true,
            };
        }
        if self.rc != r.r9 {
            return Position {
                vc: self.vc,
                rc: ((self.rc as u16 + 1) % 32) as u8,
                adjust: false,
            };
        }
        Position {
            vc: ((self.vc as u16 + 1) % 128) as u8,
            rc: 0,
            adjust: self.vc == r.r4,
        }
    }

    // The next line's screen address, within the frame.
    #[tactic(auto, unfolding(crate::specs::Line::address_after))]
    fn address_after(self, r: Registers, sscr: u8) -> u16
        ensures { result ≡ address_after r sscr self }
    {
        if self.held {
            return self.split;
        }
        if (self.rc as u16 + sscr as u16 / 16 % 8) % 32 != r.r9 as u16 {
            return self.address;
        }
        ((self.address as u32 + r.r1 as u32) % 16384) as u16
    }

    // The counters of the next line.
    #[tactic(auto, unfolding(crate::specs::Line::next_line))]
    fn next_line(self, r: Registers, sscr: u8) -> Counters
        ensures { result ≡ next_line r sscr self }
    {
        if self.frame_ends(r) {
            return self.frame_start(r);
        }
        let Position { vc, rc, adjust } = self.position_after(r);
        Counters {
            vc,
            rc,
            adjust,
            address: self.address_after(r, sscr),
            held: false,
            split: 0,
        }
    }

    // One line: raster compare, split compare, counters.
    #[tactic(auto, unfolding(crate::specs::Line::line_of))]
    pub fn line(self, r: Registers, v: Video) -> Counted
        ensures { result ≡ line_of r v self }
    {
        let raster = self.raster_due(v);
        let counters = self.captured(v).next_line(r, v.sscr);
        Counted { counters, raster }
    }
}
