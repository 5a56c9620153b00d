// The undo record: page writes that can be taken back, in a ring of 256 lent places.

#![tactic(auto)]

ghost use Rattle.std.specs.Prelude.{◌≡◌, ◌%◌, get_or};
ghost use Rattle.ring.specs.Ring.{record_of, head, pushed, popped, Puts};

// How many places the ring has, and so how many entries it keeps.
const PLACES: u16 = 256;

// The state of a record: the place that the next entry goes to, and how many entries are kept. C keeps it beside the places.
#[repr(C)]
#[derive(Clone, Copy, Default)]
pub struct Undo {
    pub next: u8,
    pub count: u16,
}

impl Undo {
    // The state with an entry more; a 257th drops the oldest.
    pub fn pushed(self) -> Undo
        ensures { result ≡ pushed self }
    {
        Undo {
            next: self.next.wrapping_add(1),
            count: self.count.min(PLACES - 1) + 1,
        }
    }

    // The state without its newest entry; an empty record stays.
    pub fn popped(self) -> Undo
        ensures { result ≡ popped self }
    {
        if self.count == 0 {
            return self;
        }
        Undo {
            next: self.next.wrapping_sub(1),
            count: self.count - 1,
        }
    }

    // The newest entry, or 0 of an empty record, as `page` promises.
    pub fn newest(self, places: &[u32; 256]) -> u32
        ensures { result ≡ head (record_of self places.now) }
    {
        if self.count == 0 {
            return 0;
        }
        places[self.next.wrapping_sub(1) as usize]
    }

    // What stands at the place that the next entry goes to.
    pub fn standing(self, places: &[u32; 256]) -> u32
        ensures { result ≡ get_or places.now (self.next % 256) 0 }
    {
        places[self.next as usize]
    }

    // An entry put there.
    pub fn put(self, places: &mut [u32; 256], entry: u32)
        ensures { Puts self places.old entry places.new }
    {
        places[self.next as usize] = entry;
    }
}
