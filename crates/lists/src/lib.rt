// Lists placed in an area of RAM: the area, where a list fits between the others, and what has one in use.

#![tactic(auto)]

ghost use Rattle.std.specs.Prelude.{◌≡◌, true, false, ℕ, ◌+◌, ◌<◌, ◌≤◌, MatchOption};
ghost use Rattle.lists.specs.Area.{lower, upper, proper, standing, has, told, Gives};
ghost use Rattle.lists.specs.Room.{start_of, end_of, place_of};
ghost use Rattle.lists.specs.Place.{askable, with_list, FreeHandle, told_placed, Places};
ghost use Rattle.lists.specs.Remove.{taken, without_list, Removes};
ghost use Rattle.lists.specs.InUse.{uses};
ghost use Rattle.lists.specs.Search.{Past, Passed, Found, meets};

use common::answer::Refusal;
use common::size::RAM;
use std::ops::Range;

// The room for lists: how many words lie below its lower and below its higher bound, and which of the 64 handles have a list, a bit
// each. With both bounds 0 there is none.
#[repr(C)]
#[derive(Clone, Copy, Default)]
pub struct Area {
    pub used: u64,
    pub from: u16,
    pub upto: u16,
}

// A list that was placed: the area with it, its address and its handle.
#[derive(Clone, Copy)]
pub struct NewList {
    pub area: Area,
    pub address: u32,
    pub handle: u32,
}

// Where a place starts. A place is one number, since C lends 64 of them.
#[tactic(auto, unfolding(crate::specs::Room::start_of))]
fn start_of(place: u32) -> u32
    ensures { result ≡ start_of place }
{
    place / 32768 * 2
}

// Where it ends.
#[tactic(auto, unfolding(crate::specs::Room::end_of))]
fn end_of(place: u32) -> u32
    ensures { (result ≡ end_of place) × (result ≤ 65536) }
{
    (place % 32768 + 1) * 2
}

// The place of so many bytes from an address on.
#[tactic(auto, unfolding(crate::specs::Room::place_of))]
fn place_of(address: u32, bytes: u32) -> u32
    requires { (address + bytes ≤ 65536) × (2 ≤ bytes) }
    ensures { result ≡ place_of address bytes }
{
    address / 2 * 32768 + ((address + bytes) / 2 - 1)
}

// How far the search for room has come: the address, and an address below which no list begins that was seen and ends above it.
#[derive(Clone, Copy)]
struct Sought {
    address: u32,
    above: u32,
}

impl Sought {
    // One list seen: where it is in the way of so many bytes, the search goes on at its end.
    fn past(self, place: u32, bytes: u32) -> Sought
        requires { (self.address ≤ 65536) × (bytes ≤ 65536) }
        ensures { Past place bytes self result }
    {
        let start = start_of(place);
        if self.address + bytes <= start {
            return Sought {
                address: self.address,
                above: self.above.min(start),
            };
        }
        Sought {
            address: self.address.max(end_of(place)),
            above: self.above,
        }
    }
}

// Whether two bounds are as an area's have to be.
#[tactic(auto, unfolding(crate::specs::Area::proper))]
fn proper(from: u32, upto: u32) -> bool
    ensures { result ≡ proper from upto }
{
    from % 2 == 0 && upto % 2 == 0 && from < upto && upto as usize <= RAM
}

impl Area {
    // Its bounds.
    fn lower(self) -> u32
        ensures { result ≡ lower self }
    {
        self.from as u32 * 2
    }

    fn upper(self) -> u32
        ensures { result ≡ upper self }
    {
        self.upto as u32 * 2
    }

    // Whether it stands.
    #[tactic(auto, unfolding(crate::specs::Area::standing))]
    fn standing(self) -> bool
        ensures { result ≡ standing self }
    {
        proper(self.lower(), self.upper())
    }

    // Whether a list of so many bytes can be asked for.
    #[tactic(auto, unfolding(crate::specs::Place::askable))]
    fn askable(self, bytes: usize) -> bool
        ensures { result ≡ askable self bytes }
    {
        self.standing()
            && bytes != 0
            && bytes % 2 == 0
            && bytes <= self.upper().saturating_sub(self.lower()) as usize
    }

    // Whether a handle has a list.
    #[tactic(auto, unfolding(crate::specs::Remove::taken))]
    fn taken(self, handle: u32) -> bool
        ensures { result ≡ taken self handle }
    {
        handle < 64 && (self.used >> handle) % 2 == 1
    }

    // The lowest free handle.
    fn free_handle(self) -> Option<u32>
        ensures { MatchOption result ((k : ℕ) → k < 64 → has self k ≡ true) (FreeHandle self) }
    {
        if self.used == u64::MAX {
            return None;
        }
        Some(self.used.trailing_ones())
    }

    // The area with one list more.
    fn with_list(self, handle: u32) -> Area
        requires { (handle < 64) × (has self handle ≡ false) }
        ensures { result ≡ with_list self handle }
    {
        Area {
            used: self.used + (1 << handle),
            ..self
        }
    }

    // The area with one list less.
    fn without_list(self, handle: u32) -> Area
        requires { (handle < 64) × (has self handle ≡ true) }
        ensures { result ≡ without_list self handle }
    {
        Area {
            used: self.used - (1 << handle),
            ..self
        }
    }

    // Every list seen once, by rising handles, from an address on.
    fn pass(self, places: &[u32; 64], bytes: u32, from: u32) -> Sought
        requires { (from ≤ 65536) × (bytes ≤ 65536) }
        ensures { Passed self.used places.now bytes from 64 result }
    {
        let mut at = Sought {
            address: from,
            above: u32::MAX, // none seen yet
        };
        // from there on no handle has a list
        let end = 64 - self.used.leading_zeros() as usize;
        for (k, place) in places[..end].iter().enumerate() {
            if (self.used >> k) % 2 == 1 {
                at = at.past(*place, bytes);
            }
        }
        at
    }

    // The lowest even address from the lower bound on where so many bytes have none in common with a placed list: passes until no list
    // that was seen above the address is in the way.
    fn lowest(self, places: &[u32; 64], bytes: u32) -> u32
        requires { (lower self ≤ 65536) × (bytes ≤ 65536) }
        ensures { Found self.used places.now bytes (lower self) result }
    {
        let mut a = self.lower();
        loop {
            let next = self.pass(places, bytes, a);
            if next.address + bytes <= next.above {
                return next.address;
            }
            a = next.address;
        }
    }
}

// Gives the area, by its bounds.
#[tactic(auto, unfolding(crate::specs::Area::area_answer))]
pub fn give(area: Area, from: u32, upto: u32) -> Result<Area, Refusal>
    ensures { Gives area from upto (told area result) }
{
    if area.standing() || !proper(from, upto) {
        return Err(Refusal::WrongArea);
    }
    Ok(Area {
        used: 0,
        from: (from / 2) as u16,
        upto: (upto / 2) as u16,
    })
}

// Places a list: its bytes go to the lowest even address where it fits between the others.
pub fn place(
    area: Area,
    places: &mut [u32; 64],
    ram: &mut [u8],
    list: &[u8],
) -> Result<NewList, Refusal>
    ensures { Places area places.old ram.old list.now places.new ram.new (told_placed area result) }
{
    if ram.len() != RAM {
        return Err(Refusal::WrongLength);
    }
    if !area.askable(list.len()) {
        return Err(Refusal::WrongArea);
    }
    let Some(handle) = area.free_handle() else {
        return Err(Refusal::AllPlaced);
    };
    let bytes = list.len() as u32;
    let address = area.lowest(places, bytes);
    if area.upper() < address + bytes {
        return Err(Refusal::NoGap);
    }
    common::put(ram, address as usize, list);
    places[handle as usize] = place_of(address, bytes);
    Ok(NewList {
        area: area.with_list(handle),
        address,
        handle,
    })
}

// Removes a list, unless some channel plays it.
#[tactic(auto, unfolding(crate::specs::Remove::remove_answer))]
pub fn remove(area: Area, handle: u32, playing: bool) -> Result<Area, Refusal>
    ensures { Removes area handle playing (told area result) }
{
    if !area.standing() {
        return Err(Refusal::WrongArea);
    }
    if !area.taken(handle) {
        return Err(Refusal::NoHandle);
    }
    if playing {
        return Err(Refusal::ListInUse);
    }
    Ok(area.without_list(handle))
}

// Whether an address from low up to high lies in a list.
#[tactic(auto, unfolding(crate::specs::Search::meets))]
fn meets(list: &Range<u32>, low: u32, high: u32) -> bool
    ensures { result ≡ meets list.now.start list.now.end low high }
{
    list.start < list.end && list.start <= high && low < list.end
}

// Whether an enabled channel with this address, mark and loop counter has the list at a place in use.
pub fn in_use(place: u32, address: u16, mark: u16, counter: u16) -> bool
    ensures { result ≡ uses (start_of place) (end_of place) address mark counter }
{
    let list = start_of(place)..end_of(place);
    let address = address as u32;
    let mark = mark as u32;
    if counter == 0 {
        return list.contains(&address);
    }
    if mark < address {
        return meets(&list, mark, address);
    }
    list.contains(&mark) || list.contains(&address)
}
