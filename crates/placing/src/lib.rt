// Room for lists in RAM: the area is given, a list is placed in it, and a list that no channel has in use is removed.

#![tactic(auto)]

ghost use Rattle.std.specs.Prelude.{◌≡◌};
ghost use Rattle.lists.specs.Area.{told};
ghost use Rattle.lists.specs.Room.{place_at};
ghost use Rattle.chip.specs.Editors.{lists_of, with_lists};
ghost use Rattle.placing.specs.InUse.{used_by, in_use_of};
ghost use Rattle.placing.specs.Contract.{GivesArea, PlacesList, RemovesList};

use chip::{Answered, Chip};
use common::answer::{Refusal, answer_number};
use lists::{Area, NewList};
use sound::{Channel, Sound};

// What placing gives: the chip, the answer, and where it is served the list's address and handle.
#[repr(C)]
#[derive(Clone, Copy)]
pub struct PlacedList {
    pub chip: Chip,
    pub answer: u8,
    pub address: u32,
    pub handle: u32,
}

// The chip with another area.
fn with_lists(mut chip: Chip, lists: Area) -> Chip
    ensures { result ≡ with_lists chip lists }
{
    chip.editing.lists = lists;
    chip
}

// The answer of a call that changes the area: the chip with it, or as it was where the call is refused.
fn changed(chip: Chip, change: Result<Area, Refusal>) -> Answered
    ensures answer { result.answer ≡ (told (lists_of chip) change).answer }
    ensures chip { result.chip ≡ with_lists chip (told (lists_of chip) change).area }
{
    Answered {
        chip: with_lists(chip, change.unwrap_or(chip.editing.lists)),
        answer: answer_number(change.map(|_| ())),
    }
}

// Gives the area, by its bounds.
pub fn area(chip: Chip, from: u32, upto: u32) -> Answered
    ensures { GivesArea chip from upto result }
{
    changed(chip, lists::give(chip.editing.lists, from, upto))
}

// Places a list: its bytes go to the lowest even address of the area where it fits between the others.
pub fn place(chip: Chip, places: &mut [u32; 64], ram: &mut [u8], list: &[u8]) -> PlacedList
    ensures { PlacesList chip places.old ram.old list.now places.new ram.new result }
{
    let placed = lists::place(chip.editing.lists, places, ram, list);
    let new = placed.unwrap_or(NewList {
        area: chip.editing.lists,
        address: 0,
        handle: 0,
    });
    PlacedList {
        chip: with_lists(chip, new.area),
        answer: answer_number(placed.map(|_| ())),
        address: new.address,
        handle: new.handle,
    }
}

// Whether a channel has the list at a place in use.
fn used_by(channel: Channel, place: u32) -> bool
    ensures { result ≡ used_by channel place }
{
    channel.enabled && lists::in_use(place, channel.address, channel.mark, channel.counter)
}

// Whether one of the three has.
#[tactic(auto, unfolding(crate::specs::InUse::in_use_of))]
fn in_use(sound: &Sound, place: u32) -> bool
    ensures { result ≡ in_use_of sound.now place }
{
    sound
        .channels
        .iter()
        .any(|channel| used_by(*channel, place))
}

// The place of a handle's list; of a number that is no handle, 0.
fn place_at(places: &[u32; 64], handle: u32) -> u32
    ensures { result ≡ place_at places.now handle }
{
    places.get(handle as usize).copied().unwrap_or(0)
}

// Removes the list of a handle, unless a channel has it in use.
pub fn remove(chip: Chip, places: &[u32; 64], handle: u32) -> Answered
    ensures { RemovesList chip places.now handle result }
{
    let playing = in_use(&chip.sound, place_at(places, handle));
    changed(chip, lists::remove(chip.editing.lists, handle, playing))
}
