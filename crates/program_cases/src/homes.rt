//! Where nodes are said to stand, beside where they were said to.

use case_script::{Told, number_of};
use plcs_base::{OutOfMemory, Slot};
use slot_homes::{Home, Homes, MOST_SHIFTS, WayStep};
use std::alloc::Global;

/// Makes a table for so many slots, says of as many where they stand, from the first slot on and from each further one
/// that is named, and tells whether each is told again, with the way to it; whether all is to be said anew by then; and
/// so after as many changes of lists as make it old.
pub fn homes(alloc: Global, words: &[Vec<u8>], told: &mut Told) -> Option<()> {
    let [room, count, further @ ..] = words else {
        return None;
    };
    let room = number_of(room.as_slice())?;
    let count = number_of(count.as_slice())?;
    let mut homes = Homes::new(alloc);
    let done = match homes.grow(alloc, room) {
        Ok(()) => tell_homes(&mut homes, count, further, told),
        Err(OutOfMemory) => None,
    };
    drop(homes);
    done
}

/// Says in a table that has room of so many nodes where they stand, from the first slot on and from each further one
/// that is named, and tells whether each is told again, and when all is to be said anew.
fn tell_homes(homes: &mut Homes, count: u32, further: &[Vec<u8>], told: &mut Told) -> Option<()> {
    put_block(homes, 0, count);
    for first in further {
        put_block(homes, number_of(first.as_slice())?, count);
    }
    let mut all = is_told(homes, 0, count);
    for first in further {
        all = all && is_told(homes, number_of(first.as_slice())?, count);
    }
    told.text("each told: ");
    told.value(&all);
    tell_ages(homes, told);
    Some(())
}

/// Says of so many nodes, whose slots follow this one, where they stand.
fn put_block(homes: &mut Homes, first: u32, count: u32) {
    for slot in first..first.saturating_add(count) {
        homes.put(Slot(slot), home_of(first, slot));
    }
}

/// Where the node of the slot is said to stand, in the block of slots that begins with this first one: inside the node
/// of half the distance.
fn home_of(first: u32, slot: u32) -> Home {
    let distance = slot.saturating_sub(first);
    let parent = if distance == 0 {
        None
    } else {
        Some(Slot(first.saturating_add(distance / 2)))
    };
    Home {
        parent,
        number: slot % 2,
    }
}

/// Whether of each node of a block of slots is told where it was said to stand, and a way that ends there.
fn is_told(homes: &Homes, first: u32, count: u32) -> bool {
    let mut all = true;
    for slot in first..first.saturating_add(count) {
        let step = WayStep {
            slot,
            number: slot % 2,
        };
        let ends_there = match homes.way_to(Slot(slot)) {
            Some(way) => way.as_slice().last() == Some(&step),
            None => false,
        };
        all = all && ends_there && homes.home(Slot(slot)) == Some(home_of(first, slot));
    }
    all
}

/// Tells whether where nodes stand is to be said anew, also after as many changes of lists as make all old, and whether
/// nothing is told once it is forgotten.
fn tell_ages(homes: &mut Homes, told: &mut Told) {
    told.text(", old: ");
    told.value(&homes.are_stale());
    for _ in 0..MOST_SHIFTS {
        homes.shift();
    }
    told.text(", then: ");
    told.value(&homes.are_stale());
    homes.forget();
    told.text(", forgotten: ");
    told.value(&(homes.home(Slot(0)) == None && !homes.are_stale()));
}
