//! What is said of many slots, found by slot.
ghost use Rattle.std.specs.Prelude.{◌≡◌, ◌+◌, ◌*◌, ◌%◌, ◌<◌, ◌≤◌, ◌↔◌, IfNone, IfSome, IsTrue, OnErr, OnOk, Some, [], length, min, slice_set, true};
ghost use Rattle.slot_homes.specs.Said.{AreTaken, NothingSaid, OthersStay, entry_at, home_for, home_said, is_free, most_places, probes, stride};

use crate::home::Home;
use plcs_base::{OutOfMemory, Slot};
use std::alloc::Global;
use std::marker::Model;

/// How far a number that is said may be off: so many changes of lists may come before all is to be said anew.
pub const MOST_SHIFTS: u32 = 64;

/// In how many places what is said of a slot may stand.
const PROBES: u32 = 8;

/// How many places behind one of these the next one is. It is a prime, so that they are others in a table of any size,
/// and eight of them go once round the largest: slots that were drawn one after the other don't stand in each other's
/// way, however many there were before.
const STRIDE: usize = 8_191;

/// How many places a table has at least.
const LEAST_PLACES: usize = 64;

/// How many places a table has at most.
const MOST_PLACES: usize = 65_536;

/// What is said of a slot.
#[derive(Clone, Copy, Debug)]
pub struct Entry {
    slot: Slot,
    home: Home,
}

/// Where the nodes of many slots stand, as advice: what is said is what was put last, and that may be old by now.
/// Contracts see the places in which it is kept, and no more.
///
/// It is a table without further lists: what is said of a slot stands in one of a few places, and another slot gives
/// way where all of them are taken.
#[derive(Drop)]
pub struct Homes {
    table: Vec<Option<Entry>>,
    is_crowded: bool,
    shifts: u32,
}

impl Model for Homes {
    ghost use Rattle.std.specs.Prelude.{List, Option};
    ghost use Rattle.slot_homes.specs.declared.homes.Entry.{Entry};

    ghost Value = { List (Option Entry) };

    ghost view = { λ a. a.table.items };
}

impl Homes {
    /// Nothing that is said yet, and no places. It takes no memory.
    pub fn new(alloc: Global) -> Homes
        ensures { result ≡ [] }
    {
        Homes {
            table: Vec::new(alloc),
            is_crowded: false,
            shifts: 0,
        }
    }

    /// Where the node of the slot stands, as far as it is said.
    pub fn home(&self, slot: Slot) -> Option<Home>
        ensures { result ≡ home_said self.now slot.0 }
    {
        for probe in 0..PROBES {
            if let Some(home) = self.home_at(slot, probe) {
                return Some(home);
            }
        }
        None
    }

    /// Says where the node of the slot stands, if there are places. It takes no memory: another slot gives way where
    /// all are taken.
    pub fn put(&mut self, slot: Slot, home: Home)
        ensures said { 0 < length self.old → home_said self.new slot.0 ≡ Some home }
        ensures others { OthersStay self.old self.new slot.0 }
        ensures places { length self.new ≡ length self.old }
    {
        if let Some(probe) = self.free_place(slot) {
            self.set(slot, probe, home);
            return;
        }
        self.is_crowded = true;
        self.set(slot, 0, home);
    }

    /// Says that a list changed: the numbers of the nodes behind the change are one more off.
    pub fn shift(&mut self)
        ensures { self.new ≡ self.old }
    {
        self.shifts = self.shifts.saturating_add(1);
    }

    /// Whether all should be said anew: numbers may be far off, or a slot gave way.
    pub fn are_stale(&self) -> bool {
        self.is_crowded || self.shifts >= MOST_SHIFTS
    }

    /// Whether there are places enough for so many slots.
    pub fn has_room(&self, slots: u32) -> bool
        ensures { IsTrue result ↔ (min (2 * slots) most_places ≤ length self.now) }
    {
        self.table.len() >= (2 * slots as usize).min(MOST_PLACES)
    }

    /// Takes memory for so many slots and as many more, and forgets all that was said. Where there is no memory,
    /// nothing changes.
    pub fn grow(&mut self, alloc: Global, slots: u32) -> Result<(), OutOfMemory>
        ensures room { OnOk result (min (2 * slots) most_places ≤ length self.new) }
        ensures nothing { OnOk result (NothingSaid self.new) }
        ensures refused { OnErr result (self.new ≡ self.old) }
    {
        let places = (4 * slots as usize + LEAST_PLACES).min(MOST_PLACES);
        let mut table = Vec::new(alloc);
        table.reserve(places)?;
        for k in 0..places {
            table.push(None)?;
        }
        self.table = table;
        self.forget();
        Ok(())
    }

    /// Forgets all that was said; the places stay.
    pub fn forget(&mut self)
        ensures nothing { NothingSaid self.new }
        ensures places { length self.new ≡ length self.old }
    {
        for k in 0..self.table.len() {
            self.table[k] = None;
        }
        self.is_crowded = false;
        self.shifts = 0;
    }
}

impl Homes {
    /// What stands in the place of this number among those where what is said of the slot may stand.
    fn entry(&self, slot: Slot, probe: u32) -> Option<Entry>
        ensures { result ≡ entry_at self.now slot.0 probe }
    {
        let places = self.table.len();
        if places == 0 {
            return None;
        }
        self.table[place_of(slot, probe, places)]
    }

    /// What is said of the slot in the place of this number among those where that may stand.
    fn home_at(&self, slot: Slot, probe: u32) -> Option<Home>
        ensures { result ≡ home_for slot.0 (entry_at self.now slot.0 probe) }
    {
        let Some(entry) = self.entry(slot, probe) else {
            return None;
        };
        if entry.slot.0 != slot.0 {
            return None;
        }
        Some(entry.home)
    }

    /// The number of the first place where what is said of the slot may stand in which nothing stands, or what is said
    /// of the slot, or `None` where what is said of others stands in each.
    fn free_place(&self, slot: Slot) -> Option<u32>
        ensures within { IfSome result (λ probe. probe < probes) }
        ensures taken { IfSome result (λ probe. AreTaken self.now slot.0 probe) }
        ensures free { IfSome result (λ probe. is_free slot.0 (entry_at self.now slot.0 probe) ≡ true) }
        ensures all { IfNone result (AreTaken self.now slot.0 probes) }
    {
        for probe in 0..PROBES {
            if self.is_free(slot, probe) {
                return Some(probe);
            }
        }
        None
    }

    /// Whether what is said of the slot may come into the place of this number among those where it may stand: nothing
    /// stands there, or what is said of the slot.
    fn is_free(&self, slot: Slot, probe: u32) -> bool
        ensures { result ≡ is_free slot.0 (entry_at self.now slot.0 probe) }
    {
        let Some(entry) = self.entry(slot, probe) else {
            return true;
        };
        entry.slot.0 == slot.0
    }

    /// Puts what is said of a slot into the place of this number among those where it may stand, if there are places.
    fn set(&mut self, slot: Slot, probe: u32, home: Home)
        ensures { self.new ≡ slice_set self.old ((slot.0 + probe * stride) % length self.old)
            (Some (record { slot = slot; home = home })) }
    {
        let places = self.table.len();
        if places == 0 {
            return;
        }
        self.table[place_of(slot, probe, places)] = Some(Entry { slot, home });
    }
}

/// The place of this number among those where what is said of the slot may stand, in a table of so many.
fn place_of(slot: Slot, probe: u32, places: usize) -> usize
    requires some { 0 < places }
    ensures place { result ≡ (slot.0 + probe * stride) % places }
    ensures within { result < places }
{
    (slot.0 as usize + probe as usize * STRIDE) % places
}
