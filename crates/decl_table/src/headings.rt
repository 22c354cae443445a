//! The effective headings: the slot of each, under its name.
ghost use Rattle.std.specs.Prelude.{◌≡◌, ◌+◌, ◌<◌, ◌≤◌, [], ℕ, if◌then◌else◌, List, OnOk, Some, bytes_eq, length, option_map};
ghost use Rattle.std.specs.Map.{lookup};
ghost use Rattle.decl_table.specs.DeclEdit.{changed_or};
ghost use Rattle.decl_table.specs.PlainDecls.{slot_of};
ghost use Rattle.decl_table.specs.Private.DeclsView.{TakesHeading};

use crate::heading_changes::{HeadingChange, HeadingChanges};
use indexmap::IndexMap;
use plcs_base::{Name, OutOfMemory, Slot};
use std::alloc::Global;
use std::marker::Model;
use template_tree::{Node, heading_name, may_be_called};

/// The slots of effective headings under their names, which contracts see as a list of pairs, with how many more
/// headings there is room for.
#[derive(Drop)]
pub(crate) struct Headings {
    slots: IndexMap<Name, u32>,
}

impl Model for Headings {
    ghost use Rattle.indexmap.specs.IndexMap.{spare};
    ghost use Rattle.decl_table.specs.Private.DeclsView.{RoomyHeadings, roomy_headings_code};

    ghost Value = { RoomyHeadings };

    ghost coded = { roomy_headings_code };

    ghost view = { λ a. record { headings = a.slots.entries; spare = spare a.slots } };
}

impl Headings {
    /// The effective headings of a table of declarations that has none yet, before the slot of any is put under
    /// its name.
    pub(crate) fn new(alloc: Global) -> Headings
        ensures { result.headings ≡ [] }
    {
        Headings {
            slots: IndexMap::new(alloc),
        }
    }

    /// Takes the heading of the procedure among these, if it may be effective, in place of another one
    /// of its name.
    pub(crate) fn take(&mut self, procedure: &Node) -> Result<(), OutOfMemory>
        ensures { OnOk result (TakesHeading procedure.now self.old.headings self.new.headings) }
    {
        let Some(name) = heading_name(procedure) else {
            return Ok(());
        };
        if !may_be_called(name) {
            return Ok(());
        }
        self.slots.insert(name.copy(), procedure.slot().0)?;
        Ok(())
    }

    /// The slot of the heading that is kept here under the name, or `None` where none is.
    pub(crate) fn named(&self, name: &Name) -> Option<Slot>
        ensures { option_map (λ slot. slot.0) result ≡ slot_of name.now self.now.headings }
    {
        match self.slots.get(name) {
            Some(slot) => Some(Slot(*slot)),
            None => None,
        }
    }
}

impl Headings {
    /// Keeps this slot under the name, in place of another one.
    pub(crate) fn put(&mut self, name: Name, slot: Slot) -> Result<(), OutOfMemory>
        ensures { OnOk result ((other : List ℕ) → slot_of other self.new.headings
            ≡ (if bytes_eq name other then Some slot.0 else slot_of other self.old.headings)) }
    {
        self.slots.insert(name, slot.0)?;
        Ok(())
    }

    /// Makes room for so many more headings.
    pub(crate) fn reserve(&mut self, headings: usize) -> Result<(), OutOfMemory>
        ensures same { self.new.headings ≡ self.old.headings }
        ensures kept { self.old.spare ≤ self.new.spare }
        ensures room { OnOk result (headings ≤ self.new.spare) }
    {
        self.slots.reserve(headings)?;
        Ok(())
    }

    /// Puts prepared changes in place. It takes no memory.
    pub(crate) fn put_in_place(&mut self, changes: HeadingChanges)
        requires room { length changes ≤ self.old.spare }
        ensures { (name : List ℕ) → slot_of name self.new.headings
            ≡ changed_or (lookup (bytes_eq name) changes) (slot_of name self.old.headings) }
    {
        let HeadingChanges { list } = changes;
        let mut rest = list;
        while let Some(change) = rest.pop() {
            self.put_change(change);
        }
        drop(rest);
    }

    /// Puts one prepared change in place. It takes no memory.
    fn put_change(&mut self, change: HeadingChange)
        requires room { 0 < self.old.spare }
        ensures updates { (other : List ℕ) → slot_of other self.new.headings
            ≡ (if bytes_eq change.name other then option_map (λ slot. slot.0) change.slot
            else slot_of other self.old.headings) }
        ensures room { self.old.spare ≤ self.new.spare + 1 }
    {
        let HeadingChange { name, slot } = change;
        let Some(slot) = slot else {
            let _ = self.slots.swap_remove(&name);
            return;
        };
        match self.slots.insert(name, slot.0) {
            Ok(_) => {}
            Err(_) => unreachable!(),
        }
    }
}
