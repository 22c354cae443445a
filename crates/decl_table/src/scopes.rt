//! The effective items of all procedures, those of each under its slot.
ghost use Rattle.std.specs.Prelude.{◌≡◌, ◌<◌, ◌≤◌, ℕ, false, if◌then◌else◌, IsOk, List, OnOk, Some, bytes_eq, nat_eq, option_map};
ghost use Rattle.std.specs.FinMap.{empty, get, insert, remove};
ghost use Rattle.plcs_base.specs.Scope.{item_at};
ghost use Rattle.template_tree.specs.Checks.Environment.{item_named};
ghost use Rattle.template_tree.specs.Checks.ProgramMaps.{items_in};
ghost use Rattle.decl_table.specs.DeclEdit.{HasItemsOf, items_changed};
ghost use Rattle.decl_table.specs.Private.ItemChangeView.{plain_item_change};

use crate::decl_edit::ItemChange;
use crate::items::{Items, Shape};
use indexmap::IndexMap;
use plcs_base::{Declared, Name, OutOfMemory, Slot};
use std::alloc::Global;
use std::marker::Model;

/// The effective items of procedures under their slots, which contracts see as a finite map, with how many more
/// procedures there is room for.
#[derive(Drop)]
pub(crate) struct Scopes {
    procedures: IndexMap<u32, Items>,
}

impl Model for Scopes {
    ghost use Rattle.std.specs.FinMap.{from_entries};
    ghost use Rattle.indexmap.specs.IndexMap.{spare};
    ghost use Rattle.decl_table.specs.Private.DeclsView.{RoomyItems, roomy_items_code};

    ghost Value = { RoomyItems };

    ghost coded = { roomy_items_code };

    ghost view = { λ a. record { items = from_entries a.procedures.entries; spare = spare a.procedures } };
}

impl Scopes {
    /// No procedures, and so no items of them.
    pub(crate) fn new(alloc: Global) -> Scopes
        ensures { result.items ≡ empty }
    {
        Scopes {
            procedures: IndexMap::new(alloc),
        }
    }

    /// Puts the items of a procedure under its slot.
    pub(crate) fn put(&mut self, slot: Slot, items: Items) -> Result<(), OutOfMemory>
        ensures put { OnOk result (self.new.items ≡ insert self.old.items slot.0 items) }
        ensures succeeds { 0 < self.old.spare → IsOk result }
    {
        drop(self.procedures.insert(slot.0, items)?);
        Ok(())
    }

    /// The item of the name among those under the procedure's slot, or `None` where none of them has
    /// the name.
    pub(crate) fn named(&self, procedure: Slot, name: &Name) -> Option<Declared>
        ensures { result ≡ item_named name.now (items_in self.now.items procedure.0) }
    {
        let Some(items) = self.procedures.get(&procedure.0) else {
            return None;
        };
        items.named(name)
    }

    /// The item of this number among those under the procedure's slot, counted from 0, or `None` where
    /// there are not so many.
    pub(crate) fn numbered(&self, procedure: Slot, k: usize) -> Option<Declared>
        ensures { result ≡ item_at self.now.items procedure.0 k }
    {
        let Some(items) = self.procedures.get(&procedure.0) else {
            return None;
        };
        items.numbered(k)
    }
}

impl Scopes {
    /// The items under the procedure's slot, or `None` where none are kept there.
    pub(crate) fn get(&self, procedure: Slot) -> Option<&Items>
        ensures { option_map (λ items. items.now) result ≡ get self.now.items procedure.0 }
    {
        self.procedures.get(&procedure.0)
    }

    /// Notes one item among those under the procedure's slot, if it isn't there.
    pub(crate) fn note(
        &mut self,
        alloc: Global,
        procedure: Slot,
        item: &Declared,
    ) -> Result<(), OutOfMemory>
        ensures named { OnOk result ((name : List ℕ) → item_named name (items_in self.new.items procedure.0)
            ≡ (if bytes_eq item.now.name name then Some item.now
            else item_named name (items_in self.old.items procedure.0))) }
        ensures others { OnOk result ((slot : ℕ) → nat_eq procedure.0 slot ≡ false
            → get self.new.items slot ≡ get self.old.items slot) }
    {
        if let Some(items) = self.procedures.get_mut(&procedure.0) {
            return items.put(&item.name, Shape::of(item));
        }
        let Ok(items) = Items::alone(alloc, item) else {
            return Err(OutOfMemory);
        };
        self.put(procedure, items)
    }

    /// Makes room for the items of one more procedure.
    pub(crate) fn reserve_one(&mut self) -> Result<(), OutOfMemory>
        ensures same { self.new.items ≡ self.old.items }
        ensures kept { self.old.spare ≤ self.new.spare }
        ensures room { OnOk result (1 ≤ self.new.spare) }
    {
        self.procedures.reserve(1)?;
        Ok(())
    }

    /// Takes the items out that stand under the procedure's slot, if some do.
    pub(crate) fn take(&mut self, procedure: Slot) -> Option<Items>
        ensures taken { result ≡ get self.old.items procedure.0 }
        ensures left { self.new.items ≡ remove self.old.items procedure.0 }
    {
        self.procedures.swap_remove(&procedure.0)
    }

    /// Does what becomes of the items of a procedure, which are taken from the other ones where these have some. It takes
    /// no memory.
    pub(crate) fn change(&mut self, change: ItemChange, other: &mut Scopes)
        requires room { 0 < self.old.spare }
        requires there { HasItemsOf other.old.items (plain_item_change change other.old.items) }
        ensures { self.new.items ≡ items_changed (plain_item_change change other.old.items) self.old.items }
    {
        match change {
            ItemChange::Stay => {}
            ItemChange::Gone(slot) => {
                drop(self.take(slot));
            }
            ItemChange::Set(slot) => {
                let Some(items) = other.take(slot) else {
                    unreachable!()
                };
                match self.put(slot, items) {
                    Ok(()) => {}
                    Err(_) => unreachable!(),
                }
            }
        }
    }
}
