//! The effective items of a tree whose edit was prepared and isn't put in place yet.
ghost use Rattle.std.specs.Prelude.{◌≡◌, IfNone, IfSome};
ghost use Rattle.plcs_base.specs.Scope.{ItemMap, item_at};
ghost use Rattle.decl_table.specs.DeclEdit.{items_after, items_changed};

use crate::decl_edit::{DeclEdit, ItemChange};
use crate::decls::Decls;
use plcs_base::{Declared, Scope, Slot};
use std::marker::Model;

/// The effective items of a tree whose edit was prepared, which contracts see as a finite map.
#[derive(Drop)]
pub struct DeclsAfter<'a> {
    decls: &'a Decls,
    edit: &'a DeclEdit,
}

impl<'a> Model for DeclsAfter<'a> {
    ghost use Rattle.plcs_base.specs.Scope.{ItemMap};
    ghost use Rattle.decl_table.specs.DeclEdit.{items_after};
    ghost use Rattle.decl_table.specs.Private.DeclsView.{item_map_code};

    ghost Value = { ItemMap };

    ghost coded = { item_map_code };

    ghost view = { λ a. items_after a.edit.now a.decls.now.items };
}

impl Decls {
    /// The effective items of the edited tree, where this edit was prepared for the table. It takes no memory.
    pub fn after<'a>(&'a self, edit: &'a DeclEdit) -> DeclsAfter<'a>
        ensures { result ≡ items_after edit.now self.now.items }
    {
        DeclsAfter { decls: self, edit }
    }
}

impl<'a> Scope for DeclsAfter<'a> {
    ghost items = { λ items. items };

    fn declared(&self, procedure: Slot, k: u32) -> Option<Declared> {
        match self.edit.changed_item(procedure, k) {
            Some(item) => item,
            None => self.decls.declared(procedure, k),
        }
    }
}

impl DeclEdit {
    /// The item of this number that the procedure has after the edit, counted from 0, or none, if its items change.
    fn changed_item(&self, procedure: Slot, k: u32) -> Option<Option<Declared>>
        ensures none { IfNone result ((items : ItemMap) → item_at (items_changed self.now.items items) procedure.0 k
            ≡ item_at items procedure.0 k) }
        ensures changed { IfSome result (λ item. (items : ItemMap)
            → item_at (items_changed self.now.items items) procedure.0 k ≡ item) }
    {
        match self.items {
            ItemChange::Stay => None,
            ItemChange::Set(slot) => {
                if slot.0 != procedure.0 {
                    return None;
                }
                Some(self.table.scopes.numbered(procedure, k as usize))
            }
            ItemChange::Gone(slot) => {
                if slot.0 != procedure.0 {
                    return None;
                }
                Some(None)
            }
        }
    }
}
