//! The effective items of one procedure, as they are taken from its declarations one after the other.
ghost use Rattle.std.specs.Prelude.{◌≡◌, ◌<◌, [], IfOk, OnOk, Some};
ghost use Rattle.template_tree.specs.Checks.Environment.{declares, effective, item_offence, items_inside, with_type, with_declared};
ghost use Rattle.template_tree.specs.Checks.Verdict.{declared_offence};
ghost use Rattle.decl_table.specs.Private.ItemsView.{shaped};
ghost use Rattle.template_tree.specs.Programs.Limit.{most_slots};
ghost use Rattle.template_tree.specs.Programs.Slots.{count};

use crate::items::{Items, Shape};
use plcs_base::{ItemType, MarkKind, Name, OutOfMemory};
use plcs_grammar::{Builtin, Item};
use std::alloc::Global;
use std::marker::Model;
use template_tree::{MOST_CELLS, Node, items_are_nodes, list_items, type_given};

/// The effective items of one procedure so far, with the number of their cells. Contracts see it as the list.
#[derive(Drop)]
pub(crate) struct ItemFold {
    items: Items,
    cells: u32,
}

impl Model for ItemFold {
    ghost use Rattle.std.specs.Prelude.{List};
    ghost use Rattle.plcs_base.specs.declared.declared.Declared.{Declared};
    ghost use Rattle.decl_table.specs.Private.ItemsView.{items_code};
    ghost use Rattle.decl_table.specs.Private.ItemFoldView.{IsCounted};

    ghost Value = { List Declared };

    ghost coded = { items_code };

    ghost view = { λ a. a.items };

    ghost invariant = { IsCounted };
}

impl Items {
    /// The effective items of the procedure, taken from its nodes one after the other.
    pub(crate) fn of(alloc: Global, procedure: &Node) -> Result<Items, OutOfMemory>
        requires few { count procedure.now.inner < most_slots }
        ensures { IfOk result (λ items. items ≡ items_inside procedure.now.inner) }
    {
        let mut fold = ItemFold::new(alloc);
        match fold.declare_inside(procedure) {
            Ok(()) => Ok(fold.end()),
            Err(OutOfMemory) => {
                drop(fold);
                Err(OutOfMemory)
            }
        }
    }
}

impl ItemFold {
    /// No items, before any of the procedure is taken.
    pub(crate) fn new(alloc: Global) -> ItemFold
        ensures { result ≡ [] }
    {
        ItemFold {
            items: Items::new(alloc),
            cells: 0,
        }
    }

    /// The items that were taken.
    fn end(self) -> Items
        ensures { result ≡ self }
    {
        let ItemFold { items, .. } = self;
        items
    }

    /// Takes the items that the nodes of the procedure declare, as far as they are effective, where none is taken yet.
    fn declare_inside(&mut self, procedure: &Node) -> Result<(), OutOfMemory>
        requires few { count procedure.now.inner < most_slots }
        requires none { self.old ≡ [] }
        ensures { OnOk result (self.new ≡ items_inside procedure.now.inner) }
    {
        items_are_nodes();
        let mut k = 0;
        while let Some(node) = procedure.child(k) {
            self.declare_all(node)?;
            k += 1;
        }
        Ok(())
    }

    /// Takes the items that the node declares, as far as they are effective, and says what is wrong with the first
    /// other one.
    pub(crate) fn declare_all(&mut self, node: &Node) -> Result<Option<MarkKind>, OutOfMemory>
        ensures items { OnOk result (self.new ≡ effective self.old (declares node.now.label)) }
        ensures offence { IfOk result (λ offence. offence ≡ declared_offence self.old (declares node.now.label)) }
    {
        let Some(ty) = type_given(node) else {
            return Ok(None);
        };
        self.declare_list(ty, list_items(node))
    }

    /// Takes the items of a declared list with the type, as far as they are effective, and says what is wrong with
    /// the first other one.
    fn declare_list(&mut self, ty: ItemType, list: &[Item]) -> Result<Option<MarkKind>, OutOfMemory>
        ensures items { OnOk result (self.new ≡ effective self.old (with_type (Some ty) list.now)) }
        ensures offence { IfOk result (λ offence. offence
            ≡ declared_offence self.old (with_type (Some ty) list.now)) }
    {
        let mut first = None;
        for item in list {
            let offence = self.declare(&item.name, Shape::declared(ty, item))?;
            first = first.or(offence);
        }
        Ok(first)
    }

    /// Takes one more item, where it is effective behind those that are taken, or else says what is wrong with it.
    fn declare(&mut self, name: &Name, shape: Shape) -> Result<Option<MarkKind>, OutOfMemory>
        ensures items { OnOk result (self.new ≡ with_declared self.old (shaped name.now shape)) }
        ensures offence { IfOk result (λ offence. offence ≡ item_offence self.old (shaped name.now shape)) }
    {
        if let Some(offence) = self.offence(name, shape) {
            return Ok(Some(offence));
        }
        let cells = self.cells + shape.cells();
        self.items.put(name, shape)?;
        self.cells = cells;
        Ok(None)
    }

    /// Why one more item isn't taken among the effective ones of the procedure, behind those that were taken,
    /// or `None` where it is.
    fn offence(&self, name: &Name, shape: Shape) -> Option<MarkKind>
        ensures { result ≡ item_offence self.now (shaped name.now shape) }
    {
        if Builtin::read(name.as_bytes()).is_some() {
            return Some(MarkKind::Reserved);
        }
        if self.items.has(name) {
            return Some(MarkKind::Duplicate);
        }
        if shape.cells() > MOST_CELLS - self.cells {
            return Some(MarkKind::TooManyCells);
        }
        None
    }
}
