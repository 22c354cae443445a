//! Holes added to lists and dropped from them.
ghost use Rattle.std.specs.Prelude.{◌≡◌, ◌↔◌, ◌<◌, [], IfErr, IfNone, IfOk, IfSome, IsSome, IsSomeAnd, IsTrue};
ghost use Rattle.template_tree.specs.Edits.EditAnswer.{Edits, IsListItem, IsSpareHole, Refuses};
ghost use Rattle.template_tree.specs.Positions.Path.{node_at};
ghost use Rattle.template_tree.specs.Programs.PlainTree.{roomless_node, roomless_tree};
ghost use Rattle.template_tree.specs.Private.Restored.{with_edit};
ghost use Rattle.template_tree.specs.Edits.Receipt.{NeedsNoRoom, list_room, with_beside};
ghost use Rattle.template_tree.specs.Programs.Tree.{IsTree};
ghost use Rattle.template_tree.specs.Edits.TreeEdit.{TreeEdit};
ghost use Rattle.template_tree.specs.declared.tree_fault.TreeFault.{TreeFault};

use crate::beside::{added_path, path_before, side_left};
use crate::change::{Change, What};
use crate::hole::{hole_of, is_hole};
use crate::list_item::{are_two, is_listed};
use crate::node::Node;
use crate::path::Path;
use crate::receipt::{Receipt, Undoing};
use crate::side::Side;
use crate::tree::Tree;
use crate::tree_fault::TreeFault;
use plcs_base::{OutOfMemory, Slot};
use std::alloc::Global;

impl Tree {
    /// Adds a hole on this side of the item at the path, in the next slot. `NotHere` where no item of a
    /// list is there.
    pub fn add_hole(&mut self, alloc: Global, path: &Path, side: Side) -> Result<Receipt, TreeFault>
        requires tree { IsTree self.old }
        ensures edited { IfOk result (Edits (TreeEdit.add side) (node_at self.old.items path.now.items)
            (IsListItem self.old.items path.now.items) self.old self.new) }
        ensures no_room { IfOk result NeedsNoRoom }
        ensures refused { IfErr result (Refuses (TreeEdit.add side) (node_at self.old.items path.now.items)
            (IsListItem self.old.items path.now.items) self.old) }
        ensures tree { IsTree self.new }
        ensures unchanged { IfErr result (λ _. self.new ≡ self.old) }
    {
        let Some(there) = self.node(path) else {
            return Err(TreeFault::NotHere);
        };
        let sort = there.kind().row().sort;
        if !is_listed(sort, self.sections_at(path)) {
            return Err(TreeFault::NotHere);
        }
        let Some(hole) = hole_of(sort) else {
            return Err(TreeFault::NotHere);
        };
        if let Some(fault) = self.limit_reached(true, 1) {
            return Err(fault);
        }
        let (drawn, live) = (self.drawn, self.live);
        let node = Node::bare(alloc, Slot(drawn), hole);
        if let Err(_) = self.add_beside(alloc, path, side, node) {
            return Err(TreeFault::OutOfMemory);
        }
        let added = added_path(side, path);
        let procedure = self.procedure_at(&added);
        self.drawn = drawn + 1;
        self.live = live + 1;
        let change = Change {
            slot: Slot(drawn),
            procedure,
            what: What::Added,
        };
        Ok(Receipt {
            change,
            path: added,
            undoing: Undoing::TakeOut,
            drawn,
            live,
        })
    }

    /// Drops the hole at the path from its list, which keeps room for one item at least. `NotHere` where
    /// no hole in a list of two or more is there. It takes no memory.
    pub fn drop_hole(&mut self, path: &Path) -> Result<Receipt, TreeFault>
        requires tree { IsTree self.old }
        ensures edited { IfOk result (Edits TreeEdit.drop (node_at self.old.items path.now.items)
            (IsSpareHole self.old.items path.now.items) self.old self.new) }
        ensures room { IfOk result (λ _. 0 < list_room self.new.spare self.new.items path.now.items) }
        ensures refused { IfErr result (λ fault. (fault ≡ TreeFault.NotHere)
            × (IsSomeAnd (node_at self.old.items path.now.items) (IsSpareHole self.old.items path.now.items) → ⊥)) }
        ensures tree { IsTree self.new }
        ensures unchanged { IfErr result (λ _. self.new ≡ self.old) }
    {
        if !self.is_spare_hole(path) {
            return Err(TreeFault::NotHere);
        }
        let procedure = self.procedure_at(path);
        let (drawn, live) = (self.drawn, self.live);
        let Some(hole) = self.drop_item(path) else {
            return Err(TreeFault::NotHere);
        };
        self.live = live - 1;
        let change = Change {
            slot: hole.slot,
            procedure,
            what: What::Dropped,
        };
        Ok(Receipt {
            change,
            path: path_before(path),
            undoing: Undoing::PutIn(side_left(path), hole),
            drawn,
            live,
        })
    }
}

impl Tree {
    /// Whether the node at the path may be dropped from its list: it is a hole in a list of two or more.
    fn is_spare_hole(&self, path: &Path) -> bool
        requires tree { IsTree self.now }
        ensures { IsTrue result
            ↔ IsSomeAnd (node_at self.now.items path.now.items) (IsSpareHole self.now.items path.now.items) }
    {
        let Some(there) = self.node(path) else {
            return false;
        };
        let sort = there.kind().row().sort;
        if !is_hole(there.kind()) {
            return false;
        }
        if !is_listed(sort, self.sections_at(path)) {
            return false;
        }
        are_two(sort, self.siblings_at(path))
    }

    /// Puts the hole that is added beside the item at the path, takes memory for it, and notes where it
    /// stands; the tree's counts stay. Where there is memory for that too, all slots are noted that aren't yet.
    fn add_beside(
        &mut self,
        alloc: Global,
        path: &Path,
        side: Side,
        node: Node,
    ) -> Result<(), OutOfMemory>
        requires there { IsSome (node_at self.old.items path.now.items) }
        ensures added { IfOk result (λ _. roomless_tree self.new ≡ with_edit (with_beside side (roomless_node node))
            path.now.items (roomless_tree self.old)) }
        ensures refused { IfErr result (λ _. self.new ≡ self.old) }
    {
        let Some((k, rest)) = path.split_first() else {
            unreachable!()
        };
        if let Err(OutOfMemory) = self.items.add_at(*k as usize, rest, side, node) {
            return Err(OutOfMemory);
        }
        self.note_list(path);
        let _ = self.enter_slots(alloc);
        Ok(())
    }

    /// Drops the hole at the path from its list, if one is there, gives it, and notes where its neighbours
    /// stand; the tree's counts stay.
    pub(crate) fn drop_item(&mut self, path: &Path) -> Option<Node>
        ensures taken { result ≡ node_at self.old.items path.now.items }
        ensures others { roomless_tree self.new ≡ with_edit (λ _. []) path.now.items (roomless_tree self.old) }
        ensures none { IfNone result (self.new ≡ self.old) }
        ensures room { IfSome result (λ _. 0 < list_room self.new.spare self.new.items path.now.items) }
    {
        let item = self.take_item(path);
        self.note_list(path);
        item
    }

    /// As `drop_item`, but notes nothing.
    fn take_item(&mut self, path: &Path) -> Option<Node>
        ensures taken { result ≡ node_at self.old.items path.now.items }
        ensures others { roomless_tree self.new ≡ with_edit (λ _. []) path.now.items (roomless_tree self.old) }
        ensures none { IfNone result (self.new ≡ self.old) }
        ensures room { IfSome result (λ _. 0 < list_room self.new.spare self.new.items path.now.items) }
    {
        let Some((k, rest)) = path.split_first() else {
            return None;
        };
        self.items.remove_at(*k as usize, rest)
    }
}
