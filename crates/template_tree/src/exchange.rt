//! A node that comes in place of another, and what the change of an edit says.
ghost use Rattle.std.specs.Prelude.{◌≡◌, IfSome, IsSome, IsSomeAnd, None, Some};
ghost use Rattle.template_tree.specs.Edits.Edit.{Put};
ghost use Rattle.template_tree.specs.Edits.EditAnswer.{IsEdit, slot_in};
ghost use Rattle.template_tree.specs.Positions.Path.{node_at};
ghost use Rattle.template_tree.specs.Private.Exchange.{IsChangeOf, MayReplace, first_item};
ghost use Rattle.template_tree.specs.Edits.Receipt.{NeedsNoRoom};
ghost use Rattle.template_tree.specs.Programs.Tree.{IsTree};
ghost use Rattle.template_tree.specs.Edits.TreeEdit.{TreeEdit};
ghost use Rattle.template_tree.specs.declared.change.What.{What};

use crate::change::{Change, What};
use crate::node::Node;
use crate::path::{Path, copy_path};
use crate::receipt::{Receipt, Undoing};
use crate::tree::Tree;
use plcs_base::Slot;
use std::alloc::Global;
use std::mem;

impl Tree {
    /// Puts the node in place of the one at the path. The receipt holds the old node.
    pub(crate) fn put(&mut self, path: &Path, node: Node) -> Receipt
        requires tree { IsTree self.old }
        requires fits { IsSomeAnd (node_at self.old.items path.now.items) (MayReplace self.old node) }
        ensures edit { IsEdit (TreeEdit.put node) (slot_in (node_at self.old.items path.now.items)) self.old self.new
            result None }
        ensures no_room { NeedsNoRoom result }
    {
        let (drawn, live) = (self.drawn, self.live);
        let (old, change) = self.exchange(path, node);
        Receipt {
            change,
            path: copy_path(path),
            undoing: Undoing::Put(old),
            drawn,
            live,
        }
    }

    /// As `put`, for an edit that may take memory: where there is some, all slots are noted that aren't yet.
    pub(crate) fn put_fresh(&mut self, alloc: Global, path: &Path, node: Node) -> Receipt
        requires tree { IsTree self.old }
        requires fits { IsSomeAnd (node_at self.old.items path.now.items) (MayReplace self.old node) }
        ensures edit { IsEdit (TreeEdit.put node) (slot_in (node_at self.old.items path.now.items)) self.old self.new
            result None }
        ensures no_room { NeedsNoRoom result }
    {
        let receipt = self.put(path, node);
        let _ = self.enter_slots(alloc);
        receipt
    }

    /// Puts the node in place of the one at the path, into its slot, with the next slots for what stands
    /// inside it, and notes where all these stand. Gives out the old node and what was changed.
    pub(crate) fn exchange(&mut self, path: &Path, node: Node) -> (Node, Change)
        requires tree { IsTree self.old }
        requires fits { IsSomeAnd (node_at self.old.items path.now.items) (MayReplace self.old node) }
        ensures old { node_at self.old.items path.now.items ≡ Some result.0 }
        ensures put { self.new ≡ Put self.old result.0.label.slot node }
        ensures change { IsChangeOf self.new result.0.label.slot What.Node result.1 }
    {
        let (drawn, live) = (self.drawn, self.live);
        let procedure = self.procedure_at(path);
        let Some(there) = self.node_mut(path) else {
            unreachable!()
        };
        let slot = there.slot;
        let mut new = node;
        let next = new.settle(slot, drawn);
        let old = mem::replace(there, new);
        self.drawn = next;
        self.live = live - old.slots() + 1 + (next - drawn);
        self.note(path);
        (old, Change::of_node(slot, procedure))
    }

    /// The procedure that the change of an edit tells: the slot of main, the procedure or the procedure
    /// hole on the way of the path.
    #[tactic(auto, using(crate::specs::Programs::PlainTree::nodes_forest))]
    pub(crate) fn procedure_at(&self, path: &Path) -> Slot
        requires { IsSome (first_item self.now.items path.now.items) }
        ensures { IfSome (first_item self.now.items path.now.items) (λ item. result.0 ≡ item.label.slot) }
    {
        let Some((k, _)) = path.split_first() else {
            unreachable!()
        };
        let Some(item) = self.items.get(*k as usize) else {
            unreachable!()
        };
        item.slot
    }
}

impl Change {
    /// The change of an exchange: another node came into a slot of the procedure.
    fn of_node(slot: Slot, procedure: Slot) -> Change
        ensures { result ≡ record { slot = slot; procedure = procedure; what = What.Node } }
    {
        Change {
            slot,
            procedure,
            what: What::Node,
        }
    }
}
