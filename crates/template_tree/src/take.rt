//! Nodes taken out of a tree.
ghost use Rattle.std.specs.Prelude.{◌≡◌, IfErr, IfOk, IsSomeAnd, Some};
ghost use Rattle.template_tree.specs.Edits.Hole.{hole_left};
ghost use Rattle.template_tree.specs.Edits.EditAnswer.{MayTake, TakesOut};
ghost use Rattle.template_tree.specs.Positions.Path.{node_at};
ghost use Rattle.template_tree.specs.Programs.Program.{IsSubtree};
ghost use Rattle.template_tree.specs.Edits.Receipt.{NeedsNoRoom};
ghost use Rattle.template_tree.specs.Programs.Tree.{IsTree};
ghost use Rattle.template_tree.specs.declared.tree_fault.TreeFault.{TreeFault};

use crate::hole::hole_left;
use crate::node::Node;
use crate::path::{Path, copy_path};
use crate::receipt::{Receipt, Undoing};
use crate::tree::Tree;
use crate::tree_fault::TreeFault;
use plcs_base::Slot;
use std::alloc::Global;

impl Tree {
    /// Takes the node at the path out; a hole stays in its slot. `NotHere` where no node is there, and
    /// where it is main or a hole. It takes no memory.
    pub fn take(&mut self, alloc: Global, path: &Path) -> Result<(Node, Receipt), TreeFault>
        requires tree { IsTree self.old }
        ensures taken { IfOk result (λ r. node_at self.old.items path.now.items ≡ Some r.0) }
        ensures edited { IfOk result (λ r. TakesOut r.0 self.old self.new r.1) }
        ensures subtree { IfOk result (λ r. IsSubtree r.0) }
        ensures no_room { IfOk result (λ r. NeedsNoRoom r.1) }
        ensures refused { IfErr result (λ fault. (fault ≡ TreeFault.NotHere)
            × (IsSomeAnd (node_at self.old.items path.now.items) MayTake → ⊥)) }
        ensures tree { IsTree self.new }
        ensures unchanged { IfErr result (λ _. self.new ≡ self.old) }
    {
        let (drawn, live) = (self.drawn, self.live);
        let Some(there) = self.node(path) else {
            return Err(TreeFault::NotHere);
        };
        let Some(kind) = hole_left(there.kind) else {
            return Err(TreeFault::NotHere);
        };
        let hole = Node::bare(alloc, Slot(0), kind);
        let (node, change) = self.exchange(path, hole);
        let receipt = Receipt {
            change,
            path: copy_path(path),
            undoing: Undoing::PutBack,
            drawn,
            live,
        };
        Ok((node, receipt))
    }
}
