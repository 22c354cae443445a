//! Nodes put into holes.
ghost use Rattle.std.specs.Prelude.{◌≡◌, IfErr, IfOk};
ghost use Rattle.template_tree.specs.Edits.EditAnswer.{Edits, IsHoleFor, Refuses};
ghost use Rattle.template_tree.specs.Positions.Path.{node_at};
ghost use Rattle.template_tree.specs.Programs.Program.{IsSubtree};
ghost use Rattle.template_tree.specs.Edits.Receipt.{NeedsNoRoom};
ghost use Rattle.template_tree.specs.Programs.Tree.{IsTree};
ghost use Rattle.template_tree.specs.Edits.TreeEdit.{TreeEdit};
ghost use Rattle.template_tree.specs.declared.tree_fault.TreeFault.{TreeFault};

use crate::hole::is_hole_for;
use crate::limit::DEEPEST_PATH;
use crate::limit_reached::{is_within_depth, slots_up_to_limit};
use crate::node::Node;
use crate::path::Path;
use crate::receipt::Receipt;
use crate::tree::Tree;
use crate::tree_fault::TreeFault;

impl Tree {
    /// The hole at the path becomes the node, whose inner nodes take the next slots in listing order;
    /// nothing in it is elided. It takes no memory, and gives the node back where it is refused:
    /// `NotHere` where no hole of its sort is at the path, or a limit.
    pub fn insert(&mut self, path: &Path, node: Node) -> Result<Receipt, (TreeFault, Node)>
        requires tree { IsTree self.old }
        requires node { IsSubtree node }
        ensures edited { IfOk result (Edits (TreeEdit.put node) (node_at self.old.items path.now.items)
            (IsHoleFor node.label.kind) self.old self.new) }
        ensures no_room { IfOk result NeedsNoRoom }
        ensures refused { IfErr result (λ back. Refuses (TreeEdit.put node) (node_at self.old.items path.now.items)
            (IsHoleFor node.label.kind) self.old back.0) }
        ensures tree { IsTree self.new }
        ensures unchanged { IfErr result (λ back. (back.1 ≡ node) × (self.new ≡ self.old)) }
        ensures no_memory { IfErr result (λ back. back.0 ≡ TreeFault.OutOfMemory → ⊥) }
    {
        let Some(there) = self.node(path) else {
            return Err((TreeFault::NotHere, node));
        };
        if !is_hole_for(node.kind, there.kind) {
            return Err((TreeFault::NotHere, node));
        }
        let most = (DEEPEST_PATH - path.len()) as u32;
        let is_shallow = is_within_depth(node.inner.as_slice(), most);
        if let Some(fault) = self.limit_reached(is_shallow, slots_up_to_limit(&node.inner)) {
            return Err((fault, node));
        }
        Ok(self.put(path, node))
    }
}
