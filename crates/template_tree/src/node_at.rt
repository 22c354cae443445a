//! Nodes found by their paths.
ghost use Rattle.std.specs.Prelude.{◌≡◌, ◌+◌, ◌<◌, ◌≤◌, IfSome, length, option_map};
ghost use Rattle.std.specs.Borrow.{LendsIf, sem};
ghost use Rattle.template_tree.specs.contracts.node.Node as node_row;
ghost use Rattle.template_tree.specs.contracts.tree.Tree as tree_row;
ghost use Rattle.template_tree.specs.Edits.Lend.{with_node};
ghost use Rattle.template_tree.specs.Programs.Limit.{most_slots};
ghost use Rattle.template_tree.specs.Positions.Path.{below, node_at};
ghost use Rattle.template_tree.specs.Programs.PlainTree.{nodes};
ghost use Rattle.template_tree.specs.Programs.Program.{IsSubtree};
ghost use Rattle.template_tree.specs.Programs.Slots.{count};
ghost use Rattle.template_tree.specs.Programs.Tree.{IsTree};

use crate::descent::{Deepest, Descent};
use crate::node::Node;
use crate::path::Path;
use crate::tree::Tree;

impl Tree {
    /// The node at the path, or `None` where the tree has none there.
    #[tactic(auto, using(crate::specs::Programs::PlainTree::nodes_forest))]
    pub fn node(&self, path: &Path) -> Option<&Node>
        requires tree { IsTree self.now }
        ensures found { option_map (λ node. node.now) result ≡ node_at self.now.items path.now.items }
        ensures subtree { IfSome result (λ node. IsSubtree node.now) }
        ensures few { IfSome result (λ node. count node.now.inner + 1 ≤ most_slots) }
        ensures children_few { IfSome result (λ node. length (nodes node.now.inner) < most_slots) }
    {
        let Some((k, rest)) = path.split_first() else {
            return None;
        };
        let Some(item) = self.items.get(*k as usize) else {
            return None;
        };
        item.below(rest)
    }
}

impl Tree {
    /// Finds a node by its path and lends it for writing, or `None` where the tree has none there. The one
    /// public call that writes to a node is `Node::put_part`.
    pub fn node_mut(&mut self, path: &Path) -> Option<&mut Node>
        requires tree { IsTree self.old }
        ensures* writes_back { sem 𝓛 (LendsIf tree_row.the_row node_row.the_row self.entry result
            (with_node self.old path.now.items) self.old) }
        ensures found { option_map (λ node. node.now) result ≡ node_at self.old.items path.now.items }
        ensures subtree { IfSome result (λ node. IsSubtree node.now) }
        ensures few { IfSome result (λ node. count node.now.inner + 1 ≤ most_slots) }
        ensures children_few { IfSome result (λ node. length (nodes node.now.inner) < most_slots) }
    {
        let Some((k, rest)) = path.split_first() else {
            return None;
        };
        Deepest::down(&mut self.items, *k as usize, rest)
    }
}

impl Node {
    /// The node found at the path below this one, or `None` where it has none there.
    #[tactic(auto, using(crate::specs::Programs::PlainTree::nodes_forest))]
    fn below(&self, path: &[u32]) -> Option<&Node>
        ensures { option_map (λ node. node.now) result ≡ below self.now path.now }
    {
        let Some((k, rest)) = path.split_first() else {
            return Some(self);
        };
        let Some(item) = self.inner.get(*k as usize) else {
            return None;
        };
        item.below(rest)
    }
}
