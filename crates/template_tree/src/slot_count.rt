//! How many slots a node has, with those of the nodes inside it.
ghost use Rattle.std.specs.Prelude.{◌≡◌, ◌+◌, ◌<◌, ◌≤◌, IfNone, IfSome, option_map};
ghost use Rattle.template_tree.specs.Positions.Path.{node_at};
ghost use Rattle.template_tree.specs.Programs.Slots.{count};
ghost use Rattle.template_tree.specs.Programs.Tree.{IsTree};

use crate::limit_reached::slots_left;
use crate::node::Node;
use crate::path::Path;
use crate::tree::Tree;

impl Tree {
    /// How many slots the node at the path has, its own among them, or `None` where the tree has no
    /// node there. It takes no memory.
    pub fn slots_at(&self, path: &Path) -> Option<u32>
        requires tree { IsTree self.now }
        ensures { result ≡ option_map (λ node. count node.inner + 1) (node_at self.now.items path.now.items) }
    {
        let Some(node) = self.node(path) else {
            return None;
        };
        Some(node.slots())
    }
}

impl Node {
    /// How many slots this node has, its own among them.
    pub fn slots(&self) -> u32
        requires few { count self.now.inner + 1 ≤ 4294967295 }
        ensures { result ≡ count self.now.inner + 1 }
    {
        let mut slots = 1;
        for node in self.inner.as_slice() {
            slots += node.slots();
        }
        slots
    }

    /// How many slots this node has, its own among them, or `None` where they are more than so many. It
    /// counts no further than that.
    pub fn slots_within(&self, most: u32) -> Option<u32>
        ensures within { IfSome result (λ slots. (slots ≡ count self.now.inner + 1) × (slots ≤ most)) }
        ensures over { IfNone result (most < count self.now.inner + 1) }
    {
        let Some(others) = most.checked_sub(1) else {
            return None;
        };
        match slots_left(self.inner.as_slice(), others) {
            Some(left) => Some(most - left),
            None => None,
        }
    }
}
