//! The limits of a tree, asked before nodes come into it.
ghost use Rattle.std.specs.Prelude.{◌≡◌, ◌↔◌, ◌+◌, ◌<◌, ◌≤◌, IfNone, IfSome, IsTrue, length, min, true};
ghost use Rattle.template_tree.specs.Programs.Limit.{deepest_path, most_drawn_slots, most_slots};
ghost use Rattle.template_tree.specs.Programs.PlainTree.{forest};
ghost use Rattle.template_tree.specs.Private.Exchange.{MeetsLimit};
ghost use Rattle.template_tree.specs.Programs.Slots.{count, depth};
ghost use Rattle.template_tree.specs.Programs.Tree.{IsTree};

use crate::limit::{DEEPEST_PATH, MOST_DRAWN_SLOTS, MOST_SLOTS};
use crate::node::{Node, Nodes};
use crate::path::Path;
use crate::tree::Tree;
use crate::tree_fault::TreeFault;

impl Tree {
    /// The first limit that the tree would be over with so many more slots, where it wouldn't be too
    /// deep or would.
    pub(crate) fn limit_reached(&self, is_shallow: bool, slots: u32) -> Option<TreeFault>
        requires tree { IsTree self.now }
        ensures over { IfSome result (MeetsLimit is_shallow (self.now.live + slots) (self.now.drawn + slots)) }
        ensures within { IfNone result ((is_shallow ≡ true) × (self.now.live + slots ≤ most_slots)
            × (self.now.drawn + slots ≤ most_drawn_slots)) }
    {
        if !is_shallow {
            return Some(TreeFault::TooDeep);
        }
        if slots > MOST_SLOTS - self.live {
            return Some(TreeFault::TooLarge);
        }
        if slots > MOST_DRAWN_SLOTS - self.drawn {
            return Some(TreeFault::SlotsUsedUp);
        }
        None
    }
}

/// How many slots the nodes have, asked before they come into a tree: one more than the limit where there are more.
pub(crate) fn slots_up_to_limit(list: &Nodes) -> u32
    ensures { result ≡ min (count (forest list.now.items)) (most_slots + 1) }
{
    let Some(left) = slots_left(list.as_slice(), MOST_SLOTS) else {
        return MOST_SLOTS + 1;
    };
    MOST_SLOTS - left
}

/// Whether the limit of depth allows so many holes inside the node at the path.
pub(crate) fn depth_allows(path: &Path, slots: u32) -> bool
    ensures { IsTrue result ↔ (length path.now.items + min slots 1 ≤ deepest_path) }
{
    path.len() + slots.min(1) as usize <= DEEPEST_PATH
}

/// Whether no path in these nodes has more than so many numbers, as the limit asks. Its stack grows with that number.
pub(crate) fn is_within_depth(nodes: &[Node], most: u32) -> bool
    ensures { IsTrue result ↔ (depth (forest nodes.now) ≤ most) }
{
    for node in nodes {
        let Some(below) = most.checked_sub(1) else {
            return false;
        };
        if !is_within_depth(node.inner.as_slice(), below) {
            return false;
        }
    }
    true
}

/// How many slots are left below the limit of so many that may be live, when each node has one, or `None` where they
/// are too few.
pub(crate) fn slots_left(nodes: &[Node], slots: u32) -> Option<u32>
    ensures left { IfSome result (λ left. left + count (forest nodes.now) ≡ slots) }
    ensures few { IfNone result (slots < count (forest nodes.now)) }
{
    let mut left = slots;
    for node in nodes {
        let Some(others) = left.checked_sub(1) else {
            return None;
        };
        let Some(rest) = slots_left(node.inner.as_slice(), others) else {
            return None;
        };
        left = rest;
    }
    Some(left)
}
