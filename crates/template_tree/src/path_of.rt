//! Paths found by the slots of their nodes.
ghost use Rattle.std.specs.Prelude.{◌≡◌, ◌+◌, ◌<◌, ◌≤◌, ◌↔◌, ◌∷◌, [], IfNone, IfSome, IsNone, Some, length, option_map};
ghost use Rattle.template_tree.specs.Programs.Limit.{deepest_path, most_slots};
ghost use Rattle.template_tree.specs.Positions.Path.{below, slot_at};
ghost use Rattle.template_tree.specs.Programs.PlainTree.{forest};
ghost use Rattle.template_tree.specs.Programs.Slots.{count, depth, times};
ghost use Rattle.template_tree.specs.Programs.Tree.{IsTree};

use crate::homes::way_down;
use crate::node::Node;
use crate::path::Path;
use crate::tree::Tree;
use plcs_base::Slot;

impl Tree {
    /// The path of the node in the slot, or `None` where the slot isn't live. It takes no memory. Where the node
    /// stands where the tree has noted it, or near there, it takes time by the length of the path alone; else, as
    /// wherever the slot isn't live, in proportion to the number of slots.
    pub fn path_of(&self, slot: Slot) -> Option<Path>
        requires tree { IsTree self.now }
        ensures none { IsNone result ↔ (times slot.0 self.now.items ≡ 0) }
        ensures path { IfSome result (λ path. slot_at self.now.items path.items ≡ Some slot.0) }
    {
        if let Some(path) = self.path_noted(slot) {
            return Some(path);
        }
        path_in(self.items.as_slice(), slot)
    }

    /// The path of the node in the slot, if it stands where that is noted, or near there; so `None` says nothing of
    /// the tree.
    fn path_noted(&self, slot: Slot) -> Option<Path>
        requires tree { IsTree self.now }
        ensures { IfSome result (λ path. slot_at self.now.items path.items ≡ Some slot.0) }
    {
        let Some(path) = way_down(self.items.as_slice(), &self.homes, slot) else {
            return None;
        };
        let Some(node) = self.node(&path) else {
            return None;
        };
        if node.slot().0 != slot.0 {
            return None;
        }
        Some(path)
    }
}

/// The path found for a slot in the list of nodes, if one of them or of those inside them has it.
#[cycle(find)]
fn path_in(nodes: &[Node], slot: Slot) -> Option<Path>
    requires shallow { depth (forest nodes.now) ≤ deepest_path }
    requires few { count (forest nodes.now) ≤ most_slots }
    ensures none { IfNone result (times slot.0 (forest nodes.now) ≡ 0) }
    ensures path { IfSome result (λ path. slot_at (forest nodes.now) path.items ≡ Some slot.0) }
    ensures short { IfSome result (λ path. length path.items ≤ depth (forest nodes.now)) }
{
    let mut k: u32 = 0;
    for node in nodes {
        if let Some(path) = path_below(node, slot) {
            return Some(with_first(k, path));
        }
        k += 1;
    }
    None
}

/// The path found for a slot below the node; it has no numbers where the slot is the node's own.
#[cycle(find)]
fn path_below(node: &Node, slot: Slot) -> Option<Path>
    requires shallow { depth node.now.inner < deepest_path }
    requires few { count node.now.inner ≤ most_slots }
    ensures none { IfNone result (times slot.0 (forest (node.now ∷ [])) ≡ 0) }
    ensures path { IfSome result (λ path. option_map (λ there. there.label.slot) (below node.now path.items)
        ≡ Some slot.0) }
    ensures short { IfSome result (λ path. length path.items ≤ depth node.now.inner) }
{
    if node.slot().0 == slot.0 {
        return Some(Path::new());
    }
    path_in(node.inner.as_slice(), slot)
}

/// A path that was found, with one more number before it.
fn with_first(k: u32, path: Path) -> Path
    requires room { length path.items < deepest_path }
    ensures { result.items ≡ k ∷ path.items }
{
    let mut longer = path;
    longer.insert(0, k);
    longer
}
