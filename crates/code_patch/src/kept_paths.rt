//! Paths among kept nodes: where a slot stands, and what stands at a path.
ghost use Rattle.std.specs.Prelude.{◌≡◌, ◌^◌, ◌<◌, ◌≤◌, ◌∷◌, IfNone, IfSome, true, length, option_map};
ghost use Rattle.template_tree.specs.Programs.Limit.{deepest_path};
ghost use Rattle.template_tree.specs.Programs.PlainTree.{Forest};
ghost use Rattle.code_patch.specs.SoundCode.{times_kept};
ghost use Rattle.code_patch.specs.Private.KeptPaths.{LeadsToChange, kept_below, kept_depth, root_of, slot_kept_at};
ghost use Rattle.code_patch.specs.Private.PlainCodeNode.{count_kept};

use crate::code_node::CodeNode;
use crate::code_tree::CodeTree;
use plcs_base::Slot;
use plcs_grammar::NodeKind;
use slot_homes::Homes;
use template_tree::{Path, path_of_item};

impl<W> CodeTree<W> {
    /// The path of the kept node in the slot, if one has it. It looks first where the node is noted to stand; only
    /// where it isn't there it goes over all nodes.
    pub(crate) fn path_kept(&self, slot: Slot) -> Option<Path>
        requires shallow { kept_depth self.now.items ≤ deepest_path }
        requires few { count_kept self.now.items < 2 ^ 32 }
        ensures none { IfNone result (times_kept slot.0 self.now.items ≡ 0) }
        ensures path { IfSome result (λ path. LeadsToChange true slot.0 path.items (root_of self.now) Forest.nil) }
    {
        if let Some(path) = self.root.path_noted(&self.homes, slot) {
            return Some(path);
        }
        self.root.path_inside(slot)
    }
}

impl<W> CodeNode<W> {
    /// The path of the kept node in the slot, from this node on, if it stands where that is noted, or near there; so
    /// `None` says nothing of what is kept.
    fn path_noted(&self, homes: &Homes, slot: Slot) -> Option<Path>
        ensures { IfSome result (λ path. LeadsToChange true slot.0 path.items self.now Forest.nil) }
    {
        let Some(path) = self.way_down(homes, slot) else {
            return None;
        };
        if path.is_empty() {
            return None;
        }
        let Some(there) = self.slot_at(path.as_slice()) else {
            return None;
        };
        if there.0 != slot.0 {
            return None;
        }
        Some(path)
    }

    /// The path of the kept node in the slot, from this node on, if one inside it has it.
    fn path_inside(&self, slot: Slot) -> Option<Path>
        requires shallow { kept_depth self.now.inner ≤ deepest_path }
        requires few { count_kept self.now.inner < 2 ^ 32 }
        ensures none { IfNone result (times_kept slot.0 self.now.inner ≡ 0) }
        ensures path { IfSome result (λ path. LeadsToChange true slot.0 path.items self.now Forest.nil) }
        ensures short { IfSome result (λ path. length path.items ≤ kept_depth self.now.inner) }
    {
        let mut k: u32 = 0;
        while let Some(child) = self.child(k as usize) {
            if child.slot().0 == slot.0 {
                return Some(path_of_item(k));
            }
            if let Some(path) = child.path_inside(slot) {
                return Some(with_first(k, path));
            }
            k += 1;
        }
        None
    }

    /// The slot of the kept node at the path from this node on, or `None` where there is none.
    fn slot_at(&self, way: &[u32]) -> Option<Slot>
        ensures { option_map (λ slot. slot.0) result ≡ slot_kept_at self.now way.now }
    {
        let Some((k, rest)) = way.split_first() else {
            return Some(self.slot());
        };
        let Some(child) = self.child(*k as usize) else {
            return None;
        };
        child.slot_at(rest)
    }

    /// The kind of the kept node at the path from this node on, or `None` where there is none.
    pub(crate) fn kind_at(&self, way: &[u32]) -> Option<NodeKind>
        ensures { result ≡ option_map (λ node. node.own.kind) (kept_below self.now way.now) }
    {
        let Some((k, rest)) = way.split_first() else {
            return Some(self.kind());
        };
        let Some(child) = self.child(*k as usize) else {
            return None;
        };
        child.kind_at(rest)
    }
}

/// A path with one more number before it.
fn with_first(k: u32, path: Path) -> Path
    requires room { length path.items < deepest_path }
    ensures { result.items ≡ k ∷ path.items }
{
    let mut longer = path;
    longer.insert(0, k);
    longer
}
