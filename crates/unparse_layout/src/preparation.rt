//! Edits of a tree, prepared for its layout.
ghost use Rattle.std.specs.Prelude.{◌≡◌, ◌<◌, ◌≤◌, ◌∷◌, IfNone, IfOk, IfSome, Some, length, option_map};
ghost use Rattle.template_tree.specs.Programs.Limit.{deepest_path, most_slots};
ghost use Rattle.template_tree.specs.Programs.PlainTree.{PlainTree};
ghost use Rattle.template_tree.specs.Programs.Tree.{IsTree};
ghost use Rattle.template_tree.specs.declared.change.What.{What};
ghost use Rattle.unparse_layout.specs.Agreement.{IsLayoutOf};
ghost use Rattle.unparse_layout.specs.Bones.{bone_count};
ghost use Rattle.unparse_layout.specs.LayoutEdit.{IsLayoutBefore, CanPutInPlace, MayMendAt, layout_after};
ghost use Rattle.unparse_layout.specs.Private.ChangeBefore.{IsBeforeChange};
ghost use Rattle.unparse_layout.specs.Private.LayoutPaths.{bone_depth, bone_times, count_beside, layout_at, layout_below, led_below};

use crate::layout::Layout;
use crate::layout_edit::{LayoutEdit, LayoutMend, LayoutRoom};
use crate::node_layout::NodeLayout;
use plcs_base::{OutOfMemory, Slot, Work};
use std::alloc::Global;
use template_tree::{
    Change, Path, Tree, What, path_of_item, room_is_not_shown, slot_edit_is_path_edit,
};

impl<W: Work> Layout<W> {
    /// Prepares the edit of the tree that made this change. All memory is taken that the edit needs; the layout stays
    /// as it is.
    pub fn prepare(
        &mut self,
        alloc: Global,
        tree: &Tree,
        change: &Change,
    ) -> Result<LayoutEdit, OutOfMemory>
        requires tree { IsTree tree.now }
        requires before { IsLayoutBefore self.old tree.now change.now }
        ensures same { self.new ≡ self.old }
        ensures after { IfOk result (λ edit. IsLayoutOf (layout_after edit self.new) tree.now) }
        ensures ready { IfOk result (λ edit. CanPutInPlace edit self.new) }
    {
        match change.what {
            What::Part(_) => {}
            What::Node => return self.root.putting(alloc, tree, change.slot),
            What::Added => return self.root.adding(alloc, tree, change.slot),
            What::Dropped => return Ok(self.root.dropping(tree, change)),
        }
        // A layout keeps no parts.
        Ok(LayoutEdit {
            path: Path::new(),
            mend: LayoutMend::Keep,
        })
    }
}

impl NodeLayout {
    /// Prepares, for the layout inside this node, the edit that another node in the slot of the tree asks for.
    fn putting(&self, alloc: Global, tree: &Tree, slot: Slot) -> Result<LayoutEdit, OutOfMemory>
        requires tree { IsTree tree.now }
        requires before { IsBeforeChange What.Node slot.0 self.now.inner tree.now }
        ensures after { IfOk result (λ edit. IsLayoutOf (layout_after edit self.now.inner) tree.now) }
        ensures there { IfOk result (λ edit. MayMendAt edit.mend edit.path self.now.inner) }
    {
        slot_edit_is_path_edit();
        room_is_not_shown();
        let Some(path) = tree.path_of(slot) else {
            unreachable!()
        };
        let Some(node) = tree.node(&path) else {
            unreachable!()
        };
        let item = NodeLayout::of(alloc, node, self.is_led(&path))?;
        Ok(LayoutEdit {
            path,
            mend: LayoutMend::Put(item),
        })
    }

    /// Prepares, for the layout inside this node, the edit that an item added to the tree in the slot asks for.
    fn adding(&self, alloc: Global, tree: &Tree, slot: Slot) -> Result<LayoutEdit, OutOfMemory>
        requires tree { IsTree tree.now }
        requires before { IsBeforeChange What.Added slot.0 self.now.inner tree.now }
        ensures after { IfOk result (λ edit. IsLayoutOf (layout_after edit self.now.inner) tree.now) }
        ensures there { IfOk result (λ edit. MayMendAt edit.mend edit.path self.now.inner) }
    {
        slot_edit_is_path_edit();
        room_is_not_shown();
        let Some(path) = tree.path_of(slot) else {
            unreachable!()
        };
        let Some(node) = tree.node(&path) else {
            unreachable!()
        };
        let Some((k, rest)) = path.split_first() else {
            unreachable!()
        };
        let room = LayoutRoom::of(alloc, self.count_beside(*k as usize, rest) + 1)?;
        let item = NodeLayout::of(alloc, node, false)?;
        Ok(LayoutEdit {
            path,
            mend: LayoutMend::Add(item, room),
        })
    }

    /// Prepares, for the layout inside this node, the edit that an item dropped from the tree asks for. Its path is
    /// found in the layout, since the tree doesn't have it any more.
    fn dropping(&self, tree: &Tree, change: &Change) -> LayoutEdit
        requires tree { IsTree tree.now }
        requires before { (after : PlainTree) × IsTree after
            × IsBeforeChange What.Dropped change.now.slot.0 self.now.inner after }
        ensures after { (after : PlainTree) → IsTree after
            → IsBeforeChange What.Dropped change.now.slot.0 self.now.inner after
            → IsLayoutOf (layout_after result self.now.inner) after }
        ensures there { MayMendAt result.mend result.path self.now.inner }
    {
        slot_edit_is_path_edit();
        room_is_not_shown();
        let Some(path) = self.path_near(tree, change.procedure, change.slot) else {
            unreachable!()
        };
        LayoutEdit {
            path,
            mend: LayoutMend::Drop,
        }
    }
}

impl NodeLayout {
    /// Whether a line of the table of templates stands before the node at the path below this one.
    fn is_led(&self, path: &[u32]) -> bool
        ensures { result ≡ led_below self.now path.now }
    {
        let Some(node_layout) = self.below(path) else {
            return false;
        };
        node_layout.led
    }

    /// What a layout keeps of the node at the path below this one, or `None` where there is none.
    #[tactic(auto, using(crate::specs::Private::PlainNodeLayout::node_layouts_bones))]
    fn below(&self, path: &[u32]) -> Option<&NodeLayout>
        ensures { option_map (λ node_layout. node_layout.now) result ≡ layout_below self.now path.now }
    {
        let Some((k, rest)) = path.split_first() else {
            return Some(self);
        };
        let Some(item) = self.inner.get(*k as usize) else {
            return None;
        };
        item.below(rest)
    }

    /// How many nodes the list has in which a path below this node ends, which begins with the number.
    #[tactic(auto, using(crate::specs::Private::PlainNodeLayout::node_layouts_bones))]
    fn count_beside(&self, k: usize, path: &[u32]) -> usize
        ensures { result ≡ count_beside (k ∷ path.now) self.now.inner }
    {
        let Some((next, rest)) = path.split_first() else {
            return self.inner.len();
        };
        let Some(item) = self.inner.get(k) else {
            return 0;
        };
        item.count_beside(*next as usize, rest)
    }
}

impl NodeLayout {
    /// The path of the node in the slot in the layout inside this node, or `None` where the slot doesn't stand there.
    /// It is looked for in the item of the procedure in the tree first, and where that doesn't have it, in all.
    fn path_near(&self, tree: &Tree, procedure: Slot, slot: Slot) -> Option<Path>
        requires tree { IsTree tree.now }
        requires shallow { bone_depth self.now.inner ≤ deepest_path }
        requires few { bone_count self.now.inner ≤ most_slots }
        ensures none { IfNone result (bone_times slot.0 self.now.inner ≡ 0) }
        ensures path { IfSome result (λ path. option_map (λ item. item.bone.slot) (layout_at self.now.inner path.items)
            ≡ Some slot.0) }
    {
        if procedure.0 != slot.0 {
            if let Some(path) = self.path_in(item_number(tree, procedure), slot) {
                return Some(path);
            }
        }
        self.path_inside(slot)
    }

    /// The path of the node in the slot in the layout inside this node, if the slot stands inside the item of this
    /// number there.
    fn path_in(&self, k: u32, slot: Slot) -> Option<Path>
        requires shallow { bone_depth self.now.inner ≤ deepest_path }
        requires few { bone_count self.now.inner ≤ most_slots }
        ensures { IfSome result (λ path. option_map (λ item. item.bone.slot) (layout_at self.now.inner path.items)
            ≡ Some slot.0) }
    {
        let Some(item) = self.inner.get(k as usize) else {
            return None;
        };
        let Some(path) = item.path_inside(slot) else {
            return None;
        };
        Some(with_first(k, path))
    }

    /// The path of the node in the slot in the layout inside this node, or `None` where the slot doesn't stand there.
    fn path_inside(&self, slot: Slot) -> Option<Path>
        requires shallow { bone_depth self.now.inner ≤ deepest_path }
        requires few { bone_count self.now.inner ≤ most_slots }
        ensures none { IfNone result (bone_times slot.0 self.now.inner ≡ 0) }
        ensures path { IfSome result (λ path. option_map (λ item. item.bone.slot) (layout_at self.now.inner path.items)
            ≡ Some slot.0) }
        ensures short { IfSome result (λ path. length path.items ≤ bone_depth self.now.inner) }
    {
        let mut k: u32 = 0;
        while let Some(item) = self.inner.get(k as usize) {
            if item.slot.0 == slot.0 {
                return Some(path_of_item(k));
            }
            if let Some(path) = item.path_inside(slot) {
                return Some(with_first(k, path));
            }
            k += 1;
        }
        None
    }
}

/// The number of the item of the program in which the slot stands, or 0 where it isn't live.
fn item_number(tree: &Tree, slot: Slot) -> u32
    requires { IsTree tree.now }
{
    let Some(path) = tree.path_of(slot) else {
        return 0;
    };
    match path.split_first() {
        Some((k, _)) => *k,
        None => 0,
    }
}

/// A path that was found, with one more number before it.
fn with_first(k: u32, path: Path) -> Path
    requires room { length path.items < deepest_path }
    ensures { result.items ≡ k ∷ path.items }
{
    let mut longer = path;
    longer.insert(0, k);
    longer
}
