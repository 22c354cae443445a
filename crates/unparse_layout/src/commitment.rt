//! Edits put in place in a layout.
ghost use Rattle.std.specs.Prelude.{◌≡◌, ◌<◌, ◌≤◌, ◌∷◌, length, slice_set};
ghost use Rattle.std.specs.List.{insert, remove};
ghost use Rattle.template_tree.specs.Programs.Limit.{most_slots};
ghost use Rattle.unparse_layout.specs.Bones.{bone_count};
ghost use Rattle.unparse_layout.specs.LayoutEdit.{CanPutInPlace, MayMend, MayMendAt, layout_mended, layout_mended_at, layout_after};
ghost use Rattle.unparse_layout.specs.Private.LayoutEditView.{plain_mend, with_mend, with_inside};
ghost use Rattle.unparse_layout.specs.Private.PlainNodeLayout.{bones, node_layouts};

use crate::layout::Layout;
use crate::layout_edit::{LayoutEdit, LayoutMend, LayoutRoom};
use crate::node_layout::NodeLayout;
use plcs_base::Work;

impl<W: Work> Layout<W> {
    /// Puts an edit in place that was prepared last for the layout, and mends the numbers of lines on its path alone.
    /// It takes no memory.
    pub fn commit(&mut self, edit: LayoutEdit)
        requires ready { CanPutInPlace edit self.old }
        ensures { self.new ≡ layout_after edit self.old }
    {
        let LayoutEdit { path, mend } = edit;
        let Some((k, rest)) = path.split_first() else {
            drop(mend);
            return;
        };
        self.root.mend_at(*k as usize, rest, mend);
    }
}

impl NodeLayout {
    /// Does what becomes of the node at a path below this one, which begins with the number, and mends the heights on
    /// the way.
    fn mend_at(&mut self, k: usize, path: &[u32], mend: LayoutMend)
        requires there { MayMendAt (plain_mend mend) (k ∷ path.now) self.old.inner }
        requires few { bone_count (layout_mended_at (plain_mend mend) (k ∷ path.now) self.old.inner) ≤ most_slots }
        ensures { self.new ≡ with_mend (plain_mend mend) (k ∷ path.now) self.old }
    {
        let Some((next, rest)) = path.split_first() else {
            self.mend(k, mend);
            return;
        };
        let Some(item) = self.inner.get_mut(k) else {
            unreachable!()
        };
        item.mend_at(*next as usize, rest, mend);
        let height = item.height();
        self.heights.set(k, height);
    }

    /// Does what becomes of the node of this number inside this one.
    fn mend(&mut self, k: usize, mend: LayoutMend)
        requires there { MayMend (plain_mend mend) k self.old.inner }
        requires few { bone_count (layout_mended (plain_mend mend) k self.old.inner) ≤ most_slots }
        ensures { self.new ≡ record self.old { inner = layout_mended (plain_mend mend) k self.old.inner } }
    {
        match mend {
            LayoutMend::Keep => {}
            LayoutMend::Put(item) => self.put(k, item),
            LayoutMend::Add(item, room) => self.add(k, item, room),
            LayoutMend::Drop => self.drop_item(k),
        }
    }
}

impl NodeLayout {
    /// Puts another node in the place of the one of this number inside this node.
    #[tactic(auto, using(crate::specs::Private::PlainNodeLayout::node_layouts_bones))]
    fn put(&mut self, k: usize, item: NodeLayout)
        requires there { k < length (node_layouts self.old.inner) }
        requires few { bone_count (bones (slice_set (node_layouts self.old.inner) k item)) ≤ most_slots }
        ensures { self.new ≡ with_inside (slice_set (node_layouts self.old.inner) k item) self.old }
    {
        let number = item.height();
        self.inner.put(k, item);
        self.heights.set(k, number);
    }

    /// Puts a node before the one of this number inside this node; all go into the room.
    #[tactic(auto, using(crate::specs::Private::PlainNodeLayout::node_layouts_bones))]
    fn add(&mut self, k: usize, item: NodeLayout, room: LayoutRoom)
        requires there { k ≤ length (node_layouts self.old.inner) }
        requires fits { length (node_layouts self.old.inner) < room }
        requires few { bone_count (bones (insert (node_layouts self.old.inner) k item)) ≤ most_slots }
        ensures { self.new ≡ with_inside (insert (node_layouts self.old.inner) k item) self.old }
    {
        let LayoutRoom { list, heights } = room;
        let number = item.height();
        self.inner.move_into(list);
        self.inner.insert_within(k, item);
        self.heights.move_into(heights);
        self.heights.insert(k, number);
    }

    /// Takes the node of this number out of those inside this node.
    #[tactic(auto, using(crate::specs::Private::PlainNodeLayout::node_layouts_bones))]
    fn drop_item(&mut self, k: usize)
        requires there { k < length (node_layouts self.old.inner) }
        ensures { self.new ≡ with_inside (remove (node_layouts self.old.inner) k) self.old }
    {
        let _ = self.inner.remove(k);
        let _ = self.heights.remove(k);
    }
}
