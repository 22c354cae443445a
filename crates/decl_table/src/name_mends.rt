//! Edits put in place among the names of nodes.
ghost use Rattle.std.specs.Prelude.{◌≡◌, ◌<◌, ◌≤◌, ◌∷◌, Some, length, slice_get, slice_set};
ghost use Rattle.std.specs.List.{insert, remove};
ghost use Rattle.decl_table.specs.DeclEdit.{MayMendName, MayMendNames, name_mended};
ghost use Rattle.decl_table.specs.Private.NameMendView.{plain_mend, with_inside, with_mend, with_parts_of};
ghost use Rattle.decl_table.specs.Private.PlainNameNode.{PlainNameNode, name_nodes};

use crate::name_edit::{NameEdit, NameMend, NameRoom};
use crate::name_node::NameNode;
use std::mem;

impl NameNode {
    /// Puts an edit in place that was prepared for the names inside this node. It takes no memory.
    pub(crate) fn put_in_place(&mut self, edit: NameEdit)
        requires there { MayMendNames edit.mend edit.path self.old.inner }
        ensures { self.new ≡ with_mend edit.mend edit.path self.old }
    {
        let NameEdit { path, mend } = edit;
        let Some((k, rest)) = path.split_first() else {
            unreachable!()
        };
        self.mend_at(*k as usize, rest, mend);
    }

    /// Does what becomes of the node at a path below this one, which begins with the number.
    fn mend_at(&mut self, k: usize, path: &[u32], mend: NameMend)
        requires there { MayMendNames (plain_mend mend) (k ∷ path.now) self.old.inner }
        ensures { self.new ≡ with_mend (plain_mend mend) (k ∷ path.now) self.old }
    {
        let Some((next, rest)) = path.split_first() else {
            self.mend(k, mend);
            return;
        };
        let Some(item) = self.inner.get_mut(k) else {
            unreachable!()
        };
        item.mend_at(*next as usize, rest, mend);
    }

    /// Does what becomes of the node of this number inside this one.
    fn mend(&mut self, k: usize, mend: NameMend)
        requires there { MayMendName (plain_mend mend) k self.old.inner }
        ensures { self.new ≡ record self.old { inner = name_mended (plain_mend mend) k self.old.inner } }
    {
        match mend {
            NameMend::Put(item) => self.put(k, item),
            NameMend::SetParts(other) => self.set_parts(k, other),
            NameMend::Add(item, room) => self.add(k, item, room),
            NameMend::Drop => self.drop_item(k),
        }
    }
}

impl NameNode {
    /// Puts another node in the place of the one of this number inside this node.
    #[tactic(auto, using(crate::specs::Private::PlainNameNode::name_nodes_forest))]
    fn put(&mut self, k: usize, item: NameNode)
        requires there { k < length (name_nodes self.old.inner) }
        ensures { self.new ≡ with_inside (slice_set (name_nodes self.old.inner) k item) self.old }
    {
        self.inner.put(k, item);
    }

    /// Sets the names in the parts of the node of this number inside this node to those of another one.
    #[tactic(auto, using(crate::specs::Private::PlainNameNode::name_nodes_forest))]
    fn set_parts(&mut self, k: usize, other: NameNode)
        requires there { k < length (name_nodes self.old.inner) }
        ensures { (item : PlainNameNode) → slice_get (name_nodes self.old.inner) k ≡ Some item
            → self.new ≡ with_inside (slice_set (name_nodes self.old.inner) k (with_parts_of other item)) self.old }
    {
        let Some(item) = self.inner.get_mut(k) else {
            unreachable!()
        };
        let NameNode { parts, inner, .. } = other;
        drop(inner);
        drop(mem::replace(&mut item.parts, parts));
    }

    /// Puts a node before the one of this number inside this node; all go into the room.
    #[tactic(auto, using(crate::specs::Private::PlainNameNode::name_nodes_forest))]
    fn add(&mut self, k: usize, item: NameNode, room: NameRoom)
        requires there { k ≤ length (name_nodes self.old.inner) }
        requires fits { length (name_nodes self.old.inner) < room }
        ensures { self.new ≡ with_inside (insert (name_nodes self.old.inner) k item) self.old }
    {
        let NameRoom { list } = room;
        self.inner.move_into(list);
        self.inner.insert_within(k, item);
    }

    /// Takes the node of this number out of those inside this node.
    #[tactic(auto, using(crate::specs::Private::PlainNameNode::name_nodes_forest))]
    fn drop_item(&mut self, k: usize)
        requires there { k < length (name_nodes self.old.inner) }
        ensures { self.new ≡ with_inside (remove (name_nodes self.old.inner) k) self.old }
    {
        drop(self.inner.remove(k));
    }
}
