//! Edits of the names of nodes, prepared so that putting them in place takes no memory.
ghost use Rattle.std.specs.Prelude.{◌≡◌, ◌<◌, ◌≤◌, IfOk, IfSome, IsSome, option_map};
ghost use Rattle.template_tree.specs.Positions.Path.{slot_at};
ghost use Rattle.template_tree.specs.Programs.Limit.{most_slots};
ghost use Rattle.template_tree.specs.Programs.PlainTree.{PlainTree};
ghost use Rattle.template_tree.specs.Programs.Program.{IsSubtree};
ghost use Rattle.template_tree.specs.Programs.Slots.{count};
ghost use Rattle.template_tree.specs.Programs.Tree.{IsTree};
ghost use Rattle.template_tree.specs.declared.change.What.{What};
ghost use Rattle.decl_table.specs.DeclEdit.{MayMendNames, names_mended};
ghost use Rattle.decl_table.specs.Names.{names_of};
ghost use Rattle.decl_table.specs.Private.ChangeBefore.{AreNamesBefore, IsBeforeChange, IsEditOf, IsNewNode, old_node};
ghost use Rattle.decl_table.specs.Private.PlainNameNode.{name_node_of};
ghost use Rattle.template_tree.specs.Edits.Edit.{Differs};

use crate::name_node::{NameNode, NameNodes};
use plcs_base::{OutOfMemory, Slot};
use std::alloc::Global;
use std::marker::Model;
use template_tree::{Change, Node, Path, Tree, What, room_is_not_shown, slot_edit_is_path_edit};

/// An edit that was prepared for the names of nodes, which contracts see as plain data.
#[derive(Drop)]
pub(crate) struct NameEdit {
    pub(crate) path: Path,
    pub(crate) mend: NameMend,
}

/// What becomes of the node at a path, whose names are kept.
#[derive(Drop)]
pub(crate) enum NameMend {
    /// Another node comes in its place.
    Put(NameNode),
    /// The names of its parts are those of this node, which has nothing inside it.
    SetParts(NameNode),
    /// This node comes before it; all of its list go into the room.
    Add(NameNode, NameRoom),
    /// It goes.
    Drop,
}

/// Room for a list of nodes whose names are kept. Contracts see it as how many fit.
#[derive(Drop)]
pub(crate) struct NameRoom {
    pub(crate) list: NameNodes,
}

impl Model for NameEdit {
    ghost use Rattle.decl_table.specs.DeclEdit.{PlainNameEdit};
    ghost use Rattle.decl_table.specs.Private.NamesCode.{name_edit_code};
    ghost use Rattle.decl_table.specs.Private.NameMendView.{plain_mend};

    ghost Value = { PlainNameEdit };

    ghost coded = { name_edit_code };

    ghost view = { λ a. record { path = a.path.items; mend = plain_mend a.mend } };
}

impl Model for NameRoom {
    ghost use Rattle.std.specs.Prelude.{ℕ};
    ghost use Rattle.decl_table.specs.Private.NameRoomView.{IsEmpty};

    ghost Value = { ℕ };

    ghost view = { λ a. a.list.spare };

    ghost invariant = { IsEmpty };
}

impl NameRoom {
    /// Room for so many nodes.
    fn of(alloc: Global, nodes: usize) -> Result<NameRoom, OutOfMemory>
        ensures { IfOk result (λ room. nodes ≤ room) }
    {
        let list = NameNodes::with_room(alloc, nodes)?;
        Ok(NameRoom { list })
    }
}

impl NameEdit {
    /// What becomes of the names that are kept inside the root, where an edit of the tree made this change.
    pub(crate) fn of(
        alloc: Global,
        root: &NameNode,
        tree: &Tree,
        change: &Change,
    ) -> Result<NameEdit, OutOfMemory>
        requires tree { IsTree tree.now }
        requires before { AreNamesBefore root.now.inner tree.now change.now }
        ensures edit { (before : PlainTree) → IsTree before → root.now.inner ≡ names_of before.items
            → Differs before tree.now change.now
            → IfOk result (IsEditOf change.now.what change.now.slot.0 before.items tree.now.items) }
        ensures after { IfOk result (λ edit.
            names_mended edit.mend edit.path root.now.inner ≡ names_of tree.now.items) }
        ensures there { IfOk result (λ edit. MayMendNames edit.mend edit.path root.now.inner) }
    {
        match change.what {
            What::Part(part) => root.setting(alloc, tree, change.slot, part),
            What::Node => root.putting(alloc, tree, change.slot),
            What::Added => root.adding(alloc, tree, change.slot),
            What::Dropped => Ok(root.dropping(tree, change)),
        }
    }

    /// The path to what was changed: in the tree, but where an item was dropped, as its names are kept.
    pub(crate) fn path(&self) -> &Path
        ensures { result.now.items ≡ self.now.path }
    {
        &self.path
    }

    /// The names of what stands now where the tree was changed: none where an item was dropped. Where a part was set,
    /// the node stands there without those inside it.
    pub(crate) fn new(&self) -> Option<&NameNode>
        ensures { IsNewNode self.now.mend (option_map (λ node. node.now) result) }
    {
        match &self.mend {
            NameMend::Put(node) => Some(node),
            NameMend::SetParts(node) => Some(node),
            NameMend::Add(node, _) => Some(node),
            NameMend::Drop => None,
        }
    }

    /// The names of what stood before where the tree was changed, as they are kept inside the root: none where an
    /// item was added.
    pub(crate) fn old<'a>(&self, root: &'a NameNode) -> Option<&'a NameNode>
        ensures { option_map (λ node. node.now) result ≡ old_node self.now root.now }
    {
        match &self.mend {
            NameMend::Put(_) => root.below(&self.path),
            NameMend::SetParts(_) => root.below(&self.path),
            NameMend::Add(_, _) => None,
            NameMend::Drop => root.below(&self.path),
        }
    }
}

impl NameNode {
    /// Prepares, for the names inside this node, the edit that another node in the slot of the tree asks for.
    fn putting(&self, alloc: Global, tree: &Tree, slot: Slot) -> Result<NameEdit, OutOfMemory>
        requires tree { IsTree tree.now }
        requires before { IsBeforeChange What.Node slot.0 self.now.inner tree.now }
        ensures edit { (before : IsBeforeChange What.Node slot.0 self.now.inner tree.now)
            → IfOk result (IsEditOf What.Node slot.0 before.before.items tree.now.items) }
        ensures after { IfOk result (λ edit.
            names_mended edit.mend edit.path self.now.inner ≡ names_of tree.now.items) }
        ensures there { IfOk result (λ edit. MayMendNames edit.mend edit.path self.now.inner) }
    {
        slot_edit_is_path_edit();
        room_is_not_shown();
        let Some(path) = tree.path_of(slot) else {
            unreachable!()
        };
        let Some(node) = tree.node(&path) else {
            unreachable!()
        };
        let item = NameNode::of(alloc, node)?;
        Ok(NameEdit {
            path,
            mend: NameMend::Put(item),
        })
    }

    /// Prepares, for the names inside this node, the edit that a part which was set in the slot of the tree asks for.
    fn setting(
        &self,
        alloc: Global,
        tree: &Tree,
        slot: Slot,
        part: u8,
    ) -> Result<NameEdit, OutOfMemory>
        requires tree { IsTree tree.now }
        requires before { IsBeforeChange (What.Part part) slot.0 self.now.inner tree.now }
        ensures edit { (before : IsBeforeChange (What.Part part) slot.0 self.now.inner tree.now)
            → IfOk result (IsEditOf (What.Part part) slot.0 before.before.items tree.now.items) }
        ensures after { IfOk result (λ edit.
            names_mended edit.mend edit.path self.now.inner ≡ names_of tree.now.items) }
        ensures there { IfOk result (λ edit. MayMendNames edit.mend edit.path self.now.inner) }
    {
        slot_edit_is_path_edit();
        room_is_not_shown();
        let Some(path) = tree.path_of(slot) else {
            unreachable!()
        };
        let Some(node) = tree.node(&path) else {
            unreachable!()
        };
        let label = NameNode::label_of(alloc, node)?;
        Ok(NameEdit {
            path,
            mend: NameMend::SetParts(label),
        })
    }

    /// Prepares, for the names inside this node, the edit that an item added to the tree in the slot asks for.
    fn adding(&self, alloc: Global, tree: &Tree, slot: Slot) -> Result<NameEdit, OutOfMemory>
        requires tree { IsTree tree.now }
        requires before { IsBeforeChange What.Added slot.0 self.now.inner tree.now }
        ensures edit { (before : IsBeforeChange What.Added slot.0 self.now.inner tree.now)
            → IfOk result (IsEditOf What.Added slot.0 before.before.items tree.now.items) }
        ensures after { IfOk result (λ edit.
            names_mended edit.mend edit.path self.now.inner ≡ names_of tree.now.items) }
        ensures there { IfOk result (λ edit. MayMendNames edit.mend edit.path self.now.inner) }
    {
        slot_edit_is_path_edit();
        room_is_not_shown();
        let Some(path) = tree.path_of(slot) else {
            unreachable!()
        };
        let Some(node) = tree.node(&path) else {
            unreachable!()
        };
        let Some((k, rest)) = path.split_first() else {
            unreachable!()
        };
        let nodes = self.count_beside(*k as usize, rest) + 1;
        let Ok((item, room)) = with_room(alloc, node, nodes) else {
            return Err(OutOfMemory);
        };
        Ok(NameEdit {
            path,
            mend: NameMend::Add(item, room),
        })
    }

    /// Prepares, for the names inside this node, the edit that an item dropped from the tree asks for. Its path is found
    /// among the names, since the tree doesn't have it any more.
    fn dropping(&self, tree: &Tree, change: &Change) -> NameEdit
        requires tree { IsTree tree.now }
        requires before { (after : PlainTree) × IsTree after
            × IsBeforeChange What.Dropped change.now.slot.0 self.now.inner after }
        ensures edit { (after : PlainTree) → IsTree after
            → (before : IsBeforeChange What.Dropped change.now.slot.0 self.now.inner after)
            → IsEditOf What.Dropped change.now.slot.0 before.before.items after.items result }
        ensures after { (after : PlainTree) → IsTree after
            → IsBeforeChange What.Dropped change.now.slot.0 self.now.inner after
            → names_mended result.mend result.path self.now.inner ≡ names_of after.items }
        ensures there { MayMendNames result.mend result.path self.now.inner }
    {
        slot_edit_is_path_edit();
        room_is_not_shown();
        let Some(path) = self.path_near(tree, change.procedure, change.slot) else {
            unreachable!()
        };
        NameEdit {
            path,
            mend: NameMend::Drop,
        }
    }
}

/// What is kept of the node and of the nodes inside it, with room for so many nodes.
fn with_room(alloc: Global, node: &Node, nodes: usize) -> Result<(NameNode, NameRoom), OutOfMemory>
    requires subtree { IsSubtree node.now }
    requires few { count node.now.inner < most_slots }
    ensures item { IfOk result (λ made. made.0 ≡ name_node_of node.now) }
    ensures room { IfOk result (λ made. nodes ≤ made.1) }
{
    let Ok(room) = NameRoom::of(alloc, nodes) else {
        return Err(OutOfMemory);
    };
    match NameNode::of(alloc, node) {
        Ok(item) => Ok((item, room)),
        Err(OutOfMemory) => {
            drop(room);
            Err(OutOfMemory)
        }
    }
}
