//! Lists changed by an item, at the end of a path through the nodes.
ghost use Rattle.std.specs.Prelude.{◌≡◌, ◌<◌, ◌∷◌, [], IfErr, IfNone, IfOk, IfSome, IsSome, slice_get};
ghost use Rattle.template_tree.specs.Edits.Edit.{edit_at};
ghost use Rattle.template_tree.specs.Edits.Lend.{with_node_removed};
ghost use Rattle.template_tree.specs.Positions.Path.{node_at};
ghost use Rattle.template_tree.specs.Programs.PlainTree.{forest, roomless, roomless_node};
ghost use Rattle.template_tree.specs.Edits.Receipt.{list_room, with_beside};

use crate::node::{Node, Nodes};
use crate::side::Side;
use plcs_base::OutOfMemory;

impl Nodes {
    /// Takes the node at a path out of its list, whose room stays: `k` is the first number of the path,
    /// and `path` are the others. `None` where no node is there.
    #[tactic(auto, using(crate::specs::Programs::PlainTree::nodes_forest))]
    pub(crate) fn remove_at(&mut self, k: usize, path: &[u32]) -> Option<Node>
        ensures taken { result ≡ node_at (forest self.old.items) (k ∷ path.now) }
        ensures others { roomless (forest self.new.items) ≡ edit_at (λ _. []) (k ∷ path.now)
            (roomless (forest self.old.items)) }
        ensures room { IfNone result (self.new ≡ self.old) }
        ensures spare { IfSome result (λ _. 0 < list_room self.new.spare (forest self.new.items) (k ∷ path.now)) }
    {
        let Some((next, rest)) = path.split_first() else {
            return self.take_out(k);
        };
        let Some(node) = self.get_mut(k) else {
            return None;
        };
        node.inner.remove_at(*next as usize, rest)
    }

    /// Puts a node beside the one at a path, into room of its list: `k` is the first number of the path,
    /// and `path` are the others. Nothing is put in where the list has no node there.
    pub(crate) fn insert_at(&mut self, k: usize, path: &[u32], side: Side, node: Node)
        requires room { 0 < list_room self.old.spare (forest self.old.items) (k ∷ path.now) }
        ensures { roomless (forest self.new.items) ≡ edit_at (with_beside side (roomless_node node)) (k ∷ path.now)
            (roomless (forest self.old.items)) }
    {
        let Some((next, rest)) = path.split_first() else {
            self.insert_beside(k, side, node);
            return;
        };
        let Some(there) = self.get_mut(k) else {
            unreachable!()
        };
        there.inner.insert_at(*next as usize, rest, side, node);
    }

    /// Puts a node into the list of the one at a path, beside that one, and takes memory for it: `k` is
    /// the first number of the path, and `path` are the others.
    pub(crate) fn add_at(
        &mut self,
        k: usize,
        path: &[u32],
        side: Side,
        node: Node,
    ) -> Result<(), OutOfMemory>
        requires there { IsSome (node_at (forest self.old.items) (k ∷ path.now)) }
        ensures added { IfOk result (λ _. roomless (forest self.new.items)
            ≡ edit_at (with_beside side (roomless_node node)) (k ∷ path.now) (roomless (forest self.old.items))) }
        ensures refused { IfErr result (λ _. self.new ≡ self.old) }
    {
        let Some((next, rest)) = path.split_first() else {
            if let Err(OutOfMemory) = self.reserve_one() {
                drop(node);
                return Err(OutOfMemory);
            }
            self.insert_beside(k, side, node);
            return Ok(());
        };
        let Some(there) = self.get_mut(k) else {
            unreachable!()
        };
        there.inner.add_at(*next as usize, rest, side, node)
    }

    /// At the end of a path: takes the node of this number out of its list, if there is one.
    fn take_out(&mut self, k: usize) -> Option<Node>
        ensures taken { result ≡ slice_get self.old.items k }
        ensures others { IfSome result (λ _. self.new ≡ with_node_removed self.old k) }
        ensures none { IfNone result (self.new ≡ self.old) }
    {
        if k < self.len() {
            return Some(self.remove(k));
        }
        None
    }

    /// At the end of a path: puts a node beside the one of this number into room of its list, if there
    /// is one.
    fn insert_beside(&mut self, k: usize, side: Side, node: Node)
        requires room { 0 < self.old.spare }
        ensures { forest self.new.items ≡ edit_at (with_beside side node) (k ∷ []) (forest self.old.items) }
    {
        if k >= self.len() {
            drop(node);
            return;
        }
        match side {
            Side::Before => self.insert_within(k, node),
            Side::After => self.insert_within(k + 1, node),
        }
    }
}
