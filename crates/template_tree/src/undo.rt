//! Edits undone.
ghost use Rattle.std.specs.Prelude.{◌≡◌, ◌<◌, ◌∷◌, []};
ghost use Rattle.template_tree.specs.Programs.Part.{with_part};
ghost use Rattle.template_tree.specs.Programs.PlainPhrasePlace.{plain_phrase_place};
ghost use Rattle.template_tree.specs.Programs.PlainTree.{roomless_node, roomless_tree};
ghost use Rattle.template_tree.specs.Private.ReceiptView.{plain_undoing};
ghost use Rattle.template_tree.specs.Private.Restored.{with_edit};
ghost use Rattle.template_tree.specs.Edits.Receipt.{CanUndo, HasRoomBack, items_before, list_room, node_back, undone, with_beside};
ghost use Rattle.template_tree.specs.Programs.Tree.{IsTree};

use crate::node::Node;
use crate::path::Path;
use crate::phrase_place::PhrasePlace;
use crate::receipt::{Receipt, Undoing};
use crate::side::Side;
use crate::tree::Tree;
use std::mem;

impl Tree {
    /// Gives back the tree before the edit of the receipt, with the number of slots that were drawn then;
    /// the node is the one that the edit gave out, if it gave one. It takes no memory.
    pub fn undo(&mut self, receipt: Receipt, back: Option<Node>)
        requires tree { IsTree self.old }
        requires can_undo { CanUndo receipt back self.old }
        ensures undone { roomless_tree self.new ≡ undone receipt back (roomless_tree self.old) }
        ensures tree { IsTree self.new }
    {
        let Receipt {
            path,
            undoing,
            drawn,
            live,
            ..
        } = receipt;
        self.restore(&path, undoing, back);
        self.drawn = drawn;
        self.live = live;
    }

    /// Puts again in place what stood there before the edit that is undone; the counts stay.
    fn restore(&mut self, path: &Path, undoing: Undoing, back: Option<Node>)
        requires tree { IsTree self.old }
        requires room { HasRoomBack (plain_undoing undoing) (list_room self.old.spare self.old.items path.now.items) }
        ensures { roomless_tree self.new ≡ with_edit (items_before (plain_undoing undoing) back) path.now.items
            (roomless_tree self.old) }
    {
        match undoing {
            Undoing::Put(node) => {
                drop(back);
                self.restore_node(path, Some(node));
            }
            Undoing::PutBack => self.restore_node(path, back),
            Undoing::SetPart(part, place) => {
                drop(back);
                self.restore_part(path, part, place);
            }
            Undoing::TakeOut => {
                drop(back);
                drop(self.drop_item(path));
            }
            Undoing::PutIn(side, hole) => {
                drop(back);
                self.restore_dropped(path, side, hole);
            }
        }
    }
}

impl Tree {
    /// Puts a node again in place of the one at the path, once an edit is undone, if there is one to come back, and
    /// notes where it stands.
    fn restore_node(&mut self, path: &Path, back: Option<Node>)
        requires tree { IsTree self.old }
        ensures { roomless_tree self.new ≡ with_edit (λ item. node_back back item ∷ []) path.now.items
            (roomless_tree self.old) }
    {
        self.put_node_back(path, back);
        self.note(path);
    }

    /// As `restore_node`, but notes nothing.
    fn put_node_back(&mut self, path: &Path, back: Option<Node>)
        requires tree { IsTree self.old }
        ensures { roomless_tree self.new ≡ with_edit (λ item. node_back back item ∷ []) path.now.items
            (roomless_tree self.old) }
    {
        let Some(node) = back else {
            return;
        };
        let Some(there) = self.node_mut(path) else {
            drop(node);
            return;
        };
        drop(mem::replace(there, node));
    }

    /// Sets a part of the node at the path again to what it held before the edit that is undone.
    fn restore_part(&mut self, path: &Path, part: u8, place: PhrasePlace)
        requires tree { IsTree self.old }
        ensures { roomless_tree self.new ≡ with_edit (λ item. with_part part (plain_phrase_place place) item ∷ [])
            path.now.items (roomless_tree self.old) }
    {
        let Some(node) = self.node_mut(path) else {
            drop(place);
            return;
        };
        drop(node.swap_part(part, place));
    }

    /// Undoes a drop: puts the hole, which an edit dropped, back into its list beside the item at the path, and notes
    /// where it stands.
    pub(crate) fn restore_dropped(&mut self, path: &Path, side: Side, hole: Node)
        requires tree { IsTree self.old }
        requires room { 0 < list_room self.old.spare self.old.items path.now.items }
        ensures { roomless_tree self.new ≡ with_edit (with_beside side (roomless_node hole)) path.now.items
            (roomless_tree self.old) }
    {
        let Some((k, rest)) = path.split_first() else {
            unreachable!()
        };
        self.items.insert_at(*k as usize, rest, side, hole);
        self.note_list(path);
    }
}
