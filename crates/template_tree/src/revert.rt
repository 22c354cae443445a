//! Edits reverted: the tree before one comes back, with the slots that are drawn by now.
ghost use Rattle.std.specs.Prelude.{◌≡◌, ◌<◌, [], ◌∷◌, IfErr, IfOk, IsOk, IsSome, OnOk, Some};
ghost use Rattle.template_tree.specs.Edits.Lend.{with_node};
ghost use Rattle.template_tree.specs.Edits.Receipt.{HasRoomBack, PlainUndoing, items_before, list_room};
ghost use Rattle.template_tree.specs.Edits.Reversal.{CanRevert, IsReverted, reverse_change, reverse_of};
ghost use Rattle.template_tree.specs.Positions.Path.{node_at};
ghost use Rattle.template_tree.specs.Programs.Part.{with_part};
ghost use Rattle.template_tree.specs.Programs.PlainPhrasePlace.{plain_phrase_place};
ghost use Rattle.template_tree.specs.Programs.PlainTree.{forest, roomless, roomless_node, roomless_tree};
ghost use Rattle.template_tree.specs.Programs.Program.{IsProgram};
ghost use Rattle.template_tree.specs.Programs.Tree.{IsTree};
ghost use Rattle.template_tree.specs.Private.Exchanged.{IsExchanged};
ghost use Rattle.template_tree.specs.Private.ReceiptView.{plain_undoing};
ghost use Rattle.template_tree.specs.Private.Restored.{with_edit};

use crate::beside::{added_path, path_before, side_left};
use crate::change::{Change, What};
use crate::node::{Node, Nodes};
use crate::path::Path;
use crate::phrase_place::PhrasePlace;
use crate::receipt::{Receipt, Undoing};
use crate::side::Side;
use crate::tree::Tree;
use plcs_base::OutOfMemory;
use std::mem;

/// What the reversal of an edit leaves: where and how it is reverted again, and the node that is out of the tree.
#[derive(Drop)]
struct Reversal {
    path: Path,
    undoing: Undoing,
    out: Option<Node>,
}

impl Tree {
    /// Reverts an edit by its receipt: the tree before it comes back, with as many slots drawn as are now, and with
    /// each comment that stands now elided as it is now. So no slot comes to mean another thing. The node is the one
    /// that the edit gave out, if it gave one. What is handed out reverts that again.
    ///
    /// Memory may be wanting where an item goes back into a list without room; then nothing is changed, and what was
    /// handed in is handed back. A list from which an item is taken has room for it then.
    pub fn revert(
        &mut self,
        receipt: Receipt,
        back: Option<Node>,
    ) -> Result<(Receipt, Option<Node>), (Receipt, Option<Node>)>
        requires tree { IsTree self.old }
        requires fits { CanRevert receipt back (roomless_tree self.old) }
        ensures reverted { IfOk result (λ r. IsReverted receipt back self.old self.new r.0 r.1) }
        ensures wanted { HasRoomBack receipt.undoing (list_room self.old.spare self.old.items receipt.path)
            → IsOk result }
        ensures tree { IsTree self.new }
        ensures unchanged { IfErr result (λ r. (r.0 ≡ receipt) × (r.1 ≡ back) × (self.new ≡ self.old)) }
    {
        if let Err(OutOfMemory) = self.reserve_back(&receipt) {
            return Err((receipt, back));
        }
        Ok(self.revert_within(receipt, back))
    }

    /// Takes memory for the item that comes back into a list where the edit of the receipt is reverted, if one does.
    fn reserve_back(&mut self, receipt: &Receipt) -> Result<(), OutOfMemory>
        requires there { IsSome (node_at self.old.items receipt.now.path) }
        ensures room { OnOk result (HasRoomBack receipt.now.undoing
            (list_room self.new.spare self.new.items receipt.now.path)) }
        ensures same { roomless_tree self.new ≡ roomless_tree self.old }
        ensures wanted { HasRoomBack receipt.now.undoing (list_room self.old.spare self.old.items receipt.now.path)
            → IsOk result }
        ensures refused { IfErr result (λ _. self.new ≡ self.old) }
    {
        let Undoing::PutIn(_, _) = &receipt.undoing else {
            return Ok(());
        };
        let Some((k, rest)) = receipt.path.split_first() else {
            unreachable!()
        };
        self.items.reserve_at(*k as usize, rest)
    }

    /// Reverts the edit of the receipt, into room that is there.
    fn revert_within(&mut self, receipt: Receipt, back: Option<Node>) -> (Receipt, Option<Node>)
        requires tree { IsTree self.old }
        requires fits { CanRevert receipt back (roomless_tree self.old) }
        requires room { HasRoomBack receipt.undoing (list_room self.old.spare self.old.items receipt.path) }
        ensures { IsReverted receipt back self.old self.new result.0 result.1 }
    {
        let Receipt {
            change,
            path,
            undoing,
            drawn,
            live,
        } = receipt;
        let live_now = self.live;
        let Reversal { path, undoing, out } = self.exchange_back(path, undoing, back);
        self.live = live;
        let again = Receipt {
            change: change.reversed(),
            path,
            undoing,
            drawn,
            live: live_now,
        };
        (again, out)
    }
}

impl Tree {
    /// Exchanges what comes back where an edit is reverted for what is there; the counts of the tree stay.
    fn exchange_back(&mut self, path: Path, undoing: Undoing, back: Option<Node>) -> Reversal
        requires tree { IsTree self.old }
        requires there { IsSome (node_at self.old.items path.items) }
        requires program { IsProgram
            (with_edit (items_before (plain_undoing undoing) back) path.items (roomless_tree self.old)).items }
        requires room { HasRoomBack (plain_undoing undoing) (list_room self.old.spare self.old.items path.items) }
        ensures { IsExchanged path.items (plain_undoing undoing) back self.old self.new
            result.path.items (plain_undoing result.undoing) result.out }
    {
        match undoing {
            Undoing::Put(node) => self.put_again(path, node, back),
            Undoing::PutBack => self.give_back(path, back),
            Undoing::SetPart(part, place) => self.set_again(path, part, place, back),
            Undoing::TakeOut => self.take_again(path, back),
            Undoing::PutIn(side, node) => self.insert_again(path, side, node, back),
        }
    }

    /// Reverts an exchange of nodes: puts the node in place of the one at the path, which is kept for the next time.
    fn put_again(&mut self, path: Path, node: Node, back: Option<Node>) -> Reversal
        requires tree { IsTree self.old }
        requires there { IsSome (node_at self.old.items path.items) }
        ensures { IsExchanged path.items (PlainUndoing.put (roomless_node node)) back self.old self.new
            result.path.items (plain_undoing result.undoing) result.out }
    {
        let there = self.swap_node(&path, node);
        Reversal {
            path,
            undoing: Undoing::Put(there),
            out: back,
        }
    }

    /// Reverts an exchange that gave its node out: puts it, if it is handed in, in place of the one at the path, which
    /// is given out.
    fn give_back(&mut self, path: Path, back: Option<Node>) -> Reversal
        requires tree { IsTree self.old }
        requires there { IsSome (node_at self.old.items path.items) }
        ensures { IsExchanged path.items PlainUndoing.put_back back self.old self.new
            result.path.items (plain_undoing result.undoing) result.out }
    {
        let Some(node) = back else {
            return Reversal {
                path,
                undoing: Undoing::PutBack,
                out: None,
            };
        };
        let there = self.swap_node(&path, node);
        Reversal {
            path,
            undoing: Undoing::PutBack,
            out: Some(there),
        }
    }

    /// Reverts a part that was set: sets it to what it held, and keeps what it holds for the next time.
    fn set_again(
        &mut self,
        path: Path,
        part: u8,
        place: PhrasePlace,
        back: Option<Node>,
    ) -> Reversal
        requires tree { IsTree self.old }
        requires there { IsSome (node_at self.old.items path.items) }
        ensures { IsExchanged path.items (PlainUndoing.set_part part (plain_phrase_place place)) back self.old self.new
            result.path.items (plain_undoing result.undoing) result.out }
    {
        let Some(node) = self.node_mut(&path) else {
            unreachable!()
        };
        let there = node.swap_part(part, place);
        Reversal {
            path,
            undoing: Undoing::SetPart(part, there),
            out: back,
        }
    }

    /// Reverts an addition: takes the item at the path out of its list, which keeps room for it, and keeps it for the
    /// next time.
    fn take_again(&mut self, path: Path, back: Option<Node>) -> Reversal
        requires tree { IsTree self.old }
        requires there { IsSome (node_at self.old.items path.items) }
        requires program { IsProgram (with_edit (λ _. []) path.items (roomless_tree self.old)).items }
        ensures { IsExchanged path.items PlainUndoing.take_out back self.old self.new
            result.path.items (plain_undoing result.undoing) result.out }
    {
        let Some(item) = self.drop_item(&path) else {
            unreachable!()
        };
        Reversal {
            path: path_before(&path),
            undoing: Undoing::PutIn(side_left(&path), item),
            out: back,
        }
    }

    /// Reverts a drop: puts the item back into its list beside the one at the path, into room that is there.
    fn insert_again(&mut self, path: Path, side: Side, item: Node, back: Option<Node>) -> Reversal
        requires tree { IsTree self.old }
        requires there { IsSome (node_at self.old.items path.items) }
        requires room { 0 < list_room self.old.spare self.old.items path.items }
        ensures { IsExchanged path.items (PlainUndoing.put_in side (roomless_node item)) back self.old self.new
            result.path.items (plain_undoing result.undoing) result.out }
    {
        self.restore_dropped(&path, side, item);
        Reversal {
            path: added_path(side, &path),
            undoing: Undoing::TakeOut,
            out: back,
        }
    }

    /// Puts the node, which comes back, in place of the one at the path, notes where it stands, and gives that one.
    fn swap_node(&mut self, path: &Path, node: Node) -> Node
        requires tree { IsTree self.old }
        requires there { IsSome (node_at self.old.items path.now.items) }
        ensures came { self.new ≡ with_node self.old path.now.items node }
        ensures gone { node_at self.old.items path.now.items ≡ Some result }
    {
        let Some(there) = self.node_mut(path) else {
            unreachable!()
        };
        let gone = mem::replace(there, node);
        self.note(path);
        gone
    }
}

impl Node {
    /// Sets a part of this node, if it has this one, to what comes back, and gives what brings this node back again.
    pub(crate) fn swap_part(&mut self, part: u8, place: PhrasePlace) -> PhrasePlace
        ensures came { self.new ≡ with_part part (plain_phrase_place place) self.old }
        ensures gone { with_part part (plain_phrase_place result) self.new ≡ self.old }
    {
        let Some(there) = self.parts.get_mut(part as usize) else {
            return place;
        };
        mem::replace(there, place)
    }
}

impl Nodes {
    /// Takes memory for one item more in the list of the node at a path, where an item is to come back: `k` is the
    /// first number of the path, and `path` are the others.
    fn reserve_at(&mut self, k: usize, path: &[u32]) -> Result<(), OutOfMemory>
        requires there { IsSome (node_at (forest self.old.items) (k ∷ path.now)) }
        ensures room { OnOk result (0 < list_room self.new.spare (forest self.new.items) (k ∷ path.now)) }
        ensures same { roomless (forest self.new.items) ≡ roomless (forest self.old.items) }
        ensures wanted { 0 < list_room self.old.spare (forest self.old.items) (k ∷ path.now) → IsOk result }
        ensures refused { IfErr result (λ _. self.new ≡ self.old) }
    {
        let Some((next, rest)) = path.split_first() else {
            return self.reserve_one();
        };
        let Some(there) = self.get_mut(k) else {
            unreachable!()
        };
        there.inner.reserve_at(*next as usize, rest)
    }
}

impl Change {
    /// The change that the reversal of an edit makes, where the edit made this one.
    fn reversed(self) -> Change
        ensures { result ≡ reverse_change self }
    {
        Change {
            slot: self.slot,
            procedure: self.procedure,
            what: self.what.reversed(),
        }
    }
}

impl What {
    /// What the reversal of an edit does, where the edit did this.
    fn reversed(self) -> What
        ensures { result ≡ reverse_of self }
    {
        match self {
            What::Node => What::Node,
            What::Part(part) => What::Part(part),
            What::Added => What::Dropped,
            What::Dropped => What::Added,
        }
    }
}
