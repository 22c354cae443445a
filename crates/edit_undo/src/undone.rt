//! What the undoing of an edit answers.
ghost use Rattle.std.specs.Prelude.{◌≡◌};
ghost use Rattle.template_tree.specs.Edits.Receipt.{HasRoomBack, list_room};
ghost use Rattle.template_tree.specs.Edits.Reversal.{CanRevert, IsReverted};
ghost use Rattle.template_tree.specs.Programs.PlainTree.{roomless_tree};
ghost use Rattle.template_tree.specs.Programs.Tree.{IsTree};

use crate::edit_record::EditRecord;
use template_tree::{Change, Node, Receipt, Stop, Tree};

/// Why no edit is undone.
#[derive(Clone, Copy, Debug, PartialEq, Eq)]
pub enum UndoFault {
    /// No edit is held.
    NothingToUndo,
    /// Memory ran out.
    OutOfMemory,
}

/// An edit that was undone, which `EditRing::put_back` makes again.
#[derive(Drop)]
pub struct Undone {
    /// How the tree was changed by the undoing.
    pub change: Change,
    /// The stop of the cursor before the edit; what stands there may be hidden now.
    pub stop: Stop,
    /// The receipt of the undoing.
    pub receipt: Receipt,
    /// The node that the undoing took out of the tree, if it took one out.
    pub back: Option<Node>,
}

impl Undone {
    /// Makes the edit that was undone again, into room that is there, and gives its record.
    pub(crate) fn revert(self, tree: &mut Tree) -> EditRecord
        requires tree { IsTree tree.old }
        requires fits { CanRevert self.receipt self.back (roomless_tree tree.old) }
        requires room { HasRoomBack self.receipt.undoing (list_room tree.old.spare tree.old.items self.receipt.path) }
        ensures reverted { IsReverted self.receipt self.back tree.old tree.new result.receipt result.back }
        ensures stop { result.stop ≡ self.stop }
        ensures tree { IsTree tree.new }
    {
        let Undone {
            stop,
            receipt,
            back,
            ..
        } = self;
        match tree.revert(receipt, back) {
            Ok((receipt, back)) => EditRecord {
                receipt,
                back,
                stop,
            },
            Err(_) => unreachable!(),
        }
    }
}
