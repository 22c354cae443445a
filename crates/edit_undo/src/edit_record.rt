//! The record of an edit, by which it is undone.
ghost use Rattle.std.specs.Prelude.{◌≡◌, ◌<◌, ◌≤◌, IfErr, IfNone, IfOk, IfSome, IsOk};
ghost use Rattle.edit_undo.specs.EditLimit.{edit_weight, most_taken_slots};
ghost use Rattle.template_tree.specs.Edits.Receipt.{HasRoomBack, list_room};
ghost use Rattle.template_tree.specs.Edits.Reversal.{CanRevert, IsReverted};
ghost use Rattle.template_tree.specs.Programs.PlainTree.{roomless_tree};
ghost use Rattle.template_tree.specs.Programs.Tree.{IsTree};

use crate::limit::MOST_TAKEN_SLOTS;
use crate::undone::Undone;
use template_tree::{Node, Receipt, Stop, Tree};

/// The record of an edit: what reverts it, and where the cursor stood before it.
#[derive(Drop)]
pub struct EditRecord {
    /// The receipt of the edit.
    pub receipt: Receipt,
    /// The node that the edit took out of the tree, if it took one out.
    pub back: Option<Node>,
    /// The stop of the cursor before the edit.
    pub stop: Stop,
}

impl EditRecord {
    /// How many slots the node has that the edit took out, 0 if it took none out; or `None` where these are more than
    /// those of all edits may be. It takes no memory.
    pub(crate) fn weight(&self) -> Option<u32>
        ensures within { IfSome result (λ weight. (weight ≡ edit_weight self.now.back) × (weight ≤ most_taken_slots)) }
        ensures over { IfNone result (most_taken_slots < edit_weight self.now.back) }
    {
        let Some(node) = &self.back else {
            return Some(0);
        };
        node.slots_within(MOST_TAKEN_SLOTS)
    }

    /// Reverts the edit of the record in the tree, or gives the record back where memory is wanting.
    pub(crate) fn revert(self, tree: &mut Tree) -> Result<Undone, EditRecord>
        requires tree { IsTree tree.old }
        requires fits { CanRevert self.receipt self.back (roomless_tree tree.old) }
        ensures reverted { IfOk result (λ undone. IsReverted self.receipt self.back tree.old tree.new undone.receipt
            undone.back) }
        ensures stop { IfOk result (λ undone. undone.stop ≡ self.stop) }
        ensures change { IfOk result (λ undone. undone.change ≡ undone.receipt.change) }
        ensures wanted { HasRoomBack self.receipt.undoing (list_room tree.old.spare tree.old.items self.receipt.path)
            → IsOk result }
        ensures tree { IsTree tree.new }
        ensures unchanged { IfErr result (λ edit. (edit ≡ self) × (tree.new ≡ tree.old)) }
    {
        let EditRecord {
            receipt,
            back,
            stop,
        } = self;
        match tree.revert(receipt, back) {
            Ok((receipt, back)) => Ok(Undone {
                change: receipt.change(),
                stop,
                receipt,
                back,
            }),
            Err((receipt, back)) => Err(EditRecord {
                receipt,
                back,
                stop,
            }),
        }
    }
}
