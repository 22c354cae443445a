//! Receipts of edits: what they changed, and what it takes to undo them.
ghost use Rattle.std.specs.Prelude.{◌≡◌};

use crate::change::Change;
use crate::node::Node;
use crate::path::Path;
use crate::phrase_place::PhrasePlace;
use crate::side::Side;
use std::marker::Model;

/// How the edit of a receipt is undone, with what it took away.
#[derive(Drop)]
pub(crate) enum Undoing {
    /// The node at the path gives way to this one.
    Put(Node),
    /// The node at the path gives way to the one that the edit gave out.
    PutBack,
    /// A part of the node at the path is set to this.
    SetPart(u8, PhrasePlace),
    /// The item at the path is taken out of its list.
    TakeOut,
    /// A hole comes back on this side of the item at the path.
    PutIn(Side, Node),
}

/// The receipt of an edit, which contracts see as plain data. It says what was changed, and holds what
/// was taken away, so that `Tree::undo` takes no memory.
#[derive(Drop)]
pub struct Receipt {
    pub(crate) change: Change,
    pub(crate) path: Path,
    pub(crate) undoing: Undoing,
    pub(crate) drawn: u32,
    pub(crate) live: u32,
}

impl Model for Receipt {
    ghost use Rattle.template_tree.specs.Edits.Receipt.{PlainReceipt};
    ghost use Rattle.template_tree.specs.Private.ReceiptCode.{receipt_code};
    ghost use Rattle.template_tree.specs.Private.ReceiptView.{plain_undoing};

    ghost Value = { PlainReceipt };

    ghost coded = { receipt_code };

    ghost view = { λ a. record {
      change = a.change;
      path = a.path.items;
      undoing = plain_undoing a.undoing;
      drawn = a.drawn;
      live = a.live;
    } };
}

impl Receipt {
    /// The change that the edit of the receipt made.
    pub fn change(&self) -> Change
        ensures { result ≡ self.now.change }
    {
        self.change
    }
}
