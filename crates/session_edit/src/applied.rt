//! Edits applied at the stop of the cursor, and what they answer.
ghost use Rattle.template_tree.specs.Programs.PlainTree.{roomless_tree};
ghost use Rattle.template_tree.specs.Positions.Stop.{IsStop, plain_stop};
ghost use Rattle.template_tree.specs.Programs.Tree.{IsTree};
ghost use Rattle.session_edit.specs.AppliedEdit.{IsAnswer, takes_memory};
ghost use Rattle.session_edit.specs.Edited.{edited};
ghost use Rattle.session_edit.specs.PlainEdit.{BringsWhatMayStand, plain_edit};

use crate::beside::add_hole;
use crate::edit::Edit;
use crate::entry::{enter, fill};
use crate::insertion::insert;
use crate::removal::{delete, take_out};
use std::alloc::Global;
use template_tree::{Node, Receipt, Stop, Tree, TreeFault};

/// What an edit at the stop of the cursor answers: what it takes to undo it, and where the cursor
/// stands.
#[derive(Drop)]
pub struct Applied {
    /// What the edit changed, for `Tree::undo`.
    pub receipt: Receipt,
    /// The node that was moved out of the tree, if one was.
    pub taken: Option<Node>,
    /// Where the cursor stands after the edit: at a visible stop.
    pub stop: Stop,
}

/// Edits the tree at the stop, which is visible. `NotHere` where what the edit needs isn't there: a
/// template wants a hole of its sort, phrase text its category, a fragment a hole of its sort or an empty
/// part of its category, deleting a node other than main, a hole in a list of two or more or a phrase,
/// taking out such a node or a phrase, and a hole beside a list item round the cursor. Then come the
/// limits of trees.
pub fn apply(alloc: Global, tree: &mut Tree, at: &Stop, edit: Edit) -> Result<Applied, TreeFault>
    requires tree { IsTree tree.old }
    requires stop { IsStop (roomless_tree tree.old).items (plain_stop at.now) }
    requires edit { BringsWhatMayStand edit }
    ensures { IsAnswer (takes_memory (plain_edit edit) (plain_stop at.now))
        (edited (roomless_tree tree.old) (plain_stop at.now) (plain_edit edit)) tree.old tree.new result }
{
    match edit {
        Edit::Fill(template) => fill(alloc, tree, at, template),
        Edit::Enter(phrase) => enter(alloc, tree, at, phrase),
        Edit::Insert(fragment) => insert(tree, at, fragment),
        Edit::Delete => delete(alloc, tree, at),
        Edit::Take => take_out(alloc, tree, at),
        Edit::Beside(side) => add_hole(alloc, tree, at, side),
    }
}
