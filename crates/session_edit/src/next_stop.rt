//! Where the cursor goes from a stop that was filled.
ghost use Rattle.std.specs.Prelude.{◌≡◌};
ghost use Rattle.template_tree.specs.Programs.PlainTree.{roomless_tree};
ghost use Rattle.template_tree.specs.Positions.Stop.{IsStop, plain_stop};
ghost use Rattle.template_tree.specs.Programs.Tree.{IsTree};
ghost use Rattle.session_edit.specs.Cursor.{onward, stop_or_next};

use cursor_moves::{Move, right};
use template_tree::{Stop, Tree, copy_stop};

/// Where the cursor goes from a stop that was filled: to the next stop, where that lies in the same
/// node or in a node inside it. Else it stays.
pub(crate) fn onward(tree: &Tree, at: &Stop) -> Stop
    requires tree { IsTree tree.now }
    requires stop { IsStop (roomless_tree tree.now).items (plain_stop at.now) }
    ensures onward { plain_stop result ≡ onward (roomless_tree tree.now).items (plain_stop at.now) }
    ensures stop { IsStop (roomless_tree tree.now).items (plain_stop result) }
{
    match right(tree, at) {
        Move::Moved(next) => next_within(at, next),
        Move::AtEdge => copy_stop(at),
    }
}

/// The one of two stops, that which was filled and the next, to which the cursor goes: the next, where
/// it lies in the node of the other or in a node inside that.
fn next_within(at: &Stop, next: Stop) -> Stop
    ensures { plain_stop result ≡ stop_or_next (plain_stop at.now) (plain_stop next) }
{
    if next.path.starts_with(at.path.as_slice()) {
        return next;
    }
    copy_stop(at)
}
