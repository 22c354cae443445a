//! Moves down and up, to visible stops on other lines.
ghost use Rattle.std.specs.Prelude.{◌≡◌, IfSome};
ghost use Rattle.template_tree.specs.Programs.PlainTree.{roomless_tree};
ghost use Rattle.template_tree.specs.Positions.Stop.{IsStop, plain_stop};
ghost use Rattle.template_tree.specs.Programs.Tree.{IsTree};
ghost use Rattle.cursor_moves.specs.Move.{moved_to, stop_down, stop_up};

use crate::cursor_move::Move;
use crate::next_node::next_node;
use crate::previous_node::previous_node;
use template_tree::{Stop, Tree, room_is_not_shown};

/// Goes to the first visible stop on a later line. It takes no memory.
pub fn down(tree: &Tree, at: &Stop) -> Move
    requires tree { IsTree tree.now }
    requires stop { IsStop (roomless_tree tree.now).items (plain_stop at.now) }
    ensures moved { moved_to result ≡ stop_down (roomless_tree tree.now).items (plain_stop at.now) }
    ensures stop { IfSome (moved_to result) (IsStop (roomless_tree tree.now).items) }
{
    room_is_not_shown();
    Move::to_node(next_node(tree, &at.path))
}

/// Goes to the first visible stop on the nearest earlier line that has one. It takes no memory.
pub fn up(tree: &Tree, at: &Stop) -> Move
    requires tree { IsTree tree.now }
    requires stop { IsStop (roomless_tree tree.now).items (plain_stop at.now) }
    ensures moved { moved_to result ≡ stop_up (roomless_tree tree.now).items (plain_stop at.now) }
    ensures stop { IfSome (moved_to result) (IsStop (roomless_tree tree.now).items) }
{
    room_is_not_shown();
    Move::to_node(previous_node(tree, &at.path))
}
