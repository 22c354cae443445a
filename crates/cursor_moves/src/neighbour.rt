//! Moves right and left, to the next and the previous visible stop.
ghost use Rattle.std.specs.Prelude.{◌≡◌, IfSome};
ghost use Rattle.template_tree.specs.Programs.PlainTree.{roomless_tree};
ghost use Rattle.template_tree.specs.Positions.Stop.{IsStop, plain_stop};
ghost use Rattle.template_tree.specs.Programs.Tree.{IsTree};
ghost use Rattle.cursor_moves.specs.Move.{moved_to, stop_left, stop_right};

use crate::cursor_move::Move;
use crate::next_node::next_node;
use crate::part_stops::{last_of_node, next_part};
use crate::previous_node::previous_node;
use template_tree::{Stop, Tree, copy_path, room_is_not_shown};

/// Goes to the next visible stop, in listing order. It takes no memory.
pub fn right(tree: &Tree, at: &Stop) -> Move
    requires tree { IsTree tree.now }
    requires stop { IsStop (roomless_tree tree.now).items (plain_stop at.now) }
    ensures moved { moved_to result ≡ stop_right (roomless_tree tree.now).items (plain_stop at.now) }
    ensures stop { IfSome (moved_to result) (IsStop (roomless_tree tree.now).items) }
{
    room_is_not_shown();
    let Some(node) = tree.node(&at.path) else {
        return Move::AtEdge;
    };
    if let Some(part) = next_part(node.kind(), at.part) {
        return Move::Moved(Stop {
            path: copy_path(&at.path),
            part: Some(part),
        });
    }
    Move::to_node(next_node(tree, &at.path))
}

/// Goes to the previous visible stop, in listing order. It takes no memory.
pub fn left(tree: &Tree, at: &Stop) -> Move
    requires tree { IsTree tree.now }
    requires stop { IsStop (roomless_tree tree.now).items (plain_stop at.now) }
    ensures moved { moved_to result ≡ stop_left (roomless_tree tree.now).items (plain_stop at.now) }
    ensures stop { IfSome (moved_to result) (IsStop (roomless_tree tree.now).items) }
{
    room_is_not_shown();
    if let Some(part) = at.part {
        return Move::Moved(Stop {
            path: copy_path(&at.path),
            part: part.checked_sub(1),
        });
    }
    let Some(path) = previous_node(tree, &at.path) else {
        return Move::AtEdge;
    };
    Move::Moved(last_of_node(tree, path))
}
