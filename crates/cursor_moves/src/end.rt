//! Moves to the top and the bottom, which are the first and the last visible stop.
ghost use Rattle.std.specs.Prelude.{◌≡◌};
ghost use Rattle.template_tree.specs.Programs.PlainTree.{roomless_tree};
ghost use Rattle.template_tree.specs.Positions.Stop.{IsStop, plain_stop};
ghost use Rattle.template_tree.specs.Programs.Tree.{IsTree};
ghost use Rattle.cursor_moves.specs.Move.{first_stop, last_stop};

use crate::part_stops::last_of_node;
use crate::previous_node::push_last;
use template_tree::{Path, Stop, Tree, room_is_not_shown};

/// The first visible stop, in listing order. It takes no memory.
pub fn top(tree: &Tree) -> Stop
    requires tree { IsTree tree.now }
    ensures first { plain_stop result ≡ first_stop (roomless_tree tree.now).items }
    ensures stop { IsStop (roomless_tree tree.now).items (plain_stop result) }
{
    room_is_not_shown();
    let mut path = Path::new();
    path.push(0);
    Stop { path, part: None }
}

/// The last visible stop, in listing order. It takes no memory.
pub fn bottom(tree: &Tree) -> Stop
    requires tree { IsTree tree.now }
    ensures last { plain_stop result ≡ last_stop (roomless_tree tree.now).items }
    ensures stop { IsStop (roomless_tree tree.now).items (plain_stop result) }
{
    room_is_not_shown();
    let mut path = Path::new();
    path.push(tree.procedures());
    push_last(tree, &mut path);
    last_of_node(tree, path)
}
