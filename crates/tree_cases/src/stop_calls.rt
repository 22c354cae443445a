//! Cases of moves of the cursor.
ghost use Rattle.template_tree.specs.Programs.PlainTree.{roomless_tree};
ghost use Rattle.template_tree.specs.Positions.Stop.{IsStop, plain_stop};
ghost use Rattle.template_tree.specs.Programs.Tree.{IsTree};

use crate::tell::tell_stop;
use case_script::Told;
use cursor_moves::{Move, bottom, down, left, right, top, up};
use plcs_base::ByteOut;
use template_tree::{Stop, Tree};

/// A call of a case on moves of the cursor over the visible stops.
#[derive(Clone, Copy)]
pub(crate) enum StopsCall {
    /// `stops`: each visible stop, with the stops to which the moves left, right, up and down go from it.
    Stops,
    /// `top`: the first one.
    Top,
    /// `bottom`: the last one.
    Bottom,
}

/// Plays a case on moves of the cursor.
pub(crate) fn play(tree: &Tree, call: StopsCall, told: &mut Told) -> Option<()>
    requires { IsTree tree.now }
{
    match call {
        StopsCall::Stops => tell_stops(tree, told),
        StopsCall::Top => tell_stop(&top(tree), told),
        StopsCall::Bottom => tell_stop(&bottom(tree), told),
    }
    told.put(b'\n');
    Some(())
}

/// Tells each visible stop, from the first one to the right, with its moves.
fn tell_stops(tree: &Tree, told: &mut Told)
    requires { IsTree tree.now }
{
    let mut at = top(tree);
    for _ in 0..100_000 {
        tell_moves(tree, &at, told);
        let Move::Moved(next) = right(tree, &at) else {
            return;
        };
        at = next;
        told.put(b'\n');
    }
}

/// Tells a visible stop and where each move goes from it.
fn tell_moves(tree: &Tree, at: &Stop, told: &mut Told)
    requires tree { IsTree tree.now }
    requires stop { IsStop (roomless_tree tree.now).items (plain_stop at.now) }
{
    tell_stop(at, told);
    tell_move(" left ", &left(tree, at), told);
    tell_move(" right ", &right(tree, at), told);
    tell_move(" up ", &up(tree, at), told);
    tell_move(" down ", &down(tree, at), told);
}

/// Tells where the move goes.
fn tell_move(name: &str, to: &Move, told: &mut Told) {
    told.text(name);
    match to {
        Move::Moved(stop) => tell_stop(stop, told),
        Move::AtEdge => told.text("at edge"),
    }
}
