//! Where a move of the cursor goes.
ghost use Rattle.std.specs.Prelude.{◌≡◌, option_map, None};
ghost use Rattle.cursor_moves.specs.Move.{moved_to};

use template_tree::{Path, Stop};

/// Where a move of the cursor goes.
#[derive(Debug, PartialEq, Eq, Drop)]
pub enum Move {
    /// To this stop.
    Moved(Stop),
    /// Nowhere: there is no such stop.
    AtEdge,
}

impl Move {
    /// The move of the cursor that goes to the node at the path, or nowhere where no path is found.
    pub(crate) fn to_node(path: Option<Path>) -> Move
        ensures { moved_to result ≡ option_map (λ path. record { path = path.items; part = None }) path }
    {
        match path {
            Some(path) => Move::Moved(Stop { path, part: None }),
            None => Move::AtEdge,
        }
    }
}
