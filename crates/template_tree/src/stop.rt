//! Stops of the cursor, and their copies.
ghost use Rattle.std.specs.Prelude.{◌≡◌};
ghost use Rattle.template_tree.specs.Positions.Stop.{plain_stop};

use crate::path::{Path, copy_path};

/// A stop of the cursor: a node of the tree, or one of its parts.
#[derive(Debug, PartialEq, Eq, Drop)]
pub struct Stop {
    /// The path to the node.
    pub path: Path,
    /// The part, counted from 0 in the order shown, or `None` for the node itself.
    pub part: Option<u8>,
}

/// A copy of the stop, which takes no memory.
pub fn copy_stop(stop: &Stop) -> Stop
    ensures { plain_stop result ≡ plain_stop stop.now }
{
    Stop {
        path: copy_path(&stop.path),
        part: stop.part,
    }
}
