//! The records of steps.
ghost use Rattle.std.specs.Prelude.{◌≡◌};
ghost use Rattle.plcs_store.specs.declared.undo.Undo.{Undo};

use crate::cell::{Cell, Location};
use crate::frame::Frame;
use crate::kept_loop::KeptLoop;
use plcs_base::Place;

/// The record of one step: from it and the state after the step the whole state before it can be had.
///
/// The place in it is the one at which the step was made, but in `Left` that at which the caller waited.
#[derive(Drop)]
pub enum Undo {
    /// No step.
    Empty,
    /// A step that changed the place alone.
    Moved(Place),
    /// A cell was set, which held this before.
    Stored(Place, Location, Cell),
    /// A cell was set, and the body of a loop entered.
    Entered(Place, Location, Cell),
    /// A cell was set, and this loop left, which had this number among those of its frame, counted from 0 at the
    /// outermost.
    Finished(Place, Location, Cell, KeptLoop, usize),
    /// A cell was set from the input, of which so many bytes were taken before.
    Read(Place, Location, Cell, u32),
    /// Something was written behind so many bytes.
    Wrote(Place, u32),
    /// A procedure was called.
    Called(Place),
    /// This frame was left, whose place is the one at which the step was made; the place beside it is that at
    /// which its caller waited.
    Left(Place, Frame),
}

impl Undo {
    /// An empty record of a step. It takes no memory.
    pub fn new() -> Undo
        ensures { result ≡ Undo.Empty }
    {
        Undo::Empty
    }
}
