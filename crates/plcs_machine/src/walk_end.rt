//! Where a walk over instructions ended.
use plcs_base::Place;

/// Where a walk over the instructions of a step ended, behind which the step goes on.
#[derive(Clone, Copy)]
pub(crate) struct WalkEnd {
    /// The place behind which the walk began.
    pub(crate) from: Place,
    /// The address behind its last instruction.
    pub(crate) next: u32,
    /// How many fetches are left.
    pub(crate) left: u32,
}
