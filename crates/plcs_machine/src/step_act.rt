//! Acts.
use plcs_base::Value;
use plcs_store::{KeptLoop, Location};

/// What a step does, beside going to a place, where it neither writes, reads nor calls.
#[derive(Drop)]
pub(crate) enum StepAct {
    /// A value is stored.
    Store(Location, Value),
    /// A value is stored, and the body of a loop entered.
    Enter(Location, Value, KeptLoop),
    /// A value is stored, and the loop of this number left.
    Finish(Location, Value, usize),
    /// The newest frame is left.
    Leave,
}
