//! What comes of a step.
use plcs_store::Reason;

/// What comes of a step.
#[derive(Clone, Copy, Debug, PartialEq, Eq)]
pub enum StepAnswer {
    /// It is made.
    Stepped,
    /// It isn't made, for this reason.
    Stopped(Reason),
    /// The run is over.
    Ended,
}
