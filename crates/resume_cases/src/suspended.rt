//! A run that stands still, with its history.

use back_steps::History;
use plcs_store::Run;

/// A run that stands still, and the steps that can be taken back.
#[derive(Drop)]
pub(crate) struct Suspended {
    /// The run.
    pub(crate) run: Run,
    /// The records of its latest steps.
    pub(crate) history: History,
}
