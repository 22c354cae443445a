//! Runs that stand still: what is kept of the program when one is edited, and how the run goes on.
#![tactic(auto)]

mod kept_copy;
mod start;
mod suspending;
mod suspension_law;

pub use plcs_store::{Run, RunReason};
pub use suspending::Suspending;
pub use suspension_law::fitting_runs_are_kept;
