//! The latest steps of a run, which are taken back one after the other.
#![tactic(auto)]

mod history;
mod history_laws;
mod limit;
mod run_limits;
mod taken_back;

pub use history::{History, NoHistory};
pub use history_laws::{allowed_acts_are_recorded, resuming_leaves_earlier};
pub use limit::MOST_RECORDS;
pub use run_limits::states_keep_limits;
