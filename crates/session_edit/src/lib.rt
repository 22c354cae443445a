//! Edits at the stop of the cursor, and where the cursor stands after them.
#![tactic(auto)]

mod applied;
mod beside;
mod edit;
mod entry;
mod here;
mod insertion;
mod next_stop;
mod removal;
mod room_laws;
mod slot_stop;
mod step_law;

pub use applied::{Applied, apply};
pub use edit::Edit;
pub use here::{takes, wanted};
pub use slot_stop::shown_stop;
pub use step_law::edits_at_stops_are_steps;
