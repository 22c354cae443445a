//! The latest edits of a tree, which are undone one after the other.
#![tactic(auto)]

mod edit_laws;
mod edit_record;
mod edit_ring;
mod limit;
mod undone;

pub use edit_laws::{edits_are_noted, toggles_leave_earlier, undone_trees_check_alike};
pub use edit_record::EditRecord;
pub use edit_ring::EditRing;
pub use limit::{MOST_EDITS, MOST_TAKEN_SLOTS};
pub use undone::{UndoFault, Undone};
