//! Edits as steps from tree to tree: laws of what slots and the places of runs mean after edits.
#![tactic(auto)]

mod agreement_laws;
mod edit_step_laws;
mod place_laws;

pub use agreement_laws::{agreement_lasts, slots_stand};
pub use edit_step_laws::{edits_are_steps, edits_follow};
pub use place_laws::{
    list_marks_follow_items, places_ignore_room_and_elision, places_last, sites_stand,
};
