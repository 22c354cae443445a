//! The keys of real terminals, of which those pass to the editor that it knows.
#![tactic(auto)]

mod cutting;
mod ending;
mod passing;
mod sequence;

pub use ending::Ending;
pub use passing::{MOST_READ, pass_keys};
pub use sequence::{LONGEST, can_follow, is_whole, passed_of_sequence};
