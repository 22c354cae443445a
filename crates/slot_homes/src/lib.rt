//! Where in a tree the nodes of slots stand, as advice: what is said may be old, missing or wrong, so whoever asks
//! looks there.
//!
//! `home` is what is said of one slot, `homes` keeps it for many, and `way` follows it up to the program.
#![tactic(auto)]

mod home;
mod homes;
mod way;

pub use home::Home;
pub use homes::{Homes, MOST_SHIFTS};
pub use way::{Way, WayStep};
