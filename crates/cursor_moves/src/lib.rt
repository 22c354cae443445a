//! Moves of the cursor over the stops of a tree.
#![tactic(auto)]

mod cursor_move;
mod end;
mod line;
mod neighbour;
mod next_node;
mod part_stops;
mod previous_node;
mod stop_laws;

pub use cursor_move::Move;
pub use end::{bottom, top};
pub use line::{down, up};
pub use neighbour::{left, right};
pub use stop_laws::{stops_are_distinct, stops_are_listed, stops_rise};
