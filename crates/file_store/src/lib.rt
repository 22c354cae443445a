//! Listing files: programs saved as their listings, and read from them again.
#![tactic(auto)]

mod file_out;
mod limit;
mod line_laws;
mod listing_laws;
mod loading;
mod reader;
mod refusal;
mod saving;
mod waiting;

pub use limit::{LONGEST_INPUT, LONGEST_LISTING};
pub use listing_laws::{
    listed_lines_are_lines, listings_are_short, loading_ignores_room, one_listing, one_outcome,
};
pub use loading::{load, load_input};
pub use reader::read_listing;
pub use refusal::FileRefusal;
pub use saving::{rescue, save};
