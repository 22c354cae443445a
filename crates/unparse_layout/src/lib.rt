//! The layout of a tree: the lines of the screen, found by number, and the lines of stops.
#![tactic(auto)]

mod commitment;
mod elided;
mod lay;
mod layout;
mod layout_edit;
mod line;
mod line_laws;
mod line_of;
mod new;
mod node_layout;
mod plan;
mod preparation;

pub use layout::Layout;
pub use layout_edit::LayoutEdit;
pub use line::{LONGEST_LINE, Line, LineKind, screen_cell};
pub use line_laws::{layouts_ignore_room, owned_lines_are_lines};
