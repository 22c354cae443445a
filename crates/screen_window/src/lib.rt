//! The screen: grids of cells, how a program is shown on them, how they are painted on a terminal, and
//! the plain terminal.
#![tactic(auto)]

mod composing;
mod cursor;
mod grid;
mod limit;
mod line_cache;
mod lines;
mod lower_rows;
mod node_line;
mod painted_terminal;
mod painting;
mod row_text;
mod sequence;
mod shown_cells;
mod terminal;
mod view;

pub use composing::compose;
pub use grid::Grid;
pub use limit::{FEWEST_COLS, FEWEST_ROWS, MOST_COLS, MOST_ROWS, OTHER_ROWS};
pub use line_cache::LineCache;
pub use lower_rows::cursor_part;
pub use painted_terminal::painted_terminal_shows;
pub use painting::{paint, write_piece, writes_in_turn};
pub use terminal::Terminal;
pub use view::View;
