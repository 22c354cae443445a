//! The sizes of screens, and how many of their rows are not the window's.

/// The fewest rows that a screen has.
pub const FEWEST_ROWS: u16 = 12;

/// The most rows that a screen has.
pub const MOST_ROWS: u16 = 100;

/// The fewest columns that a screen has.
pub const FEWEST_COLS: u16 = 40;

/// The most columns that a screen has.
pub const MOST_COLS: u16 = 160;

/// The rows of a screen that aren't its window's: dashes, three rows of output, the message and the input.
pub const OTHER_ROWS: u16 = 6;
