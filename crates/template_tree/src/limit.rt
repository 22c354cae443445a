//! The limits of a tree.

/// How many numbers a path in a tree may have.
pub const DEEPEST_PATH: usize = 64;

/// How many slots may be live.
pub const MOST_SLOTS: u32 = 20_000;

/// How many slots may be drawn.
pub const MOST_DRAWN_SLOTS: u32 = 2_147_483_648;

/// How many bytes the canonical text of a phrase in a tree may have.
pub const LONGEST_PHRASE: u32 = 400;

/// How many cells the effective items of one procedure in a tree may have together.
pub const MOST_CELLS: u32 = 2_000;
