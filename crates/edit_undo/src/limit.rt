//! How many edits can be undone.

/// How many edits a ring holds at most.
pub const MOST_EDITS: usize = 50;

/// How many slots the nodes may have together that the edits of a ring took out.
pub const MOST_TAKEN_SLOTS: u32 = 20_000;
