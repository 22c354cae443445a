//! How far a run goes back.

/// How many records of steps a history holds.
pub const MOST_RECORDS: usize = 500;
