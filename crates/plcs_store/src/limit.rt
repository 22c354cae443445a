//! The limits of a run.

/// How many frames may stand.
pub const MOST_FRAMES: usize = 64;

/// How many loops a frame may keep.
pub const MOST_LOOPS: usize = 64;

/// How many bytes a run may write.
pub const MOST_OUTPUT: usize = 100_000;

/// For how many operands, and for how many arguments, a step has room. Each of them stands in a phrase of at
/// most 400 bytes, so operands and arguments together are never more than that.
pub const MOST_OPERANDS: usize = 400;
