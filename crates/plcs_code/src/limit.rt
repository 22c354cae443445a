//! The limit of code.

/// How many instructions a block may have: a jump goes no further.
pub const MOST_INSTRS: usize = 2_147_483_647;
