//! The limits of phrases. The limits of names and texts stand in `plcs_base`.

/// The greatest number that a phrase may have.
pub const GREATEST_NUMBER: u32 = 2147483647;

/// How deep a phrase may be nested.
pub const GREATEST_NESTING: u32 = 32;
