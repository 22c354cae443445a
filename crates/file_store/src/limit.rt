//! The limits of files.

/// How many bytes a listing file may have. The listing of a program within the limits is never longer.
pub const LONGEST_LISTING: usize = 33_554_432;

/// How many bytes a program's input may have.
pub const LONGEST_INPUT: usize = 1_048_576;
