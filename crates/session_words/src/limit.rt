//! The limits of the arguments of commands.

/// How many steps the argument of `.step` asks for at most.
pub const MOST_STEPS: u32 = 100;

/// How many steps back the argument of `.back` asks for at most.
pub const MOST_STEPS_BACK: u32 = 500;

/// The greatest number that is an argument of `.code`.
pub const GREATEST_CODE_NUMBER: u32 = 4_294_967_295;

/// How many bytes an argument may have that is a file name.
pub const LONGEST_FILE_NAME: usize = 100;
