//! The line for standard error, into which bytes are put.

use arrayvec::ArrayVec;
use plcs_base::ByteOut;

/// How many bytes the line has at most; no report has more.
const LONGEST_LINE: usize = 300;

/// A line for standard error, which takes no memory.
#[derive(Drop)]
pub struct ErrorLine {
    bytes: ArrayVec<u8, LONGEST_LINE>,
}

impl ErrorLine {
    /// A line without bytes.
    pub fn new() -> ErrorLine {
        ErrorLine {
            bytes: ArrayVec::new(),
        }
    }

    /// What was put into the line.
    pub fn as_str(&self) -> &str {
        std::str::from_utf8(self.bytes.as_slice()).unwrap_or("")
    }
}

impl ByteOut for ErrorLine {
    ghost puts = { λ _ _ _. Unit {0} };

    fn put(&mut self, byte: u8) {
        if self.bytes.try_push(byte).is_err() {}
    }
}
