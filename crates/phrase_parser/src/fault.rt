//! The fault that `parse` answers: why a text is no phrase.
ghost use Rattle.std.specs.Prelude.{◌≡◌};
ghost use Rattle.phrase_parser.specs.declared.fault.PhraseFault.TheVariants.{OutOfMemory};

use std::alloc::{AllocError, AllocFailed};

/// The fault that `parse` answers: why a text was not read as a phrase. Places are counted from 0, in bytes.
#[derive(Clone, Copy, Debug, PartialEq, Eq)]
pub enum PhraseFault {
    /// The text has no reading, even with numbers of any size and any nesting. The place is the start of
    /// the first token that can't stand there or the byte where no token can be made, whichever comes
    /// first, else the text's length. A comment's text is refused at its length where it is all blank, at
    /// 0 where it is `{comment}`, and else at its first `*/` or byte that isn't printable.
    Syntax(u32),
    /// The number at this place is greater than 2147483647, and nothing before it goes past a limit.
    NumberTooLarge(u32),
    /// The token at this place opens the 33rd level, and nothing before it goes past a limit.
    TooDeep(u32),
    /// Memory ran out.
    OutOfMemory,
}

impl From<AllocError> for PhraseFault {
    ghost from_gives = { λ _ e. e ≡ OutOfMemory };

    fn from(_error: AllocError) -> Self {
        PhraseFault::OutOfMemory
    }
}

impl<T: Drop> From<AllocFailed<T>> for PhraseFault {
    ghost from_gives = { λ _ e. e ≡ OutOfMemory };

    fn from(_refused: AllocFailed<T>) -> Self {
        PhraseFault::OutOfMemory
    }
}
