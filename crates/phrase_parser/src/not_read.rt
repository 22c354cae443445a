//! Why something was not read.
ghost use Rattle.std.specs.Prelude.{◌≡◌};
ghost use Rattle.phrase_parser.specs.declared.not_read.NotRead.TheVariants.{OutOfMemory};

use std::alloc::{AllocError, AllocFailed};

/// Why something was not read of a text or of tokens. For the layers that read phrases and listings.
#[derive(Clone, Copy, Debug, PartialEq, Eq)]
pub enum NotRead {
    /// Memory ran out.
    OutOfMemory,
    /// No such thing stands there.
    Refused,
}

impl From<AllocError> for NotRead {
    ghost from_gives = { λ _ e. e ≡ OutOfMemory };

    fn from(_error: AllocError) -> Self {
        NotRead::OutOfMemory
    }
}

impl<T: Drop> From<AllocFailed<T>> for NotRead {
    ghost from_gives = { λ _ e. e ≡ OutOfMemory };

    fn from(_refused: AllocFailed<T>) -> Self {
        NotRead::OutOfMemory
    }
}
