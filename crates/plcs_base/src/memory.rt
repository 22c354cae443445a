//! Want of memory.
use std::alloc::{AllocError, AllocFailed};

/// Memory ran out. Unless a call says otherwise, it changed nothing.
#[derive(Clone, Copy, Debug, PartialEq, Eq)]
pub struct OutOfMemory;

impl From<AllocError> for OutOfMemory {
    fn from(_error: AllocError) -> Self {
        OutOfMemory
    }
}

impl<T: Drop> From<AllocFailed<T>> for OutOfMemory {
    fn from(_refused: AllocFailed<T>) -> Self {
        OutOfMemory
    }
}
