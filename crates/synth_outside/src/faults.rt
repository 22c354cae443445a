//! Why a call on a source, a sink or files isn't `Ok`.

use thiserror::Error;

/// Why a read of a source isn't `Ok`. It may have lost bytes.
#[derive(Clone, Copy, Debug, PartialEq, Eq, Error)]
pub enum SourceFault {
    /// The read failed, which the source counts.
    #[error("the read failed")]
    Failed,
    /// Memory ran out, which isn't counted.
    #[error("memory ran out")]
    OutOfMemory,
}

/// Why a write to a sink isn't `Ok`. It may have taken a prefix of the piece.
#[derive(Clone, Copy, Debug, PartialEq, Eq, Error)]
pub enum SinkFault {
    /// The write failed, which the sink counts.
    #[error("the write failed")]
    Failed,
    /// Memory ran out, which the sink counts too.
    #[error("memory ran out")]
    OutOfMemory,
}

/// Why a call on files isn't `Ok`. A read may have lost bytes, and a write may have taken a prefix
/// of the piece.
#[derive(Clone, Copy, Debug, PartialEq, Eq, Error)]
pub enum FilesFault {
    /// There is no file of the name. Only `Files::open_read` answers it.
    #[error("there is no such file")]
    NoFile,
    /// The call failed, which the files count.
    #[error("the call failed")]
    Failed,
    /// Memory ran out, which the files count too.
    #[error("memory ran out")]
    OutOfMemory,
}
