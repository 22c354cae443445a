//! The faults of a run.

/// A fault of a run: why a step can't be made.
#[derive(Clone, Copy, Debug, PartialEq, Eq)]
pub enum FaultKind {
    /// A whole number is outside -2147483648 to 2147483647.
    FixedOverflow,
    /// A division by 0, or `MOD` by 0.
    ZeroDivide,
    /// A subscript is below 1 or over the size.
    SubscriptRange,
    /// `SUBSTR` takes bytes that the text doesn't have.
    StringRange,
    /// A joined text has over 256 bytes.
    StringSize,
    /// A cell that wasn't set is read.
    Uninitialized,
    /// An item of the input doesn't read as its type.
    Conversion,
    /// The output would have over 100,000 bytes.
    OutputLimit,
    /// A procedure is called while 64 frames stand.
    CallDepth,
}
