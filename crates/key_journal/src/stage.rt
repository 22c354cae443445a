//! How far a journal has come, and what it finds on its disk.

/// How far a journal has come.
#[derive(Clone, Copy, Debug, PartialEq, Eq)]
pub(crate) enum Stage {
    /// The last answer was a fault, so what the disk reads as may not be what a crash leaves.
    Unsynced,
    /// There may be kept keys that weren't given yet.
    Replaying,
    /// All kept keys were given, and a gate that isn't open stands behind them.
    Appending,
}

/// What stands in a journal at the place of a gate.
#[derive(Clone, Copy, Debug, PartialEq, Eq)]
pub(crate) enum GateContent {
    /// An open gate with its key.
    Open(u8),
    /// A gate that isn't open.
    Shut,
    /// No byte, or an open gate that has no key.
    Cut,
}
