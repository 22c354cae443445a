//! What code knows of an effective heading.
use plcs_base::Slot;

/// What code knows of an effective heading.
#[derive(Clone, Copy, Debug, PartialEq, Eq)]
pub struct HeadingEntry {
    /// The address of the first instruction of its procedure.
    pub address: u32,
    /// Its slot.
    pub slot: Slot,
}
