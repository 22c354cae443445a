//! A loop whose body is being done.
use plcs_base::Slot;

/// What a run keeps of a For while its body is done.
#[derive(Clone, Copy, Debug, PartialEq, Eq)]
pub struct KeptLoop {
    /// The slot of the For.
    pub slot: Slot,
    /// The number behind which the loop is over.
    pub limit: i32,
    /// What each iteration adds to the variable.
    pub step: i32,
}
