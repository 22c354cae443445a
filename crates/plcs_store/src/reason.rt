//! Why a run stands still.
use crate::fault_kind::FaultKind;

/// Why a step isn't made.
#[derive(Clone, Copy, Debug, PartialEq, Eq)]
pub enum Reason {
    /// A part that is needed is empty, or a hole stands there.
    Placeholder,
    /// A phrase that is needed is marked.
    Marked,
    /// The step has a fault.
    Fault(FaultKind),
    /// The input has no whole item more.
    InputWanted,
}

/// Why a run stands still.
#[derive(Clone, Copy, Debug, PartialEq, Eq)]
pub enum RunReason {
    /// A part that is needed is empty, or a hole stands there.
    Placeholder,
    /// A phrase that is needed is marked.
    Marked,
    /// The next step has a fault.
    Fault(FaultKind),
    /// The input has no whole item more.
    InputWanted,
    /// Nothing hinders the next step: the run is new, the steps that were asked for are made, or a step was
    /// taken back.
    Paused,
    /// The run is over.
    Ended,
}
