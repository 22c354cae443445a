//! Why a run can't be resumed.
use plcs_base::Slot;

/// Why a run can't be resumed in the program as it is now.
#[derive(Clone, Copy, Debug, PartialEq, Eq)]
pub enum ResumeRefusal {
    /// The procedure in the slot, of which a frame stands, is gone or has another heading.
    HeadingChanged(Slot),
    /// The procedure in the slot has other effective items.
    DeclarationChanged(Slot),
    /// What stands in the slot, at which a frame stands, is gone or changed.
    TemplateChanged(Slot),
}
