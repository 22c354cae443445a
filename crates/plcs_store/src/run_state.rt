//! What a run is in.
use crate::frames::Frames;
use crate::kept::Kept;
use crate::operands::Operands;
use crate::output::Output;
use crate::reason::RunReason;

/// The state of a run.
#[derive(Drop)]
pub struct RunState {
    /// The calls that aren't left, from main upward.
    pub frames: Frames,
    /// How many bytes of the input were taken.
    pub taken: u32,
    /// What was written.
    pub output: Output,
    /// Room for what one step works on. It is empty between steps, and no definition sees it.
    pub operands: Operands,
}

/// What a run is in, with what belongs to it while it stands still: why it does, and what is kept of its
/// program.
#[derive(Drop)]
pub struct Run {
    /// What the run is in.
    pub state: RunState,
    /// Why it stands still.
    pub reason: RunReason,
    /// What is kept of the program as it was when the run was suspended; nothing as long as it wasn't
    /// edited.
    pub kept: Option<Kept>,
}
