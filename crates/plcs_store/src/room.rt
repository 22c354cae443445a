//! For how many more each type of a run has room. It has it always, so what is put there takes no memory.
ghost use Rattle.std.specs.Prelude.{◌≡◌};
ghost use Rattle.plcs_store.specs.Limit.{most_frames, most_loops, most_operands, most_output, room_beside};

use crate::frames::Frames;
use crate::limit::{MOST_FRAMES, MOST_LOOPS, MOST_OPERANDS, MOST_OUTPUT};
use crate::loops::Loops;
use crate::operands::{Arguments, OperandValues};
use crate::output::Output;

impl Frames {
    /// Room that a run has always: for how many more frames.
    pub fn room(&self) -> usize
        ensures { result ≡ room_beside most_frames self.now }
    {
        MOST_FRAMES.saturating_sub(self.as_slice().len())
    }
}

impl Loops {
    /// Room that a run has always: for how many more loops in a frame.
    pub fn room(&self) -> usize
        ensures { result ≡ room_beside most_loops self.now }
    {
        MOST_LOOPS.saturating_sub(self.as_slice().len())
    }
}

impl Output {
    /// Room that a run has always: for how many more bytes of output.
    pub fn room(&self) -> usize
        ensures { result ≡ room_beside most_output self.now }
    {
        MOST_OUTPUT.saturating_sub(self.as_slice().len())
    }
}

impl OperandValues {
    /// Room that a run has always: for how many more values of operands.
    pub fn room(&self) -> usize
        ensures { result ≡ room_beside most_operands self.now }
    {
        MOST_OPERANDS.saturating_sub(self.count())
    }
}

impl Arguments {
    /// Room that a run has always: for how many more arguments.
    pub fn room(&self) -> usize
        ensures { result ≡ room_beside most_operands self.now }
    {
        MOST_OPERANDS.saturating_sub(self.count())
    }
}
