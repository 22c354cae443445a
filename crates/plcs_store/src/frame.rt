//! A frame of a run.
use crate::cells::Cells;
use crate::loops::Loops;
use plcs_base::{Place, Slot};

/// A call that isn't left yet; the first is that of main.
#[derive(Drop)]
pub struct Frame {
    /// The slot of the procedure.
    pub procedure: Slot,
    /// Where the run stands in it.
    pub place: Place,
    /// The cells of its variables.
    pub cells: Cells,
    /// The loops whose bodies are being done, the outermost first.
    pub loops: Loops,
}
