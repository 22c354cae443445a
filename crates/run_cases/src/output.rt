//! The output of a run.

use crate::value::value_of;
use case_script::Told;
use plcs_base::{OutOfMemory, Value};
use plcs_store::{Arguments, Frames, OperandValues, Operands, Output, RunState, write_items};
use std::alloc::Global;

/// A state for cases of output alone: it has no frame and wrote nothing.
pub(crate) fn empty_state(alloc: Global) -> Result<RunState, OutOfMemory> {
    Ok(RunState {
        frames: Frames::new(alloc)?,
        taken: 0,
        output: Output::new(alloc)?,
        operands: Operands {
            values: OperandValues::new(alloc)?,
            arguments: Arguments::new(alloc)?,
        },
    })
}

/// Begins the output anew.
pub(crate) fn begin(state: &mut RunState, told: &mut Told) -> Option<()> {
    *state = empty_state(told.alloc()).ok()?;
    told.line("begun");
    Some(())
}

/// Writes the values that the words spell, on a new line or not, and tells whether they fit and how long the
/// output is.
pub(crate) fn put(
    state: &mut RunState,
    skip: bool,
    words: &[Vec<u8>],
    told: &mut Told,
) -> Option<()> {
    let values = values_of(told.alloc(), words)?;
    told.value(&write_items(state, skip, values.as_slice()));
    told.text(", ");
    told.value(&state.output.as_slice().len());
    told.line(" bytes");
    Some(())
}

/// The values that are written to the output, which the words spell.
fn values_of(alloc: Global, words: &[Vec<u8>]) -> Option<Vec<Value>> {
    let mut values = Vec::new(alloc);
    for word in words {
        let value = value_of(word.as_slice())?;
        values.push(value).ok()?;
    }
    Some(values)
}
