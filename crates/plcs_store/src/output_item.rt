//! Values written to the output, in the state of a run.
ghost use Rattle.std.specs.Prelude.{◌≡◌, ◌≤◌, ◌↔◌, length, IsOk, OnOk, OnErr};
ghost use Rattle.plcs_store.specs.Limit.{most_output};
ghost use Rattle.plcs_store.specs.OutputItem.{output_with};

use crate::output::OutputFull;
use crate::run_state::RunState;
use plcs_base::Value;

/// Writes the values to the output in the state of a run, on a new line or not, each behind what separates it
/// from what stands before. It takes no memory.
///
/// `OutputFull` where the output would have over 100,000 bytes; then nothing is changed.
pub fn write_items(state: &mut RunState, skip: bool, items: &[Value]) -> Result<(), OutputFull>
    ensures fits { IsOk result ↔ (length (output_with skip state.old.output items.now) ≤ most_output) }
    ensures written { OnOk result
        (state.new ≡ record state.old { output = output_with skip state.old.output items.now }) }
    ensures refused { OnErr result (state.new ≡ state.old) }
{
    state.output.write(skip, items)
}
