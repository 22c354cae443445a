//! New runs.
ghost use Rattle.std.specs.Prelude.{◌≡◌, [], ◌∷◌, IfOk, IsSome, OnOk, Some, option_map};
ghost use Rattle.plcs_store.specs.Configuration.{plain_configuration, plain_place};
ghost use Rattle.plcs_machine.specs.Enter.{Enter, begun_in};
ghost use Rattle.plcs_machine.specs.Fetched.{FetchesAtMost, FetchesBy, fetches_of, result_of};
ghost use Rattle.plcs_machine.specs.Passing.{Landing};

use crate::landing::add_unset;
use plcs_base::{OutOfMemory, Place, Slot, Work};
use plcs_code::{CodeView, Instr};
use plcs_store::{
    Arguments, Cells, Frame, Frames, Loops, OperandValues, Operands, Output, RunState,
};
use std::alloc::Global;

/// A new run of the code: main's frame at its first place, with no cell set. The instructions up to that place
/// are fetched, each once.
///
/// The state has room for 64 frames, 100,000 bytes of output and 400 operands, and its frame for 64 loops.
pub fn start<W: Work, C: CodeView<W>>(
    alloc: Global,
    code: &C,
    work: &mut W,
) -> Result<RunState, OutOfMemory>
    requires begins { IsSome (Enter (C.code code.now)) }
    ensures began { IfOk result (λ state. result_of (Enter (C.code code.now)) ≡ Some (plain_configuration state)) }
    ensures ready { IfOk result (λ state. (state.operands.values ≡ []) × (state.operands.arguments ≡ [])) }
    ensures counted { OnOk result (FetchesBy (fetches_of (Enter (C.code code.now)))
        (W.counts work.old) (W.counts work.new)) }
    ensures counts { FetchesAtMost (fetches_of (Enter (C.code code.now))) (W.counts work.old) (W.counts work.new) }
{
    let Ok(mut state) = unbegun(alloc) else {
        return Err(OutOfMemory);
    };
    let Ok(frame) = first_frame(alloc, code, work) else {
        return Err(OutOfMemory);
    };
    state.frames.push(frame);
    Ok(state)
}

/// The state before a run begins: no frame stands, and nothing was taken or written.
fn unbegun(alloc: Global) -> Result<RunState, OutOfMemory>
    ensures before { IfOk result (λ state. plain_configuration state
        ≡ record { frames = []; taken = 0; output = [] }) }
    ensures ready { IfOk result (λ state. (state.operands.values ≡ []) × (state.operands.arguments ≡ [])) }
{
    let Ok(frames) = Frames::new(alloc) else {
        return Err(OutOfMemory);
    };
    let Ok(output) = Output::new(alloc) else {
        return Err(OutOfMemory);
    };
    let Ok(operands) = no_operands(alloc) else {
        return Err(OutOfMemory);
    };
    Ok(RunState {
        frames,
        taken: 0,
        output,
        operands,
    })
}

/// The room for what a step works on, with nothing in it.
fn no_operands(alloc: Global) -> Result<Operands, OutOfMemory>
    ensures { IfOk result (λ operands. (operands.values ≡ []) × (operands.arguments ≡ [])) }
{
    let Ok(values) = OperandValues::new(alloc) else {
        return Err(OutOfMemory);
    };
    let Ok(arguments) = Arguments::new(alloc) else {
        return Err(OutOfMemory);
    };
    Ok(Operands { values, arguments })
}

/// Main's frame at its first place, with no cell set.
fn first_frame<W: Work, C: CodeView<W>>(
    alloc: Global,
    code: &C,
    work: &mut W,
) -> Result<Frame, OutOfMemory>
    requires begins { IsSome (Enter (C.code code.now)) }
    ensures began { IfOk result (λ frame. option_map (λ run. run.frames) (result_of (Enter (C.code code.now)))
        ≡ Some (frame ∷ [])) }
    ensures counted { OnOk result (FetchesBy (fetches_of (Enter (C.code code.now)))
        (W.counts work.old) (W.counts work.new)) }
    ensures counts { FetchesAtMost (fetches_of (Enter (C.code code.now))) (W.counts work.old) (W.counts work.new) }
{
    let Ok(loops) = Loops::new(alloc) else {
        return Err(OutOfMemory);
    };
    let mut cells = Cells::new(alloc);
    let Ok(place) = first_place(alloc, code, &mut cells, work) else {
        drop(loops);
        drop(cells);
        return Err(OutOfMemory);
    };
    Ok(Frame {
        procedure: Slot(0),
        place,
        cells,
        loops,
    })
}

/// Makes the cells of main, and gives its first place, behind them.
fn first_place<W: Work, C: CodeView<W>>(
    alloc: Global,
    code: &C,
    cells: &mut Cells,
    work: &mut W,
) -> Result<Place, OutOfMemory>
    requires begins { IsSome (begun_in (C.code code.now).instrs cells.old) }
    ensures began { IfOk result (λ place. result_of (begun_in (C.code code.now).instrs cells.old)
        ≡ Some record { place = plain_place place; variables = cells.new }) }
    ensures counted { OnOk result (FetchesBy (fetches_of (begun_in (C.code code.now).instrs cells.old))
        (W.counts work.old) (W.counts work.new)) }
    ensures counts { FetchesAtMost (fetches_of (begun_in (C.code code.now).instrs cells.old))
        (W.counts work.old) (W.counts work.new) }
{
    let mut address = 0;
    while address < code.length() {
        match code.fetch(address, work).instr() {
            Instr::At(place) => return Ok(*place),
            Instr::Cell(name, ty, size) => {
                let Ok(()) = add_unset(alloc, name, *ty, *size, cells) else {
                    return Err(OutOfMemory);
                };
            }
            _ => unreachable!(),
        }
        address += 1;
    }
    unreachable!()
}
