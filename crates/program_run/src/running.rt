//! The run of a program that was loaded, step after step.
ghost use Rattle.std.specs.Prelude.{◌≡◌, ◌≤◌, length, IfOk, OnErr, OnOk, Some};
ghost use Rattle.decl_table.specs.Agreement.{IsDeclsOf};
ghost use Rattle.file_store.specs.Limit.{longest_input};
ghost use Rattle.template_tree.specs.Checks.Marks.{offences};
ghost use Rattle.template_tree.specs.Checks.ProgramMaps.{MarksTell};
ghost use Rattle.template_tree.specs.Programs.Tree.{IsTree};
ghost use Rattle.plcs_code.specs.Counts.{Emits};
ghost use Rattle.plcs_code.specs.ProgramCode.{program_code};
ghost use Rattle.plcs_machine.specs.Fetched.{FetchesAtMost, FetchesBy};
ghost use Rattle.plcs_machine.specs.StepMade.{step_answered};
ghost use Rattle.plcs_store.specs.Configuration.{plain_configuration};
ghost use Rattle.plcs_store.specs.Step.{Step};
ghost use Rattle.program_run.specs.CountedRun.{begin_fetches, step_fetches};
ghost use Rattle.program_run.specs.RunEnding.{CallsInStep};
ghost use Rattle.program_run.specs.RunOutcome.{Reaches};
ghost use Rattle.program_run.specs.Private.ProgramCode.{IsCodeOf};
ghost use Rattle.program_run.specs.Private.SteppedRun.{EndsSteps, HasBegun, RunStands, StaysUnlessStepped};

use crate::ending::Ending;
use decl_table::Decls;
use plcs_base::{OutOfMemory, Work};
use plcs_code::{FlatCode, generate, programs_have_one_code};
use plcs_machine::{StepAnswer, code_begins_as_tree, code_steps_as_tree, start, step};
use plcs_store::{RunState, Undo, new_runs_fit, steps_keep_fit};
use std::alloc::Global;
use template_tree::Tree;
use type_marks::Marks;

/// A run as far as it was made.
#[derive(Drop)]
pub(crate) struct MadeRun {
    /// What it is in.
    pub(crate) state: RunState,
    /// How it ended.
    pub(crate) ending: Ending,
}

/// Makes a new run of the tree over the input, for so many steps at most. Without the memory for its code, or to
/// begin, no run is made.
pub(crate) fn run_tree<W: Work>(
    alloc: Global,
    tree: &Tree,
    input: &[u8],
    steps: u32,
    work: &mut W,
) -> Result<MadeRun, OutOfMemory>
    requires tree { IsTree tree.now }
    requires short { length input.now ≤ longest_input }
    ensures { IfOk result (λ made. Reaches tree.now.items input.now steps made.ending
        (plain_configuration made.state) (W.counts work.old) (W.counts work.new)) }
{
    let decls = Decls::new(alloc, tree)?;
    run_by(alloc, tree, &decls, input, steps, work)
}

/// Makes a new run of the tree, whose table of declarations this is.
fn run_by<W: Work>(
    alloc: Global,
    tree: &Tree,
    decls: &Decls,
    input: &[u8],
    steps: u32,
    work: &mut W,
) -> Result<MadeRun, OutOfMemory>
    requires tree { IsTree tree.now }
    requires short { length input.now ≤ longest_input }
    requires decls { IsDeclsOf decls.now tree.now.items }
    ensures { IfOk result (λ made. Reaches tree.now.items input.now steps made.ending
        (plain_configuration made.state) (W.counts work.old) (W.counts work.new)) }
{
    let marks = Marks::new(alloc, tree, decls, work)?;
    let code = code_of(alloc, tree, decls, &marks, work)?;
    run_code(alloc, tree, &code, input, steps, work)
}

/// The code of the tree under its own marks, for its run.
fn code_of<W: Work>(
    alloc: Global,
    tree: &Tree,
    decls: &Decls,
    marks: &Marks<W>,
    work: &mut W,
) -> Result<FlatCode<W>, OutOfMemory>
    requires tree { IsTree tree.now }
    requires decls { IsDeclsOf decls.now tree.now.items }
    requires marks { MarksTell (offences marks.now.verdicts) tree.now.items }
    ensures code { IfOk result (λ code. IsCodeOf tree.now code) }
    ensures counted { OnOk result (Emits (length (program_code tree.now.items).instrs)
        (W.counts work.old) (W.counts work.new)) }
{
    programs_have_one_code();
    generate(alloc, tree, marks, decls, work)
}

/// Makes a new run of the tree by its code.
fn run_code<W: Work>(
    alloc: Global,
    tree: &Tree,
    code: &FlatCode<W>,
    input: &[u8],
    steps: u32,
    work: &mut W,
) -> Result<MadeRun, OutOfMemory>
    requires tree { IsTree tree.now }
    requires short { length input.now ≤ longest_input }
    requires code { IsCodeOf tree.now code.now }
    ensures { IfOk result (λ made. EndsSteps tree.now.items input.now steps made.ending
        (plain_configuration made.state) (begin_fetches tree.now.items) (W.counts work.old) (W.counts work.new)) }
{
    let mut state = first_state(alloc, tree, code, work)?;
    let ending = make_steps(alloc, tree, code, input, steps, &mut state, work);
    Ok(MadeRun { state, ending })
}

/// What a new run of the tree by its code is in.
fn first_state<W: Work>(
    alloc: Global,
    tree: &Tree,
    code: &FlatCode<W>,
    work: &mut W,
) -> Result<RunState, OutOfMemory>
    requires tree { IsTree tree.now }
    requires code { IsCodeOf tree.now code.now }
    ensures begun { IfOk result (λ state. HasBegun tree.now state) }
    ensures counted { OnOk result (FetchesBy (begin_fetches tree.now.items) (W.counts work.old) (W.counts work.new)) }
{
    let _ = tree;
    code_begins_as_tree();
    new_runs_fit();
    start(alloc, code, work)
}

/// Makes steps of the run of the tree by its code, so many at most, and tells how it ended.
fn make_steps<W: Work>(
    alloc: Global,
    tree: &Tree,
    code: &FlatCode<W>,
    input: &[u8],
    steps: u32,
    state: &mut RunState,
    work: &mut W,
) -> Ending
    requires tree { IsTree tree.now }
    requires short { length input.now ≤ longest_input }
    requires code { IsCodeOf tree.now code.now }
    requires begins { HasBegun tree.now state.old }
    ensures { EndsSteps tree.now.items input.now steps result (plain_configuration state.new) 0
        (W.counts work.old) (W.counts work.new) }
{
    let mut undo = Undo::new();
    for made in 0..steps {
        match make_step(alloc, tree, code, input, state, &mut undo, work) {
            Ok(StepAnswer::Stepped) => {}
            Ok(StepAnswer::Stopped(reason)) => return Ending::Stopped(reason),
            Ok(StepAnswer::Ended) => return Ending::Ended,
            Err(OutOfMemory) => return Ending::NoMemory,
        }
    }
    Ending::StepsMade
}

/// Makes a step of the run of the tree by its code. The record of the step before is dropped.
fn make_step<W: Work>(
    alloc: Global,
    tree: &Tree,
    code: &FlatCode<W>,
    input: &[u8],
    state: &mut RunState,
    undo: &mut Undo,
    work: &mut W,
) -> Result<StepAnswer, OutOfMemory>
    requires tree { IsTree tree.now }
    requires short { length input.now ≤ longest_input }
    requires code { IsCodeOf tree.now code.now }
    requires stands { RunStands tree.now state.old }
    ensures answers { IfOk result (λ answer. Step tree.now.items input.now (plain_configuration state.old)
        ≡ Some (step_answered answer (plain_configuration state.new))) }
    ensures stays { StaysUnlessStepped result (plain_configuration state.old) (plain_configuration state.new) }
    ensures stands { RunStands tree.now state.new }
    ensures counted { OnOk result (FetchesBy
        (step_fetches tree.now.items input.now (plain_configuration state.old))
        (W.counts work.old) (W.counts work.new)) }
    ensures counts { FetchesAtMost
        (step_fetches tree.now.items input.now (plain_configuration state.old))
        (W.counts work.old) (W.counts work.new) }
    ensures calls { OnErr result (CallsInStep (plain_configuration state.old)
        (Step tree.now.items input.now (plain_configuration state.old))) }
{
    let _ = tree;
    code_steps_as_tree();
    steps_keep_fit();
    step(alloc, code, input, state, undo, work)
}
