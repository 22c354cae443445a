//! The run of a bench: how it is begun anew, its steps, made and taken back, and why it then stands still.
ghost use Rattle.std.specs.Prelude.{◌≡◌, ◌≤◌, [], length, IfNone, IfSome, None};
ghost use Rattle.template_tree.specs.Programs.Tree.{IsTree};
ghost use Rattle.plcs_store.specs.Configuration.{plain_configuration};
ghost use Rattle.plcs_store.specs.Fits.{Fits};
ghost use Rattle.resume_cases.specs.Private.BenchRun.{IsBetweenSteps, IsBench, IsTreesCode, IsTried, SuspendedIn};

use crate::bench::Bench;
use crate::code::code_of;
use crate::suspended::Suspended;
use crate::telling::{tell_paused, tell_place};
use back_steps::{History, states_keep_limits};
use case_script::{Told, number_of};
use plcs_base::Counts;
use plcs_code::FlatCode;
use plcs_machine::{StepAnswer, code_begins_as_tree, code_steps_as_tree, start, step};
use plcs_store::{Reason, RunState, Undo, new_runs_fit, steps_keep_fit};
use std::alloc::Global;
use std::mem;
use suspend_state::{RunReason, Suspending};
use template_tree::Tree;

/// Begins the run of the bench anew in place of the one that stands, and tells where it stands.
pub(crate) fn run(bench: &mut Bench, told: &mut Told) -> Option<()>
    requires { IsBench bench.old }
    ensures { IsBench bench.new }
{
    match begun(told.alloc(), &bench.tree) {
        Some(suspended) => {
            tell_place(&suspended, told);
            drop(mem::replace(&mut bench.suspended, Some(suspended)));
            Some(())
        }
        None => None,
    }
}

/// The run of a bench begun anew by the code of its program: no step is made that could be taken back. `None`
/// where memory runs out.
fn begun(alloc: Global, tree: &Tree) -> Option<Suspended>
    requires { IsTree tree.now }
    ensures { IfSome result (SuspendedIn tree.now) }
{
    match History::new(alloc) {
        Ok(history) => begun_with(alloc, tree, history),
        Err(_) => None,
    }
}

/// The run of a bench begun anew with this history, in which no step is noted. `None` where memory runs out.
fn begun_with(alloc: Global, tree: &Tree, history: History) -> Option<Suspended>
    requires tree { IsTree tree.now }
    requires empty { history ≡ [] }
    ensures { IfSome result (SuspendedIn tree.now) }
{
    match first_state(alloc, tree) {
        Some(state) => Some(Suspended {
            run: Suspending::new(state),
            history,
        }),
        None => {
            drop(history);
            None
        }
    }
}

/// The state of the run of a bench that is begun anew, before its first step, or `None` where memory runs out.
fn first_state(alloc: Global, tree: &Tree) -> Option<RunState>
    requires { IsTree tree.now }
    ensures fits { IfSome result (λ state. Fits tree.now.items (plain_configuration state)) }
    ensures ready { IfSome result IsBetweenSteps }
{
    match code_of(alloc, tree) {
        Some(code) => {
            let state = first_state_by(alloc, tree, &code);
            drop(code);
            state
        }
        None => None,
    }
}

/// The state of the run of a bench that is begun anew by the code of its program, before its first step, or `None`
/// where memory runs out.
fn first_state_by(alloc: Global, tree: &Tree, code: &FlatCode<Counts>) -> Option<RunState>
    requires tree { IsTree tree.now }
    requires code { IsTreesCode tree.now code.now }
    ensures fits { IfSome result (λ state. Fits tree.now.items (plain_configuration state)) }
    ensures ready { IfSome result IsBetweenSteps }
{
    let _ = tree;
    code_begins_as_tree();
    new_runs_fit();
    match start(alloc, code, &mut Counts::default()) {
        Ok(state) => Some(state),
        Err(_) => None,
    }
}

/// Makes steps of the bench's run, as many as the word says where nothing stops it before, and tells how many were
/// made and where the run stands. A run whose program was edited isn't stepped before it is resumed.
pub(crate) fn step_on(bench: &mut Bench, input: &[u8], most: &[u8], told: &mut Told) -> Option<()>
    requires { IsBench bench.old }
    ensures { IsBench bench.new }
{
    step_most(bench, input, number_of(most)?, told)
}

/// Makes so many steps of the bench's run at most, and tells how many were made and where the run stands.
pub(crate) fn step_most(bench: &mut Bench, input: &[u8], most: u32, told: &mut Told) -> Option<()>
    requires { IsBench bench.old }
    ensures { IsBench bench.new }
{
    let Some(suspended) = &mut bench.suspended else {
        return None;
    };
    step_run(&bench.tree, input, suspended, most, told)
}

/// Makes steps of the bench's run, so many at most, unless something is kept for it, and tells how many were
/// made and where the run stands.
fn step_run(
    tree: &Tree,
    input: &[u8],
    suspended: &mut Suspended,
    most: u32,
    told: &mut Told,
) -> Option<()>
    requires tree { IsTree tree.now }
    requires stands { SuspendedIn tree.now suspended.old }
    ensures { SuspendedIn tree.now suspended.new }
{
    if input.len() > u32::MAX as usize || suspended.run.kept.is_some() {
        return None;
    }
    let made = stepped(told.alloc(), tree, input, suspended, most)?;
    told.value(&made);
    told.text(" steps, ");
    tell_paused(suspended, told);
    Some(())
}

/// Makes so many steps of the run at most, for which nothing is kept. How many were made, or `None` where memory
/// runs out.
fn stepped(
    alloc: Global,
    tree: &Tree,
    input: &[u8],
    suspended: &mut Suspended,
    most: u32,
) -> Option<u32>
    requires tree { IsTree tree.now }
    requires short { length input.now ≤ 4294967295 }
    requires unedited { suspended.old.run.kept ≡ None }
    requires stands { SuspendedIn tree.now suspended.old }
    ensures { SuspendedIn tree.now suspended.new }
{
    match code_of(alloc, tree) {
        Some(code) => {
            let made = stepped_by(alloc, tree, &code, input, suspended, most);
            drop(code);
            made
        }
        None => None,
    }
}

/// Makes so many steps of the run at most, for which nothing is kept, by the code of its program. How many were made,
/// or `None` where memory runs out.
fn stepped_by(
    alloc: Global,
    tree: &Tree,
    code: &FlatCode<Counts>,
    input: &[u8],
    suspended: &mut Suspended,
    most: u32,
) -> Option<u32>
    requires tree { IsTree tree.now }
    requires code { IsTreesCode tree.now code.now }
    requires short { length input.now ≤ 4294967295 }
    requires unedited { suspended.old.run.kept ≡ None }
    requires stands { SuspendedIn tree.now suspended.old }
    ensures { SuspendedIn tree.now suspended.new }
{
    for made in 0..most {
        if !is_stepped(alloc, tree, code, input, suspended)? {
            return Some(made);
        }
    }
    suspended.run.set_reason(RunReason::Paused);
    Some(most)
}

/// Makes a step of the bench's run by the code of its program and notes it, or sets why the run then stands
/// still. Whether it was made, or `None` where memory runs out.
fn is_stepped(
    alloc: Global,
    tree: &Tree,
    code: &FlatCode<Counts>,
    input: &[u8],
    suspended: &mut Suspended,
) -> Option<bool>
    requires tree { IsTree tree.now }
    requires code { IsTreesCode tree.now code.now }
    requires short { length input.now ≤ 4294967295 }
    requires unedited { suspended.old.run.kept ≡ None }
    requires stands { SuspendedIn tree.now suspended.old }
    ensures stands { SuspendedIn tree.now suspended.new }
    ensures unedited { suspended.new.run.kept ≡ None }
{
    states_keep_limits(&suspended.run.state);
    let mut undo = Undo::new();
    match try_step(
        alloc,
        tree,
        code,
        input,
        &mut suspended.run.state,
        &mut undo,
    ) {
        Some(StepAnswer::Stepped) => {
            suspended.history.note(undo);
            Some(true)
        }
        Some(StepAnswer::Stopped(reason)) => {
            drop(undo);
            suspended.run.set_reason(reason_of(reason));
            Some(false)
        }
        Some(StepAnswer::Ended) => {
            drop(undo);
            suspended.run.set_reason(RunReason::Ended);
            Some(false)
        }
        None => {
            drop(undo);
            None
        }
    }
}

/// In a case that makes steps of a bench's run, tries one by the code of its program. What came of it, or
/// `None` where memory runs out, and then nothing is changed.
fn try_step(
    alloc: Global,
    tree: &Tree,
    code: &FlatCode<Counts>,
    input: &[u8],
    state: &mut RunState,
    undo: &mut Undo,
) -> Option<StepAnswer>
    requires tree { IsTree tree.now }
    requires code { IsTreesCode tree.now code.now }
    requires short { length input.now ≤ 4294967295 }
    requires fits { Fits tree.now.items (plain_configuration state.old) }
    requires ready { IsBetweenSteps state.old }
    ensures tried { IfSome result (λ answer. IsTried tree.now answer (plain_configuration state.old)
        (plain_configuration state.new) undo.new) }
    ensures refused { IfNone result (plain_configuration state.new ≡ plain_configuration state.old) }
    ensures ready { IsBetweenSteps state.new }
{
    code_steps_as_tree();
    steps_keep_fit();
    match step(alloc, code, input, state, undo, &mut Counts::default()) {
        Ok(answer) => Some(answer),
        Err(_) => None,
    }
}

/// Where a step of the bench's run isn't made for this reason, why the run then stands still.
fn reason_of(reason: Reason) -> RunReason {
    match reason {
        Reason::Placeholder => RunReason::Placeholder,
        Reason::Marked => RunReason::Marked,
        Reason::Fault(fault) => RunReason::Fault(fault),
        Reason::InputWanted => RunReason::InputWanted,
    }
}

/// Takes steps of the bench's run back, as many as the word says where so many are held, and tells how many and where
/// the run stands; or that none is held.
pub(crate) fn step_back(bench: &mut Bench, most: &[u8], told: &mut Told) -> Option<()>
    requires { IsBench bench.old }
    ensures { IsBench bench.new }
{
    let most = number_of(most)?;
    let Some(suspended) = &mut bench.suspended else {
        return None;
    };
    run_back(&bench.tree, suspended, most, told);
    Some(())
}

/// Takes steps of the bench's run back, so many at most, and tells how many and where the run stands; or that
/// none is held.
fn run_back(tree: &Tree, suspended: &mut Suspended, most: u32, told: &mut Told)
    requires { SuspendedIn tree.now suspended.old }
    ensures { SuspendedIn tree.now suspended.new }
{
    let back = stepped_back(tree, suspended, most);
    if back == 0 {
        told.line("NoHistory");
        return;
    }
    suspended.run.set_reason(RunReason::Paused);
    told.value(&back);
    told.text(" steps back, ");
    tell_paused(suspended, told);
}

/// Takes so many steps of the bench's run back at most. How many were taken back.
fn stepped_back(tree: &Tree, suspended: &mut Suspended, most: u32) -> u32
    requires { SuspendedIn tree.now suspended.old }
    ensures { SuspendedIn tree.now suspended.new }
{
    for back in 0..most {
        if !is_taken_back(tree, suspended) {
            return back;
        }
    }
    most
}

/// Takes the latest step of the bench's run back. Whether one was held.
fn is_taken_back(tree: &Tree, suspended: &mut Suspended) -> bool
    requires { SuspendedIn tree.now suspended.old }
    ensures { SuspendedIn tree.now suspended.new }
{
    suspended.history.back(&mut suspended.run.state).is_ok()
}
