//! New runs of the code of the program: the steps that they take, and what is told of them.
ghost use Rattle.std.specs.Prelude.{◌≤◌, length, IfSome};
ghost use Rattle.run_cases.specs.RunOfProgram.{HasSteps, IsProgramCode, StandsByCode};

use crate::state::{state_told, tell_place, tell_state, tell_written};
use back_steps::{History, states_keep_limits};
use case_script::{Told, number_of};
use decl_table::Decls;
use plcs_base::Counts;
use plcs_code::FlatCode;
use plcs_machine::{StepAnswer, code_begins_as_tree, code_steps_as_tree, start, step};
use plcs_store::{RunState, Undo, new_runs_fit, steps_keep_fit};
use std::alloc::Global;

/// What is told of a new run of the program's code: what comes of its steps, its end, or what it is in.
#[derive(Clone, Copy)]
pub(crate) enum Telling {
    /// What came of each step.
    Steps,
    /// What came of the last step, and the output.
    End,
    /// What the run is in.
    State,
}

/// A new run of the program's code, as far as its steps were played.
#[derive(Drop)]
struct Run {
    /// What it is in.
    state: RunState,
    /// The record of the last step, if that was made.
    history: History,
    /// What was counted for it.
    work: Counts,
}

/// Makes a new run of the code take so many steps with an input, the two words, or as many as are made, and tells
/// of it.
pub(crate) fn play(
    decls: &Decls,
    code: &FlatCode<Counts>,
    telling: Telling,
    words: &[Vec<u8>],
    told: &mut Told,
) -> Option<()>
    requires { IsProgramCode code.now }
{
    let [count, input] = words else {
        return None;
    };
    let count = number_of(count.as_slice())?;
    if input.len() > u32::MAX as usize {
        return None;
    }
    play_steps(decls, code, telling, count, input.as_slice(), told)
}

/// Makes a new run of the code take so many steps, or as many as are made, and tells of it.
fn play_steps(
    decls: &Decls,
    code: &FlatCode<Counts>,
    telling: Telling,
    count: u32,
    input: &[u8],
    told: &mut Told,
) -> Option<()>
    requires code { IsProgramCode code.now }
    requires short { length input.now ≤ 4294967295 }
{
    let mut run = begin(told.alloc(), code)?;
    if matches!(telling, Telling::Steps) {
        tell_step(None, &run, 0, told);
    }
    let made = make_steps(decls, code, input, count, telling, &mut run, told)?;
    match telling {
        Telling::Steps => {}
        Telling::End => tell_end(made, &run, told),
        Telling::State => tell_state(decls, &run.state, told),
    }
    Some(())
}

/// The new run of the program's code of which a case tells, if there is memory for it.
fn begin(alloc: Global, code: &FlatCode<Counts>) -> Option<Run>
    requires { IsProgramCode code.now }
    ensures { IfSome result (λ run. StandsByCode code.now run.state) }
{
    let history = History::new(alloc).ok()?;
    let mut work = Counts::default();
    let state = new_state(alloc, code, &mut work)?;
    Some(Run {
        state,
        history,
        work,
    })
}

/// What a new run of the program's code is in before its first step, if there is memory for it.
fn new_state(alloc: Global, code: &FlatCode<Counts>, work: &mut Counts) -> Option<RunState>
    requires { IsProgramCode code.now }
    ensures { IfSome result (λ state. StandsByCode code.now state) }
{
    code_begins_as_tree();
    new_runs_fit();
    match start(alloc, code, work) {
        Ok(state) => Some(state),
        Err(_) => None,
    }
}

/// The steps that were made of a new run of the program's code.
#[derive(Clone, Copy)]
struct Made {
    /// How many were made.
    count: u32,
    /// What came of the last one that was tried.
    last: Option<StepAnswer>,
}

/// Makes the run take so many steps, or as many as are made, and tells of each where that is wanted.
fn make_steps(
    decls: &Decls,
    code: &FlatCode<Counts>,
    input: &[u8],
    count: u32,
    telling: Telling,
    run: &mut Run,
    told: &mut Told,
) -> Option<Made>
    requires short { length input.now ≤ 4294967295 }
    requires stands { StandsByCode code.now run.old.state }
{
    let mut last = None;
    for made in 0..count {
        let answer = make_told_step(decls, code, input, telling, run, told)?;
        last = Some(answer);
        if answer != StepAnswer::Stepped {
            return Some(Made { count: made, last });
        }
    }
    Some(Made { count, last })
}

/// Makes the run take a step, and tells of it where that is wanted.
fn make_told_step(
    decls: &Decls,
    code: &FlatCode<Counts>,
    input: &[u8],
    telling: Telling,
    run: &mut Run,
    told: &mut Told,
) -> Option<StepAnswer>
    requires short { length input.now ≤ 4294967295 }
    requires stands { StandsByCode code.now run.old.state }
    ensures stands { StandsByCode code.now run.new.state }
{
    if matches!(telling, Telling::End) {
        return make_step(told.alloc(), code, input, run);
    }
    let before = run.work.fetched;
    let answer = make_checked_step(decls, code, input, run, told)?;
    if matches!(telling, Telling::Steps) {
        tell_step(Some(answer), run, before, told);
    }
    Some(answer)
}

/// Makes the run take a step, and tells where that doesn't keep what every step keeps: the record of one that is made
/// takes it back, and one that isn't made changes nothing.
fn make_checked_step(
    decls: &Decls,
    code: &FlatCode<Counts>,
    input: &[u8],
    run: &mut Run,
    told: &mut Told,
) -> Option<StepAnswer>
    requires short { length input.now ≤ 4294967295 }
    requires stands { StandsByCode code.now run.old.state }
    ensures stands { StandsByCode code.now run.new.state }
{
    let before = state_told(told.alloc(), decls, &run.state);
    let answer = make_step(told.alloc(), code, input, run)?;
    if answer == StepAnswer::Stepped {
        remake_step(decls, code, input, &before, run, told)?;
        return Some(answer);
    }
    if !before.is_same(&state_told(told.alloc(), decls, &run.state)) {
        told.line("CHANGED");
    }
    Some(answer)
}

/// Takes the last step of a new run of the program's code back and makes it again, and tells where it isn't as
/// before then, or as after it.
fn remake_step(
    decls: &Decls,
    code: &FlatCode<Counts>,
    input: &[u8],
    before: &Told,
    run: &mut Run,
    told: &mut Told,
) -> Option<()>
    requires short { length input.now ≤ 4294967295 }
    requires stands { StandsByCode code.now run.old.state }
    requires steps { HasSteps code.now run.old.history run.old.state }
    ensures stands { StandsByCode code.now run.new.state }
{
    let after = state_told(told.alloc(), decls, &run.state);
    let work = run.work;
    if !take_back(code, run) || !before.is_same(&state_told(told.alloc(), decls, &run.state)) {
        told.line("NOT TAKEN BACK");
    }
    let answer = make_step(told.alloc(), code, input, run)?;
    run.work = work;
    if answer != StepAnswer::Stepped
        || !after.is_same(&state_told(told.alloc(), decls, &run.state))
    {
        told.line("NOT MADE AGAIN");
    }
    Some(())
}

/// Takes the last step of the run back, if it was made.
fn take_back(code: &FlatCode<Counts>, run: &mut Run) -> bool
    requires stands { StandsByCode code.now run.old.state }
    requires steps { HasSteps code.now run.old.history run.old.state }
    ensures { StandsByCode code.now run.new.state }
{
    let _ = code;
    match run.history.back(&mut run.state) {
        Ok(()) => true,
        Err(_) => false,
    }
}

/// Makes the run take a step, if there is memory for it. Of its history the record of this step alone is left.
fn make_step(
    alloc: Global,
    code: &FlatCode<Counts>,
    input: &[u8],
    run: &mut Run,
) -> Option<StepAnswer>
    requires short { length input.now ≤ 4294967295 }
    requires stands { StandsByCode code.now run.old.state }
    ensures stands { StandsByCode code.now run.new.state }
    ensures steps { HasSteps code.now run.new.history run.new.state }
{
    code_steps_as_tree();
    steps_keep_fit();
    states_keep_limits(&run.state);
    run.history.clear();
    let mut undo = Undo::new();
    match step(alloc, code, input, &mut run.state, &mut undo, &mut run.work) {
        Ok(StepAnswer::Stepped) => {
            run.history.note(undo);
            Some(StepAnswer::Stepped)
        }
        Ok(StepAnswer::Stopped(reason)) => Some(StepAnswer::Stopped(reason)),
        Ok(StepAnswer::Ended) => Some(StepAnswer::Ended),
        Err(_) => None,
    }
}

/// Tells what came of a step, or that the run began, where it stands then, and how many instructions were fetched
/// for it, once so many were fetched before.
fn tell_step(answer: Option<StepAnswer>, run: &Run, before: u64, told: &mut Told) {
    tell_answer(answer, &run.state, told);
    told.text(", ");
    told.value(&run.work.fetched.saturating_sub(before));
    told.line(" fetched");
}

/// Tells what came of the last step, where the run stands, how many steps it made, how many instructions it fetched,
/// and what it wrote.
fn tell_end(made: Made, run: &Run, told: &mut Told) {
    tell_answer(made.last, &run.state, told);
    told.text(", ");
    told.value(&made.count);
    told.text(" steps, ");
    told.value(&run.work.fetched);
    told.line(" fetched");
    tell_written(run.state.output.as_slice(), told);
}

/// Tells what came of a step, or that the run began, and where it stands then.
fn tell_answer(answer: Option<StepAnswer>, state: &RunState, told: &mut Told) {
    match answer {
        None => told.text("Begun"),
        Some(answer) => told.value(&answer),
    }
    tell_place(state, told);
}
