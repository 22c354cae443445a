//! One step of a run.
ghost use Rattle.std.specs.Prelude.{◌≡◌, ◌+◌, ◌-◌, ◌<◌, ◌≤◌, [], drop, length, nat_le, IfOk, IsSome, OnErr, OnOk, Some};
ghost use Rattle.plcs_store.specs.CellAt.{cell_at};
ghost use Rattle.plcs_store.specs.Configuration.{plain_configuration, plain_place, top_place};
ghost use Rattle.plcs_store.specs.Limit.{most_frames, most_output};
ghost use Rattle.plcs_machine.specs.Exec.{Exec};
ghost use Rattle.plcs_machine.specs.Fetched.{FetchesAtMost, FetchesBy, fetches_of, result_of};
ghost use Rattle.plcs_machine.specs.Lead.{newest_arguments};
ghost use Rattle.plcs_machine.specs.StepMade.{MakesFrame, NothingChanges, StepChanges, step_answered};
ghost use Rattle.plcs_machine.specs.declared.led.Led.{Led};
ghost use Rattle.plcs_machine.specs.Private.DoableLead.{ActsOn, IsDoable};
ghost use Rattle.plcs_machine.specs.Private.PlainLed.{TakesAtMost, plain_act, plain_led};
ghost use Rattle.plcs_machine.specs.Private.WalkedStep.{IsDone, IsStateKept, IsWalked, called_answer, led_answer, more_fetches, output_then, put_answer, read_answer, run_at, walked_answer, walked_outcome, with_output_if};

use crate::acts::{act_on, read_into};
use crate::landing::{first_place_in, next_place};
use crate::lead::lead;
use crate::led::{Doing, Led, Walked, next_address};
use crate::step_act::StepAct;
use crate::step_answer::StepAnswer;
use crate::walk_end::WalkEnd;
use plcs_base::{OutOfMemory, Place, Point, Value, Work};
use plcs_code::{CodeView, HeadingEntry};
use plcs_store::{
    Argument, Cells, FaultKind, Frame, Location, Loops, Reason, RunState, Undo, steps_taken_back,
    written_stands,
};
use std::alloc::Global;

/// One step of the run by the code, with this input. It is made, stops for a reason, or is over, as the instructions
/// say that it runs through, each of which is fetched once.
///
/// Only a step that is made changes the state, and then the record of it gives back the whole configuration before,
/// a frame that was left included. Only a call takes memory. Where memory runs out nothing is changed, and no more
/// fetches are counted than the step has.
pub fn step<W: Work, C: CodeView<W>>(
    alloc: Global,
    code: &C,
    input: &[u8],
    state: &mut RunState,
    undo: &mut Undo,
    work: &mut W,
) -> Result<StepAnswer, OutOfMemory>
    requires short { length input.now ≤ 4294967295 }
    requires defined { IsSome (Exec (C.code code.now) input.now (plain_configuration state.old)) }
    requires values { state.old.operands.values ≡ [] }
    requires arguments { state.old.operands.arguments ≡ [] }
    ensures answers { IfOk result (λ answer.
        result_of (Exec (C.code code.now) input.now (plain_configuration state.old))
        ≡ Some (step_answered answer (plain_configuration state.new))) }
    ensures changes { IfOk result (λ answer.
        StepChanges answer (plain_configuration state.old) (plain_configuration state.new) undo.old undo.new) }
    ensures counted { OnOk result
        (FetchesBy (fetches_of (Exec (C.code code.now) input.now (plain_configuration state.old)))
        (W.counts work.old) (W.counts work.new)) }
    ensures counts { FetchesAtMost (fetches_of (Exec (C.code code.now) input.now (plain_configuration state.old)))
        (W.counts work.old) (W.counts work.new) }
    ensures refused { OnErr result
        (NothingChanges (plain_configuration state.old) (plain_configuration state.new) undo.old undo.new) }
    ensures memory { OnErr result
        (MakesFrame (Exec (C.code code.now) input.now (plain_configuration state.old))
        (plain_configuration state.old)) }
    ensures ready { (state.new.operands.values ≡ []) × (state.new.operands.arguments ≡ []) }
{
    steps_taken_back();
    let answer = step_through(alloc, code, input, state, undo, work);
    state.operands.values.clear();
    state.operands.arguments.clear();
    answer
}

/// The step, which leaves operands and arguments in the room for them.
fn step_through<W: Work, C: CodeView<W>>(
    alloc: Global,
    code: &C,
    input: &[u8],
    state: &mut RunState,
    undo: &mut Undo,
    work: &mut W,
) -> Result<StepAnswer, OutOfMemory>
    requires short { length input.now ≤ 4294967295 }
    requires defined { IsSome (Exec (C.code code.now) input.now (plain_configuration state.old)) }
    requires values { state.old.operands.values ≡ [] }
    requires arguments { state.old.operands.arguments ≡ [] }
    ensures done { IfOk result (λ answer.
        IsDone (Exec (C.code code.now) input.now (plain_configuration state.old)) answer
        state.old state.new undo.old undo.new) }
    ensures counted { OnOk result
        (FetchesBy (fetches_of (Exec (C.code code.now) input.now (plain_configuration state.old)))
        (W.counts work.old) (W.counts work.new)) }
    ensures counts { FetchesAtMost (fetches_of (Exec (C.code code.now) input.now (plain_configuration state.old)))
        (W.counts work.old) (W.counts work.new) }
    ensures refused { OnErr result (IsStateKept state.old state.new undo.old undo.new) }
    ensures memory { OnErr result
        (MakesFrame (Exec (C.code code.now) input.now (plain_configuration state.old))
        (plain_configuration state.old)) }
{
    let Some(place) = state.frames.place() else {
        unreachable!()
    };
    let walked = walk(code, rest_of(input, state.taken), place, state, work);
    finish(alloc, code, walked, place, state, undo, work)
}

/// What one step of a run may read of the input: what is left once so many bytes of it are taken.
fn rest_of(input: &[u8], taken: u32) -> &[u8]
    ensures rest { result.now ≡ drop taken input.now }
    ensures short { length result.now ≤ length input.now }
{
    match input.get(taken as usize..) {
        Some(rest) => rest,
        None => &[],
    }
}

/// Runs the instructions behind a place, up to one that leads to an act, a call, a place, a stop or the end.
fn walk<W: Work, C: CodeView<W>>(
    code: &C,
    rest: &[u8],
    place: Place,
    state: &mut RunState,
    work: &mut W,
) -> Walked
    requires short { length rest.now ≤ 4294967295 }
    requires begins { IsSome (run_at (C.code code.now) rest.now (plain_configuration state.old) place) }
    requires values { state.old.operands.values ≡ [] }
    requires arguments { state.old.operands.arguments ≡ [] }
    ensures walked { IsWalked (C.code code.now) rest.now (plain_configuration state.old) place result
        state.new.operands.values state.new.operands.arguments }
    ensures counted { FetchesBy (length (C.code code.now).instrs - result.left)
        (W.counts work.old) (W.counts work.new) }
    ensures same { plain_configuration state.new ≡ plain_configuration state.old }
{
    let Some(before) = code.address(place) else {
        unreachable!()
    };
    let mut left = code.length();
    let mut address = before + 1;
    while left > 0 {
        left -= 1;
        let next = address + 1;
        let doing = lead(
            code,
            rest,
            &state.frames,
            &mut state.operands,
            next,
            code.fetch(address, work).instr(),
        );
        match next_address(&doing) {
            Some(target) => address = target,
            None => return Walked { doing, next, left },
        }
    }
    unreachable!()
}

/// Does what a walk leads to, from a place on.
fn finish<W: Work, C: CodeView<W>>(
    alloc: Global,
    code: &C,
    walked: Walked,
    place: Place,
    state: &mut RunState,
    undo: &mut Undo,
    work: &mut W,
) -> Result<StepAnswer, OutOfMemory>
    requires short { length (C.code code.now).instrs ≤ 4294967295 }
    requires at { top_place state.old.frames ≡ Some (plain_place place) }
    requires answered { IsSome (walked_answer (C.code code.now) state.old walked) }
    requires can { IsDoable state.old.frames (walked_outcome (plain_configuration state.old) walked
        state.old.operands.values state.old.operands.arguments) }
    requires taken { TakesAtMost (4294967295 - state.old.taken) walked.doing }
    ensures done { IfOk result (λ answer. IsDone (walked_answer (C.code code.now) state.old walked) answer
        state.old state.new undo.old undo.new) }
    ensures counted { OnOk result (FetchesBy (more_fetches (walked_answer (C.code code.now) state.old walked))
        (W.counts work.old) (W.counts work.new)) }
    ensures counts { FetchesAtMost (more_fetches (walked_answer (C.code code.now) state.old walked))
        (W.counts work.old) (W.counts work.new) }
    ensures refused { OnErr result (IsStateKept state.old state.new undo.old undo.new) }
    ensures memory { OnErr result
        (MakesFrame (walked_answer (C.code code.now) state.old walked) (plain_configuration state.old)) }
{
    let Walked { doing, next, left } = walked;
    let end = WalkEnd {
        from: place,
        next,
        left,
    };
    match doing {
        Doing::Writes(skip, count) => Ok(put(code, skip, count, end, state, undo, work)),
        Doing::Reads(location, value, count) => {
            Ok(read(code, location, value, count, end, state, undo, work))
        }
        Doing::Leads(led) => follow(alloc, code, led, end, state, undo, work),
    }
}

/// Ends one step of a run that writes so many newest operands, on a new line or not: the run goes on behind
/// that, or stops where the output would be too long.
fn put<W: Work, C: CodeView<W>>(
    code: &C,
    skip: bool,
    count: u32,
    end: WalkEnd,
    state: &mut RunState,
    undo: &mut Undo,
    work: &mut W,
) -> StepAnswer
    requires short { length (C.code code.now).instrs ≤ 4294967295 }
    requires at { top_place state.old.frames ≡ Some (plain_place end.from) }
    requires answered { IsSome (put_answer (C.code code.now) state.old end.left end.next skip count) }
    ensures done { IsDone (put_answer (C.code code.now) state.old end.left end.next skip count) result
        state.old state.new undo.old undo.new }
    ensures counted { FetchesBy (more_fetches (put_answer (C.code code.now) state.old end.left end.next skip count))
        (W.counts work.old) (W.counts work.new) }
{
    written_stands();
    let before = state.output.as_slice().len();
    if write(state, skip, count) {
        state
            .frames
            .set_place(next_place(code, end.left, end.next, work));
        note(undo, Undo::Wrote(end.from, before as u32));
        return StepAnswer::Stepped;
    }
    StepAnswer::Stopped(Reason::Fault(FaultKind::OutputLimit))
}

/// In one step of a run, writes so many newest operands, on a new line or not; `false` where the output would
/// be too long, and then nothing is written.
fn write(state: &mut RunState, skip: bool, count: u32) -> bool
    ensures fits { result ≡ nat_le (length (output_then state.old skip count)) most_output }
    ensures becomes { plain_configuration state.new
        ≡ with_output_if result (output_then state.old skip count) (plain_configuration state.old) }
{
    let given = state.operands.values.newest(count as usize);
    state.output.write(skip, given).is_ok()
}

/// In one step of a run, stores a value that was read, and goes on behind that.
fn read<W: Work, C: CodeView<W>>(
    code: &C,
    location: Location,
    value: Value,
    count: u32,
    end: WalkEnd,
    state: &mut RunState,
    undo: &mut Undo,
    work: &mut W,
) -> StepAnswer
    requires short { length (C.code code.now).instrs ≤ 4294967295 }
    requires at { top_place state.old.frames ≡ Some (plain_place end.from) }
    requires there { IsSome (cell_at state.old.frames location) }
    requires taken { count ≤ 4294967295 - state.old.taken }
    requires answered { IsSome (read_answer (C.code code.now) state.old end.left end.next location value count) }
    ensures done { IsDone (read_answer (C.code code.now) state.old end.left end.next location value count) result
        state.old state.new undo.old undo.new }
    ensures counted { FetchesBy
        (more_fetches (read_answer (C.code code.now) state.old end.left end.next location value count))
        (W.counts work.old) (W.counts work.new) }
{
    let landed = next_place(code, end.left, end.next, work);
    note(undo, read_into(state, location, value, count, end.from));
    state.frames.set_place(landed);
    StepAnswer::Stepped
}

/// Does what the last instruction of a step leads to, and answers the step.
fn follow<W: Work, C: CodeView<W>>(
    alloc: Global,
    code: &C,
    led: Led,
    end: WalkEnd,
    state: &mut RunState,
    undo: &mut Undo,
    work: &mut W,
) -> Result<StepAnswer, OutOfMemory>
    requires short { length (C.code code.now).instrs ≤ 4294967295 }
    requires at { top_place state.old.frames ≡ Some (plain_place end.from) }
    requires answered { IsSome (led_answer (C.code code.now) state.old end.left led) }
    requires can { IsDoable state.old.frames (plain_led led state.old.operands.values state.old.operands.arguments) }
    ensures done { IfOk result (λ answer. IsDone (led_answer (C.code code.now) state.old end.left led) answer
        state.old state.new undo.old undo.new) }
    ensures counted { OnOk result (FetchesBy (more_fetches (led_answer (C.code code.now) state.old end.left led))
        (W.counts work.old) (W.counts work.new)) }
    ensures counts { FetchesAtMost (more_fetches (led_answer (C.code code.now) state.old end.left led))
        (W.counts work.old) (W.counts work.new) }
    ensures refused { OnErr result (IsStateKept state.old state.new undo.old undo.new) }
    ensures memory { OnErr result
        (MakesFrame (led_answer (C.code code.now) state.old end.left led) (plain_configuration state.old)) }
{
    match led {
        Led::GoesOn(_) => unreachable!(),
        Led::Acts(act, address) => Ok(do_act(code, act, address, end, state, undo, work)),
        Led::Enters(entry, count) => enter(alloc, code, entry, count, end, state, undo, work),
        Led::Arrives(landed) => {
            state.frames.set_place(landed);
            note(undo, Undo::Moved(end.from));
            Ok(StepAnswer::Stepped)
        }
        Led::Ends => Ok(StepAnswer::Ended),
        Led::Stops(reason) => Ok(StepAnswer::Stopped(reason)),
    }
}

/// Ends a step that does an act: the run goes on at an address, from which only jumps lead to the next place.
fn do_act<W: Work, C: CodeView<W>>(
    code: &C,
    act: StepAct,
    address: u32,
    end: WalkEnd,
    state: &mut RunState,
    undo: &mut Undo,
    work: &mut W,
) -> StepAnswer
    requires short { length (C.code code.now).instrs ≤ 4294967295 }
    requires at { top_place state.old.frames ≡ Some (plain_place end.from) }
    requires can { ActsOn state.old.frames (plain_act act) }
    requires answered { IsSome (led_answer (C.code code.now) state.old end.left (Led.Acts act address)) }
    ensures done { IsDone (led_answer (C.code code.now) state.old end.left (Led.Acts act address)) result
        state.old state.new undo.old undo.new }
    ensures counted { FetchesBy
        (more_fetches (led_answer (C.code code.now) state.old end.left (Led.Acts act address)))
        (W.counts work.old) (W.counts work.new) }
{
    let landed = next_place(code, end.left, address, work);
    note(undo, act_on(state, act, end.from));
    state.frames.set_place(landed);
    StepAnswer::Stepped
}

/// Ends a step that calls: makes the frame of a procedure, which takes so many newest arguments, and goes to its
/// first place.
fn enter<W: Work, C: CodeView<W>>(
    alloc: Global,
    code: &C,
    entry: HeadingEntry,
    count: u32,
    end: WalkEnd,
    state: &mut RunState,
    undo: &mut Undo,
    work: &mut W,
) -> Result<StepAnswer, OutOfMemory>
    requires short { length (C.code code.now).instrs ≤ 4294967295 }
    requires at { top_place state.old.frames ≡ Some (plain_place end.from) }
    requires room { length state.old.frames < most_frames }
    requires answered { IsSome (called_answer (C.code code.now) state.old end.left entry count) }
    ensures done { IfOk result (λ answer.
        IsDone (called_answer (C.code code.now) state.old end.left entry count) answer
        state.old state.new undo.old undo.new) }
    ensures counted { OnOk result
        (FetchesBy (more_fetches (called_answer (C.code code.now) state.old end.left entry count))
        (W.counts work.old) (W.counts work.new)) }
    ensures counts { FetchesAtMost
        (more_fetches (called_answer (C.code code.now) state.old end.left entry count))
        (W.counts work.old) (W.counts work.new) }
    ensures refused { OnErr result (IsStateKept state.old state.new undo.old undo.new) }
    ensures memory { OnErr result
        (MakesFrame (called_answer (C.code code.now) state.old end.left entry count)
        (plain_configuration state.old)) }
{
    let Ok(loops) = Loops::new(alloc) else {
        return Err(OutOfMemory);
    };
    let mut cells = Cells::new(alloc);
    let added = state.operands.arguments.as_slice();
    let arguments = newest_of(added, count);
    let Ok(first) = first_place_in(
        alloc,
        code,
        end.left,
        entry.address,
        arguments,
        &mut cells,
        work,
    ) else {
        drop(loops);
        drop(cells);
        return Err(OutOfMemory);
    };
    state.frames.set_place(Place {
        slot: end.from.slot,
        point: Point(1),
    });
    state.frames.push(Frame {
        procedure: entry.slot,
        place: first,
        cells,
        loops,
    });
    note(undo, Undo::Called(end.from));
    Ok(StepAnswer::Stepped)
}

/// Notes what a step did: this is then its record.
fn note(undo: &mut Undo, notes: Undo)
    ensures { undo.new ≡ notes }
{
    *undo = notes;
}

/// The newest of the arguments, so many of them or all, in the order in which they were added.
fn newest_of(arguments: &[Argument], count: u32) -> &[Argument]
    ensures { result.now ≡ newest_arguments count arguments.now }
{
    &arguments[arguments.len().saturating_sub(count as usize)..]
}
