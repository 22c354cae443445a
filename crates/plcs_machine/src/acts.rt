//! Acts, done to the state of a run.
ghost use Rattle.std.specs.Prelude.{◌≡◌, ◌-◌, ◌<◌, ◌≤◌, IsSome, Some, length};
ghost use Rattle.template_tree.specs.Positions.Place.{PlainPlace};
ghost use Rattle.plcs_store.specs.Act.{Act, done, with_value_stored};
ghost use Rattle.plcs_store.specs.CellAt.{cell_at};
ghost use Rattle.plcs_store.specs.Configuration.{plain_configuration, plain_place, top_place};
ghost use Rattle.plcs_store.specs.Undone.{undo_of};
ghost use Rattle.plcs_machine.specs.Private.DoableLead.{ActsOn};
ghost use Rattle.plcs_machine.specs.Private.PlainLed.{plain_act};
ghost use Rattle.plcs_machine.specs.Private.WalkedStep.{standing_at};

use crate::step_act::StepAct;
use plcs_base::{Place, Value};
use plcs_store::{Cell, Location, RunState, Undo};

/// Does an act, but for where the run goes on, and gives the record of the step, which was made at the place.
pub(crate) fn act_on(state: &mut RunState, act: StepAct, place: Place) -> Undo
    requires at { top_place state.old.frames ≡ Some (plain_place place) }
    requires can { ActsOn state.old.frames (plain_act act) }
    ensures done { (next : PlainPlace) → standing_at next (plain_configuration state.new)
        ≡ done (plain_act act) next (plain_configuration state.old) }
    ensures noted { result ≡ undo_of (plain_act act) (plain_configuration state.old) }
    ensures some { 0 < length state.new.frames }
{
    match act {
        StepAct::Store(location, value) => {
            let cell = put_value(state, &location, value);
            Undo::Stored(place, location, cell)
        }
        StepAct::Enter(location, value, kept) => {
            let cell = put_value(state, &location, value);
            state.frames.push_loop(kept);
            Undo::Entered(place, location, cell)
        }
        StepAct::Finish(location, value, number) => {
            let cell = put_value(state, &location, value);
            let kept = state.frames.take_loop(number);
            Undo::Finished(place, location, cell, kept, number)
        }
        StepAct::Leave => leave(state),
    }
}

/// Stores a value that took so many bytes of the input, and gives the record of that.
pub(crate) fn read_into(
    state: &mut RunState,
    location: Location,
    value: Value,
    count: u32,
    place: Place,
) -> Undo
    requires at { top_place state.old.frames ≡ Some (plain_place place) }
    requires there { IsSome (cell_at state.old.frames location) }
    requires short { count ≤ 4294967295 - state.old.taken }
    ensures done { (next : PlainPlace) → standing_at next (plain_configuration state.new)
        ≡ done (Act.read location value count) next (plain_configuration state.old) }
    ensures noted { result ≡ undo_of (Act.read location value count) (plain_configuration state.old) }
    ensures some { 0 < length state.new.frames }
{
    let cell = put_value(state, &location, value);
    let taken = state.taken;
    state.taken += count;
    Undo::Read(place, location, cell, taken)
}

/// Puts a value into a cell of the state of a run, as acts do, and gives what was in it.
fn put_value(state: &mut RunState, location: &Location, value: Value) -> Cell
    requires there { IsSome (cell_at state.old.frames location.now) }
    ensures before { cell_at state.old.frames location.now ≡ Some result }
    ensures set { plain_configuration state.new
        ≡ record (plain_configuration state.old) { frames = with_value_stored location.now value state.old.frames } }
{
    let Some(cell) = state.frames.replace_cell(location, Cell::Held(value)) else {
        unreachable!()
    };
    cell
}

/// Leaves the newest frame, and gives the record of that.
fn leave(state: &mut RunState) -> Undo
    requires caller { 1 < length state.old.frames }
    ensures done { (next : PlainPlace) → standing_at next (plain_configuration state.new)
        ≡ done Act.leave next (plain_configuration state.old) }
    ensures noted { result ≡ undo_of Act.leave (plain_configuration state.old) }
    ensures some { 0 < length state.new.frames }
{
    let Some(frame) = state.frames.pop() else {
        unreachable!()
    };
    let Some(caller) = state.frames.place() else {
        unreachable!()
    };
    Undo::Left(caller, frame)
}
