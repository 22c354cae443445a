//! One step taken back by its record.
ghost use Rattle.std.specs.Prelude.{◌≡◌};
ghost use Rattle.plcs_store.specs.Act.{HasLoopRoom, newest_at, with_newest, without_loop};
ghost use Rattle.plcs_store.specs.Configuration.{plain_configuration, plain_place};
ghost use Rattle.plcs_store.specs.Undone.{step_undone, stored_back, with_loop_at};
ghost use Rattle.back_steps.specs.EarlierConfigurations.{KeepsRunLimits};

use plcs_base::Place;
use plcs_store::{Cell, Frames, KeptLoop, Location, RunState, Undo};

/// Takes a step back by its record, from the state after it. It takes no memory.
pub(crate) fn take_back(undo: Undo, state: &mut RunState)
    requires limits { KeepsRunLimits (step_undone undo (plain_configuration state.old)) }
    ensures back { plain_configuration state.new ≡ step_undone undo (plain_configuration state.old) }
    ensures operands { state.new.operands ≡ state.old.operands }
{
    match undo {
        Undo::Empty => {}
        Undo::Moved(place) => put_newest_at(place, &mut state.frames),
        Undo::Stored(place, location, cell) => {
            store_back(place, &location, cell, &mut state.frames)
        }
        Undo::Entered(place, location, cell) => {
            store_back(place, &location, cell, &mut state.frames);
            drop_loop(&mut state.frames)
        }
        Undo::Finished(place, location, cell, kept, number) => {
            store_back(place, &location, cell, &mut state.frames);
            put_loop_back(number, kept, &mut state.frames)
        }
        Undo::Read(place, location, cell, taken) => {
            store_back(place, &location, cell, &mut state.frames);
            state.taken = taken
        }
        Undo::Wrote(place, count) => {
            put_newest_at(place, &mut state.frames);
            state.output.truncate(count as usize)
        }
        Undo::Called(place) => {
            let _callee = state.frames.pop();
            put_newest_at(place, &mut state.frames)
        }
        Undo::Left(place, frame) => {
            put_newest_at(place, &mut state.frames);
            state.frames.push(frame)
        }
    }
}

/// Puts the newest frame, if there is one, at the place again, and into a cell what it held.
fn store_back(place: Place, location: &Location, cell: Cell, frames: &mut Frames)
    ensures { frames.new ≡ stored_back place location.now cell frames.old }
{
    let _value = frames.replace_cell(location, cell);
    put_newest_at(place, frames);
}

/// Of a step that is taken back: puts the newest frame, if there is one, back at the place.
fn put_newest_at(place: Place, frames: &mut Frames)
    ensures { frames.new ≡ newest_at (plain_place place) frames.old }
{
    if frames.count() > 0 {
        frames.set_place(place);
    }
}

/// Of a step that is taken back: takes the innermost loop of the newest frame off again, if there is one.
fn drop_loop(frames: &mut Frames)
    ensures { frames.new ≡ with_newest without_loop frames.old }
{
    if frames.count() > 0 {
        frames.pop_loop();
    }
}

/// Puts a loop back to those of the newest frame, if there is one; where fewer loops than its number are left, as the
/// innermost.
fn put_loop_back(number: usize, kept: KeptLoop, frames: &mut Frames)
    requires room { HasLoopRoom frames.old }
    ensures { frames.new ≡ with_newest (with_loop_at number kept) frames.old }
{
    let Some(newest) = frames.newest() else {
        return;
    };
    if number < newest.loops.count() {
        frames.put_loop_back(number, kept);
    } else {
        frames.push_loop(kept);
    }
}
