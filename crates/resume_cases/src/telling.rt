//! How runs that stand still are told: why and where, how far they can be taken back, their frames, what is in
//! their cells, and what they wrote.

use crate::bench::Bench;
use crate::suspended::Suspended;
use case_script::{Told, number_of};
use plcs_base::{ByteOut, Name, Place, Value};
use plcs_store::{Cell, Frame, Frames, KeptLoop};

/// Of a run that stands still, tells where it stands, in a line.
pub(crate) fn tell_place(suspended: &Suspended, told: &mut Told) {
    match suspended.run.state.frames.place() {
        Some(place) => put_place(place, told),
        None => told.text("nowhere"),
    }
    told.line("");
}

/// Tells how a run stands: why it stands still, and where, and how many of its steps can be taken back.
pub(crate) fn tell_paused(suspended: &Suspended, told: &mut Told) {
    told.value(&suspended.run.reason);
    told.text(" ");
    match suspended.run.state.frames.place() {
        Some(place) => put_place(place, told),
        None => told.text("nowhere"),
    }
    told.text(", ");
    told.value(&suspended.history.held());
    told.line(" held");
}

/// Of a run that stands still, tells a place where it stands: the slot and the point.
fn put_place(place: Place, told: &mut Told) {
    told.text("at ");
    told.value(&place.slot.0);
    told.put(b' ');
    told.value(&place.point.0);
}

/// Tells the frames of the bench's run, from main upward.
pub(crate) fn tell_frames(bench: &Bench, told: &mut Told) -> Option<()> {
    let Some(suspended) = &bench.suspended else {
        return None;
    };
    for frame in suspended.run.state.frames.as_slice() {
        tell_frame(frame, told);
    }
    Some(())
}

/// Tells a frame of a run that stands still: the slot of its procedure, its place, and its loops, the outermost
/// first.
fn tell_frame(frame: &Frame, told: &mut Told) {
    told.value(&frame.procedure.0);
    told.put(b' ');
    put_place(frame.place, told);
    for kept in frame.loops.as_slice() {
        put_loop(*kept, told);
    }
    told.line("");
}

/// Of a run that stands still, tells a loop of a frame: the slot of its For, and its limit and step.
fn put_loop(kept: KeptLoop, told: &mut Told) {
    told.text(", loop ");
    told.value(&kept.slot.0);
    told.text(" to ");
    told.value(&kept.limit);
    told.text(" by ");
    told.value(&kept.step);
}

/// Tells what is in the cells of the variable of the name, in the frame of this number, counted from 0 at main's.
pub(crate) fn tell_cells(bench: &Bench, frame: &[u8], name: &[u8], told: &mut Told) -> Option<()> {
    let Some(suspended) = &bench.suspended else {
        return None;
    };
    let number = number_of(frame)? as usize;
    match Name::read(name) {
        Some(name) => {
            let there = tell_variable(&suspended.run.state.frames, number, &name, told);
            drop(name);
            there
        }
        None => None,
    }
}

/// Tells what is in the cells of the variable of the name, in the frame of this number of a run that stands still.
fn tell_variable(frames: &Frames, number: usize, name: &Name, told: &mut Told) -> Option<()> {
    let variable = frames.variable(number, name)?;
    for cell in variable.cells.as_slice() {
        tell_cell(cell, told);
    }
    Some(())
}

/// Tells what is in a cell of a run that stands still, on a line of its own.
fn tell_cell(cell: &Cell, told: &mut Told) {
    match cell {
        Cell::Unset => told.text("unset"),
        Cell::Held(value) => put_value(value, told),
        Cell::Ref(location) => {
            told.text("cell ");
            told.value(&location.element);
            told.text(" of ");
            told.word(location.name.as_bytes());
            told.text(" in frame ");
            told.value(&location.frame);
        }
    }
    told.line("");
}

/// Tells the value in a cell of a run that stands still: a number, whether a bit is on, or the bytes of a text.
fn put_value(value: &Value, told: &mut Told) {
    match value {
        Value::Fixed(number) => told.value(number),
        Value::Bit(bit) => told.value(bit),
        Value::Text(text) => told.word(text.as_bytes()),
    }
}

/// Tells what the bench's run, which stands still, wrote.
pub(crate) fn tell_output(bench: &Bench, told: &mut Told) -> Option<()> {
    let Some(suspended) = &bench.suspended else {
        return None;
    };
    told.word_line(suspended.run.state.output.as_slice());
    Some(())
}

/// Tells what the bench's run left of the input.
pub(crate) fn tell_left(bench: &Bench, input: &[u8], told: &mut Told) -> Option<()> {
    let Some(suspended) = &bench.suspended else {
        return None;
    };
    told.word_line(input.get(suspended.run.state.taken as usize..)?);
    Some(())
}
