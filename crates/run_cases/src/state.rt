//! What a run is in, as it is told: how much of its input was taken, what was written, and its frames with
//! their loops, variables and cells.

use crate::value;
use case_script::Told;
use decl_table::Decls;
use plcs_base::{ByteOut, Name, Place, Scope, put_bytes};
use plcs_store::{Cell, Frame, KeptLoop, Location, RunState, Variable};
use std::alloc::Global;

/// How many variables a procedure has at most.
const MOST_VARIABLES: u32 = 2000;

/// How many bytes that were written are shown.
const MOST_SHOWN: usize = 200;

/// What a run is in, as it is told.
pub(crate) fn state_told(alloc: Global, decls: &Decls, state: &RunState) -> Told {
    let mut told = Told::new(alloc);
    tell_state(decls, state, &mut told);
    told
}

/// Tells what a run is in: how much of the input was taken, what was written, and the frames from main upward.
pub(crate) fn tell_state(decls: &Decls, state: &RunState, told: &mut Told) {
    told.value(&state.taken);
    told.text(" taken, written ");
    tell_written(state.output.as_slice(), told);
    for (number, frame) in state.frames.as_slice().iter().enumerate() {
        told.text("frame ");
        told.value(&number);
        tell_frame(decls, frame, told);
    }
}

/// Of what a run is in, tells what was written, or of more than 200 bytes how many.
pub(crate) fn tell_written(output: &[u8], told: &mut Told) {
    if output.len() > MOST_SHOWN {
        told.value(&output.len());
        told.line(" bytes");
    } else {
        told.word_line(output);
    }
}

/// Of what a run is in, tells where its newest frame stands, and the number of the frame, counted from 0 at
/// main's.
pub(crate) fn tell_place(state: &RunState, told: &mut Told) {
    if let Some(place) = state.frames.place() {
        tell_at(place, told);
    }
    told.text(" in frame ");
    told.value(&state.frames.count().saturating_sub(1));
}

/// Of what a run is in, tells the place at which a frame stands.
fn tell_at(place: Place, told: &mut Told) {
    told.text(", at ");
    told.value(&place.slot.0);
    told.put(b' ');
    told.value(&place.point.0);
}

/// Of what a run is in, tells a frame: its procedure, its place, its loops from the outermost inward, and its
/// variables in the order in which they are declared.
fn tell_frame(decls: &Decls, frame: &Frame, told: &mut Told) {
    told.text(" of ");
    told.value(&frame.procedure.0);
    tell_at(frame.place, told);
    for kept in frame.loops.as_slice() {
        tell_loop(*kept, told);
    }
    told.line("");
    for k in 0..MOST_VARIABLES {
        match decls.declared(frame.procedure, k) {
            Some(item) => tell_named(frame, &item.name, told),
            None => return,
        }
    }
}

/// Tells a loop that a frame keeps in what the run is in.
fn tell_loop(kept: KeptLoop, told: &mut Told) {
    told.text(", loop ");
    told.value(&kept.slot.0);
    told.text(" to ");
    told.value(&kept.limit);
    told.text(" by ");
    told.value(&kept.step);
}

/// Tells a variable of what the run is in: the one of a frame that has the name, if there is one.
fn tell_named(frame: &Frame, name: &Name, told: &mut Told) {
    if let Some(variable) = frame.cells.get(name) {
        put_bytes(name.as_bytes(), told);
        told.put(b' ');
        tell_variable(variable, told);
    }
}

/// Tells a variable, as a part of what a run is in: its type, the size of an array, and its cells.
fn tell_variable(variable: &Variable, told: &mut Told) {
    told.value(&variable.ty);
    if variable.size > 0 {
        told.text(" of ");
        told.value(&variable.size);
    }
    told.put(b':');
    for cell in variable.cells.as_slice() {
        told.put(b' ');
        tell_cell(cell, told);
    }
    told.line("");
}

/// Tells a cell of a variable, as a part of what a run is in: its value, for which cell it stands, or that it
/// is unset.
fn tell_cell(cell: &Cell, told: &mut Told) {
    match cell {
        Cell::Unset => told.text("unset"),
        Cell::Held(value) => value::tell(value, told),
        Cell::Ref(location) => tell_location(location, told),
    }
}

/// As a part of what a run is in, tells for which cell one of a variable stands: the number of its frame, its
/// name, and its number among the cells of the name, counted from 0.
fn tell_location(location: &Location, told: &mut Told) {
    told.text("at ");
    told.value(&location.frame);
    told.put(b' ');
    put_bytes(location.name.as_bytes(), told);
    told.put(b' ');
    told.value(&location.element);
}
