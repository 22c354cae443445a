//! The frames of a run, and what is found in them by its place or name: their variables, cells and loops.
ghost use Rattle.std.specs.Prelude.{◌≡◌, ◌+◌, ◌<◌, ◌≤◌, length, vec_capacity, vec_len, slice_get, ◌++◌, [], ◌∷◌, IfNone, IfOk, IfSome, IsSome, Some, option_map};
ghost use Rattle.plcs_store.specs.Act.{HasLoopRoom, newest_at, with_loop, with_newest, without_loop, without_loop_at, without_newest};
ghost use Rattle.plcs_store.specs.CellAt.{HasCell, cell_at, variable_at, with_cell};
ghost use Rattle.plcs_store.specs.Configuration.{plain_place, top_place};
ghost use Rattle.plcs_store.specs.Limit.{most_frames};
ghost use Rattle.plcs_store.specs.LoopOfSlot.{newest_loop};
ghost use Rattle.plcs_store.specs.Step.{caller_place};
ghost use Rattle.plcs_store.specs.Undone.{HasLoopsBefore, loop_at, newest_frame, with_loop_at};

use crate::cell::{Cell, Location};
use crate::frame::Frame;
use crate::kept_loop::KeptLoop;
use crate::limit::MOST_FRAMES;
use crate::variable::Variable;
use plcs_base::{Name, OutOfMemory, Place, Slot};
use std::alloc::Global;
use std::marker::Model;

/// The frames of a run from main upward, which contracts see as a list. There is always room for 64.
#[derive(Drop)]
pub struct Frames {
    frames: Vec<Frame>,
}

impl Model for Frames {
    ghost use Rattle.std.specs.Prelude.{List, ◌≤◌, length, vec_capacity};
    ghost use Rattle.plcs_store.specs.declared.frame.Frame.{Frame};
    ghost use Rattle.plcs_store.specs.Limit.{most_frames};

    ghost Value = { List Frame };

    ghost view = { λ a. a.frames.items };

    ghost invariant = { λ a. (most_frames ≤ vec_capacity a.frames) × (length a.frames.items ≤ most_frames) };
}

impl Frames {
    /// No frames of a run, with room for 64.
    pub fn new(alloc: Global) -> Result<Frames, OutOfMemory>
        ensures { IfOk result (λ frames. frames ≡ []) }
    {
        Ok(Frames {
            frames: Vec::with_capacity(alloc, MOST_FRAMES)?,
        })
    }

    /// How many frames there are.
    pub fn count(&self) -> usize
        ensures { result ≡ length self.now }
    {
        self.frames.len()
    }

    /// Puts one more frame behind the others. It takes no memory.
    pub fn push(&mut self, frame: Frame)
        requires room { length self.old < most_frames }
        ensures { self.new ≡ self.old ++ frame ∷ [] }
    {
        let pushed = self.frames.push(frame);
        if pushed.is_err() {
            unreachable!()
        }
        drop(pushed);
    }

    /// Takes the last frame off, or `None` where there is none.
    pub fn pop(&mut self) -> Option<Frame>
        ensures some { IfSome result (λ frame. self.old ≡ self.new ++ frame ∷ []) }
        ensures none { IfNone result ((self.old ≡ []) × (self.new ≡ self.old)) }
        ensures newest { result ≡ newest_frame self.old }
        ensures left { self.new ≡ without_newest self.old }
    {
        self.frames.pop()
    }

    /// The frames in order.
    pub fn as_slice(&self) -> &[Frame]
        ensures all { result.now ≡ self.now }
        ensures few { length self.now ≤ most_frames }
    {
        self.frames.as_slice()
    }

    /// The newest of the frames, which is the last, or `None` where there is none.
    pub fn newest(&self) -> Option<&Frame>
        ensures { option_map (λ frame. frame.now) result ≡ newest_frame self.now }
    {
        self.frames.last()
    }

    /// Where the newest frame stands, or `None` where there is none.
    pub fn place(&self) -> Option<Place>
        ensures { option_map plain_place result ≡ top_place self.now }
    {
        match self.frames.last() {
            None => None,
            Some(frame) => Some(frame.place),
        }
    }

    /// Where the frame below the newest stands, or `None` where there is no frame; the place of the newest where
    /// that is the only one.
    pub fn caller_place(&self) -> Option<Place>
        ensures { option_map plain_place result ≡ caller_place self.now }
    {
        match self.frames.get(self.frames.len().saturating_sub(2)) {
            None => None,
            Some(frame) => Some(frame.place),
        }
    }

    /// Puts the newest frame at the place.
    pub fn set_place(&mut self, place: Place)
        requires some { 0 < length self.old }
        ensures { self.new ≡ newest_at (plain_place place) self.old }
    {
        let newest = self.frames.len() - 1;
        self.frames[newest].place = place;
    }

    /// The variable of the name in the frame of this number, counted from 0 at main's, or `None` where there
    /// is none.
    pub fn variable(&self, frame: usize, name: &Name) -> Option<&Variable>
        ensures { option_map (λ variable. variable.now) result ≡ variable_at self.now frame name.now }
    {
        match self.frames.get(frame) {
            None => None,
            Some(one) => one.cells.get(name),
        }
    }

    /// The cell at a location, or `None` where there is none.
    pub fn cell(&self, location: &Location) -> Option<&Cell>
        ensures { option_map (λ cell. cell.now) result ≡ cell_at self.now location.now }
    {
        match self.variable(usize::from(location.frame), &location.name) {
            None => None,
            Some(variable) => variable.cells.as_slice().get(location.element as usize),
        }
    }

    /// Puts this into the cell at a location among the frames of a run; where the frame has no variable of the
    /// name, nowhere. It takes no memory.
    pub fn set_cell(&mut self, location: &Location, cell: Cell)
        requires frame { location.now.frame < length self.old }
        requires there { HasCell location.now self.old }
        ensures { self.new ≡ with_cell location.now cell self.old }
    {
        let frame = usize::from(location.frame);
        self.frames[frame]
            .cells
            .set(&location.name, location.element as usize, cell);
    }

    /// Puts this into the cell at a location, and gives what was in it; where there is no such cell, nowhere. It
    /// takes no memory.
    pub fn replace_cell(&mut self, location: &Location, cell: Cell) -> Option<Cell>
        ensures before { result ≡ cell_at self.old location.now }
        ensures set { self.new ≡ with_cell location.now cell self.old }
    {
        match self.frames.get_mut(usize::from(location.frame)) {
            None => {
                drop(cell);
                None
            }
            Some(frame) => {
                frame
                    .cells
                    .replace(&location.name, location.element as usize, cell)
            }
        }
    }

    /// The loop of the slot that the newest frame keeps, the innermost where there are more, with its number,
    /// counted from 0 at the outermost; `None` where it keeps none.
    pub fn newest_loop(&self, slot: Slot) -> Option<(usize, KeptLoop)>
        ensures { result ≡ newest_loop slot.0 self.now }
    {
        match self.newest() {
            None => None,
            Some(frame) => frame.loops.of(slot),
        }
    }

    /// Adds a loop inside those of the newest frame. It takes no memory.
    pub fn push_loop(&mut self, kept: KeptLoop)
        requires some { 0 < length self.old }
        requires room { HasLoopRoom self.old }
        ensures { self.new ≡ with_newest (with_loop kept) self.old }
    {
        let newest = self.frames.len() - 1;
        self.frames[newest].loops.push(kept);
    }

    /// Takes the innermost loop of the newest frame off, if it keeps one.
    pub fn pop_loop(&mut self)
        requires some { 0 < length self.old }
        ensures { self.new ≡ with_newest without_loop self.old }
    {
        let newest = self.frames.len() - 1;
        let _ = self.frames[newest].loops.pop();
    }

    /// Takes the loop of this number of the newest frame off, counted from 0 at the outermost.
    pub fn take_loop(&mut self, number: usize) -> KeptLoop
        requires there { IsSome (loop_at number self.old) }
        ensures taken { loop_at number self.old ≡ Some result }
        ensures left { self.new ≡ with_newest (without_loop_at number) self.old }
    {
        let newest = self.frames.len() - 1;
        self.frames[newest].loops.take(number)
    }

    /// Puts a loop back between those that the newest of the frames keeps, so that it has this number, counted
    /// from 0 at the outermost. It takes no memory.
    pub fn put_loop_back(&mut self, number: usize, kept: KeptLoop)
        requires some { 0 < length self.old }
        requires room { HasLoopRoom self.old }
        requires before { HasLoopsBefore number self.old }
        ensures { self.new ≡ with_newest (with_loop_at number kept) self.old }
    {
        let newest = self.frames.len() - 1;
        self.frames[newest].loops.put_back(number, kept);
    }
}
