//! The loops that a frame keeps.
ghost use Rattle.std.specs.Prelude.{◌≡◌, ◌+◌, ◌-◌, ◌<◌, ◌≤◌, length, take, vec_capacity, vec_len, slice_get, ◌++◌, [], ◌∷◌, IfNone, IfOk, IfSome, Some};
ghost use Rattle.std.specs.List.{insert, remove};
ghost use Rattle.plcs_store.specs.Limit.{most_loops};
ghost use Rattle.plcs_store.specs.LoopOfSlot.{loop_of_slot};

use crate::kept_loop::KeptLoop;
use crate::limit::MOST_LOOPS;
use plcs_base::{OutOfMemory, Slot};
use std::alloc::Global;
use std::marker::Model;

/// The loops of a frame whose bodies are being done, the outermost first, which contracts see as a list. There
/// is always room for 64.
#[derive(Drop)]
pub struct Loops {
    loops: Vec<KeptLoop>,
}

impl Model for Loops {
    ghost use Rattle.std.specs.Prelude.{List, ◌≤◌, length, vec_capacity};
    ghost use Rattle.plcs_store.specs.declared.kept_loop.KeptLoop.{KeptLoop};
    ghost use Rattle.plcs_store.specs.Limit.{most_loops};

    ghost Value = { List KeptLoop };

    ghost view = { λ a. a.loops.items };

    ghost invariant = { λ a. (most_loops ≤ vec_capacity a.loops) × (length a.loops.items ≤ most_loops) };
}

impl Loops {
    /// No loops of a frame, with room for 64.
    pub fn new(alloc: Global) -> Result<Loops, OutOfMemory>
        ensures { IfOk result (λ loops. loops ≡ []) }
    {
        Ok(Loops {
            loops: Vec::with_capacity(alloc, MOST_LOOPS)?,
        })
    }

    /// How many loops the frame keeps.
    pub fn count(&self) -> usize
        ensures { result ≡ length self.now }
    {
        self.loops.len()
    }

    /// Puts one more loop behind those that the frame keeps. It takes no memory.
    pub fn push(&mut self, kept: KeptLoop)
        requires room { length self.old < most_loops }
        ensures { self.new ≡ self.old ++ kept ∷ [] }
    {
        if self.loops.push(kept).is_err() {
            unreachable!()
        }
    }

    /// Takes the last loop off, or `None` where the frame keeps none.
    pub fn pop(&mut self) -> Option<KeptLoop>
        ensures some { IfSome result (λ kept. self.old ≡ self.new ++ kept ∷ []) }
        ensures none { IfNone result ((self.old ≡ []) × (self.new ≡ self.old)) }
        ensures innermost { result ≡ slice_get self.old (length self.old - 1) }
        ensures left { self.new ≡ take (length self.old - 1) self.old }
    {
        self.loops.pop()
    }

    /// The loop of the slot that the frame keeps, the innermost where there are more, with its number, counted from 0
    /// at the outermost; `None` where no loop is of the slot. It looks from the innermost outward.
    pub fn of(&self, slot: Slot) -> Option<(usize, KeptLoop)>
        ensures { result ≡ loop_of_slot slot.0 self.now }
    {
        innermost_of(self.loops.as_slice(), slot)
    }

    /// Takes the loop of this number off those that the frame keeps, counted from 0 at the outermost.
    pub fn take(&mut self, number: usize) -> KeptLoop
        requires there { number < length self.old }
        ensures taken { slice_get self.old number ≡ Some result }
        ensures left { self.new ≡ remove self.old number }
    {
        self.loops.remove(number)
    }

    /// Puts a loop between the others that the frame keeps, so that it has this number, counted from 0 at the
    /// outermost. It takes no memory.
    pub fn put_back(&mut self, number: usize, kept: KeptLoop)
        requires room { length self.old < most_loops }
        requires before { number ≤ length self.old }
        ensures { self.new ≡ insert self.old number kept }
    {
        if self.loops.insert(number, kept).is_err() {
            unreachable!()
        }
    }

    /// The loops that the frame keeps in order.
    pub fn as_slice(&self) -> &[KeptLoop]
        ensures all { result.now ≡ self.now }
        ensures few { length self.now ≤ most_loops }
    {
        self.loops.as_slice()
    }
}

/// The loop of the slot among those that a frame keeps, the innermost where there are more, with its number.
fn innermost_of(loops: &[KeptLoop], slot: Slot) -> Option<(usize, KeptLoop)>
    ensures { result ≡ loop_of_slot slot.0 loops.now }
{
    let mut outside = loops.len();
    while outside > 0 {
        outside -= 1;
        let kept = loops[outside];
        if kept.slot == slot {
            return Some((outside, kept));
        }
    }
    None
}
