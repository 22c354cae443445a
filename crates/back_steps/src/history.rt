//! The history of a run.
ghost use Rattle.std.specs.Prelude.{◌≡◌, ◌↔◌, ◌≤◌, [], ◌∷◌, drop, length, take, IfOk, IsErr, OnErr, OnOk};
ghost use Rattle.plcs_store.specs.Configuration.{PlainConfiguration, plain_configuration};
ghost use Rattle.plcs_store.specs.Undone.{step_undone};
ghost use Rattle.back_steps.specs.EarlierConfigurations.{CanGoBack, GoesBack, KeepsRunLimits, configurations_before};
ghost use Rattle.back_steps.specs.Limit.{most_records};

use crate::limit::MOST_RECORDS;
use crate::taken_back::take_back;
use circular_buffer::HeapCircularBuffer;
use plcs_base::OutOfMemory;
use plcs_store::{RunState, Undo};
use std::alloc::Global;
use std::marker::Model;

/// The history of a run holds no record of a step, so that none is taken back.
#[derive(Clone, Copy, Debug, PartialEq, Eq)]
pub struct NoHistory;

/// The history of a run: the records of its latest steps, at most 500, which contracts see as a list, the latest first.
/// For a configuration they are the list of those before it (`configurations_before`). No call but `new` takes memory.
#[derive(Drop)]
pub struct History {
    records: HeapCircularBuffer<Undo>,
}

impl Model for History {
    ghost use Rattle.std.specs.Prelude.{◌≡◌, ◌≤◌, List, length};
    ghost use Rattle.plcs_store.specs.declared.undo.Undo.{Undo};
    ghost use Rattle.back_steps.specs.Limit.{most_records};

    ghost Value = { List Undo };

    ghost view = { λ a. a.records.items };

    ghost invariant = { λ a. (a.records.capacity ≡ most_records) × (length a.records.items ≤ most_records) };
}

impl History {
    /// A history that holds nothing, with room for 500 records.
    pub fn new(alloc: Global) -> Result<History, OutOfMemory>
        ensures { IfOk result (λ history. history ≡ []) }
    {
        Ok(History {
            records: HeapCircularBuffer::with_capacity(alloc, MOST_RECORDS)?,
        })
    }

    /// How many records the history holds, which is how many steps a run can go back.
    pub fn held(&self) -> u32
        ensures records { result ≡ length self.now }
        ensures few { result ≤ most_records }
        ensures earlier { (c : PlainConfiguration) → length (configurations_before self.now c) ≡ result }
    {
        self.records.len() as u32
    }

    /// Lets go of all records of the history.
    pub fn clear(&mut self)
        ensures { self.new ≡ [] }
    {
        self.records.clear();
    }

    /// Puts the record of a step before the others of the history; where 500 are held, the oldest is dropped.
    ///
    /// Of the configurations before a run's the one that the record gives back is the latest then.
    pub fn note(&mut self, undo: Undo)
        ensures records { self.new ≡ take most_records (undo ∷ self.old) }
        ensures earlier { (old new : PlainConfiguration) → step_undone undo new ≡ old
            → configurations_before self.new new ≡ take most_records (old ∷ configurations_before self.old old) }
        ensures able { (old new : PlainConfiguration) → step_undone undo new ≡ old → KeepsRunLimits old
            → CanGoBack self.old old → CanGoBack self.new new }
    {
        let _oldest = self.records.push_front(undo);
    }

    /// Takes the latest step of the history back, and lets go of its record: the state is, whole, the one before the
    /// step.
    ///
    /// `NoHistory` where no record is held; then nothing is changed.
    pub fn back(&mut self, state: &mut RunState) -> Result<(), NoHistory>
        requires able { CanGoBack self.old (plain_configuration state.old) }
        ensures none { IsErr result ↔ (self.old ≡ []) }
        ensures back { OnOk result (GoesBack self.old (plain_configuration state.old)
            self.new (plain_configuration state.new)) }
        ensures left { OnOk result (self.new ≡ drop 1 self.old) }
        ensures again { OnOk result (CanGoBack self.new (plain_configuration state.new)) }
        ensures operands { state.new.operands ≡ state.old.operands }
        ensures refused { OnErr result ((self.new ≡ self.old) × (state.new ≡ state.old)) }
    {
        let Some(undo) = self.records.pop_front() else {
            return Err(NoHistory);
        };
        take_back(undo, state);
        Ok(())
    }
}
