//! The ring of the latest edits.
ghost use Rattle.std.specs.Prelude.{◌≡◌, ◌↔◌, ℕ, ◌+◌, ◌<◌, ◌≤◌, List, [], ◌∷◌, length, IfErr, IfNone, IfOk, IfSome, IsTrue};
ghost use Rattle.edit_undo.specs.EarlierTree.{RingFits, earlier_tree, kept_trees, trees_before};
ghost use Rattle.edit_undo.specs.EditLimit.{KeepsEditLimits, edit_weight, edits_weight, kept_edits, most_edits, most_taken_slots};
ghost use Rattle.edit_undo.specs.Private.KeptRing.{without_last};
ghost use Rattle.edit_undo.specs.UndoneEdit.{MayPutBack, UndoesNewest};
ghost use Rattle.edit_undo.specs.declared.edit_record.EditRecord.{EditRecord};
ghost use Rattle.edit_undo.specs.declared.undone.UndoFault.{UndoFault};
ghost use Rattle.template_tree.specs.Edits.Receipt.{HasRoomBack, list_room};
ghost use Rattle.template_tree.specs.Edits.Reversal.{Before};
ghost use Rattle.template_tree.specs.Programs.PlainTree.{PlainTree, roomless_tree};
ghost use Rattle.template_tree.specs.Programs.Tree.{IsTree};

use crate::edit_record::EditRecord;
use crate::limit::{MOST_EDITS, MOST_TAKEN_SLOTS};
use crate::undone::{UndoFault, Undone};
use circular_buffer::HeapCircularBuffer;
use plcs_base::OutOfMemory;
use std::alloc::Global;
use std::marker::Model;
use template_tree::{Tree, receipts_revert_to_undone, room_is_not_shown};

/// The latest edits of a tree: their records, at most 50, whose nodes that were taken out have at most 20,000 slots
/// together. Contracts see them as a list, the newest first; for a tree they are the list of those before it
/// (`trees_before`). No call but `new` takes memory of its own.
#[derive(Drop)]
pub struct EditRing {
    records: HeapCircularBuffer<EditRecord>,
    weight: u32,
}

impl Model for EditRing {
    ghost use Rattle.std.specs.Prelude.{List};
    ghost use Rattle.edit_undo.specs.declared.edit_record.EditRecord.{EditRecord};
    ghost use Rattle.edit_undo.specs.Private.RingCode.{ring_code};

    ghost Value = { List EditRecord };

    ghost coded = { ring_code };

    ghost use Rattle.edit_undo.specs.Private.KeptRing.{IsKeptRing};

    ghost view = { λ a. a.records.items };

    ghost invariant = { IsKeptRing };
}

impl EditRing {
    /// A ring that holds no edit, with room for 50.
    pub fn new(alloc: Global) -> Result<EditRing, OutOfMemory>
        ensures { IfOk result (λ ring. ring ≡ []) }
    {
        Ok(EditRing {
            records: HeapCircularBuffer::with_capacity(alloc, MOST_EDITS)?,
            weight: 0,
        })
    }

    /// How many edits the ring holds, which can be undone one after the other.
    pub fn held(&self) -> u32
        ensures edits { result ≡ length self.now }
        ensures limits { KeepsEditLimits self.now }
    {
        self.records.len() as u32
    }

    /// Lets go of all edits of the ring.
    pub fn clear(&mut self)
        ensures { self.new ≡ [] }
    {
        self.records.clear();
        self.weight = 0;
    }

    /// Keeps the record of an edit as the newest of the ring. The oldest are dropped until at most 50 are held, and
    /// the nodes that they took out have at most 20,000 slots together.
    pub fn note(&mut self, edit: EditRecord)
        ensures edits { self.new ≡ kept_edits (edit ∷ self.old) }
        ensures earlier { (tree : PlainTree) → trees_before self.new tree
            ≡ kept_trees (earlier_tree edit tree ∷ trees_before self.old (Before tree edit.receipt edit.back)) }
        ensures fits { (tree : PlainTree) → RingFits (edit ∷ self.old) tree → RingFits self.new tree }
    {
        let Some(weight) = edit.weight() else {
            drop(edit);
            self.clear();
            return;
        };
        self.make_room(weight);
        self.put_newest(edit, weight);
    }

    /// Undoes the newest edit of the ring in the tree, and takes its record off. The tree before it comes back, with
    /// as many slots drawn as are now, and each comment that stands now is elided as it is now.
    ///
    /// `NothingToUndo` where no edit is held; `OutOfMemory` can come where an item goes back into a list without room.
    /// Then nothing is changed.
    pub fn undo(&mut self, tree: &mut Tree) -> Result<Undone, UndoFault>
        requires tree { IsTree tree.old }
        requires fits { RingFits self.old (roomless_tree tree.old) }
        ensures undone { IfOk result (UndoesNewest self.old tree.old self.new tree.new) }
        ensures again { IfOk result (MayPutBack self.new tree.new) }
        ensures none { IfErr result (λ fault. (fault ≡ UndoFault.NothingToUndo) ↔ (self.old ≡ [])) }
        ensures wanted { IfErr result (λ fault. fault ≡ UndoFault.OutOfMemory → (edit : EditRecord)
            (edits : List EditRecord) → self.old ≡ edit ∷ edits
            → HasRoomBack edit.receipt.undoing (list_room tree.old.spare tree.old.items edit.receipt.path) → ⊥) }
        ensures tree { IsTree tree.new }
        ensures fits { RingFits self.new (roomless_tree tree.new) }
        ensures unchanged { IfErr result (λ _. (self.new ≡ self.old) × (tree.new ≡ tree.old)) }
    {
        room_is_not_shown();
        let Some((edit, weight)) = self.take_newest() else {
            return Err(UndoFault::NothingToUndo);
        };
        match edit.revert(tree) {
            Ok(undone) => Ok(undone),
            Err(edit) => {
                self.put_newest(edit, weight);
                Err(UndoFault::OutOfMemory)
            }
        }
    }

    /// Puts back into the ring and the tree what an `undo` took and changed, where nothing was done with them since.
    /// It takes no memory.
    pub fn put_back(&mut self, tree: &mut Tree, undone: Undone)
        requires tree { IsTree tree.old }
        requires fits { RingFits self.old (roomless_tree tree.old) }
        requires newest { MayPutBack self.old tree.old undone }
        ensures back { (edits : List EditRecord) (before : PlainTree)
            → UndoesNewest edits before self.old tree.old undone
            → (roomless_tree tree.new ≡ roomless_tree before)
            × (trees_before self.new (roomless_tree tree.new) ≡ trees_before edits (roomless_tree before)) }
        ensures tree { IsTree tree.new }
        ensures fits { RingFits self.new (roomless_tree tree.new) }
    {
        room_is_not_shown();
        receipts_revert_to_undone();
        let edit = undone.revert(tree);
        let Some(weight) = edit.weight() else {
            unreachable!()
        };
        self.put_newest(edit, weight);
    }
}

impl EditRing {
    /// Drops the oldest edits until the ring has room for one more of this weight.
    fn make_room(&mut self, weight: u32)
        requires light { weight ≤ most_taken_slots }
        ensures dropped { (edit : EditRecord) → edit_weight edit.back ≡ weight
            → edit ∷ self.new ≡ kept_edits (edit ∷ self.old) }
        ensures few { length self.new < most_edits }
        ensures room { edits_weight self.new + weight ≤ most_taken_slots }
    {
        while !self.has_room(weight) {
            self.drop_oldest();
        }
    }

    /// Whether the ring has room for one more edit of this weight.
    fn has_room(&self, weight: u32) -> bool
        requires light { weight ≤ most_taken_slots }
        ensures { IsTrue result
            ↔ ((length self.now < most_edits) × (edits_weight self.now + weight ≤ most_taken_slots)) }
    {
        if self.records.len() >= MOST_EDITS {
            return false;
        }
        self.weight <= MOST_TAKEN_SLOTS - weight
    }

    /// Drops the oldest edit of the ring.
    fn drop_oldest(&mut self)
        requires some { 0 < length self.old }
        ensures { self.new ≡ without_last self.old }
    {
        let Some(oldest) = self.records.pop_back() else {
            unreachable!()
        };
        let Some(weight) = oldest.weight() else {
            unreachable!()
        };
        drop(oldest);
        self.weight -= weight;
    }

    /// Takes the newest edit off the ring, with its weight, if one is held.
    fn take_newest(&mut self) -> Option<(EditRecord, u32)>
        ensures newest { IfSome result (λ r. self.old ≡ r.0 ∷ self.new) }
        ensures weight { IfSome result (λ r. r.1 ≡ edit_weight r.0.back) }
        ensures limits { KeepsEditLimits self.old }
        ensures none { IfNone result ((self.old ≡ []) × (self.new ≡ self.old)) }
    {
        let Some(edit) = self.records.pop_front() else {
            return None;
        };
        let Some(weight) = edit.weight() else {
            unreachable!()
        };
        self.weight -= weight;
        Some((edit, weight))
    }

    /// Puts an edit of this weight before the others of the ring, where there is room for it.
    fn put_newest(&mut self, edit: EditRecord, weight: u32)
        requires weight { weight ≡ edit_weight edit.back }
        requires few { length self.old < most_edits }
        requires room { edits_weight self.old + weight ≤ most_taken_slots }
        ensures { self.new ≡ edit ∷ self.old }
    {
        // No edit is dropped: there is room.
        drop(self.records.push_front(edit));
        self.weight += weight;
    }
}
