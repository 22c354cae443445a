//! Edits of a tree, prepared in its verdicts: the phrases that are due are checked, and nothing is put in place.
ghost use Rattle.std.specs.Prelude.{◌≡◌, ℕ, ◌+◌, ◌<◌, ◌≤◌, IfOk, List, OnOk, get_or, is_some, length, take, true};
ghost use Rattle.std.specs.FinMap.{get};
ghost use Rattle.plcs_base.specs.declared.place.PhraseAt.{PhraseAt};
ghost use Rattle.plcs_base.specs.PlainCounts.{ChecksAtMost};
ghost use Rattle.plcs_grammar.specs.PlainPhrase.{PlainPhrase};
ghost use Rattle.template_tree.specs.Checks.Marks.{Verdicts};
ghost use Rattle.template_tree.specs.Programs.PlainTree.{PlainNode};
ghost use Rattle.template_tree.specs.Programs.Tree.{IsTree};
ghost use Rattle.decl_table.specs.Knowledge.{Knows, Stands};
ghost use Rattle.type_marks.specs.MarkEdit.{AreVerdictsBefore, HasRoomForEdit, verdicts_after};
ghost use Rattle.type_marks.specs.Private.CheckedLists.{AreChecked, AreListsOf, AreSamePlaces, IsDueIn};

use crate::due_checks::due_verdict;
use crate::list_checks::ListChecks;
use crate::mark_edit::MarkEdit;
use crate::marks::Marks;
use crate::verdict::Verdict;
use decl_table::{DeclEdit, Decls};
use indexmap::{IndexMap, IndexSet};
use plcs_base::{OutOfMemory, PhraseAt, Work, counts_add_up};
use std::alloc::Global;
use template_tree::{Change, Tree, checks_ignore_room_and_elision};

impl<W: Work> Marks<W> {
    /// Prepares the edit of the tree that made this change, where `decls` is the table of declarations before it and
    /// `edit` was prepared for that. The phrases that are due are checked, each of which is counted; what is told of
    /// phrases stays, apart from room.
    pub fn prepare(
        &mut self,
        alloc: Global,
        tree: &Tree,
        decls: &Decls,
        edit: &DeclEdit,
        change: &Change,
        work: &mut W,
    ) -> Result<MarkEdit<W>, OutOfMemory>
        requires tree { IsTree tree.now }
        requires before { AreVerdictsBefore self.old.verdicts tree.now change.now decls.now edit.now }
        ensures same { self.new.verdicts ≡ self.old.verdicts }
        ensures after { IfOk result (λ edit. verdicts_after edit self.new.verdicts ≡ Verdicts tree.now.items) }
        ensures ready { IfOk result (λ edit. HasRoomForEdit edit self.new) }
        ensures counts { ChecksAtMost (length edit.now.due) (W.counts work.old) (W.counts work.new) }
    {
        checks_ignore_room_and_elision();
        counts_add_up();
        let Ok(()) = self.reserve(edit.due().len()) else {
            return Err(OutOfMemory);
        };
        let Ok(gone) = places(alloc, edit.gone()) else {
            return Err(OutOfMemory);
        };
        match check_due(alloc, tree, edit.decls(), edit.due(), work) {
            Ok(checked) => Ok(MarkEdit { checked, gone }),
            Err(OutOfMemory) => {
                drop(gone);
                Err(OutOfMemory)
            }
        }
    }
}

impl<W> Marks<W> {
    /// Puts the edit in place that was prepared last for the verdicts. It takes no memory.
    pub fn commit(&mut self, edit: MarkEdit<W>)
        requires room { HasRoomForEdit edit self.old }
        ensures { self.new.verdicts ≡ verdicts_after edit self.old.verdicts }
    {
        let MarkEdit { checked, gone } = edit;
        self.take_out(gone.as_slice());
        drop(gone);
        self.put_in(checked);
    }
}

/// The places of phrases that went, each once.
fn places(alloc: Global, gone: &[PhraseAt]) -> Result<IndexSet<PhraseAt>, OutOfMemory>
    ensures { IfOk result (λ places. AreSamePlaces gone.now places.keys) }
{
    let mut places = IndexSet::new(alloc);
    for at in gone {
        places.insert(*at)?;
    }
    Ok(places)
}

/// The verdicts of the phrases at these places, which are due for a check, each of which is counted.
fn check_due<W: Work>(
    alloc: Global,
    tree: &Tree,
    decls: &Decls,
    due: &[PhraseAt],
    work: &mut W,
) -> Result<IndexMap<PhraseAt, Verdict<W>>, OutOfMemory>
    requires tree { IsTree tree.now }
    requires due { IsDueIn decls.now tree.now.items due.now }
    ensures checked { IfOk result (λ phrases. AreChecked tree.now.items due.now phrases.entries) }
    ensures few { IfOk result (λ phrases. length phrases.entries ≤ length due.now) }
    ensures counts { ChecksAtMost (length due.now) (W.counts work.old) (W.counts work.new) }
{
    counts_add_up();
    let mut phrases = IndexMap::new(alloc);
    let mut lists = ListChecks::new(alloc);
    for at in due {
        let Ok(()) = check_one(alloc, tree, decls, *at, &mut phrases, &mut lists, work) else {
            return Err(OutOfMemory);
        };
    }
    Ok(phrases)
}

/// Checks the phrase at the place, which is due and counted, and keeps its verdict with those of the phrases before.
fn check_one<W: Work>(
    alloc: Global,
    tree: &Tree,
    decls: &Decls,
    at: PhraseAt,
    phrases: &mut IndexMap<PhraseAt, Verdict<W>>,
    lists: &mut ListChecks,
    work: &mut W,
) -> Result<(), OutOfMemory>
    requires tree { IsTree tree.now }
    requires filled { is_some (get (Verdicts tree.now.items) at) ≡ true }
    requires known { (procedure : PlainNode) (phrase : PlainPhrase) → Stands tree.now.items at procedure phrase
        → Knows decls.now tree.now.items procedure phrase }
    requires lists { AreListsOf tree.now.items lists.old.procedures.entries }
    ensures checked { OnOk result ((due : List PhraseAt) (k : ℕ) → k < length due → at ≡ get_or due k at
        → AreChecked tree.now.items (take k due) phrases.old.entries
        → AreChecked tree.now.items (take (k + 1) due) phrases.new.entries) }
    ensures few { OnOk result (length phrases.new.entries ≤ length phrases.old.entries + 1) }
    ensures lists { OnOk result (AreListsOf tree.now.items lists.new.procedures.entries) }
    ensures counts { ChecksAtMost 1 (W.counts work.old) (W.counts work.new) }
{
    let Ok(verdict) = due_verdict(alloc, tree, decls, at, lists, work) else {
        return Err(OutOfMemory);
    };
    match phrases.insert(at, verdict) {
        Ok(_) => Ok(()),
        Err(_) => Err(OutOfMemory),
    }
}
