//! The verdicts of all phrases of a program.
ghost use Rattle.std.specs.Prelude.{◌≡◌, ◌∷◌, ◌+◌, ◌<◌, ◌≤◌, [], IfOk, OnOk, drop, length, option_map};
ghost use Rattle.std.specs.FinMap.{get, insert, remove};
ghost use Rattle.plcs_base.specs.PlainCounts.{ChecksAtMost};
ghost use Rattle.decl_table.specs.Agreement.{IsDeclsOf};
ghost use Rattle.template_tree.specs.Programs.Limit.{most_slots};
ghost use Rattle.template_tree.specs.Checks.Marks.{Verdicts, node_verdicts, offences, part_verdicts, procedure_verdicts, surroundings};
ghost use Rattle.template_tree.specs.Programs.PlainTree.{forest};
ghost use Rattle.template_tree.specs.Programs.Program.{IsSubtree};
ghost use Rattle.template_tree.specs.Checks.ProgramMaps.{MarksTell};
ghost use Rattle.template_tree.specs.Programs.Slots.{count};
ghost use Rattle.template_tree.specs.Programs.Tree.{IsTree};
ghost use Rattle.type_marks.specs.MarkEdit.{with_all, without_all};
ghost use Rattle.type_marks.specs.Private.MarksView.{AreListed, IsIn, IsProcedureItem};

use crate::procedures::procedure_item;
use crate::verdict::{Verdict, checked};
use decl_table::Decls;
use indexmap::IndexMap;
use plcs_base::{MarkKind, Marked, OutOfMemory, PhraseAt, Work, counts_add_up};
use std::alloc::Global;
use std::marker::Model;
use template_tree::{Node, PhrasePlace, Tree, items_are_nodes};

/// The verdicts of a program's phrases by their places, which contracts see as a finite map, with how many new ones
/// there is room for.
#[derive(Drop)]
pub struct Marks<W> {
    pub(crate) verdicts: IndexMap<PhraseAt, Verdict<W>>,
}

impl<W> Model for Marks<W> {
    ghost use Rattle.std.specs.FinMap.{from_entries};
    ghost use Rattle.indexmap.specs.IndexMap.{spare};
    ghost use Rattle.type_marks.specs.PlainMarks.{PlainMarks};
    ghost use Rattle.type_marks.specs.Private.MarksView.{marks_code};

    ghost Value = { PlainMarks };

    ghost coded = { marks_code };

    ghost view = { λ a. record { verdicts = from_entries a.verdicts.entries; spare = spare a.verdicts } };
}

impl<W> Marks<W> {
    /// The verdict that was made of the phrase at the place, or `None` exactly where no phrase stands
    /// there. It takes no memory.
    pub fn verdict(&self, at: PhraseAt) -> Option<&Verdict<W>>
        ensures { option_map (λ verdict. verdict.now) result ≡ get self.now.verdicts at }
    {
        self.verdicts.get(&at)
    }
}

impl<W> Marked for Marks<W> {
    ghost marks = { λ marks. offences marks.verdicts };

    fn mark(&self, at: PhraseAt) -> Option<MarkKind> {
        match self.verdict(at) {
            Some(verdict) => verdict.kind(),
            None => None,
        }
    }
}

impl<W: Work> Marks<W> {
    /// The verdicts of all phrases of the tree, each of which is counted as one check.
    pub fn new(
        alloc: Global,
        tree: &Tree,
        decls: &Decls,
        work: &mut W,
    ) -> Result<Marks<W>, OutOfMemory>
        requires tree { IsTree tree.now }
        requires decls { IsDeclsOf decls.now tree.now.items }
        ensures verdicts { IfOk result (λ marks. marks.verdicts ≡ Verdicts tree.now.items) }
        ensures marks { IfOk result (λ marks. MarksTell (offences marks.verdicts) tree.now.items) }
        ensures counts { ChecksAtMost (length (procedure_verdicts tree.now.items tree.now.items)) (W.counts work.old)
            (W.counts work.new) }
    {
        counts_add_up();
        items_are_nodes();
        let mut marks = Marks {
            verdicts: IndexMap::new(alloc),
        };
        let mut k = tree.procedures() + 1;
        // From the last phrase on, as in the table of declarations.
        while k > 0 {
            k -= 1;
            let Some(procedure) = procedure_item(tree, k) else {
                unreachable!()
            };
            let Ok(()) = marks.note_node(tree, decls, procedure, procedure, work) else {
                return Err(OutOfMemory);
            };
        }
        Ok(marks)
    }

    /// Notes the verdicts of the phrases of the node, which stands in main or the procedure or is it, and
    /// of the nodes in it, from the last one on.
    fn note_node(
        &mut self,
        tree: &Tree,
        decls: &Decls,
        procedure: &Node,
        node: &Node,
        work: &mut W,
    ) -> Result<(), OutOfMemory>
        requires tree { IsTree tree.now }
        requires decls { IsDeclsOf decls.now tree.now.items }
        requires item { IsProcedureItem tree.now.items procedure.now }
        requires inside { IsIn procedure.now node.now }
        requires subtree { IsSubtree node.now }
        requires few { count node.now.inner < most_slots }
        ensures noted { OnOk result (self.new.verdicts ≡ with_all
            (node_verdicts tree.now.items procedure.now (forest (node.now ∷ []))) self.old.verdicts) }
        ensures counts { ChecksAtMost (length (node_verdicts tree.now.items procedure.now (forest (node.now ∷ []))))
            (W.counts work.old) (W.counts work.new) }
    {
        counts_add_up();
        items_are_nodes();
        let mut k = node.children();
        while k > 0 {
            k -= 1;
            let Some(child) = node.child(k) else {
                unreachable!()
            };
            self.note_node(tree, decls, procedure, child, work)?;
        }
        self.note_parts(tree, decls, procedure, node, 0, work)
    }

    /// Notes the verdicts of the phrases in the parts of the node, from the last one to the part of this
    /// number.
    fn note_parts(
        &mut self,
        tree: &Tree,
        decls: &Decls,
        procedure: &Node,
        node: &Node,
        part: u8,
        work: &mut W,
    ) -> Result<(), OutOfMemory>
        requires tree { IsTree tree.now }
        requires decls { IsDeclsOf decls.now tree.now.items }
        requires item { IsProcedureItem tree.now.items procedure.now }
        requires listed { AreListed procedure.now.inner node.now.label }
        requires few { length node.now.label.parts < 256 }
        ensures noted { OnOk result (self.new.verdicts ≡ with_all
            (part_verdicts (surroundings tree.now.items procedure.now node.now.label.slot) node.now.label.slot part
            (drop part node.now.label.parts)) self.old.verdicts) }
        ensures counts { ChecksAtMost (length
            (part_verdicts (surroundings tree.now.items procedure.now node.now.label.slot) node.now.label.slot part
            (drop part node.now.label.parts))) (W.counts work.old) (W.counts work.new) }
    {
        counts_add_up();
        let Some(place) = node.part(part) else {
            return Ok(());
        };
        self.note_parts(tree, decls, procedure, node, part + 1, work)?;
        let PhrasePlace::Filled(phrase) = place else {
            return Ok(());
        };
        let at = PhraseAt {
            slot: node.slot(),
            part,
        };
        let verdict = checked(tree, decls, procedure, node.slot(), phrase, work);
        self.note(at, verdict)
    }

    /// Notes the verdict of the one phrase at the place.
    fn note(&mut self, at: PhraseAt, verdict: Verdict<W>) -> Result<(), OutOfMemory>
        ensures { OnOk result (self.new.verdicts ≡ insert self.old.verdicts at verdict) }
    {
        self.verdicts.insert(at, verdict)?;
        Ok(())
    }
}

impl<W> Marks<W> {
    /// Makes room for so many more verdicts.
    pub(crate) fn reserve(&mut self, verdicts: usize) -> Result<(), OutOfMemory>
        ensures same { self.new.verdicts ≡ self.old.verdicts }
        ensures room { OnOk result (verdicts ≤ self.new.spare) }
    {
        self.verdicts.reserve(verdicts)?;
        Ok(())
    }

    /// Takes the verdicts of the phrases at these places out.
    pub(crate) fn take_out(&mut self, gone: &[PhraseAt])
        ensures verdicts { self.new.verdicts ≡ without_all gone.now self.old.verdicts }
        ensures room { self.old.spare ≤ self.new.spare }
    {
        for at in gone {
            self.take(*at);
        }
    }

    /// Takes the verdict of the phrase at the place out, if it is there.
    fn take(&mut self, at: PhraseAt)
        ensures verdicts { self.new.verdicts ≡ remove self.old.verdicts at }
        ensures room { self.old.spare ≤ self.new.spare }
    {
        let _ = self.verdicts.swap_remove(&at);
    }

    /// Puts verdicts in that were made of phrases. It takes no memory.
    pub(crate) fn put_in(&mut self, checked: IndexMap<PhraseAt, Verdict<W>>)
        requires room { length checked.entries ≤ self.old.spare }
        ensures { self.new.verdicts ≡ with_all checked.entries self.old.verdicts }
    {
        let mut rest = checked;
        while let Some((at, verdict)) = rest.pop() {
            self.put(at, verdict);
        }
        drop(rest);
    }

    /// Puts the verdict of the phrase at the place in. It takes no memory.
    fn put(&mut self, at: PhraseAt, verdict: Verdict<W>)
        requires room { 0 < self.old.spare }
        ensures verdicts { self.new.verdicts ≡ insert self.old.verdicts at verdict }
        ensures room { self.old.spare ≤ self.new.spare + 1 }
    {
        match self.verdicts.insert(at, verdict) {
            Ok(_) => {}
            Err(_) => unreachable!(),
        }
    }
}
