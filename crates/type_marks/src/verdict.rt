//! Verdicts of single phrases, each of which is counted as a check.
ghost use Rattle.std.specs.Prelude.{◌≡◌, ◌<◌, Some, true, is_some};
ghost use Rattle.std.specs.FinMap.{get};
ghost use Rattle.plcs_base.specs.PlainCounts.{ChecksOne};
ghost use Rattle.plcs_grammar.specs.PlainPhrase.{PlainPhrase, plain_phrase};
ghost use Rattle.template_tree.specs.Checks.Environment.{procedure_at};
ghost use Rattle.template_tree.specs.Programs.Limit.{most_slots};
ghost use Rattle.template_tree.specs.Checks.Marks.{Verdicts, surroundings};
ghost use Rattle.template_tree.specs.Programs.PlainTree.{PlainNode};
ghost use Rattle.template_tree.specs.Programs.Slots.{count};
ghost use Rattle.template_tree.specs.Programs.Tree.{IsTree};
ghost use Rattle.template_tree.specs.Checks.Verdict.{verdict};
ghost use Rattle.decl_table.specs.Knowledge.{Knows, Stands};
ghost use Rattle.type_marks.specs.Private.DeclaredItems.{IsListIn};
ghost use Rattle.type_marks.specs.Private.MarksView.{known_surroundings};

use crate::calls::{call_offence, procedure_offence};
use crate::declared_items::declared_offence;
use crate::procedures::procedure_item_on;
use crate::statements::{
    assignment_offence, counter_offence, expr_offence, exprs_offence, parameters_offence,
    references_offence,
};
use decl_table::Decls;
use plcs_base::{Kind, MarkKind, PhraseAt, Slot, Work};
use plcs_grammar::Phrase;
use std::marker::{Model, PhantomData};
use template_tree::{Node, Tree, phrase_in};

/// The verdict of a phrase: its first offence, if it has one. Contracts see it as that.
///
/// Only a check makes one, which is counted as work of `W`, and it can't be copied.
#[derive(Drop)]
pub struct Verdict<W> {
    offence: Option<MarkKind>,
    of: PhantomData<W>,
}

impl<W> Model for Verdict<W> {
    ghost use Rattle.std.specs.Prelude.{Option};
    ghost use Rattle.plcs_base.specs.declared.mark.MarkKind.{MarkKind};
    ghost use Rattle.type_marks.specs.Private.MarksView.{verdict_code};

    ghost Value = { Option MarkKind };

    ghost coded = { verdict_code };

    ghost view = { λ a. a.offence };
}

impl<W> Verdict<W> {
    /// What the verdict says is wrong with its phrase, or `None` where nothing is. It takes no memory.
    pub fn kind(&self) -> Option<MarkKind>
        ensures { result ≡ self.now }
    {
        self.offence
    }
}

/// The verdict of the phrase at the place, counted as one check. It takes no memory; its stack grows with
/// the nesting of the phrase alone, however long a chain of operators is.
///
/// The table need not be whole: it has to know the names of the phrase, and those of the parameters of
/// the procedure that it calls.
pub fn check_phrase<W: Work>(tree: &Tree, decls: &Decls, at: PhraseAt, work: &mut W) -> Verdict<W>
    requires tree { IsTree tree.now }
    requires filled { is_some (get (Verdicts tree.now.items) at) ≡ true }
    requires known { (procedure : PlainNode) (phrase : PlainPhrase) → Stands tree.now.items at procedure phrase
        → Knows decls.now tree.now.items procedure phrase }
    ensures verdict { get (Verdicts tree.now.items) at ≡ Some result }
    ensures counts { ChecksOne (W.counts work.old) (W.counts work.new) }
{
    let Some(path) = tree.path_of(at.slot) else {
        unreachable!()
    };
    let Some(node) = tree.node(&path) else {
        unreachable!()
    };
    let Some(procedure) = procedure_item_on(tree, &path) else {
        unreachable!()
    };
    let Some(phrase) = phrase_in(node, at.part) else {
        unreachable!()
    };
    checked(tree, decls, procedure, at.slot, phrase, work)
}

/// The verdict of a phrase of the node in the slot, which stands in main or the procedure or is it,
/// counted as one check.
pub(crate) fn checked<W: Work>(
    tree: &Tree,
    decls: &Decls,
    procedure: &Node,
    slot: Slot,
    phrase: &Phrase,
    work: &mut W,
) -> Verdict<W>
    requires tree { IsTree tree.now }
    requires there { procedure_at tree.now.items procedure.now.label.slot ≡ Some procedure.now }
    requires few { count procedure.now.inner < most_slots }
    requires known { Knows decls.now tree.now.items procedure.now (plain_phrase phrase.now) }
    requires listed { IsListIn procedure.now.inner slot.0 (plain_phrase phrase.now) }
    ensures verdict { result ≡ verdict (surroundings tree.now.items procedure.now slot.0) (plain_phrase phrase.now) }
    ensures counts { ChecksOne (W.counts work.old) (W.counts work.new) }
{
    let offence = phrase_offence(tree, decls, procedure, slot, phrase);
    counted(offence, work)
}

/// The verdict of a phrase whose first offence is this, if it has one, counted as one check.
pub(crate) fn counted<W: Work>(offence: Option<MarkKind>, work: &mut W) -> Verdict<W>
    ensures verdict { result ≡ offence }
    ensures counts { ChecksOne (W.counts work.old) (W.counts work.new) }
{
    work.checked();
    Verdict {
        offence,
        of: PhantomData,
    }
}

/// The first offence of a phrase, by its category, which is its verdict: it is one of the node in the slot, which
/// stands in main or the procedure or is it.
fn phrase_offence(
    tree: &Tree,
    decls: &Decls,
    procedure: &Node,
    slot: Slot,
    phrase: &Phrase,
) -> Option<MarkKind>
    requires tree { IsTree tree.now }
    requires there { procedure_at tree.now.items procedure.now.label.slot ≡ Some procedure.now }
    requires few { count procedure.now.inner < most_slots }
    requires known { Knows decls.now tree.now.items procedure.now (plain_phrase phrase.now) }
    requires listed { IsListIn procedure.now.inner slot.0 (plain_phrase phrase.now) }
    ensures { result ≡ verdict (known_surroundings decls.now tree.now.items procedure.now slot.0)
        (plain_phrase phrase.now) }
{
    let own = procedure.slot();
    match phrase {
        Phrase::Assignment(target, value) => assignment_offence(target, value, decls, own),
        Phrase::Condition(expr) => expr_offence(expr, Kind::Bit, decls, own),
        Phrase::Expression(expr) => expr_offence(expr, Kind::Fixed, decls, own),
        Phrase::ExpressionList(exprs) => exprs_offence(exprs, decls, own),
        Phrase::VariableList(targets) => references_offence(targets, decls, own),
        Phrase::Variable(name) => counter_offence(name, decls, own),
        Phrase::CallRef(name, arguments) => call_offence(tree, name, arguments, decls, own),
        Phrase::DeclaredList(items) => declared_offence(items, procedure, slot, decls),
        Phrase::ProcedureName(name) => procedure_offence(tree, own, name),
        Phrase::NameList(names) => parameters_offence(names, decls, own),
        Phrase::Length(_) => None,
        Phrase::CommentText(_) => None,
    }
}
