//! Checks of phrases that are due after an edit, each counted as one.
ghost use Rattle.std.specs.Prelude.{◌≡◌, ◌∷◌, [], IfOk, IfSome, OnOk, Some, true, is_some};
ghost use Rattle.std.specs.FinMap.{get};
ghost use Rattle.plcs_base.specs.PlainCounts.{ChecksAtMost};
ghost use Rattle.plcs_grammar.specs.PlainPhrase.{PlainPhrase, plain_phrase};
ghost use Rattle.template_tree.specs.Checks.Marks.{Verdicts};
ghost use Rattle.template_tree.specs.Programs.PlainTree.{PlainNode};
ghost use Rattle.template_tree.specs.Programs.Tree.{IsTree};
ghost use Rattle.decl_table.specs.Knowledge.{Knows, Stands};
ghost use Rattle.type_marks.specs.Private.CheckedLists.{AreListsOf, IsListAt, IsSecondOf};

use crate::list_checks::ListChecks;
use crate::procedures::procedure_item_on;
use crate::verdict::{Verdict, checked, counted};
use decl_table::{Decls, list_offences_are_verdicts};
use plcs_base::{OutOfMemory, PhraseAt, Work, counts_add_up};
use plcs_grammar::Phrase;
use std::alloc::Global;
use template_tree::{Path, Tree, phrase_in};

/// The verdict of a phrase that is due for a check, counted as one: of a declared list by what is wrong with all
/// those of its procedure.
pub(crate) fn due_verdict<W: Work>(
    alloc: Global,
    tree: &Tree,
    decls: &Decls,
    at: PhraseAt,
    lists: &mut ListChecks,
    work: &mut W,
) -> Result<Verdict<W>, OutOfMemory>
    requires tree { IsTree tree.now }
    requires filled { is_some (get (Verdicts tree.now.items) at) ≡ true }
    requires known { (procedure : PlainNode) (phrase : PlainPhrase) → Stands tree.now.items at procedure phrase
        → Knows decls.now tree.now.items procedure phrase }
    requires lists { AreListsOf tree.now.items lists.old.procedures.entries }
    ensures verdict { IfOk result (λ verdict. get (Verdicts tree.now.items) at ≡ Some verdict) }
    ensures lists { OnOk result (AreListsOf tree.now.items lists.new.procedures.entries) }
    ensures counts { ChecksAtMost 1 (W.counts work.old) (W.counts work.new) }
{
    counts_add_up();
    list_offences_are_verdicts();
    let Some(path) = tree.path_of(at.slot) else {
        unreachable!()
    };
    let Some(node) = tree.node(&path) else {
        unreachable!()
    };
    let Some(procedure) = procedure_item_on(tree, &path) else {
        unreachable!()
    };
    let Some(phrase) = phrase_in(node, at.part) else {
        unreachable!()
    };
    match list_number(phrase, &path) {
        Some(k) => {
            let offence = lists.offence(alloc, tree, &path, k)?;
            Ok(counted(offence, work))
        }
        None => Ok(checked(tree, decls, procedure, at.slot, phrase, work)),
    }
}

/// The number of the node at the path inside main or its procedure, if the phrase is a declared list and the node
/// stands there.
fn list_number(phrase: &Phrase, path: &Path) -> Option<u32>
    ensures { IfSome result (IsListAt (plain_phrase phrase.now) path.now.items) }
{
    match phrase {
        Phrase::DeclaredList(_) => item_number(path),
        _ => None,
    }
}

/// The second number of a path of two.
fn item_number(path: &Path) -> Option<u32>
    ensures { IfSome result (IsSecondOf path.now.items) }
{
    let Some((_, inside)) = path.split_first() else {
        return None;
    };
    only(inside)
}

/// The number that is alone in the list.
fn only(numbers: &[u32]) -> Option<u32>
    ensures { IfSome result (λ k. numbers.now ≡ k ∷ []) }
{
    match numbers {
        [k] => Some(*k),
        _ => None,
    }
}
