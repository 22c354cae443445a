//! Tables of declarations and marks, beside those that are made anew.

use decl_table::Decls;
use plcs_base::{Counts, MarkKind, Marked, Name, PhraseAt, Scope, Slot};
use type_marks::Marks;

/// How many slots are asked for, from the first one on: more than a program of these cases draws.
const SLOTS: u32 = 100;
/// How many parts of each slot are asked for: as many as a template has at most.
const PARTS: u8 = 4;

/// Whether the scope has the effective items that the table has which is made anew.
pub fn same_items<S: Scope>(scope: &S, anew: &Decls) -> bool {
    for slot in 0..SLOTS {
        if !same_items_in(scope, anew, Slot(slot)) {
            return false;
        }
    }
    true
}

/// Whether the scope has the effective items in the slot that the table has which is made anew.
fn same_items_in<S: Scope>(scope: &S, anew: &Decls, slot: Slot) -> bool {
    for k in 0..u32::MAX {
        let item = scope.declared(slot, k);
        if item != anew.declared(slot, k) {
            return false;
        }
        if item.is_none() {
            break;
        }
    }
    true
}

/// Whether the table has the effective headings and the uses of the names that the table has which is made anew.
pub fn same_names(decls: &Decls, anew: &Decls, names: &[Name]) -> bool {
    names.iter().all(|name| {
        decls.signature(name) == anew.signature(name) && decls.uses(name) == anew.uses(name)
    })
}

/// Whether the marks are those that are made anew.
pub fn same_marks<M: Marked>(marks: &M, anew: &Marks<Counts>) -> bool {
    for slot in 0..SLOTS {
        if !same_marks_in(marks, anew, Slot(slot)) {
            return false;
        }
    }
    true
}

/// Whether the marks in the slot are those that are made anew.
fn same_marks_in<M: Marked>(marks: &M, anew: &Marks<Counts>, slot: Slot) -> bool {
    for part in 0..PARTS {
        let at = PhraseAt { slot, part };
        if marks.mark(at) != anew.mark(at) {
            return false;
        }
    }
    true
}

/// Whether the verdicts that were kept are those that are made anew, and are there for the same phrases.
pub fn same_verdicts(marks: &Marks<Counts>, anew: &Marks<Counts>) -> bool {
    for slot in 0..SLOTS {
        if !same_verdicts_in(marks, anew, Slot(slot)) {
            return false;
        }
    }
    true
}

/// Whether the verdicts that were kept in the slot are those that are made anew.
fn same_verdicts_in(marks: &Marks<Counts>, anew: &Marks<Counts>, slot: Slot) -> bool {
    for part in 0..PARTS {
        let at = PhraseAt { slot, part };
        if verdict_at(marks, at) != verdict_at(anew, at) {
            return false;
        }
    }
    true
}

/// What the verdict at the place says, beside that which is made anew, if one was made there.
fn verdict_at(marks: &Marks<Counts>, at: PhraseAt) -> Option<Option<MarkKind>> {
    match marks.verdict(at) {
        Some(verdict) => Some(verdict.kind()),
        None => None,
    }
}
