//! Edits that were prepared for verdicts, and the marks of a tree whose edit isn't put in place yet.
ghost use Rattle.std.specs.Prelude.{◌≡◌, option_map};
ghost use Rattle.template_tree.specs.Checks.Marks.{offences};
ghost use Rattle.type_marks.specs.MarkEdit.{verdicts_after};
ghost use Rattle.type_marks.specs.Private.CheckedLists.{is_due, verdict_in};

use crate::marks::Marks;
use crate::verdict::Verdict;
use indexmap::{IndexMap, IndexSet};
use plcs_base::{MarkKind, Marked, PhraseAt};
use std::marker::Model;

/// An edit that was prepared for verdicts, which contracts see as plain data. Only `Marks::prepare` makes one, and
/// `Marks::commit` puts it in place.
#[derive(Drop)]
pub struct MarkEdit<W> {
    pub(crate) checked: IndexMap<PhraseAt, Verdict<W>>,
    pub(crate) gone: IndexSet<PhraseAt>,
}

impl<W> Model for MarkEdit<W> {
    ghost use Rattle.type_marks.specs.MarkEdit.{PlainMarkEdit};
    ghost use Rattle.type_marks.specs.Private.MarksView.{mark_edit_code};

    ghost Value = { PlainMarkEdit };

    ghost coded = { mark_edit_code };

    ghost view = { λ a. record { verdicts = a.checked.entries; gone = a.gone.keys } };
}

/// The marks of a tree whose edit was prepared, which contracts see as a finite map.
#[derive(Drop)]
pub struct MarksAfter<'a, W> {
    marks: &'a Marks<W>,
    edit: &'a MarkEdit<W>,
}

impl<'a, W> Model for MarksAfter<'a, W> {
    ghost use Rattle.plcs_base.specs.Mark.{MarkMap};
    ghost use Rattle.template_tree.specs.Checks.Marks.{offences};
    ghost use Rattle.type_marks.specs.MarkEdit.{verdicts_after};
    ghost use Rattle.type_marks.specs.Private.MarksView.{mark_map_code};

    ghost Value = { MarkMap };

    ghost coded = { mark_map_code };

    ghost view = { λ a. offences (verdicts_after a.edit.now a.marks.now.verdicts) };
}

impl<W> Marks<W> {
    /// The marks of the edited tree, where this edit was prepared for the verdicts. It takes no memory.
    pub fn after<'a>(&'a self, edit: &'a MarkEdit<W>) -> MarksAfter<'a, W>
        ensures { result ≡ offences (verdicts_after edit.now self.now.verdicts) }
    {
        MarksAfter { marks: self, edit }
    }
}

impl<'a, W> Marked for MarksAfter<'a, W> {
    ghost marks = { λ marks. marks };

    fn mark(&self, at: PhraseAt) -> Option<MarkKind> {
        let edit = self.edit;
        let marks = self.marks;
        if let Some(verdict) = edit.verdict(at) {
            return verdict.kind();
        }
        if edit.is_gone(at) {
            return None;
        }
        marks.mark(at)
    }
}

impl<W> MarkEdit<W> {
    /// The verdict of the phrase at the place, if it was due for a check.
    fn verdict(&self, at: PhraseAt) -> Option<&Verdict<W>>
        ensures { option_map (λ verdict. verdict.now) result ≡ verdict_in self.now.verdicts at }
    {
        self.checked.get(&at)
    }

    /// Whether the phrase at the place went.
    fn is_gone(&self, at: PhraseAt) -> bool
        ensures { result ≡ is_due at self.now.gone }
    {
        self.gone.contains(&at)
    }
}
