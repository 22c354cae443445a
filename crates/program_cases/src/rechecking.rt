//! Edits of a program, after each of which the phrases that are due are checked again.
ghost use Rattle.std.specs.Prelude.{◌≡◌, IfErr, IfOk, IfSome, OnOk, OnSome};
ghost use Rattle.decl_table.specs.Agreement.{IsDeclsBefore, IsDeclsOf};
ghost use Rattle.decl_table.specs.DeclEdit.{CanPutInTable, IsDeclsAfter, IsPutInPlace};
ghost use Rattle.template_tree.specs.Checks.Marks.{Verdicts};
ghost use Rattle.template_tree.specs.Edits.Edit.{Differs};
ghost use Rattle.template_tree.specs.Programs.PlainTree.{PlainTree};
ghost use Rattle.template_tree.specs.Programs.Tree.{IsTree};
ghost use Rattle.type_marks.specs.MarkEdit.{HasRoomForEdit, verdicts_after};

use crate::declarations::{names_of, tell_places};
use crate::node_edit::{NODE_EDITS, edited_at};
use crate::phrase_edit::{PHRASE_EDITS, edited_by};
use crate::program::path_to;
use crate::same_checks::{same_items, same_marks, same_names, same_verdicts};
use case_script::{Told, meaning, number_of, words_of};
use decl_table::{DeclEdit, Decls, put_in_place_agrees, tables_ignore_room_and_elision};
use plcs_base::{Counts, Name, OutOfMemory};
use std::alloc::Global;
use template_tree::{Change, Tree, TreeFault};
use type_marks::{MarkEdit, Marks};

/// What is kept of a program that is edited: its table of declarations, and the verdicts of its phrases.
#[derive(Drop)]
struct Checks {
    decls: Decls,
    marks: Marks<Counts>,
}

/// Edits the program, a line for each edit, and checks again what is due each time; the words are names of which the
/// table is asked beside one that is made anew.
pub fn recheck(
    alloc: Global,
    tree: &mut Tree,
    edits: &[Vec<u8>],
    words: &[Vec<u8>],
    told: &mut Told,
) -> Option<()>
    requires { IsTree tree.old }
    ensures { IsTree tree.new }
{
    match names_of(alloc, words) {
        Some(names) => {
            let done = recheck_with(alloc, tree, edits, names.as_slice(), told);
            drop(names);
            done
        }
        None => None,
    }
}

/// Edits the program, a line for each edit, and checks again what is due each time, where these are the names of which
/// the table is asked.
fn recheck_with(
    alloc: Global,
    tree: &mut Tree,
    edits: &[Vec<u8>],
    names: &[Name],
    told: &mut Told,
) -> Option<()>
    requires { IsTree tree.old }
    ensures { IsTree tree.new }
{
    match Checks::new(alloc, tree) {
        Ok(mut checks) => {
            let done = recheck_each(alloc, &mut checks, tree, edits, names, told);
            drop(checks);
            done
        }
        Err(OutOfMemory) => None,
    }
}

impl Checks {
    /// What is kept of a program that is edited, made anew.
    fn new(alloc: Global, tree: &Tree) -> Result<Checks, OutOfMemory>
        requires { IsTree tree.now }
        ensures decls { IfOk result (λ checks. IsDeclsOf checks.decls tree.now.items) }
        ensures marks { IfOk result (λ checks. checks.marks.verdicts ≡ Verdicts tree.now.items) }
    {
        match Decls::new(alloc, tree) {
            Ok(decls) => match Marks::new(alloc, tree, &decls, &mut Counts::default()) {
                Ok(marks) => Ok(Checks { decls, marks }),
                Err(OutOfMemory) => {
                    drop(decls);
                    Err(OutOfMemory)
                }
            },
            Err(OutOfMemory) => Err(OutOfMemory),
        }
    }

    /// The edit of the tree that made this change, prepared in what is kept.
    fn prepared(
        &mut self,
        alloc: Global,
        tree: &Tree,
        change: &Change,
        work: &mut Counts,
    ) -> Result<(DeclEdit, MarkEdit<Counts>), OutOfMemory>
        requires tree { IsTree tree.now }
        requires before { (before : PlainTree) × IsDeclsBefore self.old.decls before tree.now change.now
            × (self.old.marks.verdicts ≡ Verdicts before.items) }
        ensures decls { IfOk result (λ edits. IsDeclsAfter self.new.decls edits.0 tree.now.items) }
        ensures decls_ready { IfOk result (λ edits. CanPutInTable edits.0 self.new.decls) }
        ensures marks { IfOk result (λ edits.
            verdicts_after edits.1 self.new.marks.verdicts ≡ Verdicts tree.now.items) }
        ensures marks_ready { IfOk result (λ edits. HasRoomForEdit edits.1 self.new.marks) }
    {
        tables_ignore_room_and_elision();
        match self.decls.prepare(alloc, tree, change) {
            Ok(decls) => match self
                .marks
                .prepare(alloc, tree, &self.decls, &decls, change, work)
            {
                Ok(marks) => Ok((decls, marks)),
                Err(OutOfMemory) => {
                    drop(decls);
                    Err(OutOfMemory)
                }
            },
            Err(OutOfMemory) => Err(OutOfMemory),
        }
    }

    /// Puts a prepared edit in place in what is kept.
    fn put_in_place(&mut self, decls: DeclEdit, marks: MarkEdit<Counts>)
        requires decls { CanPutInTable decls self.old.decls }
        requires marks { HasRoomForEdit marks self.old.marks }
        ensures decls { IsPutInPlace decls self.old.decls self.new.decls }
        ensures marks { self.new.marks.verdicts ≡ verdicts_after marks self.old.marks.verdicts }
    {
        self.decls.commit(decls);
        self.marks.commit(marks);
    }

    /// Whether items and marks after a prepared edit are the same as what is made anew.
    fn are_same_after(&self, decls: &DeclEdit, marks: &MarkEdit<Counts>, anew: &Checks) -> bool {
        same_items(&self.decls.after(decls), &anew.decls)
            && same_marks(&self.marks.after(marks), &anew.marks)
    }

    /// Whether what was kept as the program was edited is the same as what is made anew: items, verdicts and marks,
    /// and the headings and uses of the names.
    fn are_same(&self, anew: &Checks, names: &[Name]) -> bool {
        same_items(&self.decls, &anew.decls)
            && same_names(&self.decls, &anew.decls, names)
            && same_marks(&self.marks, &anew.marks)
            && same_verdicts(&self.marks, &anew.marks)
    }
}

/// Edits a program of which this is kept, a line for each edit, and checks again what is due.
fn recheck_each(
    alloc: Global,
    checks: &mut Checks,
    tree: &mut Tree,
    edits: &[Vec<u8>],
    names: &[Name],
    told: &mut Told,
) -> Option<()>
    requires tree { IsTree tree.old }
    requires decls { IsDeclsOf checks.old.decls tree.old.items }
    requires marks { checks.old.marks.verdicts ≡ Verdicts tree.old.items }
    ensures { IsTree tree.new }
{
    for line in edits {
        tell_line_rechecked(alloc, checks, tree, line.as_slice(), names, told)?;
    }
    Some(())
}

/// Edits the program as the line says and checks again what is due, and tells of that, or why the edit is refused.
fn tell_line_rechecked(
    alloc: Global,
    checks: &mut Checks,
    tree: &mut Tree,
    line: &[u8],
    names: &[Name],
    told: &mut Told,
) -> Option<()>
    requires tree { IsTree tree.old }
    requires decls { IsDeclsOf checks.old.decls tree.old.items }
    requires marks { checks.old.marks.verdicts ≡ Verdicts tree.old.items }
    ensures tree { IsTree tree.new }
    ensures decls { OnSome result (IsDeclsOf checks.new.decls tree.new.items) }
    ensures marks { OnSome result (checks.new.marks.verdicts ≡ Verdicts tree.new.items) }
{
    match words_of(alloc, line) {
        Ok(Some(words)) => {
            let done = tell_rechecked(alloc, checks, tree, words.as_slice(), names, told);
            drop(words);
            done
        }
        _ => None,
    }
}

/// Edits the program as the words say and checks again what is due, and tells of that, or why the edit is refused.
fn tell_rechecked(
    alloc: Global,
    checks: &mut Checks,
    tree: &mut Tree,
    words: &[Vec<u8>],
    names: &[Name],
    told: &mut Told,
) -> Option<()>
    requires tree { IsTree tree.old }
    requires decls { IsDeclsOf checks.old.decls tree.old.items }
    requires marks { checks.old.marks.verdicts ≡ Verdicts tree.old.items }
    ensures tree { IsTree tree.new }
    ensures decls { OnSome result (IsDeclsOf checks.new.decls tree.new.items) }
    ensures marks { OnSome result (checks.new.marks.verdicts ≡ Verdicts tree.new.items) }
{
    match edited(alloc, tree, words)? {
        Ok(change) => match follow(alloc, checks, tree, &change, names, told) {
            Ok(()) => Some(()),
            Err(OutOfMemory) => None,
        },
        Err(fault) => {
            told.value_line(&fault);
            Some(())
        }
    }
}

/// Edits the program, after which what is due is checked again, as the words say: the name of the edit, the slot at
/// which it is made, and what it puts in, if it does. `None` where they say no edit.
fn edited(alloc: Global, tree: &mut Tree, words: &[Vec<u8>]) -> Option<Result<Change, TreeFault>>
    requires { IsTree tree.old }
    ensures tree { IsTree tree.new }
    ensures edited { IfSome result (λ answer. IfOk answer (Differs tree.old tree.new)) }
    ensures refused { IfSome result (λ answer. IfErr answer (λ _. tree.new ≡ tree.old)) }
{
    let [name, slot, words @ ..] = words else {
        return None;
    };
    let path = path_to(tree, number_of(slot.as_slice())?);
    match meaning(&NODE_EDITS, name.as_slice()) {
        Some(edit) => Some(edited_at(alloc, tree, edit, &path)),
        None => {
            let edit = meaning(&PHRASE_EDITS, name.as_slice())?;
            edited_by(alloc, tree, edit, &path, words)
        }
    }
}

/// Follows an edit of the program that made this change: prepares it, tells which phrases went and are due, and how
/// many were checked, puts it in place, and tells whether what is kept is the same before and after that as what is
/// made anew.
fn follow(
    alloc: Global,
    checks: &mut Checks,
    tree: &Tree,
    change: &Change,
    names: &[Name],
    told: &mut Told,
) -> Result<(), OutOfMemory>
    requires tree { IsTree tree.now }
    requires before { (before : PlainTree) × IsDeclsBefore checks.old.decls before tree.now change.now
        × (checks.old.marks.verdicts ≡ Verdicts before.items) }
    ensures decls { OnOk result (IsDeclsOf checks.new.decls tree.now.items) }
    ensures marks { OnOk result (checks.new.marks.verdicts ≡ Verdicts tree.now.items) }
{
    match Checks::new(alloc, tree) {
        Ok(anew) => {
            let followed = follow_beside(alloc, checks, tree, change, names, &anew, told);
            drop(anew);
            followed
        }
        Err(OutOfMemory) => Err(OutOfMemory),
    }
}

/// Follows an edit of the program that made this change, where this is what is made anew.
fn follow_beside(
    alloc: Global,
    checks: &mut Checks,
    tree: &Tree,
    change: &Change,
    names: &[Name],
    anew: &Checks,
    told: &mut Told,
) -> Result<(), OutOfMemory>
    requires tree { IsTree tree.now }
    requires before { (before : PlainTree) × IsDeclsBefore checks.old.decls before tree.now change.now
        × (checks.old.marks.verdicts ≡ Verdicts before.items) }
    ensures decls { OnOk result (IsDeclsOf checks.new.decls tree.now.items) }
    ensures marks { OnOk result (checks.new.marks.verdicts ≡ Verdicts tree.now.items) }
{
    put_in_place_agrees();
    let mut work = Counts::default();
    match checks.prepared(alloc, tree, change, &mut work) {
        Ok((edit, checked)) => {
            tell_due(&edit, &work, told);
            let same_before = checks.are_same_after(&edit, &checked, anew);
            checks.put_in_place(edit, checked);
            told.value_line(&(same_before && checks.are_same(anew, names)));
            Ok(())
        }
        Err(OutOfMemory) => Err(OutOfMemory),
    }
}

/// Tells which phrases went in an edit, which are due for a check, and how many were checked again.
fn tell_due(edit: &DeclEdit, work: &Counts, told: &mut Told) {
    told.text("gone (");
    tell_places(edit.gone(), told);
    told.text("), due (");
    tell_places(edit.due(), told);
    told.text("), ");
    told.value(&work.checked);
    told.text(" checked, same as made anew: ");
}
