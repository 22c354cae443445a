//! The program with all that depends on it, and the four steps of its edits.
ghost use Rattle.std.specs.Prelude.{◌≡◌, ◌↔◌, ◌≤◌, [], All, IfErr, IfOk, IsSomeAnd, option_map};
ghost use Rattle.plcs_base.specs.PlainCounts.{ChecksAtMost};
ghost use Rattle.template_tree.specs.Edits.Elision.{with_toggled_at};
ghost use Rattle.template_tree.specs.Edits.Receipt.{CanUndo, undone};
ghost use Rattle.template_tree.specs.Edits.Reversal.{CanRevert};
ghost use Rattle.template_tree.specs.Positions.Path.{node_at};
ghost use Rattle.template_tree.specs.Programs.PlainTree.{PlainTree, roomless_node, roomless_tree};
ghost use Rattle.template_tree.specs.Positions.Stop.{IsStop, MayStand, plain_stop};
ghost use Rattle.template_tree.specs.Programs.Tree.{IsTree};
ghost use Rattle.template_tree.specs.Checks.Marks.{Verdicts};
ghost use Rattle.plcs_code.specs.Counts.{EmitsAtMost};
ghost use Rattle.code_patch.specs.Bill.{EmitsBill};
ghost use Rattle.code_patch.specs.CodeEdit.{IsCodeTreeBefore};
ghost use Rattle.decl_table.specs.Agreement.{IsDeclsOf};
ghost use Rattle.tree_steps.specs.EditStep.{IsEditStep};
ghost use Rattle.edit_undo.specs.EarlierTree.{RingFits, trees_before};
ghost use Rattle.edit_undo.specs.declared.undone.UndoFault.{UndoFault};
ghost use Rattle.unparse_layout.specs.Agreement.{IsLayoutOf};
ghost use Rattle.unparse_layout.specs.LayoutEdit.{IsLayoutBefore};
ghost use Rattle.session_edit.specs.Edited.{Edited, edited};
ghost use Rattle.session_edit.specs.PlainEdit.{BringsWhatMayStand, plain_edit};
ghost use Rattle.synth_session.specs.CheckedPhrases.{phrase_count};
ghost use Rattle.synth_session.specs.CountedKey.{CountsProgram};
ghost use Rattle.synth_session.specs.ProgramCode.{code_length};
ghost use Rattle.synth_session.specs.SessionView.{Agrees, DependOn, HasCode, HasStop, IsCodeFor};
ghost use Rattle.synth_session.specs.Private.Faults.{CountsEdit, IsEditFault};
ghost use Rattle.synth_session.specs.Private.PreparedProgram.{AreChecksReady, CanBeCommitted, ChecksDue, CountsRenewal, DependBefore, IsCodeReady, IsLayoutReady, IsSameButCodeRoom, IsSameButRoom};
ghost use Rattle.synth_session.specs.Private.UndoneProgram.{CountsUndo, GoesBackTo};
ghost use Rattle.synth_session.specs.UndoCommand.{stop_or_comment};

use code_patch::{CodeTree, Prepared, kept_code_ignores_room_and_elision, kept_code_is_told};
use decl_table::{
    DeclEdit, Decls, due_are_counted, put_in_place_agrees, tables_ignore_room_and_elision,
};
use edit_undo::{EditRing, UndoFault, Undone};
use plcs_base::{OutOfMemory, Work};
use plcs_code::programs_have_one_code;
use screen_window::LineCache;
use session_edit::{Applied, Edit, apply, edits_at_stops_are_steps, shown_stop};
use std::alloc::Global;
use std::mem;
use template_tree::{
    Change, Path, Stop, Tree, TreeFault, checks_ignore_room_and_elision, edits_ignore_room,
    room_is_not_shown,
};
use type_marks::{MarkEdit, Marks};
use unparse_layout::{Layout, LayoutEdit, layouts_ignore_room};

/// The program that is edited, with all that is computed from it, and the lines of it that were laid for the window.
#[derive(Drop)]
pub struct Program<W> {
    pub tree: Tree,
    pub dependents: Dependents<W>,
    pub lines: LineCache<W>,
}

/// All that depends on a program: its layout, its table of declarations, its verdicts, and its code.
#[derive(Drop)]
pub struct Dependents<W> {
    pub layout: Layout<W>,
    pub decls: Decls,
    pub marks: Marks<W>,
    pub code: CodeTree<W>,
}

impl<W: Work> Program<W> {
    /// A program: the tree with all that depends on it.
    pub(crate) fn new(alloc: Global, tree: Tree, work: &mut W) -> Result<Program<W>, OutOfMemory>
        requires tree { IsTree tree }
        ensures agrees { IfOk result (λ program. Agrees program) }
        ensures tree { IfOk result (λ program. program.tree ≡ tree) }
        ensures code { IfOk result HasCode }
        ensures counts { CountsProgram (phrase_count (roomless_tree tree)) (code_length (roomless_tree tree))
            (W.counts work.old) (W.counts work.new) }
    {
        match LineCache::new(alloc) {
            Ok(lines) => match Dependents::of(alloc, &tree, work) {
                Ok(dependents) => Ok(Program {
                    tree,
                    dependents,
                    lines,
                }),
                Err(OutOfMemory) => {
                    drop(tree);
                    drop(lines);
                    Err(OutOfMemory)
                }
            },
            Err(OutOfMemory) => {
                drop(tree);
                Err(OutOfMemory)
            }
        }
    }

    /// Gives way to another program.
    pub(crate) fn give_way(&mut self, program: Program<W>)
        ensures { self.new ≡ program }
    {
        drop(mem::replace(self, program));
    }

    /// Edits the program at the stop: its lines are forgotten, the tree is edited, then the edit is prepared in all
    /// that depends on it, which takes all memory that it needs, and then it is put in place there. Where memory runs
    /// out the tree is given back.
    pub(crate) fn change(
        &mut self,
        alloc: Global,
        at: &Stop,
        edit: Edit,
        work: &mut W,
    ) -> Result<Applied, TreeFault>
        requires agrees { Agrees self.old }
        requires code { HasCode self.old }
        requires stop { IsStop (roomless_tree self.old.tree).items (plain_stop at.now) }
        requires edit { BringsWhatMayStand edit }
        ensures agrees { Agrees self.new }
        ensures code { HasCode self.new }
        ensures became { IfOk result (λ changed.
            edited (roomless_tree self.old.tree) (plain_stop at.now) (plain_edit edit)
            ≡ Edited.became (roomless_tree self.new.tree) (plain_stop changed.stop)
            (option_map roomless_node changed.taken) changed.receipt.change.what changed.receipt.change.slot.0) }
        ensures stop { IfOk result (λ changed. IsStop (roomless_tree self.new.tree).items (plain_stop changed.stop)) }
        ensures undoes { IfOk result (λ changed. undone changed.receipt changed.taken (roomless_tree self.new.tree)
            ≡ roomless_tree self.old.tree) }
        ensures can_revert { IfOk result (λ changed. CanRevert changed.receipt changed.taken
            (roomless_tree self.new.tree)) }
        ensures step { IfOk result (λ _. IsEditStep self.old.tree self.new.tree) }
        ensures drawn { IfOk result (λ _. self.old.tree.drawn ≤ self.new.tree.drawn) }
        ensures refused { IfErr result
            (IsEditFault (edited (roomless_tree self.old.tree) (plain_stop at.now) (plain_edit edit))) }
        ensures same { IfErr result (λ _. roomless_tree self.new.tree ≡ roomless_tree self.old.tree) }
        ensures counts { CountsEdit (roomless_tree self.old.tree)
            (edited (roomless_tree self.old.tree) (plain_stop at.now) (plain_edit edit))
            (W.counts work.old) (W.counts work.new) }
    {
        edits_at_stops_are_steps();
        edits_ignore_room();
        kept_code_ignores_room_and_elision();
        due_are_counted();
        self.lines.forget();
        match apply(alloc, &mut self.tree, at, edit) {
            Ok(applied) => {
                let change = applied.receipt.change();
                match self.dependents.renew(alloc, &self.tree, &change, work) {
                    Ok(()) => Ok(applied),
                    Err(OutOfMemory) => {
                        layouts_ignore_room();
                        checks_ignore_room_and_elision();
                        tables_ignore_room_and_elision();
                        undo(&mut self.tree, applied);
                        Err(TreeFault::OutOfMemory)
                    }
                }
            }
            Err(fault) => Err(fault),
        }
    }

    /// Undoes the newest of the edits in the program: the tree before it comes back, then that edit is prepared in all
    /// that depends on it, and then it is put in place there. Where memory runs out, tree and edits are given back.
    /// Tells where the cursor goes.
    pub(crate) fn undo(
        &mut self,
        alloc: Global,
        edits: &mut EditRing,
        work: &mut W,
    ) -> Result<Stop, UndoFault>
        requires agrees { Agrees self.old }
        requires code { HasCode self.old }
        requires fits { RingFits edits.old (roomless_tree self.old.tree) }
        requires stops { All HasStop (trees_before edits.old (roomless_tree self.old.tree)) }
        ensures agrees { Agrees self.new }
        ensures code { HasCode self.new }
        ensures undone { IfOk result (λ stop. GoesBackTo edits.old (roomless_tree self.old.tree)
            edits.new (roomless_tree self.new.tree) (plain_stop stop)) }
        ensures stop { IfOk result (λ stop. IsStop (roomless_tree self.new.tree).items (plain_stop stop)) }
        ensures fits { RingFits edits.new (roomless_tree self.new.tree) }
        ensures none { IfErr result (λ fault. (fault ≡ UndoFault.NothingToUndo) ↔ (edits.old ≡ [])) }
        ensures same { IfErr result (λ _. roomless_tree self.new.tree ≡ roomless_tree self.old.tree) }
        ensures same_earlier { IfErr result (λ _. trees_before edits.new (roomless_tree self.new.tree)
            ≡ trees_before edits.old (roomless_tree self.old.tree)) }
        ensures counts { CountsUndo edits.old (roomless_tree self.old.tree) (W.counts work.old) (W.counts work.new) }
    {
        room_is_not_shown();
        edits_ignore_room();
        kept_code_ignores_room_and_elision();
        due_are_counted();
        match edits.undo(&mut self.tree) {
            Ok(undone) => {
                self.lines.forget();
                match self
                    .dependents
                    .renew(alloc, &self.tree, &undone.change, work)
                {
                    Ok(()) => {
                        let Undone {
                            stop,
                            receipt,
                            back,
                            ..
                        } = undone;
                        drop((receipt, back));
                        Ok(stop_or_comment(&self.tree, stop))
                    }
                    Err(OutOfMemory) => {
                        layouts_ignore_room();
                        checks_ignore_room_and_elision();
                        tables_ignore_room_and_elision();
                        edits.put_back(&mut self.tree, undone);
                        Err(UndoFault::OutOfMemory)
                    }
                }
            }
            Err(fault) => Err(fault),
        }
    }

    /// Hides the refinement of the comment at the path of the program, or shows it again, in its tree and in what
    /// depends on it. It takes no memory.
    pub(crate) fn toggle_elision(&mut self, path: &Path)
        requires agrees { Agrees self.old }
        ensures agrees { Agrees self.new }
        ensures code { HasCode self.old → HasCode self.new }
        ensures turned { roomless_tree self.new.tree ≡ with_toggled_at path.now.items (roomless_tree self.old.tree) }
    {
        room_is_not_shown();
        checks_ignore_room_and_elision();
        tables_ignore_room_and_elision();
        kept_code_ignores_room_and_elision();
        programs_have_one_code();
        self.lines.forget();
        // Whether it is hidden now, no key tells.
        let _ = self.tree.elide(path);
        self.dependents.layout.elided(&self.tree, path);
    }
}

/// Gives back the program's tree before the edit that was applied to it.
fn undo(tree: &mut Tree, applied: Applied)
    requires tree { IsTree tree.old }
    requires can_undo { CanUndo applied.receipt applied.taken tree.old }
    ensures undone { roomless_tree tree.new ≡ undone applied.receipt applied.taken (roomless_tree tree.old) }
    ensures tree { IsTree tree.new }
{
    tree.undo(applied.receipt, applied.taken);
}

/// Where the cursor goes for a stop of the program's tree: to that stop, or, where it is hidden, to the outermost
/// elided comment round it.
fn stop_or_comment(tree: &Tree, stop: Stop) -> Stop
    requires tree { IsTree tree.now }
    requires there { IsSomeAnd (node_at tree.now.items stop.path.items) (λ node. MayStand stop.part node.label.kind) }
    ensures shown { plain_stop result ≡ stop_or_comment (roomless_tree tree.now) (plain_stop stop) }
    ensures stop { IsStop (roomless_tree tree.now).items (plain_stop result) }
{
    room_is_not_shown();
    let Some(node) = tree.node(&stop.path) else {
        unreachable!()
    };
    let Some(shown) = shown_stop(tree, node.slot()) else {
        unreachable!()
    };
    if shown.path.as_slice() == stop.path.as_slice() {
        stop
    } else {
        shown
    }
}

impl<W: Work> Dependents<W> {
    /// All that depends on the tree, made from it.
    fn of(alloc: Global, tree: &Tree, work: &mut W) -> Result<Dependents<W>, OutOfMemory>
        requires tree { IsTree tree.now }
        ensures depend { IfOk result (λ dependents. DependOn dependents tree.now) }
        ensures code { IfOk result (λ dependents. IsCodeFor dependents.code (roomless_tree tree.now)) }
        ensures counts { CountsProgram (phrase_count (roomless_tree tree.now)) (code_length (roomless_tree tree.now))
            (W.counts work.old) (W.counts work.new) }
    {
        match Layout::new(alloc, tree) {
            Ok(layout) => Dependents::with_layout(alloc, tree, layout, work),
            Err(OutOfMemory) => Err(OutOfMemory),
        }
    }

    /// All that depends on the tree, with this layout of it: the rest is made from it.
    fn with_layout(
        alloc: Global,
        tree: &Tree,
        layout: Layout<W>,
        work: &mut W,
    ) -> Result<Dependents<W>, OutOfMemory>
        requires tree { IsTree tree.now }
        requires layout { IsLayoutOf layout tree.now }
        ensures depend { IfOk result (λ dependents. DependOn dependents tree.now) }
        ensures code { IfOk result (λ dependents. IsCodeFor dependents.code (roomless_tree tree.now)) }
        ensures counts { CountsProgram (phrase_count (roomless_tree tree.now)) (code_length (roomless_tree tree.now))
            (W.counts work.old) (W.counts work.new) }
    {
        match checked(alloc, tree, work) {
            Ok((decls, marks)) => match made_code(alloc, tree, &marks, &decls, work) {
                Ok(code) => Ok(Dependents {
                    layout,
                    decls,
                    marks,
                    code,
                }),
                Err(OutOfMemory) => {
                    drop(decls);
                    drop(marks);
                    drop(layout);
                    Err(OutOfMemory)
                }
            },
            Err(OutOfMemory) => {
                drop(layout);
                Err(OutOfMemory)
            }
        }
    }

    /// Puts in place what comes of the edit of the tree that made this change, once it is prepared in each part, which
    /// takes all memory that it needs: the phrases that are due are checked, and the code is made that it touches.
    /// Where memory runs out, what is in place stays, apart from room.
    fn renew(
        &mut self,
        alloc: Global,
        tree: &Tree,
        change: &Change,
        work: &mut W,
    ) -> Result<(), OutOfMemory>
        requires tree { IsTree tree.now }
        requires before { (before : PlainTree) × DependBefore self.old before tree.now change.now }
        ensures depend { IfOk result (λ _. DependOn self.new tree.now) }
        ensures code { IfOk result (λ _. IsCodeFor self.new.code (roomless_tree tree.now)) }
        ensures same { IfErr result (λ _. IsSameButRoom self.old self.new) }
        ensures counts { CountsRenewal self.old tree.now change.now (W.counts work.old) (W.counts work.new) }
    {
        match self.prepare_checks(alloc, tree, change, work) {
            Ok((decls, marks)) => self.renew_checked(alloc, tree, change, decls, marks, work),
            Err(OutOfMemory) => Err(OutOfMemory),
        }
    }

    /// Puts in place what comes of the edit of the tree that made this change, for which it is prepared in the table of
    /// declarations and in the verdicts, once it is prepared in the layout and in the code too. Where memory runs out,
    /// what is in place stays, apart from room for code.
    fn renew_checked(
        &mut self,
        alloc: Global,
        tree: &Tree,
        change: &Change,
        decls: DeclEdit,
        marks: MarkEdit<W>,
        work: &mut W,
    ) -> Result<(), OutOfMemory>
        requires tree { IsTree tree.now }
        requires checks { AreChecksReady decls marks self.old.decls self.old.marks tree.now }
        requires layout_before { IsLayoutBefore self.old.layout tree.now change.now }
        requires code_before { IsCodeTreeBefore self.old.code tree.now change.now }
        ensures depend { IfOk result (λ _. DependOn self.new tree.now) }
        ensures code { IfOk result (λ _. IsCodeFor self.new.code (roomless_tree tree.now)) }
        ensures same { IfErr result (λ _. IsSameButCodeRoom self.old self.new) }
        ensures counts { EmitsBill self.old.code tree.now change.now (W.counts work.old) (W.counts work.new) }
    {
        match self.prepare_layout_and_code(alloc, tree, change, &decls, &marks, work) {
            Ok((layout, code)) => {
                self.commit(layout, decls, marks, code);
                Ok(())
            }
            Err(OutOfMemory) => {
                drop(decls);
                drop(marks);
                Err(OutOfMemory)
            }
        }
    }

    /// Prepares the edit of the tree that made this change in the table of declarations and in the verdicts: the
    /// phrases that are due are checked.
    fn prepare_checks(
        &mut self,
        alloc: Global,
        tree: &Tree,
        change: &Change,
        work: &mut W,
    ) -> Result<(DeclEdit, MarkEdit<W>), OutOfMemory>
        requires tree { IsTree tree.now }
        requires before { (before : PlainTree) × DependBefore self.old before tree.now change.now }
        ensures same { IsSameButRoom self.old self.new }
        ensures checks { IfOk result (λ edits. AreChecksReady edits.0 edits.1 self.new.decls self.new.marks tree.now) }
        ensures counts { ChecksDue self.old tree.now change.now (W.counts work.old) (W.counts work.new) }
    {
        tables_ignore_room_and_elision();
        due_are_counted();
        match self.decls.prepare(alloc, tree, change) {
            Ok(decls) => match self
                .marks
                .prepare(alloc, tree, &self.decls, &decls, change, work)
            {
                Ok(marks) => Ok((decls, marks)),
                Err(OutOfMemory) => {
                    drop(decls);
                    Err(OutOfMemory)
                }
            },
            Err(OutOfMemory) => Err(OutOfMemory),
        }
    }

    /// Prepares the edit of the tree that made this change in the layout and in the code, once it is prepared in the
    /// table of declarations and in the verdicts. What is in place stays, apart from room for code.
    fn prepare_layout_and_code(
        &mut self,
        alloc: Global,
        tree: &Tree,
        change: &Change,
        decls: &DeclEdit,
        marks: &MarkEdit<W>,
        work: &mut W,
    ) -> Result<(LayoutEdit, Prepared<W>), OutOfMemory>
        requires tree { IsTree tree.now }
        requires checks { AreChecksReady decls.now marks.now self.old.decls self.old.marks tree.now }
        requires layout_before { IsLayoutBefore self.old.layout tree.now change.now }
        requires code_before { IsCodeTreeBefore self.old.code tree.now change.now }
        ensures same { IsSameButCodeRoom self.old self.new }
        ensures layout { IfOk result (λ edits. IsLayoutReady edits.0 self.new.layout tree.now) }
        ensures code { IfOk result (λ edits. IsCodeReady edits.1 self.new.code tree.now) }
        ensures counts { EmitsBill self.old.code tree.now change.now (W.counts work.old) (W.counts work.new) }
    {
        match self.prepare_code(alloc, tree, change, decls, marks, work) {
            Ok(code) => match self.layout.prepare(alloc, tree, change) {
                Ok(layout) => Ok((layout, code)),
                Err(OutOfMemory) => {
                    drop(code);
                    Err(OutOfMemory)
                }
            },
            Err(OutOfMemory) => Err(OutOfMemory),
        }
    }

    /// Prepares the edit of the tree that made this change in the code, by the marks and the effective items after it,
    /// for which it is prepared in the table of declarations and in the verdicts. What is in place stays, apart from
    /// room for code.
    fn prepare_code(
        &mut self,
        alloc: Global,
        tree: &Tree,
        change: &Change,
        decls: &DeclEdit,
        marks: &MarkEdit<W>,
        work: &mut W,
    ) -> Result<Prepared<W>, OutOfMemory>
        requires tree { IsTree tree.now }
        requires checks { AreChecksReady decls.now marks.now self.old.decls self.old.marks tree.now }
        requires before { IsCodeTreeBefore self.old.code tree.now change.now }
        ensures same { IsSameButCodeRoom self.old self.new }
        ensures code { IfOk result (λ code. IsCodeReady code self.new.code tree.now) }
        ensures counts { EmitsBill self.old.code tree.now change.now (W.counts work.old) (W.counts work.new) }
    {
        kept_code_ignores_room_and_elision();
        programs_have_one_code();
        let new_marks = self.marks.after(marks);
        let new_items = self.decls.after(decls);
        self.code
            .prepare(alloc, tree, &new_marks, &new_items, change, work)
    }

    /// Puts an edit in place that was prepared in each part. It takes no memory.
    fn commit(&mut self, layout: LayoutEdit, decls: DeclEdit, marks: MarkEdit<W>, code: Prepared<W>)
        requires { (tree : PlainTree) × CanBeCommitted layout decls marks code self.old tree }
        ensures depend { (tree : PlainTree) → CanBeCommitted layout decls marks code self.old tree
            → DependOn self.new tree }
        ensures code { (tree : PlainTree) → CanBeCommitted layout decls marks code self.old tree
            → IsCodeFor self.new.code (roomless_tree tree) }
    {
        put_in_place_agrees();
        self.layout.commit(layout);
        self.decls.commit(decls);
        self.marks.commit(marks);
        self.code.commit(code);
    }
}

/// The code of a program's tree, made by its marks and its table of declarations.
fn made_code<W: Work>(
    alloc: Global,
    tree: &Tree,
    marks: &Marks<W>,
    decls: &Decls,
    work: &mut W,
) -> Result<CodeTree<W>, OutOfMemory>
    requires tree { IsTree tree.now }
    requires decls { IsDeclsOf decls.now tree.now.items }
    requires marks { marks.now.verdicts ≡ Verdicts tree.now.items }
    ensures code { IfOk result (λ code. IsCodeFor code (roomless_tree tree.now)) }
    ensures counts { EmitsAtMost (code_length (roomless_tree tree.now)) (W.counts work.old) (W.counts work.new) }
{
    kept_code_is_told();
    kept_code_ignores_room_and_elision();
    programs_have_one_code();
    CodeTree::new(alloc, tree, marks, decls, work)
}

/// The table of declarations of a program's tree, and the verdicts of its phrases, which depend on it.
fn checked<W: Work>(
    alloc: Global,
    tree: &Tree,
    work: &mut W,
) -> Result<(Decls, Marks<W>), OutOfMemory>
    requires { IsTree tree.now }
    ensures decls { IfOk result (λ pair. IsDeclsOf pair.0 tree.now.items) }
    ensures marks { IfOk result (λ pair. pair.1.verdicts ≡ Verdicts tree.now.items) }
    ensures counts { ChecksAtMost (phrase_count (roomless_tree tree.now))
        (W.counts work.old) (W.counts work.new) }
{
    match Decls::new(alloc, tree) {
        Ok(decls) => match Marks::new(alloc, tree, &decls, work) {
            Ok(marks) => Ok((decls, marks)),
            Err(OutOfMemory) => {
                drop(decls);
                Err(OutOfMemory)
            }
        },
        Err(OutOfMemory) => Err(OutOfMemory),
    }
}
