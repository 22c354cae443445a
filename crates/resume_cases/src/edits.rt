//! Changes of a bench's program, of which its run keeps before what resumption asks for.
ghost use Rattle.std.specs.Prelude.{◌≡◌, IfErr, IfNone, IfSome, IsSome, None, Some};
ghost use Rattle.clip_store.specs.ClipLimit.{IsClip};
ghost use Rattle.clip_store.specs.PlainFragment.{IsFragment, plain_fragment};
ghost use Rattle.decl_table.specs.Agreement.{IsDeclsOf};
ghost use Rattle.plcs_grammar.specs.Canon.{IsWellFormed};
ghost use Rattle.plcs_grammar.specs.PlainPhrase.{category_of, plain_phrase};
ghost use Rattle.template_tree.specs.Positions.Stop.{IsStop, plain_stop};
ghost use Rattle.template_tree.specs.Programs.Part.{IsPhrasePlace};
ghost use Rattle.template_tree.specs.Programs.PlainTree.{roomless_tree};
ghost use Rattle.template_tree.specs.Programs.Program.{IsSubtree};
ghost use Rattle.template_tree.specs.Programs.Tree.{IsTree};
ghost use Rattle.tree_steps.specs.EditStep.{CameByEdits};
ghost use Rattle.session_edit.specs.PlainEdit.{BringsWhatMayStand};
ghost use Rattle.resume_cases.specs.Private.BenchRun.{HasKept, IsBench, KeepsSuspended, SuspendedIn};

use crate::bench::Bench;
use crate::edit_word::{EDIT_WORDS, EditWord};
use crate::stop::stop_of;
use crate::suspended::Suspended;
use case_script::{Told, meaning};
use clip_store::{Clips, Fragment};
use decl_table::Decls;
use phrase_parser::parse;
use plcs_base::Name;
use plcs_grammar::{Category, Phrase, Template, shown_len};
use session_edit::{Edit, apply, edits_at_stops_are_steps, wanted};
use std::alloc::Global;
use std::mem;
use suspend_state::Suspending;
use template_tree::{Change, LONGEST_PHRASE, Node, Path, Stop, Tree, TreeFault};
use tree_steps::edits_follow;

/// What came of a change of a program.
#[derive(Clone, Copy)]
enum Made {
    /// It was an edit, which did this.
    Edited(Change),
    /// It was refused.
    Refused(TreeFault),
    /// It was no edit.
    NoEdit,
}

/// Changes the program of the bench as the words say, and tells what was done in which slot of which procedure, or
/// why it is refused.
pub(crate) fn tell_edit(
    bench: &mut Bench,
    clips: &mut Clips,
    words: &[Vec<u8>],
    told: &mut Told,
) -> Option<()>
    requires { IsBench bench.old }
    ensures { IsBench bench.new }
{
    match change(told.alloc(), bench, clips, words)? {
        Made::Edited(change) => tell_change(change, told),
        Made::Refused(fault) => told.value_line(&fault),
        Made::NoEdit => told.line("no edit"),
    }
    Some(())
}

/// Changes the program of the bench as the words say, one change after the other, with `/` between them, and tells
/// of each that is refused why it is.
pub(crate) fn change_all(
    bench: &mut Bench,
    clips: &mut Clips,
    words: &[Vec<u8>],
    told: &mut Told,
) -> Option<()>
    requires { IsBench bench.old }
    ensures { IsBench bench.new }
{
    for words in words.split(|word| word.as_slice() == b"/".as_slice()) {
        if words.is_empty() {
            continue;
        }
        if let Made::Refused(fault) = change(told.alloc(), bench, clips, words)? {
            told.value_line(&fault);
        }
    }
    Some(())
}

/// Changes the program of the bench as the words say: a stop, what is done there, and what that needs.
fn change(alloc: Global, bench: &mut Bench, clips: &mut Clips, words: &[Vec<u8>]) -> Option<Made>
    requires { IsBench bench.old }
    ensures { IsBench bench.new }
{
    let [at, word, rest @ ..] = words else {
        return None;
    };
    let word = meaning(&EDIT_WORDS, word.as_slice())?;
    match stop_of(&bench.tree, at.as_slice()) {
        Some(at) => {
            let made = change_at(alloc, bench, clips, &at, word, rest);
            drop(at);
            made
        }
        None => None,
    }
}

/// Changes the program of the bench at the stop as the word says, and the words after it.
fn change_at(
    alloc: Global,
    bench: &mut Bench,
    clips: &mut Clips,
    at: &Stop,
    word: EditWord,
    rest: &[Vec<u8>],
) -> Option<Made>
    requires bench { IsBench bench.old }
    requires stop { IsStop (roomless_tree bench.old.tree).items (plain_stop at.now) }
    ensures { IsBench bench.new }
{
    match (word, rest) {
        (EditWord::Copy, []) => copy(alloc, &bench.tree, clips, at),
        (EditWord::Elide, []) => elide(alloc, bench, at),
        (word, rest) => edit_at(alloc, bench, clips, at, word, rest),
    }
}

/// Copies the node at the stop, so that a change of the bench's program can insert it.
fn copy(alloc: Global, tree: &Tree, clips: &mut Clips, at: &Stop) -> Option<Made>
    requires { IsTree tree.now }
{
    match tree.copy_node(alloc, &at.path) {
        Ok(copy) => keep_copy(clips, copy),
        Err(_) => None,
    }
}

/// Holds the node, which was copied for a change of the bench's program.
fn keep_copy(clips: &mut Clips, copy: Node) -> Option<Made>
    requires { IsSubtree copy }
{
    match clip_name() {
        Some(name) => put_copy(clips, name, copy),
        None => {
            drop(copy);
            None
        }
    }
}

/// Holds the node, which was copied for a change of the bench's program, under the name.
fn put_copy(clips: &mut Clips, name: Name, copy: Node) -> Option<Made>
    requires { IsSubtree copy }
{
    match clips.put(name, Fragment::Node(copy)) {
        Ok(before) => {
            drop(before);
            Some(Made::NoEdit)
        }
        Err(refused) => {
            drop(refused);
            None
        }
    }
}

/// The name under which the node is held that was copied last for a change of the bench's program.
fn clip_name() -> Option<Name> {
    Name::read(b"clip")
}

/// Hides what the comment at the stop heads, or shows it again. The run keeps what it needs before, and its history is
/// let go of, as before an edit.
fn elide(alloc: Global, bench: &mut Bench, at: &Stop) -> Option<Made>
    requires { IsBench bench.old }
    ensures { IsBench bench.new }
{
    let turned = match &mut bench.suspended {
        None => bench.tree.elide(&at.path),
        Some(suspended) => elide_under(alloc, &mut bench.tree, suspended, &at.path)?,
    };
    match turned {
        Some(_) => Some(Made::NoEdit),
        None => Some(Made::Refused(TreeFault::NotHere)),
    }
}

/// Hides what the comment at the path heads, or shows it again, under a run; `None` where memory runs out.
fn elide_under(
    alloc: Global,
    tree: &mut Tree,
    suspended: &mut Suspended,
    at: &Path,
) -> Option<Option<bool>>
    requires tree { IsTree tree.old }
    requires stands { SuspendedIn tree.old suspended.old }
    ensures tree { IsTree tree.new }
    ensures stands { SuspendedIn tree.new suspended.new }
{
    edits_follow();
    keep_program(alloc, tree, suspended)?;
    suspended.history.clear();
    Some(tree.elide(at))
}

/// Makes the change of a bench's program that the words say, an edit at the stop.
fn edit_at(
    alloc: Global,
    bench: &mut Bench,
    clips: &Clips,
    at: &Stop,
    word: EditWord,
    rest: &[Vec<u8>],
) -> Option<Made>
    requires bench { IsBench bench.old }
    requires stop { IsStop (roomless_tree bench.old.tree).items (plain_stop at.now) }
    ensures { IsBench bench.new }
{
    match (word, rest) {
        (EditWord::Enter, [text]) => enter(alloc, bench, at, text.as_slice()),
        (EditWord::Insert, []) => insert(alloc, bench, clips, at),
        (word, rest) => match plain_edit(word, rest) {
            Some(edit) => make(alloc, bench, at, edit),
            None => None,
        },
    }
}

/// The edit of a bench's program that the words say, if it is one that brings neither a phrase nor a node.
fn plain_edit(word: EditWord, rest: &[Vec<u8>]) -> Option<Edit>
    ensures { IfSome result BringsWhatMayStand }
{
    match (word, rest) {
        (EditWord::Fill, [template]) => Some(Edit::Fill(Template::read(template.as_slice())?)),
        (EditWord::Delete, []) => Some(Edit::Delete),
        (EditWord::Take, []) => Some(Edit::Take),
        (EditWord::Beside(side), []) => Some(Edit::Beside(side)),
        _ => None,
    }
}

/// Enters what the text is in a bench's program, at the stop.
fn enter(alloc: Global, bench: &mut Bench, at: &Stop, text: &[u8]) -> Option<Made>
    requires bench { IsBench bench.old }
    requires stop { IsStop (roomless_tree bench.old.tree).items (plain_stop at.now) }
    ensures { IsBench bench.new }
{
    let Some(category) = wanted(&bench.tree, at) else {
        return Some(Made::Refused(TreeFault::NotHere));
    };
    match phrase(alloc, category, text) {
        Some(phrase) => make(alloc, bench, at, Edit::Enter(phrase)),
        None => None,
    }
}

/// Inserts the node that was copied last in a bench's program, at the stop.
fn insert(alloc: Global, bench: &mut Bench, clips: &Clips, at: &Stop) -> Option<Made>
    requires bench { IsBench bench.old }
    requires stop { IsStop (roomless_tree bench.old.tree).items (plain_stop at.now) }
    ensures { IsBench bench.new }
{
    match copied(alloc, clips) {
        Some(fragment) => make(alloc, bench, at, Edit::Insert(fragment)),
        None => None,
    }
}

/// A copy of the node that was copied last for a change of the bench's program.
fn copied(alloc: Global, clips: &Clips) -> Option<Fragment>
    ensures { IfSome result (λ fragment. IsFragment (plain_fragment fragment)) }
{
    match clip_name() {
        Some(name) => {
            let copy = copy_of(alloc, clips, &name);
            drop(name);
            copy
        }
        None => None,
    }
}

/// A copy of what is held under the name for changes of the bench's program.
fn copy_of(alloc: Global, clips: &Clips, name: &Name) -> Option<Fragment>
    ensures { IfSome result (λ fragment. IsFragment (plain_fragment fragment)) }
{
    match clips.get(name)?.copy(alloc) {
        Ok(copy) => Some(copy),
        Err(_) => None,
    }
}

/// The phrase that a change of a bench's program enters at a stop: what the text is in the category, if it may
/// stand in a part.
fn phrase(alloc: Global, category: Category, text: &[u8]) -> Option<Phrase>
    ensures { IfSome result (λ phrase. IsPhrasePlace (Some (plain_phrase phrase))) }
{
    if text.len() > 1000 {
        return None;
    }
    match parse(alloc, category, text) {
        Ok(phrase) => short_phrase(phrase),
        Err(_) => None,
    }
}

/// The phrase that a change of a bench's program enters at a stop, unless it is too long to stand in a part.
fn short_phrase(phrase: Phrase) -> Option<Phrase>
    requires { IsWellFormed (category_of (plain_phrase phrase)) (plain_phrase phrase) }
    ensures { IfSome result (λ phrase. IsPhrasePlace (Some (plain_phrase phrase))) }
{
    if shown_len(&phrase) > LONGEST_PHRASE {
        drop(phrase);
        return None;
    }
    Some(phrase)
}

/// Makes the edit of a bench's program at the stop, and says what came of it, or gives `None` where memory runs out.
fn make(alloc: Global, bench: &mut Bench, at: &Stop, edit: Edit) -> Option<Made>
    requires bench { IsBench bench.old }
    requires stop { IsStop (roomless_tree bench.old.tree).items (plain_stop at.now) }
    requires edit { BringsWhatMayStand edit }
    ensures { IsBench bench.new }
{
    match make_in(alloc, bench, at, edit)? {
        Ok(change) => Some(Made::Edited(change)),
        Err(fault) => Some(Made::Refused(fault)),
    }
}

/// Makes the edit at the stop, of which the run keeps before what it needs, or gives `None` where memory runs out.
fn make_in(
    alloc: Global,
    bench: &mut Bench,
    at: &Stop,
    edit: Edit,
) -> Option<Result<Change, TreeFault>>
    requires bench { IsBench bench.old }
    requires stop { IsStop (roomless_tree bench.old.tree).items (plain_stop at.now) }
    requires edit { BringsWhatMayStand edit }
    ensures { IsBench bench.new }
{
    match &mut bench.suspended {
        None => Some(make_alone(alloc, &mut bench.tree, at, edit)),
        Some(suspended) => make_under(alloc, &mut bench.tree, suspended, at, edit),
    }
}

/// Makes the edit at the stop, under a run, which keeps before what it needs; its history is let go of. Where the edit
/// is refused the run is as it was.
fn make_under(
    alloc: Global,
    tree: &mut Tree,
    suspended: &mut Suspended,
    at: &Stop,
    edit: Edit,
) -> Option<Result<Change, TreeFault>>
    requires tree { IsTree tree.old }
    requires stands { SuspendedIn tree.old suspended.old }
    requires stop { IsStop (roomless_tree tree.old).items (plain_stop at.now) }
    requires edit { BringsWhatMayStand edit }
    ensures tree { IsTree tree.new }
    ensures stands { SuspendedIn tree.new suspended.new }
{
    match &suspended.run.kept {
        None => make_first(alloc, tree, suspended, at, edit),
        Some(_) => make_again(alloc, tree, suspended, at, edit),
    }
}

/// Makes the edit at the stop, under a run that keeps nothing yet.
fn make_first(
    alloc: Global,
    tree: &mut Tree,
    suspended: &mut Suspended,
    at: &Stop,
    edit: Edit,
) -> Option<Result<Change, TreeFault>>
    requires tree { IsTree tree.old }
    requires unedited { suspended.old.run.kept ≡ None }
    requires stands { SuspendedIn tree.old suspended.old }
    requires stop { IsStop (roomless_tree tree.old).items (plain_stop at.now) }
    requires edit { BringsWhatMayStand edit }
    ensures tree { IsTree tree.new }
    ensures stands { SuspendedIn tree.new suspended.new }
{
    edits_follow();
    match keep_program(alloc, tree, suspended) {
        Some(()) => match make_alone(alloc, tree, at, edit) {
            Ok(change) => {
                suspended.history.clear();
                Some(Ok(change))
            }
            Err(fault) => {
                drop(mem::replace(&mut suspended.run.kept, None));
                Some(Err(fault))
            }
        },
        None => {
            drop(edit);
            None
        }
    }
}

/// Makes the edit at the stop, under a run that keeps something already.
fn make_again(
    alloc: Global,
    tree: &mut Tree,
    suspended: &mut Suspended,
    at: &Stop,
    edit: Edit,
) -> Option<Result<Change, TreeFault>>
    requires tree { IsTree tree.old }
    requires edited { IsSome suspended.old.run.kept }
    requires stands { SuspendedIn tree.old suspended.old }
    requires stop { IsStop (roomless_tree tree.old).items (plain_stop at.now) }
    requires edit { BringsWhatMayStand edit }
    ensures tree { IsTree tree.new }
    ensures stands { SuspendedIn tree.new suspended.new }
{
    edits_follow();
    match keep_program(alloc, tree, suspended) {
        Some(()) => match make_alone(alloc, tree, at, edit) {
            Ok(change) => {
                suspended.history.clear();
                Some(Ok(change))
            }
            Err(fault) => Some(Err(fault)),
        },
        None => {
            drop(edit);
            None
        }
    }
}

/// Keeps what the run needs of the program before that is changed, or gives `None` where memory runs out.
fn keep_program(alloc: Global, tree: &Tree, suspended: &mut Suspended) -> Option<()>
    requires tree { IsTree tree.now }
    requires stands { SuspendedIn tree.now suspended.old }
    ensures kept { IfSome result (λ _. HasKept tree.now suspended.new.run) }
    ensures same { IfSome result (λ _. KeepsSuspended suspended.old suspended.new) }
    ensures refused { IfNone result (suspended.new ≡ suspended.old) }
{
    match Decls::new(alloc, tree) {
        Ok(decls) => {
            let kept = keep_by(alloc, tree, &decls, suspended);
            drop(decls);
            kept
        }
        Err(_) => None,
    }
}

/// Keeps what the run needs of the program, whose table of declarations this is, before the program is changed, or
/// gives `None` where memory runs out.
fn keep_by(alloc: Global, tree: &Tree, decls: &Decls, suspended: &mut Suspended) -> Option<()>
    requires tree { IsTree tree.now }
    requires decls { IsDeclsOf decls.now tree.now.items }
    requires stands { SuspendedIn tree.now suspended.old }
    ensures kept { IfSome result (λ _. HasKept tree.now suspended.new.run) }
    ensures same { IfSome result (λ _. KeepsSuspended suspended.old suspended.new) }
    ensures refused { IfNone result (suspended.new ≡ suspended.old) }
{
    match suspended.run.keep(alloc, tree, decls) {
        Ok(()) => Some(()),
        Err(_) => None,
    }
}

/// Changes the bench's program by the edit at the stop, once what its run needs is kept, and says what the edit
/// did.
fn make_alone(alloc: Global, tree: &mut Tree, at: &Stop, edit: Edit) -> Result<Change, TreeFault>
    requires tree { IsTree tree.old }
    requires stop { IsStop (roomless_tree tree.old).items (plain_stop at.now) }
    requires edit { BringsWhatMayStand edit }
    ensures tree { IsTree tree.new }
    ensures came { CameByEdits tree.old tree.new }
    ensures refused { IfErr result (λ _. tree.new ≡ tree.old) }
{
    edits_at_stops_are_steps();
    match apply(alloc, tree, at, edit) {
        Ok(applied) => {
            let change = applied.receipt.change();
            drop(applied);
            Ok(change)
        }
        Err(fault) => Err(fault),
    }
}

/// Tells what a change of the bench's program did in which slot of which procedure.
fn tell_change(change: Change, told: &mut Told) {
    told.text("slot ");
    told.value(&change.slot.0);
    told.text(" of procedure ");
    told.value(&change.procedure.0);
    told.text(": ");
    told.value_line(&change.what);
}
