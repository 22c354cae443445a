//! Cases of edits at the stop of the cursor, and of what may be done there.
ghost use Rattle.std.specs.Prelude.{IfOk, IfSome};
ghost use Rattle.template_tree.specs.Programs.PlainTree.{roomless_tree};
ghost use Rattle.template_tree.specs.Programs.Program.{IsSubtree};
ghost use Rattle.template_tree.specs.Positions.Stop.{IsStop, plain_stop};
ghost use Rattle.template_tree.specs.Programs.Tree.{IsTree};
ghost use Rattle.session_edit.specs.PlainEdit.{BringsWhatMayStand};

use crate::tell::tell_stop;
use crate::words::{SIDES, TEMPLATES, path, phrase_of};
use case_script::{Told, meaning, number_of};
use clip_store::Fragment;
use cursor_moves::{Move, right, top};
use plcs_base::{ByteOut, Slot};
use session_edit::{Applied, Edit, apply, shown_stop, takes, wanted};
use std::alloc::Global;
use template_tree::{Node, Stop, Tree, TreeFault};

/// Which case of edits at the stop of the cursor is played, or of what may be done there. A stop is a path,
/// with `:` and a part behind it or without. An edit is `fill TEMPLATE`, `enter CATEGORY TEXT`,
/// `insert CATEGORY TEXT`, `insert_copy FROM`, `delete`, `take` or `beside SIDE`.
#[derive(Clone, Copy)]
pub(crate) enum StopCall {
    /// `apply AT EDIT`: the edit at the visible stop.
    Apply,
    /// `try AT EDIT`: the edit, which is then undone.
    Try,
    /// `move FROM TO`: what is taken out at a stop is inserted at another one.
    Move,
    /// `wants`: each visible stop, with the category that phrase text has there, and whether something can be
    /// taken out there.
    Wants,
    /// `shown SLOT`: the stop at which the slot is shown.
    Shown,
}

/// Plays a case of edits at the stop of the cursor, or of what may be done there.
pub(crate) fn play(
    alloc: Global,
    tree: &mut Tree,
    call: StopCall,
    words: &[Vec<u8>],
    told: &mut Told,
) -> Option<()>
    requires { IsTree tree.old }
    ensures { IsTree tree.new }
{
    match (call, words) {
        (StopCall::Apply, [at, edit @ ..]) => apply_at(alloc, tree, at, edit, told),
        (StopCall::Try, [at, edit @ ..]) => try_at(alloc, tree, at, edit, told),
        (StopCall::Move, [from, to]) => move_to(alloc, tree, from, to, told),
        (StopCall::Wants, []) => tell_wants(tree, told),
        (StopCall::Shown, [slot]) => tell_shown(tree, slot, told),
        _ => None,
    }
}

/// Makes the edit at the stop, and tells its answer.
fn apply_at(
    alloc: Global,
    tree: &mut Tree,
    at: &[u8],
    edit: &[Vec<u8>],
    told: &mut Told,
) -> Option<()>
    requires { IsTree tree.old }
    ensures { IsTree tree.new }
{
    let at = stop_at(tree, at)?;
    match edit_of(alloc, tree, edit) {
        Some(edit) => {
            apply_edit(alloc, tree, &at, edit, told);
            Some(())
        }
        None => None,
    }
}

/// Makes the edit of a case at the stop, and tells its answer.
fn apply_edit(alloc: Global, tree: &mut Tree, at: &Stop, edit: Edit, told: &mut Told)
    requires tree { IsTree tree.old }
    requires stop { IsStop (roomless_tree tree.old).items (plain_stop at.now) }
    requires edit { BringsWhatMayStand edit }
    ensures { IsTree tree.new }
{
    match apply(alloc, tree, at, edit) {
        Ok(applied) => {
            tell_applied(tree, &applied, told);
            drop(applied);
        }
        Err(fault) => tell_refused(tree, fault, told),
    }
}

/// Makes the edit at the stop, tells its answer, and undoes it.
fn try_at(
    alloc: Global,
    tree: &mut Tree,
    at: &[u8],
    edit: &[Vec<u8>],
    told: &mut Told,
) -> Option<()>
    requires { IsTree tree.old }
    ensures { IsTree tree.new }
{
    let at = stop_at(tree, at)?;
    let edit = edit_of(alloc, tree, edit)?;
    match apply(alloc, tree, &at, edit) {
        Ok(applied) => {
            tell_applied(tree, &applied, told);
            tree.undo(applied.receipt, applied.taken);
        }
        Err(fault) => tell_refused(tree, fault, told),
    }
    Some(())
}

/// In a case of edits at the stop of the cursor, takes out what stands at one, and inserts it at another one.
fn move_to(alloc: Global, tree: &mut Tree, from: &[u8], to: &[u8], told: &mut Told) -> Option<()>
    requires { IsTree tree.old }
    ensures { IsTree tree.new }
{
    let from = stop_at(tree, from)?;
    match taken_at(alloc, tree, &from) {
        Ok(Some(node)) => insert_at(alloc, tree, to, node, told),
        Ok(None) => None,
        Err(fault) => {
            tell_refused(tree, fault, told);
            Some(())
        }
    }
}

/// Takes out what stands at the stop, by an edit there, and gives the node that was moved out, if one was.
fn taken_at(alloc: Global, tree: &mut Tree, at: &Stop) -> Result<Option<Node>, TreeFault>
    requires tree { IsTree tree.old }
    requires stop { IsStop (roomless_tree tree.old).items (plain_stop at.now) }
    ensures tree { IsTree tree.new }
    ensures node { IfOk result (λ taken. IfSome taken IsSubtree) }
{
    match apply(alloc, tree, at, Edit::Take) {
        Ok(applied) => {
            drop(applied.receipt);
            Ok(applied.taken)
        }
        Err(fault) => Err(fault),
    }
}

/// Inserts the node at the stop, by an edit there, and tells the answer.
fn insert_at(alloc: Global, tree: &mut Tree, at: &[u8], node: Node, told: &mut Told) -> Option<()>
    requires tree { IsTree tree.old }
    requires node { IsSubtree node }
    ensures { IsTree tree.new }
{
    match stop_at(tree, at) {
        Some(at) => {
            let edit = Edit::Insert(Fragment::Node(node));
            apply_edit(alloc, tree, &at, edit, told);
            Some(())
        }
        None => {
            drop(node);
            None
        }
    }
}

/// Tells what an edit did in which slot, where the cursor goes, how many slots are live then, and what was
/// taken out.
pub(crate) fn tell_applied(tree: &Tree, applied: &Applied, told: &mut Told)
    requires { IsTree tree.now }
{
    let change = applied.receipt.change();
    told.value(&change.what);
    told.text(" in slot ");
    told.value(&change.slot.0);
    told.text(", to ");
    tell_stop(&applied.stop, told);
    tell_slots(tree, told);
    if let Some(node) = &applied.taken {
        told.text(", ");
        told.value(&node.kind());
        told.text(" taken");
    }
    told.put(b'\n');
}

/// Tells why an edit at a stop is refused, and how many slots are live.
pub(crate) fn tell_refused(tree: &Tree, fault: TreeFault, told: &mut Told)
    requires { IsTree tree.now }
{
    told.value(&fault);
    tell_slots(tree, told);
    told.put(b'\n');
}

/// Tells how many slots are live behind an edit at a stop.
fn tell_slots(tree: &Tree, told: &mut Told)
    requires { IsTree tree.now }
{
    told.text(", ");
    told.value(&tree.slots());
    told.text(" slots");
}

/// Tells each visible stop, with what is wanted there.
fn tell_wants(tree: &Tree, told: &mut Told) -> Option<()>
    requires { IsTree tree.now }
{
    let mut at = top(tree);
    'stops: for _ in 0..100_000 {
        tell_wanted(tree, &at, told);
        match right(tree, &at) {
            Move::Moved(next) => at = next,
            Move::AtEdge => break,
        }
    }
    Some(())
}

/// Tells the category that phrase text has at the stop, and whether something can be taken out there.
fn tell_wanted(tree: &Tree, at: &Stop, told: &mut Told)
    requires tree { IsTree tree.now }
    requires stop { IsStop (roomless_tree tree.now).items (plain_stop at.now) }
{
    tell_stop(at, told);
    match wanted(tree, at) {
        Some(category) => {
            told.text(" wants ");
            told.value(&category);
        }
        None => told.text(" wants nothing"),
    }
    if takes(tree, at) {
        told.text(", can be taken");
    }
    told.put(b'\n');
}

/// Tells, for edits there, the stop of the cursor at which the slot is shown.
fn tell_shown(tree: &Tree, slot: &[u8], told: &mut Told) -> Option<()>
    requires { IsTree tree.now }
{
    match shown_stop(tree, Slot(number_of(slot)?)) {
        Some(stop) => tell_stop(&stop, told),
        None => told.text("not live"),
    }
    told.put(b'\n');
    Some(())
}

/// The visible stop at which a case edits, by its word: that at which the slot of its node is shown, or one of
/// the parts behind that.
pub(crate) fn stop_at(tree: &Tree, word: &[u8]) -> Option<Stop>
    requires { IsTree tree.now }
    ensures { IfSome result (λ stop. IsStop (roomless_tree tree.now).items (plain_stop stop)) }
{
    let said = stop_of(word)?;
    let slot = tree.node(&said.path)?.slot();
    let mut at = shown_stop(tree, slot)?;
    'parts: for _ in 0..=MOST_PARTS {
        if at == said {
            return Some(at);
        }
        let Move::Moved(next) = right(tree, &at) else {
            return None;
        };
        at = next;
    }
    None
}

/// The most parts that a node has, at which an edit may be made.
const MOST_PARTS: u32 = 4;

/// For a case of edits at the stop of the cursor, the stop that the word says.
fn stop_of(word: &[u8]) -> Option<Stop> {
    let mut halves = word.split(|byte| *byte == b':');
    let path = path(halves.next()?)?;
    let part = match halves.next() {
        Some(part) => Some(u8::try_from(number_of(part)?).ok()?),
        None => None,
    };
    Some(Stop { path, part })
}

/// An edit that a case makes at the stop of the cursor, by its word.
#[derive(Clone, Copy)]
enum StopEdit {
    Delete,
    Take,
    Fill,
    Beside,
    InsertCopy,
    Enter,
    Insert,
}

/// Each word of an edit at a stop, with what it names.
static STOP_EDITS: [(&[u8], StopEdit); 7] = [
    (b"delete", StopEdit::Delete),
    (b"take", StopEdit::Take),
    (b"fill", StopEdit::Fill),
    (b"beside", StopEdit::Beside),
    (b"insert_copy", StopEdit::InsertCopy),
    (b"enter", StopEdit::Enter),
    (b"insert", StopEdit::Insert),
];

/// The edit at the stop of the cursor that the words of a case say.
pub(crate) fn edit_of(alloc: Global, tree: &Tree, words: &[Vec<u8>]) -> Option<Edit>
    requires { IsTree tree.now }
    ensures { IfSome result BringsWhatMayStand }
{
    let (word, rest) = words.split_first()?;
    let edit = meaning(&STOP_EDITS, word.as_slice())?;
    match rest {
        [] => edit_alone(edit),
        [said] => edit_with(alloc, tree, edit, said),
        [category, text] => edit_with_phrase(alloc, edit, category, text),
        _ => None,
    }
}

/// The edit at a stop that the word says, with no words behind it.
fn edit_alone(edit: StopEdit) -> Option<Edit>
    ensures { IfSome result BringsWhatMayStand }
{
    match edit {
        StopEdit::Delete => Some(Edit::Delete),
        StopEdit::Take => Some(Edit::Take),
        _ => None,
    }
}

/// The edit at a stop that the word says, with one word behind it.
fn edit_with(alloc: Global, tree: &Tree, edit: StopEdit, said: &[u8]) -> Option<Edit>
    requires { IsTree tree.now }
    ensures { IfSome result BringsWhatMayStand }
{
    match edit {
        StopEdit::Fill => filling(said),
        StopEdit::Beside => hole_beside(said),
        StopEdit::InsertCopy => insertion_of_copy(alloc, tree, said),
        _ => None,
    }
}

/// The edit at a stop that the word says, with a phrase behind it.
fn edit_with_phrase(alloc: Global, edit: StopEdit, category: &[u8], text: &[u8]) -> Option<Edit>
    ensures { IfSome result BringsWhatMayStand }
{
    match edit {
        StopEdit::Enter => entry(alloc, category, text),
        StopEdit::Insert => insertion_of_phrase(alloc, category, text),
        _ => None,
    }
}

/// The edit at a stop that fills a hole with the template.
fn filling(template: &[u8]) -> Option<Edit>
    ensures { IfSome result BringsWhatMayStand }
{
    match meaning(&TEMPLATES, template) {
        Some(template) => Some(Edit::Fill(template)),
        None => None,
    }
}

/// The edit at a stop that puts a hole on the side of a list item.
fn hole_beside(side: &[u8]) -> Option<Edit>
    ensures { IfSome result BringsWhatMayStand }
{
    match meaning(&SIDES, side) {
        Some(side) => Some(Edit::Beside(side)),
        None => None,
    }
}

/// The edit at a stop that enters the phrase of the text.
fn entry(alloc: Global, category: &[u8], text: &[u8]) -> Option<Edit>
    ensures { IfSome result BringsWhatMayStand }
{
    match phrase_of(alloc, category, text) {
        Some(phrase) => Some(Edit::Enter(phrase)),
        None => None,
    }
}

/// The edit at a stop that inserts the phrase of the text.
fn insertion_of_phrase(alloc: Global, category: &[u8], text: &[u8]) -> Option<Edit>
    ensures { IfSome result BringsWhatMayStand }
{
    match phrase_of(alloc, category, text) {
        Some(phrase) => Some(Edit::Insert(Fragment::Phrase(phrase))),
        None => None,
    }
}

/// The edit at a stop that inserts a copy of the node at the path.
fn insertion_of_copy(alloc: Global, tree: &Tree, from: &[u8]) -> Option<Edit>
    requires { IsTree tree.now }
    ensures { IfSome result BringsWhatMayStand }
{
    let from = path(from)?;
    match tree.copy_node(alloc, &from) {
        Ok(copy) => Some(Edit::Insert(Fragment::Node(copy))),
        Err(_) => None,
    }
}
