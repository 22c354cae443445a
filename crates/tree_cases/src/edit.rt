//! Edits of trees, as cases and walks make them.
ghost use Rattle.std.specs.Prelude.{◌≡◌, IfErr, IfOk, None};
ghost use Rattle.template_tree.specs.Programs.Part.{IsPhrasePlace};
ghost use Rattle.template_tree.specs.Programs.PlainPhrasePlace.{plain_phrase_place};
ghost use Rattle.template_tree.specs.Programs.PlainTree.{roomless_tree};
ghost use Rattle.template_tree.specs.Edits.Receipt.{CanUndo, NeedsNoRoom, undone};
ghost use Rattle.template_tree.specs.Programs.Tree.{IsTree};

use crate::tell::{tell_node, tell_phrase, tell_place};
use crate::words::{At, CATEGORIES, SIDES, TEMPLATES, phrase};
use case_script::{Told, meaning, number_of};
use plcs_grammar::{Category, Template};
use std::alloc::Global;
use template_tree::{Node, Path, PhrasePlace, Receipt, Side, Stop, Tree, TreeFault, copy_path};

/// An edit of a tree, and where it is made, as a case or a walk has it.
pub(crate) type Step<'a> = (Edit<'a>, At<'a>);

/// An edit of a tree, as a case or a walk makes it.
#[derive(Clone, Copy)]
pub(crate) enum Edit<'a> {
    Fill(Template),
    /// With the text of a phrase of the category.
    FillAssign(Category, &'a [u8]),
    /// With the text of a phrase of the category.
    SetPhrase(Option<u8>, Category, &'a [u8]),
    SetEmpty(Option<u8>),
    /// A copy of the node there comes into the hole.
    InsertCopy(At<'a>),
    Take,
    AddHole(Side),
    DropHole,
}

/// The edits of trees by the words with which cases and walks name them.
#[derive(Clone, Copy)]
pub(crate) enum EditWord {
    Fill,
    FillAssign,
    SetPhrase,
    SetEmpty,
    InsertCopy,
    Take,
    AddHole,
    DropHole,
}

/// Each word of an edit of a tree, with what it names.
static EDITS: [(&[u8], EditWord); 8] = [
    (b"fill", EditWord::Fill),
    (b"fill_assign", EditWord::FillAssign),
    (b"set_phrase", EditWord::SetPhrase),
    (b"set_empty", EditWord::SetEmpty),
    (b"insert_copy", EditWord::InsertCopy),
    (b"take", EditWord::Take),
    (b"add_hole", EditWord::AddHole),
    (b"drop_hole", EditWord::DropHole),
];

/// The edit of a tree that these words say, as a case or a walk makes it, with where it is made.
pub(crate) fn step_of(words: &[Vec<u8>]) -> Option<Step<'_>> {
    let (word, rest) = words.split_first()?;
    step_with(meaning(&EDITS, word.as_slice())?, rest)
}

/// The edit of a tree that the word names and the words behind it fill, as a case or a walk makes it.
pub(crate) fn step_with(word: EditWord, words: &[Vec<u8>]) -> Option<Step<'_>> {
    let (at, rest) = words.split_first()?;
    match (edit_of(word, rest), At::of(at.as_slice())) {
        (Some(edit), Some(at)) => Some((edit, at)),
        _ => None,
    }
}

/// The edit of a tree that the word names, with the words behind the path.
fn edit_of(word: EditWord, rest: &[Vec<u8>]) -> Option<Edit<'_>> {
    match (word, rest) {
        (EditWord::Fill, [template]) => Some(Edit::Fill(meaning(&TEMPLATES, template)?)),
        (EditWord::FillAssign, [category, text]) => {
            Some(Edit::FillAssign(meaning(&CATEGORIES, category)?, text))
        }
        (EditWord::SetPhrase, [part, category, text]) => {
            let category = meaning(&CATEGORIES, category)?;
            Some(Edit::SetPhrase(part_of(part)?, category, text))
        }
        (EditWord::SetEmpty, [part]) => Some(Edit::SetEmpty(part_of(part)?)),
        (EditWord::InsertCopy, [from]) => Some(Edit::InsertCopy(At::of(from)?)),
        (EditWord::Take, []) => Some(Edit::Take),
        (EditWord::AddHole, [side]) => Some(Edit::AddHole(meaning(&SIDES, side)?)),
        (EditWord::DropHole, []) => Some(Edit::DropHole),
        _ => None,
    }
}

/// The part at which an edit of a tree is made, as a case or a walk says it: a number up to 255, or `-` for the
/// node itself.
fn part_of(word: &[u8]) -> Option<Option<u8>> {
    if word == b"-".as_slice() {
        return Some(None);
    }
    Some(Some(u8::try_from(number_of(word)?).ok()?))
}

/// Makes the edit of a case or a walk at the path, unless it drops a hole. Gives its receipt, and the node that
/// it took out, if it took one. Where it is refused, what comes back is told.
pub(crate) fn made(
    alloc: Global,
    tree: &mut Tree,
    edit: Edit<'_>,
    at: &Path,
    back: &mut Told,
) -> Result<(Receipt, Option<Node>), TreeFault>
    requires { IsTree tree.old }
    ensures tree { IsTree tree.new }
    ensures can_undo { IfOk result (λ r. CanUndo r.0 r.1 tree.new) }
    ensures undone { IfOk result (λ r. undone r.0 r.1 (roomless_tree tree.new) ≡ roomless_tree tree.old) }
    ensures no_room { IfOk result (λ r. NeedsNoRoom r.0) }
    ensures unchanged { IfErr result (λ _. tree.new ≡ tree.old) }
{
    if let Edit::Take = edit {
        return match tree.take(alloc, at) {
            Ok((node, receipt)) => Ok((receipt, Some(node))),
            Err(fault) => Err(fault),
        };
    }
    match put(alloc, tree, edit, at, back) {
        Ok(receipt) => Ok((receipt, None)),
        Err(fault) => Err(fault),
    }
}

/// Makes the edit at the path, if it is one that gives nothing out and needs no room to be undone: nothing is
/// taken out or dropped. Where it is refused, what comes back is told.
fn put(
    alloc: Global,
    tree: &mut Tree,
    edit: Edit<'_>,
    at: &Path,
    back: &mut Told,
) -> Result<Receipt, TreeFault>
    requires { IsTree tree.old }
    ensures tree { IsTree tree.new }
    ensures can_undo { IfOk result (λ receipt. CanUndo receipt None tree.new) }
    ensures undone { IfOk result (λ receipt. undone receipt None (roomless_tree tree.new) ≡ roomless_tree tree.old) }
    ensures no_room { IfOk result NeedsNoRoom }
    ensures unchanged { IfErr result (λ _. tree.new ≡ tree.old) }
{
    match edit {
        Edit::Fill(template) => tree.fill(alloc, at, template),
        Edit::FillAssign(category, text) => fill_assign(alloc, tree, at, category, text, back),
        Edit::SetPhrase(part, category, text) => match phrase(alloc, category, text) {
            Some(phrase) => set(tree, at, part, PhrasePlace::Filled(phrase), back),
            None => Err(no_such_phrase(back)),
        },
        Edit::SetEmpty(part) => set(tree, at, part, PhrasePlace::Empty, back),
        Edit::InsertCopy(from) => insert_copy(alloc, tree, at, from, back),
        Edit::AddHole(side) => tree.add_hole(alloc, at, side),
        Edit::Take | Edit::DropHole => Err(TreeFault::NotHere),
    }
}

/// Tells that the text is no such phrase as an edit of a tree wants. What the edit answers then.
fn no_such_phrase(back: &mut Told) -> TreeFault {
    back.text(", no such phrase");
    TreeFault::OutOfMemory
}

/// Makes the edit by which what stands at the path becomes the assignment of the text.
fn fill_assign(
    alloc: Global,
    tree: &mut Tree,
    at: &Path,
    category: Category,
    text: &[u8],
    back: &mut Told,
) -> Result<Receipt, TreeFault>
    requires { IsTree tree.old }
    ensures tree { IsTree tree.new }
    ensures can_undo { IfOk result (λ receipt. CanUndo receipt None tree.new) }
    ensures undone { IfOk result (λ receipt. undone receipt None (roomless_tree tree.new) ≡ roomless_tree tree.old) }
    ensures no_room { IfOk result NeedsNoRoom }
    ensures unchanged { IfErr result (λ _. tree.new ≡ tree.old) }
{
    let Some(phrase) = phrase(alloc, category, text) else {
        return Err(no_such_phrase(back));
    };
    match tree.fill_assign(alloc, at, phrase) {
        Ok(receipt) => Ok(receipt),
        Err((fault, own)) => {
            back.text(", ");
            tell_phrase(&own, back);
            back.text(" comes back");
            drop(own);
            Err(fault)
        }
    }
}

/// Makes the edit that sets a part of the node at the path, as a case or a walk says it.
fn set(
    tree: &mut Tree,
    at: &Path,
    part: Option<u8>,
    place: PhrasePlace,
    back: &mut Told,
) -> Result<Receipt, TreeFault>
    requires tree { IsTree tree.old }
    requires place { IsPhrasePlace (plain_phrase_place place) }
    ensures tree { IsTree tree.new }
    ensures can_undo { IfOk result (λ receipt. CanUndo receipt None tree.new) }
    ensures undone { IfOk result (λ receipt. undone receipt None (roomless_tree tree.new) ≡ roomless_tree tree.old) }
    ensures no_room { IfOk result NeedsNoRoom }
    ensures unchanged { IfErr result (λ _. tree.new ≡ tree.old) }
{
    let stop = Stop {
        path: copy_path(at),
        part,
    };
    match tree.set_phrase(&stop, place) {
        Ok(receipt) => Ok(receipt),
        Err((fault, own)) => {
            back.text(", ");
            tell_place(&own, back);
            back.text(" comes back");
            drop(own);
            Err(fault)
        }
    }
}

/// Makes the edit that puts a copy of the one node in place of the hole at the path.
fn insert_copy(
    alloc: Global,
    tree: &mut Tree,
    at: &Path,
    from: At<'_>,
    back: &mut Told,
) -> Result<Receipt, TreeFault>
    requires { IsTree tree.old }
    ensures tree { IsTree tree.new }
    ensures can_undo { IfOk result (λ receipt. CanUndo receipt None tree.new) }
    ensures undone { IfOk result (λ receipt. undone receipt None (roomless_tree tree.new) ≡ roomless_tree tree.old) }
    ensures no_room { IfOk result NeedsNoRoom }
    ensures unchanged { IfErr result (λ _. tree.new ≡ tree.old) }
{
    let Some(from) = from.find(tree) else {
        return Err(TreeFault::NotHere);
    };
    let node = match tree.copy_node(alloc, &from) {
        Ok(node) => node,
        Err(fault) => return Err(fault),
    };
    match tree.insert(at, node) {
        Ok(receipt) => Ok(receipt),
        Err((fault, own)) => {
            tell_back(&own, back);
            drop(own);
            Err(fault)
        }
    }
}

/// Where an edit of a tree is refused, tells that the node comes back which it was to put in.
pub(crate) fn tell_back(node: &Node, back: &mut Told) {
    back.text(", ");
    tell_node(node, back);
    back.text(" comes back");
}
