//! Edits of a program that say what they put in.
ghost use Rattle.std.specs.Prelude.{◌≡◌, IfErr, IfOk, IfSome, Some};
ghost use Rattle.plcs_grammar.specs.PlainPhrase.{plain_phrase};
ghost use Rattle.template_tree.specs.Edits.Edit.{Differs};
ghost use Rattle.template_tree.specs.Programs.Part.{IsPhrasePlace};
ghost use Rattle.template_tree.specs.Programs.PlainPhrasePlace.{plain_phrase_place};
ghost use Rattle.template_tree.specs.Programs.Program.{IsSubtree};
ghost use Rattle.template_tree.specs.Programs.Tree.{IsTree};

use crate::marks::place_at;
use crate::node_edit::changed;
use crate::phrase_text::phrase_of;
use crate::program::path_to;
use crate::words::{number_at, word_at};
use plcs_grammar::{Category, Phrase};
use std::alloc::Global;
use template_tree::{Change, Node, Path, PhrasePlace, Stop, Tree, TreeFault, copy_path};

/// An edit of a program that puts something in.
#[derive(Clone, Copy)]
pub enum PhraseEdit {
    /// The part of the number is filled with the phrase of the text.
    Set,
    /// The part of the number is emptied.
    Empty,
    /// The statement hole or the assignment becomes the assignment of the text.
    Assign,
    /// The hole becomes a copy of the node in the slot.
    Copy,
}

/// The edits of a program that put something in, with their names.
pub static PHRASE_EDITS: [(&[u8], PhraseEdit); 4] = [
    (b"set", PhraseEdit::Set),
    (b"empty", PhraseEdit::Empty),
    (b"assign", PhraseEdit::Assign),
    (b"copy", PhraseEdit::Copy),
];

/// Edits the program at the path by what the words say, and tells what was changed; `None` where they say no such
/// thing.
pub fn edited_by(
    alloc: Global,
    tree: &mut Tree,
    edit: PhraseEdit,
    path: &Path,
    words: &[Vec<u8>],
) -> Option<Result<Change, TreeFault>>
    requires { IsTree tree.old }
    ensures tree { IsTree tree.new }
    ensures edited { IfSome result (λ answer. IfOk answer (Differs tree.old tree.new)) }
    ensures refused { IfSome result (λ answer. IfErr answer (λ _. tree.new ≡ tree.old)) }
{
    match edit {
        PhraseEdit::Set => fill(alloc, tree, path, words),
        PhraseEdit::Empty => match part_in(words) {
            Some(part) => Some(set(tree, path, part, PhrasePlace::Empty)),
            None => None,
        },
        PhraseEdit::Assign => {
            match phrase_of(alloc, Category::Assignment, word_at(words, 0)) {
                Some(phrase) => Some(assign(alloc, tree, path, phrase)),
                None => None,
            }
        }
        PhraseEdit::Copy => match number_at(words, 0) {
            Some(slot) => Some(copy(alloc, tree, path, slot)),
            None => None,
        },
    }
}

/// Edits the program: fills the part of the node at the path with the phrase of the text, as the words say.
fn fill(
    alloc: Global,
    tree: &mut Tree,
    path: &Path,
    words: &[Vec<u8>],
) -> Option<Result<Change, TreeFault>>
    requires { IsTree tree.old }
    ensures tree { IsTree tree.new }
    ensures edited { IfSome result (λ answer. IfOk answer (Differs tree.old tree.new)) }
    ensures refused { IfSome result (λ answer. IfErr answer (λ _. tree.new ≡ tree.old)) }
{
    let part = part_in(words)?;
    let stop = Stop {
        path: copy_path(path),
        part: Some(part),
    };
    match place_at(alloc, tree, &stop, word_at(words, 1)) {
        Some(place) => Some(set(tree, path, part, place)),
        None => None,
    }
}

/// The part that the first of the words says, at which a program is edited.
fn part_in(words: &[Vec<u8>]) -> Option<u8> {
    u8::try_from(number_at(words, 0)?).ok()
}

/// Edits the program: puts this into the part of the node at the path.
fn set(tree: &mut Tree, path: &Path, part: u8, place: PhrasePlace) -> Result<Change, TreeFault>
    requires tree { IsTree tree.old }
    requires place { IsPhrasePlace (plain_phrase_place place) }
    ensures tree { IsTree tree.new }
    ensures edited { IfOk result (Differs tree.old tree.new) }
    ensures refused { IfErr result (λ _. tree.new ≡ tree.old) }
{
    let stop = Stop {
        path: copy_path(path),
        part: Some(part),
    };
    match tree.set_phrase(&stop, place) {
        Ok(receipt) => Ok(changed(receipt)),
        Err((fault, place)) => {
            drop(place);
            Err(fault)
        }
    }
}

/// Edits the program: what stands at the path becomes the assignment.
fn assign(alloc: Global, tree: &mut Tree, path: &Path, phrase: Phrase) -> Result<Change, TreeFault>
    requires tree { IsTree tree.old }
    requires phrase { IsPhrasePlace (Some (plain_phrase phrase)) }
    ensures tree { IsTree tree.new }
    ensures edited { IfOk result (Differs tree.old tree.new) }
    ensures refused { IfErr result (λ _. tree.new ≡ tree.old) }
{
    match tree.fill_assign(alloc, path, phrase) {
        Ok(receipt) => Ok(changed(receipt)),
        Err((fault, phrase)) => {
            drop(phrase);
            Err(fault)
        }
    }
}

/// Edits the program: the hole at the path becomes a copy of the node in the slot.
fn copy(alloc: Global, tree: &mut Tree, path: &Path, slot: u32) -> Result<Change, TreeFault>
    requires { IsTree tree.old }
    ensures tree { IsTree tree.new }
    ensures edited { IfOk result (Differs tree.old tree.new) }
    ensures refused { IfErr result (λ _. tree.new ≡ tree.old) }
{
    match tree.copy_node(alloc, &path_to(tree, slot)) {
        Ok(node) => put(tree, path, node),
        Err(fault) => Err(fault),
    }
}

/// Edits the program: the hole at the path becomes this node.
fn put(tree: &mut Tree, path: &Path, node: Node) -> Result<Change, TreeFault>
    requires tree { IsTree tree.old }
    requires node { IsSubtree node }
    ensures tree { IsTree tree.new }
    ensures edited { IfOk result (Differs tree.old tree.new) }
    ensures refused { IfErr result (λ _. tree.new ≡ tree.old) }
{
    match tree.insert(path, node) {
        Ok(receipt) => Ok(changed(receipt)),
        Err((fault, node)) => {
            drop(node);
            Err(fault)
        }
    }
}
