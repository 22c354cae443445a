//! The marks of phrases.
ghost use Rattle.std.specs.Prelude.{◌≡◌, IfSome};
ghost use Rattle.decl_table.specs.Agreement.{IsDeclsOf};
ghost use Rattle.template_tree.specs.Checks.Marks.{Verdicts};
ghost use Rattle.template_tree.specs.Programs.Part.{IsPhrasePlace};
ghost use Rattle.template_tree.specs.Programs.PlainPhrasePlace.{plain_phrase_place};
ghost use Rattle.template_tree.specs.Programs.Tree.{IsTree};

use crate::declarations::tell_place;
use crate::phrase_text::phrase_of;
use crate::program::path_to;
use crate::words::{phrase_at, word_at};
use case_script::Told;
use decl_table::Decls;
use plcs_base::{ByteOut, Counts, MarkKind, Marked, OutOfMemory, PhraseAt};
use plcs_grammar::{Phrase, show};
use std::alloc::Global;
use template_tree::{MOST_SLOTS, Node, PhrasePlace, Stop, Tree, part_category};
use type_marks::{Marks, check_phrase};

/// Puts a phrase into a part, tells it with its mark, and empties the part again.
pub fn check(alloc: Global, tree: &mut Tree, words: &[Vec<u8>], told: &mut Told) -> Option<()>
    requires { IsTree tree.old }
    ensures { IsTree tree.new }
{
    let at = phrase_at(words)?;
    let stop = Stop {
        path: path_to(tree, at.slot.0),
        part: Some(at.part),
    };
    let place = place_at(alloc, tree, &stop, word_at(words, 2))?;
    set(tree, &stop, place)?;
    marks(alloc, tree, Some(at), told)?;
    set(tree, &stop, PhrasePlace::Empty)
}

/// In a case of the marks of phrases, puts this into the part at the stop, if it may stand there.
fn set(tree: &mut Tree, stop: &Stop, place: PhrasePlace) -> Option<()>
    requires tree { IsTree tree.old }
    requires place { IsPhrasePlace (plain_phrase_place place) }
    ensures { IsTree tree.new }
{
    match tree.set_phrase(stop, place) {
        Ok(receipt) => {
            drop(receipt);
            Some(())
        }
        Err(refused) => {
            drop(refused);
            None
        }
    }
}

/// What the text, of which the mark is told, reads as in the part at the stop.
pub fn place_at(alloc: Global, tree: &Tree, stop: &Stop, text: &[u8]) -> Option<PhrasePlace>
    requires { IsTree tree.now }
    ensures { IfSome result (λ place. IsPhrasePlace (plain_phrase_place place)) }
{
    let kind = tree.node(&stop.path)?.kind();
    let category = part_category(kind, stop.part?)?;
    match phrase_of(alloc, category, text) {
        Some(phrase) => Some(PhrasePlace::Filled(phrase)),
        None => None,
    }
}

/// Tells the phrases of the program with their marks, or only the one at the place.
pub fn marks(alloc: Global, tree: &Tree, only: Option<PhraseAt>, told: &mut Told) -> Option<()>
    requires { IsTree tree.now }
{
    match Decls::new(alloc, tree) {
        Ok(decls) => {
            let done = tell_marks(alloc, tree, &decls, only, told);
            drop(decls);
            done
        }
        Err(OutOfMemory) => None,
    }
}

/// Tells the phrases of the program with their marks by its table, or only the one at the place.
fn tell_marks(
    alloc: Global,
    tree: &Tree,
    decls: &Decls,
    only: Option<PhraseAt>,
    told: &mut Told,
) -> Option<()>
    requires tree { IsTree tree.now }
    requires decls { IsDeclsOf decls.now tree.now.items }
{
    match Marks::new(alloc, tree, decls, &mut Counts::default()) {
        Ok(marks) => {
            tell_nodes(tree, decls, &marks, only, told);
            drop(marks);
            Some(())
        }
        Err(OutOfMemory) => None,
    }
}

/// Tells the phrases of all nodes with their marks, or only the one at the place.
fn tell_nodes(
    tree: &Tree,
    decls: &Decls,
    marks: &Marks<Counts>,
    only: Option<PhraseAt>,
    told: &mut Told,
)
    requires tree { IsTree tree.now }
    requires decls { IsDeclsOf decls.now tree.now.items }
    requires marks { marks.now.verdicts ≡ Verdicts tree.now.items }
{
    let mut left = tree.slots();
    for slot in 0..MOST_SLOTS {
        let Some(node) = tree.node(&path_to(tree, slot)) else {
            continue;
        };
        tell_node(tree, decls, marks, node, only, told);
        left = left.saturating_sub(1);
        if left == 0 {
            break;
        }
    }
}

/// Tells the phrases of the node with their marks, or only the one at the place.
fn tell_node(
    tree: &Tree,
    decls: &Decls,
    marks: &Marks<Counts>,
    node: &Node,
    only: Option<PhraseAt>,
    told: &mut Told,
)
    requires tree { IsTree tree.now }
    requires decls { IsDeclsOf decls.now tree.now.items }
    requires marks { marks.now.verdicts ≡ Verdicts tree.now.items }
{
    for part in 0..u8::MAX {
        let at = PhraseAt {
            slot: node.slot(),
            part,
        };
        match node.part(part) {
            Some(PhrasePlace::Filled(phrase)) if only.is_none() || only == Some(at) => {
                tell_mark(at, phrase, mark_of(tree, decls, marks, at), told);
            }
            Some(_) => {}
            None => break,
        }
    }
}

/// The mark of one of the phrases that the program has: as it is kept, as it is told, and as it is checked
/// alone. `None` where these differ, or the check is not counted as one.
fn mark_of(
    tree: &Tree,
    decls: &Decls,
    marks: &Marks<Counts>,
    at: PhraseAt,
) -> Option<Option<MarkKind>>
    requires tree { IsTree tree.now }
    requires decls { IsDeclsOf decls.now tree.now.items }
    requires marks { marks.now.verdicts ≡ Verdicts tree.now.items }
{
    let kept = marks.verdict(at)?.kind();
    let mut work = Counts::default();
    let checked = check_phrase(tree, decls, at, &mut work).kind();
    if checked == kept && marks.mark(at) == kept && work.checked == 1 {
        Some(kept)
    } else {
        None
    }
}

/// Tells a phrase with its mark.
fn tell_mark(at: PhraseAt, phrase: &Phrase, mark: Option<Option<MarkKind>>, told: &mut Told) {
    tell_place(at, told);
    told.put(b' ');
    match mark {
        Some(Some(kind)) => told.value(&kind),
        Some(None) => told.text("fine"),
        None => told.text("DIFFERS"),
    }
    told.put(b' ');
    let mut text = Told::new(told.alloc());
    show(phrase, &mut text);
    told.word_line(text.as_bytes());
    drop(text);
}

/// The marks of all phrases of the program, as its lines and screens show them.
pub fn marks_of(alloc: Global, tree: &Tree) -> Option<Marks<Counts>>
    requires { IsTree tree.now }
{
    match Decls::new(alloc, tree) {
        Ok(decls) => {
            let marks = Marks::new(alloc, tree, &decls, &mut Counts::default());
            drop(decls);
            marks.ok()
        }
        Err(OutOfMemory) => None,
    }
}
