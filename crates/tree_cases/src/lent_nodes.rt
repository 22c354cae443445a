//! Cases of nodes that are lent for writing.
ghost use Rattle.std.specs.Prelude.{IfSome};
ghost use Rattle.template_tree.specs.Programs.Part.{IsPhrasePlace};
ghost use Rattle.template_tree.specs.Programs.PlainPhrasePlace.{plain_phrase_place};
ghost use Rattle.template_tree.specs.Programs.Program.{IsSubtree};
ghost use Rattle.template_tree.specs.Programs.Tree.{IsTree};

use crate::tell::{tell_node, tell_place};
use crate::tree_calls::tree_of;
use crate::words::{find, phrase_of};
use case_script::{Told, number_of};
use plcs_base::ByteOut;
use std::alloc::Global;
use template_tree::{Node, Path, PhrasePlace, Tree};

/// Plays a case: `put_part AT PART CATEGORY TEXT` puts a phrase, and `put_part AT PART` nothing, into a part of the
/// node there, which is lent for it in a tree with the same listing. Tells what was there, or what comes back, and
/// the node then.
pub(crate) fn play(alloc: Global, tree: &Tree, words: &[Vec<u8>], told: &mut Told) -> Option<()>
    requires { IsTree tree.now }
{
    let [at, part, rest @ ..] = words else {
        return None;
    };
    let part = u8::try_from(number_of(part.as_slice())?).ok()?;
    let at = find(tree, at)?;
    match copied(alloc, tree) {
        Some(mut other) => {
            let answer = put_in(alloc, &mut other, &at, part, rest, told);
            drop(other);
            answer
        }
        None => None,
    }
}

/// Puts what the words say into a part of the node at the path, which is lent for it.
fn put_in(
    alloc: Global,
    tree: &mut Tree,
    at: &Path,
    part: u8,
    words: &[Vec<u8>],
    told: &mut Told,
) -> Option<()>
    requires { IsTree tree.old }
{
    match place_of(alloc, words) {
        Some(place) => {
            put_part(tree, at, part, place, told);
            told.put(b'\n');
            Some(())
        }
        None => None,
    }
}

/// What is to be put into a part of a node that is lent.
fn place_of(alloc: Global, words: &[Vec<u8>]) -> Option<PhrasePlace>
    ensures { IfSome result (λ place. IsPhrasePlace (plain_phrase_place place)) }
{
    match words {
        [] => Some(PhrasePlace::Empty),
        [category, text] => Some(PhrasePlace::Filled(phrase_of(alloc, category, text)?)),
        _ => None,
    }
}

/// A tree with the listing of this one, of which a node is lent.
fn copied(alloc: Global, tree: &Tree) -> Option<Tree>
    requires { IsTree tree.now }
    ensures { IfSome result IsTree }
{
    let mut listing = Told::new(alloc);
    tree.put_listing(&mut listing);
    let copy = tree_of(alloc, listing.as_bytes());
    drop(listing);
    match copy {
        Ok(copy) => Some(copy),
        Err(_) => None,
    }
}

/// For a case of lent nodes, puts this into a part of the one at the path, and tells what comes of it.
fn put_part(tree: &mut Tree, at: &Path, part: u8, place: PhrasePlace, told: &mut Told)
    requires tree { IsTree tree.old }
    requires place { IsPhrasePlace (plain_phrase_place place) }
{
    match tree.node_mut(at) {
        Some(node) => {
            put_in_node(node, part, place, told);
            told.text("; ");
            tell_node(node, told);
        }
        None => {
            told.text("None");
            drop(place);
        }
    }
}

/// For a case of lent nodes, puts this into a part of the one that is lent, and tells what was there, or what comes
/// back.
fn put_in_node(node: &mut Node, part: u8, place: PhrasePlace, told: &mut Told)
    requires node { IsSubtree node.old }
    requires place { IsPhrasePlace (plain_phrase_place place) }
{
    match node.put_part(part, place) {
        Ok(old) => {
            told.text("Ok ");
            tell_place(&old, told);
            drop(old);
        }
        Err(own) => {
            told.text("Err ");
            tell_place(&own, told);
            drop(own);
        }
    }
}
