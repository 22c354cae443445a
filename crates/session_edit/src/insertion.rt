//! Fragments inserted at the cursor.
ghost use Rattle.std.specs.Prelude.{Some, false};
ghost use Rattle.plcs_grammar.specs.PlainPhrase.{plain_phrase};
ghost use Rattle.template_tree.specs.Programs.Part.{IsPhrasePlace};
ghost use Rattle.template_tree.specs.Programs.PlainTree.{roomless_node, roomless_tree};
ghost use Rattle.template_tree.specs.Programs.Program.{IsSubtree};
ghost use Rattle.template_tree.specs.Positions.Stop.{IsStop, plain_stop};
ghost use Rattle.template_tree.specs.Programs.Tree.{IsTree};
ghost use Rattle.clip_store.specs.PlainFragment.{IsFragment, PlainFragment, plain_fragment, roomless_fragment};
ghost use Rattle.session_edit.specs.AppliedEdit.{IsAnswer};
ghost use Rattle.session_edit.specs.Edited.{edited};
ghost use Rattle.session_edit.specs.PlainEdit.{PlainEdit};

use crate::applied::Applied;
use crate::here::takes;
use crate::room_laws::room_laws;
use clip_store::Fragment;
use plcs_grammar::Phrase;
use template_tree::{Node, PhrasePlace, Stop, Tree, TreeFault, copy_stop, slot_edit_is_path_edit};

/// The fragment is inserted: a node comes into the hole of its sort at the cursor, a phrase into the
/// empty part of its category; the cursor stays on it. It takes no memory.
pub(crate) fn insert(tree: &mut Tree, at: &Stop, fragment: Fragment) -> Result<Applied, TreeFault>
    requires tree { IsTree tree.old }
    requires stop { IsStop (roomless_tree tree.old).items (plain_stop at.now) }
    requires fragment { IsFragment (plain_fragment fragment) }
    ensures { IsAnswer false (edited (roomless_tree tree.old) (plain_stop at.now)
        (PlainEdit.insert (roomless_fragment (plain_fragment fragment)))) tree.old tree.new result }
{
    match fragment {
        Fragment::Node(node) => insert_node(tree, at, node),
        Fragment::Phrase(phrase) => insert_phrase(tree, at, phrase),
    }
}

/// The node that is inserted comes into the hole at the cursor.
fn insert_node(tree: &mut Tree, at: &Stop, node: Node) -> Result<Applied, TreeFault>
    requires tree { IsTree tree.old }
    requires stop { IsStop (roomless_tree tree.old).items (plain_stop at.now) }
    requires node { IsSubtree node }
    ensures { IsAnswer false (edited (roomless_tree tree.old) (plain_stop at.now)
        (PlainEdit.insert (PlainFragment.node (roomless_node node)))) tree.old tree.new result }
{
    room_laws();
    if at.part.is_some() {
        return Err(TreeFault::NotHere);
    }
    slot_edit_is_path_edit();
    match tree.insert(&at.path, node) {
        Ok(receipt) => Ok(Applied {
            receipt,
            taken: None,
            stop: copy_stop(at),
        }),
        Err((fault, _)) => Err(fault),
    }
}

/// The phrase that is inserted comes into the part at the cursor, if that is empty.
fn insert_phrase(tree: &mut Tree, at: &Stop, phrase: Phrase) -> Result<Applied, TreeFault>
    requires tree { IsTree tree.old }
    requires stop { IsStop (roomless_tree tree.old).items (plain_stop at.now) }
    requires phrase { IsPhrasePlace (Some (plain_phrase phrase)) }
    ensures { IsAnswer false (edited (roomless_tree tree.old) (plain_stop at.now)
        (PlainEdit.insert (PlainFragment.phrase (plain_phrase phrase)))) tree.old tree.new result }
{
    room_laws();
    if takes(tree, at) {
        return Err(TreeFault::NotHere);
    }
    slot_edit_is_path_edit();
    match tree.set_phrase(at, PhrasePlace::Filled(phrase)) {
        Ok(receipt) => Ok(Applied {
            receipt,
            taken: None,
            stop: copy_stop(at),
        }),
        Err((fault, _)) => Err(fault),
    }
}
