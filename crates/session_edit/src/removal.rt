//! What is deleted or taken out at the cursor.
ghost use Rattle.std.specs.Prelude.{◌≡◌, IfNone, IfSome, IsSome, option_map, false};
ghost use Rattle.template_tree.specs.Positions.Path.{node_at};
ghost use Rattle.template_tree.specs.Programs.PlainTree.{roomless_tree};
ghost use Rattle.template_tree.specs.Programs.Program.{sort_of};
ghost use Rattle.template_tree.specs.Positions.Stop.{IsStop, plain_stop};
ghost use Rattle.template_tree.specs.Programs.Tree.{IsTree};
ghost use Rattle.session_edit.specs.AppliedEdit.{IsAnswer, IsApplied};
ghost use Rattle.session_edit.specs.Cursor.{path_after_drop};
ghost use Rattle.session_edit.specs.Edited.{edited};
ghost use Rattle.session_edit.specs.PlainEdit.{PlainEdit};

use crate::applied::Applied;
use crate::here::takes;
use crate::room_laws::room_laws;
use plcs_grammar::Sort;
use std::alloc::Global;
use template_tree::{
    Path, PhrasePlace, Stop, Tree, TreeFault, copy_path, copy_stop, path_before,
    slot_edit_is_path_edit,
};

/// What stands at the cursor is deleted: a hole in a list of two or more is dropped, all else is taken
/// out. It takes no memory.
pub(crate) fn delete(alloc: Global, tree: &mut Tree, at: &Stop) -> Result<Applied, TreeFault>
    requires tree { IsTree tree.old }
    requires stop { IsStop (roomless_tree tree.old).items (plain_stop at.now) }
    ensures { IsAnswer false (edited (roomless_tree tree.old) (plain_stop at.now) PlainEdit.delete) tree.old tree.new
        result }
{
    if let Some(applied) = drop_hole(tree, at) {
        return Ok(applied);
    }
    take_out(alloc, tree, at)
}

/// The hole at the cursor is deleted, if one is there in a list of two or more: it is dropped from the list.
fn drop_hole(tree: &mut Tree, at: &Stop) -> Option<Applied>
    requires tree { IsTree tree.old }
    requires stop { IsStop (roomless_tree tree.old).items (plain_stop at.now) }
    ensures dropped { IfSome result (IsApplied (edited (roomless_tree tree.old) (plain_stop at.now) PlainEdit.delete)
        tree.old tree.new) }
    ensures not_here { IfNone result (edited (roomless_tree tree.old) (plain_stop at.now) PlainEdit.delete
        ≡ edited (roomless_tree tree.old) (plain_stop at.now) PlainEdit.take) }
    ensures unchanged { IfNone result (tree.new ≡ tree.old) }
{
    room_laws();
    if at.part.is_some() {
        return None;
    }
    let Some(sort) = sort_at(tree, &at.path) else {
        return None;
    };
    slot_edit_is_path_edit();
    let Ok(receipt) = tree.drop_hole(&at.path) else {
        return None;
    };
    let path = path_after_drop(tree, sort, &at.path);
    Some(Applied {
        receipt,
        taken: None,
        stop: Stop { path, part: None },
    })
}

/// The sort of the node at the path, if there is one, by which the list is told from which a hole is deleted.
fn sort_at(tree: &Tree, path: &Path) -> Option<Sort>
    requires tree { IsTree tree.now }
    ensures { result ≡ option_map (λ node. sort_of node.label.kind) (node_at tree.now.items path.now.items) }
{
    let Some(node) = tree.node(path) else {
        return None;
    };
    Some(node.kind().row().sort)
}

/// Where the cursor goes from a dropped hole: the path of the item of its sort that is now at its path,
/// or else of the one before it.
fn path_after_drop(tree: &Tree, sort: Sort, path: &Path) -> Path
    requires tree { IsTree tree.now }
    ensures { result.items ≡ path_after_drop sort tree.now.items path.now.items }
{
    if sort_at(tree, path) == Some(sort) {
        return copy_path(path);
    }
    path_before(path)
}

/// What stands at the cursor is taken out: a node, in whose place a hole stays, or a phrase. It takes no
/// memory.
pub(crate) fn take_out(alloc: Global, tree: &mut Tree, at: &Stop) -> Result<Applied, TreeFault>
    requires tree { IsTree tree.old }
    requires stop { IsStop (roomless_tree tree.old).items (plain_stop at.now) }
    ensures { IsAnswer false (edited (roomless_tree tree.old) (plain_stop at.now) PlainEdit.take) tree.old tree.new
        result }
{
    room_laws();
    if at.part.is_some() {
        return empty_part(tree, at);
    }
    slot_edit_is_path_edit();
    match tree.take(alloc, &at.path) {
        Ok((node, receipt)) => Ok(Applied {
            receipt,
            taken: Some(node),
            stop: copy_stop(at),
        }),
        Err(fault) => Err(fault),
    }
}

/// The part at the cursor is emptied, if a phrase stands in it.
fn empty_part(tree: &mut Tree, at: &Stop) -> Result<Applied, TreeFault>
    requires tree { IsTree tree.old }
    requires stop { IsStop (roomless_tree tree.old).items (plain_stop at.now) }
    requires part { IsSome at.now.part }
    ensures { IsAnswer false (edited (roomless_tree tree.old) (plain_stop at.now) PlainEdit.take) tree.old tree.new
        result }
{
    room_laws();
    if !takes(tree, at) {
        return Err(TreeFault::NotHere);
    }
    slot_edit_is_path_edit();
    match tree.set_phrase(at, PhrasePlace::Empty) {
        Ok(receipt) => Ok(Applied {
            receipt,
            taken: None,
            stop: copy_stop(at),
        }),
        Err((fault, _)) => Err(fault),
    }
}
