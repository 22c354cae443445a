//! Holes that come beside list items.
ghost use Rattle.std.specs.Prelude.{◌≡◌, ◌↔◌, IsTrue, true};
ghost use Rattle.template_tree.specs.declared.tree_fault.TreeFault.{TreeFault};
ghost use Rattle.template_tree.specs.Programs.PlainTree.{roomless_tree};
ghost use Rattle.template_tree.specs.Positions.Stop.{IsStop, plain_stop};
ghost use Rattle.template_tree.specs.Programs.Tree.{IsTree};
ghost use Rattle.session_edit.specs.AppliedEdit.{IsAnswer};
ghost use Rattle.session_edit.specs.Edited.{edited, outcome_of_hole_beside};
ghost use Rattle.session_edit.specs.Here.{enclosing_item};
ghost use Rattle.session_edit.specs.PlainEdit.{PlainEdit};
ghost use Rattle.session_edit.specs.Private.ShownPath.{IsShown};

use crate::applied::Applied;
use crate::room_laws::room_laws;
use std::alloc::Global;
use template_tree::{
    Path, Side, Stop, Tree, TreeFault, added_path, copy_path, slot_edit_is_path_edit,
};

/// A hole comes on this side of the nearest list item that stands round the cursor, which goes to it.
pub(crate) fn add_hole(
    alloc: Global,
    tree: &mut Tree,
    at: &Stop,
    side: Side,
) -> Result<Applied, TreeFault>
    requires tree { IsTree tree.old }
    requires stop { IsStop (roomless_tree tree.old).items (plain_stop at.now) }
    ensures { IsAnswer true (edited (roomless_tree tree.old) (plain_stop at.now) (PlainEdit.beside side)) tree.old
        tree.new result }
{
    room_laws();
    add_beside(alloc, tree, copy_path(&at.path), side)
}

/// A hole comes on this side of the nearest list item that the node at the path is, or in which it
/// stands; the cursor goes to the hole.
fn add_beside(alloc: Global, tree: &mut Tree, path: Path, side: Side) -> Result<Applied, TreeFault>
    requires tree { IsTree tree.old }
    requires seen { IsShown tree.old.items path.items }
    ensures { IsAnswer true (outcome_of_hole_beside (roomless_tree tree.old) side
        (enclosing_item (roomless_tree tree.old).items path.items)) tree.old tree.new result }
{
    room_laws();
    slot_edit_is_path_edit();
    match tree.add_hole(alloc, &path, side) {
        Ok(receipt) => Ok(Applied {
            receipt,
            taken: None,
            stop: Stop {
                path: added_path(side, &path),
                part: None,
            },
        }),
        Err(fault) => {
            if !is_not_here(fault) {
                return Err(fault);
            }
            let mut outer = path;
            let Some(_) = outer.pop() else {
                return Err(TreeFault::NotHere);
            };
            add_beside(alloc, tree, outer, side)
        }
    }
}

/// Whether the fault says that no hole can come beside the node itself, so that the one round it is
/// tried.
fn is_not_here(fault: TreeFault) -> bool
    ensures { IsTrue result ↔ (fault ≡ TreeFault.NotHere) }
{
    fault == TreeFault::NotHere
}
