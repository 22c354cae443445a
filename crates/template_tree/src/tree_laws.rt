//! The laws of trees, each a function that does nothing and whose contract states it.
ghost use Rattle.template_tree.specs.Laws.TreeLaws.{AddKeepsTree, DropKeepsTree, PartKeepsTree, PutKeepsTree, RevertsIgnoreElision, RevertsToUndone, SetPartKeepsTree, SlotEditIsPathEdit, TurnsAreElision, UndoStaysPossible};

/// An edit by slot is the edit at the path of the node that stands there.
pub fn slot_edit_is_path_edit()
    ensures { SlotEditIsPathEdit }
{}

/// A tree of which a node was lent is one again where `Node::put_part` alone changed the node.
pub fn set_part_keeps_tree()
    ensures { SetPartKeepsTree }
{}

/// Setting a part of the node in a slot keeps a tree a tree, with as many slots.
pub fn part_keeps_tree()
    ensures { PartKeepsTree }
{}

/// A node of the same sort in place of what stood in a slot keeps a tree a tree within the limits.
pub fn put_keeps_tree()
    ensures { PutKeepsTree }
{}

/// A hole beside an item of a list keeps a tree a tree within the limits, with one live slot more, and
/// as deep as before.
pub fn add_keeps_tree()
    ensures { AddKeepsTree }
{}

/// A list of two or more without one of its holes keeps a tree a tree, with one live slot less.
pub fn drop_keeps_tree()
    ensures { DropKeepsTree }
{}

/// An edit can be undone also after later ones were made and undone again.
pub fn undo_stays_possible()
    ensures { UndoStaysPossible }
{}

/// A tree that comes back by a receipt is, but for the slots drawn, the one to which the receipt is undone.
pub fn receipts_revert_to_undone()
    ensures { RevertsToUndone }
{}

/// Which comments are elided in a tree makes no difference to what its receipts revert it to.
pub fn reverts_ignore_elision()
    ensures reverts { RevertsIgnoreElision }
    ensures turns { TurnsAreElision }
{}
