//! The laws of edits that can be undone, each a function that does nothing and whose contract states it.
ghost use Rattle.edit_undo.specs.EditLaws.{EditsAreNoted, TogglesLeaveEarlier, UndoneTreesCheckAlike};

use template_tree::{
    checks_ignore_room_and_elision, receipts_revert_to_undone, reverts_ignore_elision,
};

/// An edit that was made and noted leaves the trees before its own as they were, and adds that one.
pub fn edits_are_noted()
    ensures { EditsAreNoted }
{
    receipts_revert_to_undone();
}

/// A comment that is hidden or shown leaves the trees before, and they can be gone back to.
pub fn toggles_leave_earlier()
    ensures { TogglesLeaveEarlier }
{
    reverts_ignore_elision();
}

/// A tree that comes back has the slots of the earlier one, and checks as that one.
pub fn undone_trees_check_alike()
    ensures { UndoneTreesCheckAlike }
{
    checks_ignore_room_and_elision();
}
