//! The law of steps for edits at the cursor, a function that does nothing and whose contract states it.
ghost use Rattle.session_edit.specs.StepLaw.{AnswersComeByEdits, EditsAtStopsAreSteps};

use crate::room_laws::room_laws;
use tree_steps::edits_follow;

/// An edit that `apply` makes is a step from the tree before it to the tree after it; where it is refused,
/// the tree came by no edit.
pub fn edits_at_stops_are_steps()
    ensures made { EditsAtStopsAreSteps }
    ensures answered { AnswersComeByEdits }
{
    room_laws();
    edits_follow();
}
