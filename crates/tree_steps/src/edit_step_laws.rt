//! The laws of steps, each a function that does nothing and whose contract states it.
ghost use Rattle.tree_steps.specs.EditStepLaws.{AddHoleIsEditStep, DropHoleIsEditStep, EditsFollow, FillAssignIsEditStep, FillIsEditStep, InsertIsEditStep, RoomIsNoEdit, SetPhraseIsEditStep, EditStepsAreWays, TakeIsEditStep, TogglesAreNoEdits};

/// What each edit of a tree answers where it was made says that it is a step.
pub fn edits_are_steps()
    ensures fill { FillIsEditStep }
    ensures fill_assign { FillAssignIsEditStep }
    ensures insert { InsertIsEditStep }
    ensures set_phrase { SetPhraseIsEditStep }
    ensures take { TakeIsEditStep }
    ensures add_hole { AddHoleIsEditStep }
    ensures drop_hole { DropHoleIsEditStep }
{}

/// Steps that follow one another lead from the first tree to the last; turned comments and the room of
/// lists play no part.
pub fn edits_follow()
    ensures turns { TogglesAreNoEdits }
    ensures room { RoomIsNoEdit }
    ensures one { EditStepsAreWays }
    ensures follow { EditsFollow }
{}
