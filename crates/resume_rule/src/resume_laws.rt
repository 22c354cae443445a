//! The laws of resumption, in programs that were edited too, each a function that does nothing and whose
//! contract states it.
ghost use Rattle.resume_rule.specs.ResumeLaws.{AnswersFollowFrames, AnswersIgnoreElision, AnswersIgnoreRoom, ChangedBackResumes, EditedRunsFit, FittingRunsResolved, KeptHasEntries, ResumedRunsFit, SubstanceHasSame};

use plcs_store::{runs_ignore_room_and_elision, unedited_may_resume};
use tree_steps::{agreement_lasts, list_marks_follow_items, places_last, sites_stand, slots_stand};

/// A run that fitted a tree, and may be resumed in one that agrees with it by its slots, fits this one once its
/// newest place is resolved; so it does after any edits.
pub fn resumed_runs_fit()
    ensures agreed { ResumedRunsFit }
    ensures edited { EditedRunsFit }
{
    slots_stand();
    sites_stand();
    places_last();
    list_marks_follow_items();
    agreement_lasts();
}

/// A run that fits a program is resumed there where it stands.
pub fn fitting_runs_are_resolved()
    ensures { FittingRunsResolved }
{}

/// What is kept for a run that fits has an entry for each of its frames.
pub fn kept_has_entries()
    ensures { KeptHasEntries }
{}

/// Whether a run may be resumed depends on what the program has for its frames alone, so that a change which was
/// changed back doesn't count.
pub fn answers_follow_frames()
    ensures same { AnswersFollowFrames }
    ensures back { ChangedBackResumes }
{
    unedited_may_resume();
}

/// Whether a run may be resumed doesn't depend on the room of lists, nor on which comments are elided: programs of
/// the same substance have the same for its frames.
pub fn answers_ignore_room_and_elision()
    ensures same { SubstanceHasSame }
    ensures room { AnswersIgnoreRoom }
    ensures elision { AnswersIgnoreElision }
{
    runs_ignore_room_and_elision();
}
