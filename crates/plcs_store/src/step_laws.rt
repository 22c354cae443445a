//! The laws of steps and their records, and of runs whose program isn't edited, each a function that does
//! nothing and whose contract states it.
ghost use Rattle.plcs_store.specs.NewFrame.{ItemsKeepLimits};
ghost use Rattle.plcs_store.specs.OutputItem.{WrittenStands};
ghost use Rattle.plcs_store.specs.Resume.{UneditedResumes};
ghost use Rattle.plcs_store.specs.StepLaws.{FittingCallersWait, FittingCellsFew, FittingLoopsHaveRoom, FittingRunsStep, NewRunsFit, StepsDoAllowedActs, StepsKeepFit, StepsOfRunsTakenBack};
ghost use Rattle.plcs_store.specs.Undone.{StepsTakenBack};

use tree_steps::{sites_stand, slots_stand};

/// A new run of a tree fits it: it stands at main's first statement, with no cell set and in no loop.
pub fn new_runs_fit()
    ensures { NewRunsFit }
{
    sites_stand();
    slots_stand();
}

/// What fits a tree has a step there: it stands at a place of the tree where something is done, and each phrase
/// that is used there comes to a value of its kind, or stops the step for a reason.
pub fn what_fits_has_a_step()
    ensures { FittingRunsStep }
{
    sites_stand();
    slots_stand();
}

/// Of the frames of a run that fits a tree each but the newest waits at point 1 of its CALL, and each has room for
/// one more loop and no more cells than it may have.
pub fn callers_wait()
    ensures wait { FittingCallersWait }
    ensures loops { FittingLoopsHaveRoom }
    ensures cells { FittingCellsFew }
{
    sites_stand();
    slots_stand();
}

/// The effective items of a procedure, of which steps that call it make the variables, have different names, and
/// together at most as many cells as a frame may have.
pub fn items_keep_limits()
    ensures { ItemsKeepLimits }
{}

/// What a step writes stands behind what was written before, so a write is taken back by the count of bytes alone.
pub fn written_stands()
    ensures { WrittenStands }
{}

/// What a run that fits a tree steps to fits it again: its frames stand at places of the tree, with their
/// cells and loops, and each cell holds a value or a reference of its kind.
pub fn steps_keep_fit()
    ensures { StepsKeepFit }
{
    sites_stand();
    slots_stand();
}

/// A step of what fits a tree does an act that its configuration allows, and the record of this act takes the
/// step back.
pub fn steps_do_allowed_acts()
    ensures acts { StepsDoAllowedActs }
    ensures back { StepsOfRunsTakenBack }
{
    sites_stand();
    slots_stand();
}

/// A run whose program isn't edited may be resumed: the program is as it was when that which was kept was taken
/// from it.
pub fn unedited_may_resume()
    ensures { UneditedResumes }
{}

/// The record of a step takes the step back, whatever act it does and wherever it goes on, where the
/// configuration before it has what the act changes.
pub fn steps_taken_back()
    ensures { StepsTakenBack }
{}
