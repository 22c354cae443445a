//! The law of what a suspended run keeps, a function that does nothing and whose contract states it.
ghost use Rattle.suspend_state.specs.Suspension.{FittingRunsAreKept};

/// Of a program that a run fits there is what is to be kept for it: the heading and the items of the procedure of
/// each frame, and what stands in the slot of its place.
pub fn fitting_runs_are_kept()
    ensures { FittingRunsAreKept }
{}
