//! The laws of a history, each a function that does nothing and whose contract states it.
ghost use Rattle.back_steps.specs.HistoryLaws.{AllowedActsRecorded, ResumingLeavesEarlier};

/// Resuming a run, in whatever program, leaves the configurations before it as they were when it was suspended, where
/// its latest record is one of a step.
pub fn resuming_leaves_earlier()
    ensures { ResumingLeavesEarlier }
{}

/// A history has a record of each step: the record of an act that a configuration allows, as each step does
/// one, is never empty.
pub fn allowed_acts_are_recorded()
    ensures { AllowedActsRecorded }
{}
