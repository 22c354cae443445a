//! The laws of trees that agree by their slots, each a function that does nothing and whose contract states it.
ghost use Rattle.tree_steps.specs.AgreementLaws.{AgreementKeepsProcedures, EarlierAgreesAlike, EditsAgree, GoingBackAgrees, GoingBackPastAgrees, LiveSlotsStand, ProceduresStandOutermost, SlotsStandOnce, StandingSlotsLive, EditStepsKeepAgreement};

/// Each live slot stands at one place, in the procedure that encloses it outermost.
pub fn slots_stand()
    ensures live { LiveSlotsStand }
    ensures standing { StandingSlotsLive }
    ensures once { SlotsStandOnce }
    ensures procedure { ProceduresStandOutermost }
{}

/// Trees agree with those from which edits made them. A step keeps an agreement, and so does going back to
/// a tree that agreed, whether it is earlier or later than the one agreed with. What is elided makes no difference.
pub fn agreement_lasts()
    ensures edits { EditsAgree }
    ensures steps { EditStepsKeepAgreement }
    ensures back { GoingBackAgrees }
    ensures past { GoingBackPastAgrees }
    ensures elision { EarlierAgreesAlike }
    ensures procedures { AgreementKeepsProcedures }
{}
