//! The notices of runs that stand still.
ghost use Rattle.std.specs.Prelude.{◌≡◌};
ghost use Rattle.synth_session.specs.RunNotice.{fault_notice, reason_notice};

use plcs_store::{FaultKind, RunReason};
use session_words::Notice;

/// The notice of each reason for which a run stands still.
pub(crate) fn reason_notice(reason: RunReason) -> Notice
    ensures { result ≡ reason_notice reason }
{
    match reason {
        RunReason::Placeholder => Notice::Placeholder,
        RunReason::Marked => Notice::MarkedPhrase,
        RunReason::Fault(kind) => fault_notice(kind),
        RunReason::InputWanted => Notice::InputWanted,
        RunReason::Paused => Notice::Paused,
        RunReason::Ended => Notice::Ended,
    }
}

/// The notice of each fault of a run.
fn fault_notice(kind: FaultKind) -> Notice
    ensures { result ≡ fault_notice kind }
{
    match kind {
        FaultKind::FixedOverflow => Notice::FixedOverflow,
        FaultKind::ZeroDivide => Notice::ZeroDivide,
        FaultKind::SubscriptRange => Notice::SubscriptRange,
        FaultKind::StringRange => Notice::StringRange,
        FaultKind::StringSize => Notice::StringSize,
        FaultKind::Uninitialized => Notice::Uninitialized,
        FaultKind::Conversion => Notice::Conversion,
        FaultKind::OutputLimit => Notice::OutputLimit,
        FaultKind::CallDepth => Notice::CallDepth,
    }
}
