//! How a session ends whose keys are kept.

ghost use Rattle.std.specs.Prelude.{◌≡◌};

use key_journal::DiskFault;
use synth_top::Status;

/// How a session ended whose keys are kept. Its program ends with the status's number.
#[derive(Clone, Copy, Debug, PartialEq, Eq)]
pub enum KeptStatus {
    /// The editor ended so; or memory ran out while the journal was opened or cleared.
    Run(Status),
    /// The journal couldn't be opened, and nothing was done; or a key ended the session, and the journal
    /// couldn't be cleared.
    JournalFault,
}

impl KeptStatus {
    ghost use Rattle.synth_kept.specs.KeptStatus.{kept_status_number};

    /// The number with which the program ends that keeps its keys.
    pub fn code(self) -> u8
        ensures { result ≡ kept_status_number self }
    {
        match self {
            KeptStatus::Run(status) => status.code(),
            KeptStatus::JournalFault => 6,
        }
    }
}

impl From<DiskFault> for KeptStatus {
    ghost use Rattle.synth_kept.specs.KeptStatus.{fault_status};

    ghost from_gives = { λ fault given. given ≡ fault_status fault };

    /// How a session ends whose journal can't be opened or cleared.
    fn from(fault: DiskFault) -> Self {
        match fault {
            DiskFault::Failed => KeptStatus::JournalFault,
            DiskFault::OutOfMemory => KeptStatus::Run(Status::NoMemory),
        }
    }
}
