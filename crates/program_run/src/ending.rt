//! How the run of a saved program ends.
ghost use Rattle.std.specs.Prelude.{◌≡◌};
ghost use Rattle.program_run.specs.RunEnding.{exit_status, reason_status};

use file_store::FileRefusal;
use plcs_store::Reason;

/// How the run of a saved program ended. The command ends with the number of its ending.
#[derive(Clone, Copy, Debug, PartialEq, Eq)]
pub enum Ending {
    /// The run is over.
    Ended,
    /// The words aren't of the command. Nothing was read or written.
    BadWords,
    /// The file with the program was refused for this, which is never want of memory. Nothing was written.
    ProgramRefused(FileRefusal),
    /// The file with the input was refused for this, which is never want of memory. Nothing was written.
    InputRefused(FileRefusal),
    /// Memory ran out.
    NoMemory,
    /// A write of the output failed.
    WriteFault,
    /// The next step can't be made, for this reason.
    Stopped(Reason),
    /// As many steps were made as may be.
    StepsMade,
}

impl Ending {
    /// The number with which the command ends.
    pub fn status(self) -> u8
        ensures { result ≡ exit_status self }
    {
        match self {
            Ending::Ended => 0,
            Ending::BadWords => 1,
            Ending::ProgramRefused(_) => 2,
            Ending::InputRefused(_) => 2,
            Ending::NoMemory => 3,
            Ending::WriteFault => 4,
            Ending::Stopped(reason) => status_of(reason),
            Ending::StepsMade => 9,
        }
    }
}

/// The number with which the command ends where no step can be made, for this reason.
fn status_of(reason: Reason) -> u8
    ensures { result ≡ reason_status reason }
{
    match reason {
        Reason::Placeholder => 5,
        Reason::Marked => 6,
        Reason::Fault(_) => 7,
        Reason::InputWanted => 8,
    }
}
