//! How the passing of keys ends.

/// How the passing of a terminal's keys ends.
#[derive(Clone, Copy, Debug, PartialEq, Eq)]
pub enum Ending {
    /// The terminal sends no more.
    Done,
    /// A read of the terminal failed.
    ReadFault,
    /// A write to the editor, or of a bell, failed.
    WriteFault,
    /// Memory ran out in a read or a write.
    NoMemory,
    /// 2^64 - 1 reads were made.
    ReadLimit,
}

impl Ending {
    ghost use Rattle.std.specs.Prelude.{◌≡◌};
    ghost use Rattle.terminal_keys.specs.Ending.{ending_number};

    /// The number with which the program ends that passes the keys.
    pub fn code(self) -> u8
        ensures { result ≡ ending_number self }
    {
        match self {
            Ending::Done => 0,
            Ending::ReadFault => 1,
            Ending::WriteFault => 2,
            Ending::NoMemory => 3,
            Ending::ReadLimit => 4,
        }
    }
}
