//! How the editor ends.

ghost use Rattle.std.specs.Prelude.{◌≡◌};

/// How the editor ended. Its program ends with the status's number.
#[derive(Clone, Copy, Debug, PartialEq, Eq)]
pub enum Status {
    /// A key ended the session, or the source of keys ended.
    Done = 0,
    /// A read of keys failed.
    ReadFault = 1,
    /// A write of a screen failed.
    WriteFault = 2,
    /// Memory ran out.
    NoMemory = 3,
    /// The words aren't of the command. Nothing was read or written.
    BadWords = 4,
    /// The greatest number of key bytes was taken.
    KeyLimit = 5,
}

impl Status {
    ghost use Rattle.synth_top.specs.Status.{status_number};

    /// The number with which the editor's program ends.
    pub fn code(self) -> u8
        ensures { result ≡ status_number self }
    {
        self as u8
    }
}
