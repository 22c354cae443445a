//! Why a file isn't saved or loaded.
ghost use Rattle.std.specs.Prelude.{◌≡◌};
ghost use Rattle.file_store.specs.FileReading.{memory_refusal, refusal_of};

use std::alloc::AllocError;
use synth_outside::FilesFault;

/// Why a file was not saved or loaded, or why bytes are no listing. Lines are counted from 1.
#[derive(Clone, Copy, Debug, PartialEq, Eq)]
pub enum FileRefusal {
    /// There is no file of the name that is loaded.
    NoFile,
    /// A call on the files failed in a save or a load.
    FileFault,
    /// No listing begins with the first lines up to this one. Where all whole lines begin a listing but
    /// the bytes aren't one, it is the number behind theirs.
    NotAListing(u32),
    /// A line opens a node whose path would have more than 64 numbers.
    TooDeep,
    /// A line opens a node, and 20,000 stand before it.
    TooLarge,
    /// There are more bytes than a file may have.
    TooLong,
    /// Memory ran out in a save or a load, or while a listing was read.
    OutOfMemory,
}

impl From<FilesFault> for FileRefusal {
    ghost from_gives = { λ fault given. given ≡ refusal_of fault };

    /// The refusal that a load or a save answers where this fault of the files came.
    fn from(fault: FilesFault) -> Self {
        match fault {
            FilesFault::NoFile => FileRefusal::NoFile,
            FilesFault::Failed => FileRefusal::FileFault,
            FilesFault::OutOfMemory => FileRefusal::OutOfMemory,
        }
    }
}

impl From<AllocError> for FileRefusal {
    ghost from_gives = { λ _ given. given ≡ memory_refusal };

    /// The refusal of a load that wants memory.
    fn from(_: AllocError) -> Self {
        FileRefusal::OutOfMemory
    }
}
