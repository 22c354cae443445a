//! The trait of disks, and their faults.

ghost use Rattle.std.specs.Prelude.{◌≡◌, ℕ, ◌+◌, ◌<◌, ◌≤◌, List, length, take, IfOk, OnOk, OnErr, IsErrOf};
ghost use Rattle.key_journal.specs.Disk.{DiskState, Newest, ReadsAsImage, ReadsRange, WritesToDisk, Tears, Syncs, WritesKeepImages, TearsKeepImages, SyncsMakeImages};
ghost use Rattle.synth_outside.specs.Cause.{HasCause};

use std::alloc::AllocError;
use synth_outside::SourceFault;
use thiserror::Error;

/// No disk has a byte here or past it; bytes are counted from 0.
pub const DISK_END: u64 = 4_611_686_018_427_387_904;

/// Why a call on a disk isn't `Ok`.
#[derive(Clone, Copy, Debug, PartialEq, Eq, Error)]
pub enum DiskFault {
    /// The call failed, which the disk counts.
    #[error("the call failed")]
    Failed,
    /// Memory ran out, which isn't counted.
    #[error("memory ran out")]
    OutOfMemory,
}

impl From<AllocError> for DiskFault {
    ghost use Rattle.key_journal.specs.Faults.{memory_fault};

    ghost from_gives = { λ _ given. given ≡ memory_fault };

    /// The fault of a disk that wants memory.
    fn from(_: AllocError) -> Self {
        DiskFault::OutOfMemory
    }
}

impl From<DiskFault> for SourceFault {
    ghost use Rattle.key_journal.specs.Faults.{source_fault};

    ghost from_gives = { λ fault given. given ≡ source_fault fault };

    /// The fault of a source that stands on a disk with this fault.
    fn from(fault: DiskFault) -> Self {
        match fault {
            DiskFault::Failed => SourceFault::Failed,
            DiskFault::OutOfMemory => SourceFault::OutOfMemory,
        }
    }
}

/// One file of bytes, of which a crash may leave something else than it reads as.
///
/// `past` is the states that it was in so far, the newest first; where it is empty, nothing is
/// claimed of them. A crash at any moment of a call leaves what it may leave of one of the states
/// from the one before the call to the one after it. What it reads as is always one of the images that
/// a crash may leave.
///
/// `faults` counts the failures so far. It never falls, and stays at 2^64 - 1 once it is there. Want
/// of memory isn't counted.
pub trait Disk {
    ghost past: { Self → List DiskState };

    ghost reads_as_image: { (disk : Self) → Newest ReadsAsImage (past disk) };

    ghost faults: { Self → ℕ };

    /// Moves the bytes of the disk from `at` on into the front of the buffer, up to its length or to the disk's end,
    /// and answers how many.
    ///
    /// What stands in the buffer behind them, or where the read isn't `Ok`, isn't told.
    fn read_at(&mut self, at: u64, buf: &mut [u8]) -> Result<usize, DiskFault>
        ensures count { IfOk result (λ count. count ≤ length buf.new) }
        ensures bytes { IfOk result (λ count.
            Newest (ReadsRange at (length buf.new) count (take count buf.new)) (past self.old)) }
        ensures inside { IfOk result (λ count. 0 < count → at + count ≤ DISK_END) }
        ensures same { past self.new ≡ past self.old }
        ensures cause { HasCause DiskFault.Failed (faults self.old) (faults self.new) result };

    /// Writes the piece over the bytes of the disk from `at` on, and further than the end where it is longer.
    ///
    /// A write that isn't `Ok` may have been done in part.
    fn write_at(&mut self, at: u64, piece: &[u8]) -> Result<(), DiskFault>
        requires { Newest (λ state. at ≤ length state.bytes) (past self.old) }
        ensures whole { OnOk result (WritesToDisk at piece.now (past self.old) (past self.new)) }
        ensures torn { OnErr result (Tears at (length piece.now) (past self.old) (past self.new)) }
        ensures outside { DISK_END < at + length piece.now → IsErrOf result DiskFault.Failed }
        ensures cause { HasCause DiskFault.Failed (faults self.old) (faults self.new) result };

    /// Has the disk keep all that was written: a crash then leaves what a read gives.
    ///
    /// A sync that isn't `Ok` changes nothing.
    fn sync(&mut self) -> Result<(), DiskFault>
        ensures whole { OnOk result (Syncs (past self.old) (past self.new)) }
        ensures same { OnErr result (past self.new ≡ past self.old) }
        ensures cause { HasCause DiskFault.Failed (faults self.old) (faults self.new) result };
}

/// A law of disks: what one reads as is one of the images that a crash may leave of it.
pub fn a_disk_is_an_image<D: Disk>(disk: &D)
    ensures { Newest ReadsAsImage (D.past disk.now) }
{}

/// Laws of the states of a disk: each call of it keeps what it reads as among the images that a crash may
/// leave of it.
#[tactic(auto, using(crate::proofs::Images::torn_image, crate::proofs::Images::written_image, crate::proofs::Images::synced_image))]
pub fn a_disk_reads_as_an_image()
    ensures written { WritesKeepImages }
    ensures torn { TearsKeepImages }
    ensures synced { SyncsMakeImages }
{}
