//! Writes that are synced at once.

ghost use Rattle.std.specs.Prelude.{◌+◌, ◌≤◌, length, OnOk};
ghost use Rattle.key_journal.specs.Disk.{Newest};
ghost use Rattle.key_journal.specs.Private.Writes.{IsSynced, WritesSynced};
ghost use Rattle.synth_outside.specs.Cause.{HasCause};

use super::{DISK_END, Disk, DiskFault};

/// Writes the piece over a disk that is synced, and syncs it at once.
pub(crate) fn write_synced<D: Disk>(disk: &mut D, at: u64, piece: &[u8]) -> Result<(), DiskFault>
    requires synced { Newest IsSynced (D.past disk.old) }
    requires within { Newest (λ state. at ≤ length state.bytes) (D.past disk.old) }
    ensures written { WritesSynced at piece.now (D.past disk.old) (D.past disk.new) result }
    ensures inside { OnOk result (at + length piece.now ≤ DISK_END) }
    ensures cause { HasCause DiskFault.Failed (D.faults disk.old) (D.faults disk.new) result }
{
    disk.write_at(at, piece)?;
    disk.sync()?;
    Ok(())
}
