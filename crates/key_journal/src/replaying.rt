//! How a kept key is found on the disk.

ghost use Rattle.std.specs.Prelude.{◌≡◌, ◌+◌, ◌*◌, ◌^◌, ◌≤◌, drop, IfOk, OnOk, IfSome};
ghost use Rattle.key_journal.specs.Disk.{Newest};
ghost use Rattle.key_journal.specs.Private.Keeping.{Replays, ReplaysAt};
ghost use Rattle.key_journal.specs.Private.Stages.{BeginsWithGate, HoldsAt, IsReplaying};
ghost use Rattle.synth_outside.specs.Cause.{HasCause};

use super::keeping::{OPEN, SHUT, shut_gate};
use super::stage::{GateContent, Stage};
use super::{Disk, DiskFault};

/// The next kept key behind those that were given, if there is one. A disk that may not be synced is
/// synced before.
pub(crate) fn replay<D: Disk>(
    disk: &mut D,
    stage: &mut Stage,
    given: u64,
) -> Result<Option<u8>, DiskFault>
    requires holds { HoldsAt stage.old given (D.past disk.old) }
    requires few { given ≤ 2 ^ 61 }
    ensures found { ReplaysAt stage.new given (D.past disk.old) (D.past disk.new) result }
    ensures few { IfOk result (λ key. IfSome key (λ _. given + 1 ≤ 2 ^ 61)) }
    ensures cause { HasCause DiskFault.Failed (D.faults disk.old) (D.faults disk.new) result }
{
    match *stage {
        Stage::Unsynced => {
            disk.sync()?;
            replay_synced(disk, stage, given)
        }
        Stage::Replaying => replay_synced(disk, stage, given),
        Stage::Appending => Ok(None),
    }
}

// The next kept key behind those that were given, over a disk that is synced.
fn replay_synced<D: Disk>(
    disk: &mut D,
    stage: &mut Stage,
    given: u64,
) -> Result<Option<u8>, DiskFault>
    requires replaying { Newest (IsReplaying given) (D.past disk.old) }
    requires few { given ≤ 2 ^ 61 }
    ensures found { ReplaysAt stage.new given (D.past disk.old) (D.past disk.new) result }
    ensures few { IfOk result (λ key. IfSome key (λ _. given + 1 ≤ 2 ^ 61)) }
    ensures cause { HasCause DiskFault.Failed (D.faults disk.old) (D.faults disk.new) result }
{
    let key = replayed(disk, given)?;
    *stage = match key {
        Some(_) => Stage::Replaying,
        None => Stage::Appending,
    };
    Ok(key)
}

// The kept key that stands behind so many others. Where there is none, a gate that isn't open stands at
// its place then.
fn replayed<D: Disk>(disk: &mut D, given: u64) -> Result<Option<u8>, DiskFault>
    requires replaying { Newest (IsReplaying given) (D.past disk.old) }
    requires few { given ≤ 2 ^ 61 }
    ensures found { Replays given (D.past disk.old) (D.past disk.new) result }
    ensures few { IfOk result (λ key. IfSome key (λ _. given + 1 ≤ 2 ^ 61)) }
    ensures cause { HasCause DiskFault.Failed (D.faults disk.old) (D.faults disk.new) result }
{
    match block_behind(disk, given)? {
        GateContent::Open(key) => Ok(Some(key)),
        GateContent::Shut => Ok(None),
        GateContent::Cut => {
            shut_gate(disk, given)?;
            Ok(None)
        }
    }
}

// What stands on the disk behind so many blocks.
fn block_behind<D: Disk>(disk: &mut D, given: u64) -> Result<GateContent, DiskFault>
    requires few { given ≤ 2 ^ 61 }
    ensures block { IfOk result (λ block.
        Newest (λ state. BeginsWithGate block (drop (2 * given) state.bytes)) (D.past disk.old)) }
    ensures few { (key : _) → result ≡ Ok (GateContent.Open key) → given + 1 ≤ 2 ^ 61 }
    ensures same { D.past disk.new ≡ D.past disk.old }
    ensures cause { HasCause DiskFault.Failed (D.faults disk.old) (D.faults disk.new) result }
{
    let mut bytes = [SHUT; 2];
    let count = disk.read_at(2 * given, &mut bytes)?;
    let [gate, key] = bytes;
    if count == 0 {
        return Ok(GateContent::Cut);
    }
    if gate != OPEN {
        return Ok(GateContent::Shut);
    }
    if count == 1 {
        return Ok(GateContent::Cut);
    }
    Ok(GateContent::Open(key))
}
