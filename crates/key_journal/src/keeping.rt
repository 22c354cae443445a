//! How the next key is given: a kept one, or else a new one, which is taken from the source and kept on the
//! disk first; and how the last gate is shut.

ghost use Rattle.std.specs.Prelude.{◌≡◌, ◌+◌, ◌^◌, ◌≤◌, ◌⊎◌, IfOk, OnOk, OnErr};
ghost use Rattle.key_journal.specs.Disk.{Newest};
ghost use Rattle.key_journal.specs.JournalRead.{HasEitherCause, ReadsKey};
ghost use Rattle.key_journal.specs.Private.Keeping.{GivesByte, KeepsKey, HoldsAfter, ShutsGate};
ghost use Rattle.key_journal.specs.Private.Stages.{HoldsAt, IsAppending, IsCutOff};
ghost use Rattle.synth_outside.specs.Cause.{HasCause};

use super::replaying::replay;
use super::stage::Stage;
use super::writes::write_synced;
use super::{Disk, DiskFault};
use synth_outside::{Source, SourceFault};

/// Gives the next key that is kept on the disk, or else a new one: takes it from the source, and keeps it on
/// the disk before it is given.
pub(crate) fn next_key<S: Source, D: Disk>(
    inner: &mut S,
    disk: &mut D,
    stage: &mut Stage,
    given: u64,
) -> Result<Option<u8>, SourceFault>
    requires holds { HoldsAt stage.old given (D.past disk.old) }
    requires few { given ≤ 2 ^ 61 }
    ensures read { ReadsKey (S.left inner.old) (S.left inner.new) given
        (D.past disk.old) (D.past disk.new) result }
    ensures holds { IfOk result (λ key. HoldsAfter stage.new given key (D.past disk.new)) }
    ensures led { IfOk result
        (λ _. (first : S) → S.leads_to first inner.old → S.leads_to first inner.new) }
    ensures broke { OnErr result ((first : S) → S.leads_to first inner.old →
        S.leads_to first inner.new ⊎ S.breaks_at first inner.new) }
    ensures cause { HasEitherCause (S.faults inner.old) (S.faults inner.new)
        (D.faults disk.old) (D.faults disk.new) result }
{
    match replay(disk, stage, given)? {
        Some(key) => Ok(Some(key)),
        None => append(inner, disk, given),
    }
}

// Takes the next byte of the source and keeps it, if there is one.
fn append<S: Source, D: Disk>(
    inner: &mut S,
    disk: &mut D,
    given: u64,
) -> Result<Option<u8>, SourceFault>
    requires appending { Newest (IsAppending given) (D.past disk.old) }
    requires few { given ≤ 2 ^ 61 }
    ensures read { ReadsKey (S.left inner.old) (S.left inner.new) given
        (D.past disk.old) (D.past disk.new) result }
    ensures holds { IfOk result (λ key. HoldsAfter Stage.Appending given key (D.past disk.new)) }
    ensures led { IfOk result
        (λ _. (first : S) → S.leads_to first inner.old → S.leads_to first inner.new) }
    ensures broke { OnErr result ((first : S) → S.leads_to first inner.old →
        S.leads_to first inner.new ⊎ S.breaks_at first inner.new) }
    ensures cause { HasEitherCause (S.faults inner.old) (S.faults inner.new)
        (D.faults disk.old) (D.faults disk.new) result }
{
    match next_byte(inner)? {
        Some(key) => {
            keep(disk, given, key)?;
            Ok(Some(key))
        }
        None => Ok(None),
    }
}

/// The byte of a gate that is open: the key behind it counts.
pub(crate) const OPEN: u8 = 1;

/// The byte of a gate that isn't open.
pub(crate) const SHUT: u8 = 0;

/// Puts a key behind those that are kept: first the key with a gate behind it that isn't open, and once
/// they are synced its own gate is opened.
pub(crate) fn keep<D: Disk>(disk: &mut D, given: u64, key: u8) -> Result<(), DiskFault>
    requires appending { Newest (IsAppending given) (D.past disk.old) }
    requires few { given ≤ 2 ^ 61 }
    ensures kept { KeepsKey given key (D.past disk.old) (D.past disk.new) result }
    ensures few { OnOk result (given + 1 ≤ 2 ^ 61) }
    ensures cause { HasCause DiskFault.Failed (D.faults disk.old) (D.faults disk.new) result }
{
    write_synced(disk, 2 * given + 1, &[key, SHUT])?;
    write_synced(disk, 2 * given, &[OPEN])
}

/// Puts a gate that isn't open behind the last whole block.
pub(crate) fn shut_gate<D: Disk>(disk: &mut D, given: u64) -> Result<(), DiskFault>
    requires cut { Newest (IsCutOff given) (D.past disk.old) }
    requires few { given ≤ 2 ^ 61 }
    ensures shut { ShutsGate given (D.past disk.old) (D.past disk.new) result }
    ensures cause { HasCause DiskFault.Failed (D.faults disk.old) (D.faults disk.new) result }
{
    write_synced(disk, 2 * given, &[SHUT])
}

// Takes the next byte of the source of new keys, if there is one.
fn next_byte<S: Source>(inner: &mut S) -> Result<Option<u8>, SourceFault>
    ensures byte { GivesByte (S.left inner.old) (S.left inner.new) result }
    ensures led { IfOk result
        (λ _. (first : S) → S.leads_to first inner.old → S.leads_to first inner.new) }
    ensures broke { OnErr result
        ((first : S) → S.leads_to first inner.old → S.breaks_at first inner.new) }
    ensures cause { HasCause SourceFault.Failed (S.faults inner.old) (S.faults inner.new) result }
{
    let mut buf = [0; 1];
    match inner.read(&mut buf)? {
        0 => Ok(None),
        _ => Ok(Some(buf[0])),
    }
}
