//! The journal of keys.

ghost use Rattle.std.specs.Prelude.{◌≡◌, ◌<◌, length, IfOk, IfErr, OnErr, Ok, Err};
ghost use Rattle.plcs_base.specs.Count.{raised};
ghost use Rattle.key_journal.specs.ClearedJournal.{Clears};
ghost use Rattle.key_journal.specs.AfterReads.{LeadsTo, BreaksAt};
ghost use Rattle.key_journal.specs.Crash.{LeavesAtLeast};
ghost use Rattle.key_journal.specs.Disk.{Newest};
ghost use Rattle.key_journal.specs.Journal.{left_of_both, both_counts};
ghost use Rattle.key_journal.specs.OpenedJournal.{IsNew, OpensDisk};
ghost use Rattle.key_journal.specs.JournalRead.{CountsKey, HasEitherCause, ReadsKey, key_read};
ghost use Rattle.synth_outside.specs.Cause.{HasCause};
ghost use Rattle.synth_outside.specs.Source.{GivesBytes};

use super::keeping::{SHUT, next_key};
use super::stage::Stage;
use super::{Disk, DiskFault};
use std::marker::Model;
use synth_outside::{Source, SourceFault};

/// Keys that are kept on a disk before they are given.
///
/// It is a source: it gives the keys that the disk has kept, and then those of a source of new keys,
/// each of which it keeps first. It is seen as that source, the disk, how many keys it gave, whether its
/// last answer was the end, and how many reads there were.
#[derive(Debug, Drop)]
pub struct JournalKeys<S: Source, D: Disk> {
    inner: S,
    disk: D,
    stage: Stage,
    given: u64,
    ended: bool,
    reads: u64,
}

impl<S: Source, D: Disk> Model for JournalKeys<S, D> {
    ghost use Rattle.key_journal.specs.Journal.{PlainJournalKeys};
    ghost use Rattle.key_journal.specs.Private.Stages.{Stays};

    ghost Value = { PlainJournalKeys S D };

    ghost view = { λ journal. record {
      inner = journal.inner;
      disk = journal.disk;
      given = journal.given;
      ended = journal.ended;
      reads = journal.reads;
    } };

    ghost invariant = { λ journal. Stays journal.stage journal.given (D.past journal.disk) };
}

impl<S: Source, D: Disk> JournalKeys<S, D> {
    /// Opens the journal that the disk has, which may be an empty one. It syncs once, so that all that
    /// an earlier crash left is kept.
    ///
    /// It takes no memory of its own.
    pub fn open(inner: S, mut disk: D) -> Result<Self, (DiskFault, S, D)>
        ensures new { IfOk result (IsNew inner) }
        ensures back { IfErr result (λ refused. refused.1 ≡ inner) }
        ensures ok { IfOk result (λ journal.
            OpensDisk D.past D.faults disk journal.disk (Ok (tt {0}))) }
        ensures err { IfErr result (λ refused.
            OpensDisk {T = Unit {0}} D.past D.faults disk refused.2 (Err refused.0)) }
    {
        match disk.sync() {
            Ok(()) => Ok(JournalKeys {
                inner,
                disk,
                stage: Stage::Replaying,
                given: 0,
                ended: false,
                reads: 0,
            }),
            Err(fault) => Err((fault, inner, disk)),
        }
    }

    /// How many keys the journal gave.
    pub fn given(&self) -> u64
        ensures { result ≡ self.now.given }
    {
        self.given
    }

    /// Whether the last answer of this journal of keys was the end of them.
    pub fn ended(&self) -> bool
        ensures { result ≡ self.now.ended }
    {
        self.ended
    }

    /// Hands back the source and the disk of the journal as they stand.
    pub fn parts(self) -> (S, D)
        ensures source { result.0 ≡ self.inner }
        ensures disk { result.1 ≡ self.disk }
    {
        let JournalKeys {
            inner,
            disk,
            stage: _,
            given: _,
            ended: _,
            reads: _,
        } = self;
        (inner, disk)
    }

    /// Clears the journal: forgets all keys that are kept, and hands back the source and the disk.
    pub fn clear(self) -> Result<(S, D), (DiskFault, S, D)>
        requires { 0 < self.given }
        ensures source { IfOk result (λ parts. parts.0 ≡ self.inner) }
        ensures back { IfErr result (λ refused. refused.1 ≡ self.inner) }
        ensures ok { IfOk result (λ parts.
            Clears {E = DiskFault} (D.past self.disk) (D.past parts.1) (Ok (tt {0}))) }
        ensures err { IfErr result (λ refused.
            Clears (D.past self.disk) (D.past refused.2) (Err refused.0)) }
        ensures same { IfOk result (λ parts. D.faults parts.1 ≡ D.faults self.disk) }
        ensures cause { IfErr result (λ refused. HasCause {T = Unit {0}} DiskFault.Failed
            (D.faults self.disk) (D.faults refused.2) (Err refused.0)) }
    {
        let JournalKeys {
            inner,
            mut disk,
            stage: _,
            given: _,
            ended: _,
            reads: _,
        } = self;
        match clear_keys(&mut disk) {
            Ok(()) => Ok((inner, disk)),
            Err(fault) => Err((fault, inner, disk)),
        }
    }
}

// Clears the kept keys from the disk by shutting the first gate.
fn clear_keys<D: Disk>(disk: &mut D) -> Result<(), DiskFault>
    requires { Newest (LeavesAtLeast 1) (D.past disk.old) }
    ensures clears { Clears (D.past disk.old) (D.past disk.new) result }
    ensures cause { HasCause DiskFault.Failed (D.faults disk.old) (D.faults disk.new) result }
{
    disk.write_at(0, &[SHUT])?;
    disk.sync()
}

impl<S: Source, D: Disk> Source for JournalKeys<S, D> {
    ghost left = { λ journal.
        left_of_both (S.left journal.inner) (D.past journal.disk) journal.given };

    ghost reads = { λ journal. journal.reads };

    ghost faults = { λ journal.
        both_counts (S.faults journal.inner) (D.faults journal.disk) };

    ghost leads_to = { λ first now.
        LeadsTo S.left S.faults S.leads_to D.past D.faults first now };

    ghost breaks_at = { λ first now.
        BreaksAt S.left S.faults S.leads_to S.breaks_at D.past D.faults first now };

    ghost use Rattle.key_journal.specs.AfterReads.{leads_to_itself};

    ghost leads_to_itself = { λ journal. leads_to_itself S.left S.faults S.leads_to
        S.leads_to_itself D.past D.faults journal };

    /// Gives at most one key of the journal. A new key is given once no crash can lose it.
    fn read(&mut self, buf: &mut [u8]) -> Result<usize, SourceFault>
        requires { 0 < length buf.old }
        ensures key { ReadsKey (S.left self.old.inner) (S.left self.new.inner) self.old.given
            (D.past self.old.disk) (D.past self.new.disk) (key_read buf.new result) }
        ensures acknowledged { Newest (LeavesAtLeast self.new.given) (D.past self.new.disk) }
        ensures counted { CountsKey self.old self.new result }
        ensures either { HasEitherCause (S.faults self.old.inner) (S.faults self.new.inner)
            (D.faults self.old.disk) (D.faults self.new.disk) result }

        // As a source.
        ensures bytes { GivesBytes
            (left_of_both (S.left self.old.inner) (D.past self.old.disk) self.old.given)
            (left_of_both (S.left self.new.inner) (D.past self.new.disk) self.new.given)
            buf.new result }
        ensures one { self.new.reads ≡ raised self.old.reads }
        ensures cause { HasCause SourceFault.Failed
            (both_counts (S.faults self.old.inner) (D.faults self.old.disk))
            (both_counts (S.faults self.new.inner) (D.faults self.new.disk)) result }
        ensures led { IfOk result (λ _. (first : _) →
            LeadsTo S.left S.faults S.leads_to D.past D.faults first self.old →
            LeadsTo S.left S.faults S.leads_to D.past D.faults first self.new) }
        ensures broke { OnErr result ((first : _) →
            LeadsTo S.left S.faults S.leads_to D.past D.faults first self.old →
            BreaksAt S.left S.faults S.leads_to S.breaks_at D.past D.faults first self.new) }
    {
        self.reads = self.reads.saturating_add(1);
        match next_key(&mut self.inner, &mut self.disk, &mut self.stage, self.given) {
            Ok(Some(key)) => {
                self.given += 1;
                self.ended = false;
                buf[0] = key;
                Ok(1)
            }
            Ok(None) => {
                self.ended = true;
                Ok(0)
            }
            Err(fault) => {
                self.stage = Stage::Unsynced;
                self.ended = false;
                Err(fault)
            }
        }
    }
}
