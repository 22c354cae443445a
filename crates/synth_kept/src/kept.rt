//! A session whose keys are kept.

ghost use Rattle.std.specs.Prelude.{◌≡◌, ◌⊎◌, ◌↔◌, ◌<◌, IsTrue, None, map, string_bytes};
ghost use Rattle.key_journal.specs.Journal.{both_counts};
ghost use Rattle.plcs_base.specs.Count.{Rose};
ghost use Rattle.synth_kept.specs.KeptWholeRun.{KeptEnded};
ghost use Rattle.synth_kept.specs.Private.Agreement.{IsToClear};
ghost use Rattle.synth_kept.specs.Private.Clearing.{ClearsKeys};
ghost use Rattle.synth_outside.specs.Cause.{RisesWith};
ghost use Rattle.synth_top.specs.Task.{task_of};

use crate::status::KeptStatus;
use key_journal::{Disk, JournalKeys};
use plcs_base::Work;
use std::alloc::Global;
use synth_outside::{Files, Sink, Source};
use synth_top::{Status, synth};

/// Edits a program as `synth` does, over the keys that the disk has kept and then those of the source,
/// each of which is kept before it is acted on. Where a key ends the session, the kept keys are
/// forgotten.
pub fn synth_kept<S: Source, K: Sink, F: Files, D: Disk, W: Work>(
    alloc: Global,
    words: &[String],
    keys: S,
    screen: &mut K,
    files: &mut F,
    disk: D,
    work: &mut W,
) -> (KeptStatus, S, D)
    // Which keys the editor was given, what it wrote, and what a crash leaves.
    ensures ended { KeptEnded (task_of (map string_bytes words.now)) result.0
        (record {
          left = S.left keys;
          past = D.past disk;
          taken = K.taken screen.old;
          wants = K.wants screen.old;
          files = F.told files.old;
          counts = W.counts work.old;
        })
        (record {
          left = S.left result.1;
          past = D.past result.2;
          taken = K.taken screen.new;
          wants = K.wants screen.new;
          files = F.told files.new;
          counts = W.counts work.new;
        })
        ((result.1 ≡ keys) × (screen.new ≡ screen.old) × (files.new ≡ files.old) × (work.new ≡ work.old))
        (S.leads_to keys result.1) (S.breaks_at keys result.1) }

    // Words that aren't of the command are refused before anything is read or written.
    ensures bad_words { task_of (map string_bytes words.now) ≡ None →
        (result.1 ≡ keys) × (screen.new ≡ screen.old) × (files.new ≡ files.old) × (work.new ≡ work.old) }

    // A fault is answered exactly where the count of its own cause rose; that of reads is the sum of
    // the counts of source and disk.
    ensures read { RisesWith
        ((result.0 ≡ KeptStatus.Run Status.ReadFault) ⊎ (result.0 ≡ KeptStatus.JournalFault))
        (both_counts (S.faults keys) (D.faults disk))
        (both_counts (S.faults result.1) (D.faults result.2)) }
    ensures journal { result.0 ≡ KeptStatus.JournalFault →
        Rose (D.faults disk) (D.faults result.2) }
    ensures write { RisesWith (result.0 ≡ KeptStatus.Run Status.WriteFault)
        (K.faults screen.old) (K.faults screen.new) }
{
    let mut journal = match JournalKeys::open(keys, disk) {
        Ok(journal) => journal,
        Err((fault, keys, disk)) => return (KeptStatus::from(fault), keys, disk),
    };
    let run = synth(alloc, words, &mut journal, screen, files, work);
    if is_to_clear(run, &journal) {
        return clear(journal);
    }
    let (keys, disk) = journal.parts();
    (KeptStatus::Run(run), keys, disk)
}

// Whether a key ended the session, so that the journal is to be cleared: the editor is done, but not
// since the keys were at their end.
fn is_to_clear<S: Source, D: Disk>(run: Status, journal: &JournalKeys<S, D>) -> bool
    ensures { IsTrue result ↔ IsToClear run journal.now.given journal.now.ended }
{
    match run {
        Status::Done => journal.given() != 0 && !journal.ended(),
        _ => false,
    }
}

// Clears the journal after the run, which forgets the keys that are kept.
fn clear<S: Source, D: Disk>(journal: JournalKeys<S, D>) -> (KeptStatus, S, D)
    requires { 0 < journal.given }
    ensures cleared { ClearsKeys result.0 (D.past journal.disk) (D.past result.2)
        (D.faults journal.disk) (D.faults result.2) }
    ensures source { result.1 ≡ journal.inner }
{
    match journal.clear() {
        Ok((keys, disk)) => (KeptStatus::Run(Status::Done), keys, disk),
        Err((fault, keys, disk)) => (KeptStatus::from(fault), keys, disk),
    }
}
