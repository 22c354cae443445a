//! A source over a reader of std's.

ghost use Rattle.std.specs.Prelude.{◌≡◌, ◌≢◌, ◌<◌, length, Err, is_ok, if◌then◌else◌};
ghost use Rattle.plcs_base.specs.Count.{raised};
ghost use Rattle.synth_outside.specs.Cause.{HasCause};
ghost use Rattle.synth_outside.specs.Source.{GivesBytes};

use super::{Source, SourceFault};
use std::io::Read;
use std::marker::Model;

/// A source over any reader of std's, as standard input.
///
/// It is seen as the reader with the counts of reads and of faults. It tells the bytes that the
/// reader tells; a stream of the system tells none.
#[derive(Debug, Drop)]
pub struct StdSource<R> {
    inner: R,
    reads: u64,
    faults: u64,
}

impl<R> Model for StdSource<R> {
    ghost use Rattle.synth_outside.specs.StdSource.{PlainStdSource};

    ghost Value = { PlainStdSource R };

    ghost view = { λ source.
        record { inner = source.inner; reads = source.reads; faults = source.faults } };
}

impl<R> StdSource<R> {
    /// A source over the reader `inner`, with no read so far.
    pub fn new(inner: R) -> Self
        ensures { result ≡ record { inner = inner; reads = 0; faults = 0 } }
    {
        StdSource {
            inner,
            reads: 0,
            faults: 0,
        }
    }
}

impl<R: Read> Source for StdSource<R> {
    ghost left = { λ source. R.remaining source.inner };

    ghost reads = { λ source. source.reads };

    ghost faults = { λ source. source.faults };

    ghost leads_to = { λ _ _. Unit {0} };

    ghost breaks_at = { λ _ _. Unit {0} };

    ghost leads_to_itself = { λ _. tt };

    /// Each `Err` of the reader raises the count of faults by one and is answered `Failed`.
    fn read(&mut self, buf: &mut [u8]) -> Result<usize, SourceFault>
        requires { 0 < length buf.old }
        ensures bytes { GivesBytes (R.remaining self.old.inner) (R.remaining self.new.inner) buf.new
            result }
        ensures one { self.new.reads ≡ raised self.old.reads }
        ensures cause { HasCause SourceFault.Failed self.old.faults self.new.faults result }

        // The count, exactly; memory is never wanted.
        ensures counted { self.new.faults ≡
            (if is_ok result then self.old.faults else raised self.old.faults) }
        ensures memory { result ≢ Err SourceFault.OutOfMemory }
    {
        self.reads = self.reads.saturating_add(1);
        match self.inner.read(buf) {
            Ok(count) => Ok(count),
            Err(_) => {
                self.faults = self.faults.saturating_add(1);
                Err(SourceFault::Failed)
            }
        }
    }
}
