//! A sink over a writer of std's.

ghost use Rattle.std.specs.Prelude.{◌≡◌, ◌≢◌, ◌<◌, length, Err, is_ok, if◌then◌else◌};
ghost use Rattle.plcs_base.specs.Count.{raised};
ghost use Rattle.synth_outside.specs.Cause.{HasCause};
ghost use Rattle.synth_outside.specs.Sink.{TakesBytes};

use super::{Sink, SinkFault};
use std::io::Write;
use std::marker::Model;

/// A sink over any writer of std's, as standard output, that is flushed in each write.
///
/// It is seen as the writer with the count of faults. It tells the bytes that the writer tells; a
/// stream of the system tells none.
#[derive(Debug, Drop)]
pub struct StdSink<W> {
    inner: W,
    faults: u64,
}

impl<W> Model for StdSink<W> {
    ghost use Rattle.synth_outside.specs.StdSink.{PlainStdSink};

    ghost Value = { PlainStdSink W };

    ghost view = { λ sink. record { inner = sink.inner; faults = sink.faults } };
}

impl<W> StdSink<W> {
    /// A sink over the writer `inner`, with no fault so far.
    pub fn new(inner: W) -> Self
        ensures { result ≡ record { inner = inner; faults = 0 } }
    {
        StdSink { inner, faults: 0 }
    }
}

impl<W: Write> Sink for StdSink<W> {
    ghost taken = { λ sink. W.contents sink.inner };

    ghost faults = { λ sink. sink.faults };

    ghost wants = { λ _. 0 };

    /// Each `Err` of the writer, a write that takes no byte and a failed flush raise the count by
    /// one and are answered `Failed`.
    fn write(&mut self, piece: &[u8]) -> Result<usize, SinkFault>
        requires { 0 < length piece.now }
        ensures bytes { TakesBytes (W.contents self.old.inner) (W.contents self.new.inner) piece.now
            result }
        ensures cause { HasCause SinkFault.Failed self.old.faults self.new.faults result }

        // The count, exactly; memory is never wanted.
        ensures counted { self.new.faults ≡
            (if is_ok result then self.old.faults else raised self.old.faults) }
        ensures memory { result ≢ Err SinkFault.OutOfMemory }
    {
        if let Ok(count) = self.inner.write(piece)
            && count > 0
            && self.inner.flush().is_ok()
        {
            return Ok(count);
        }
        self.faults = self.faults.saturating_add(1);
        Err(SinkFault::Failed)
    }
}
