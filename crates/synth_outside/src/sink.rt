//! The trait of sinks, which bytes are written to.

ghost use Rattle.std.specs.Prelude.{ℕ, ◌<◌, List, length, Option};
ghost use Rattle.synth_outside.specs.Cause.{HasCause};
ghost use Rattle.synth_outside.specs.Sink.{TakesBytes};

use super::SinkFault;

/// Where bytes go, one piece after the other.
///
/// `taken` is the bytes that were taken so far; where it is `None`, nothing is claimed of them.
/// `faults` counts the failures so far and `wants` the wants of memory. Neither ever falls, and each
/// stays at 2^64 - 1 once it is there.
pub trait Sink {
    ghost taken: { Self → Option (List ℕ) };

    ghost faults: { Self → ℕ };

    ghost wants: { Self → ℕ };

    /// Takes the first bytes of the piece into the sink, at least one, and answers how many.
    ///
    /// A write that isn't `Ok` may have taken a prefix of the piece, and doesn't say how long it is.
    fn write(&mut self, piece: &[u8]) -> Result<usize, SinkFault>
        requires { 0 < length piece.now }
        ensures bytes { TakesBytes (taken self.old) (taken self.new) piece.now result }
        ensures cause { HasCause SinkFault.Failed (faults self.old) (faults self.new) result }
        ensures want { HasCause SinkFault.OutOfMemory (wants self.old) (wants self.new) result };
}
