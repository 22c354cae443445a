//! A sink that keeps its bytes in memory.

ghost use Rattle.std.specs.Prelude.{◌≡◌, ◌<◌, [], length, Some, IfOk, OnErr};
ghost use Rattle.synth_outside.specs.Calls.{MakesCall};
ghost use Rattle.synth_outside.specs.Cause.{HasCause};
ghost use Rattle.synth_outside.specs.Sink.{TakesBytes};

use super::calls::Calls;
use super::{Sink, SinkFault};
use std::alloc::Global;
use std::marker::Model;

/// A sink that keeps its bytes in memory, and that fails where it is told to.
///
/// It is seen as the bytes taken, the calls made with those that are to fail, and the count of wants
/// of memory.
#[derive(Debug, Drop)]
pub struct MemSink {
    bytes: Vec<u8>,
    calls: Calls,
    wants: u64,
}

impl Model for MemSink {
    ghost use Rattle.synth_outside.specs.MemSink.{PlainMemSink};

    ghost Value = { PlainMemSink };

    ghost view = { λ sink.
        record { taken = sink.bytes.items; calls = sink.calls; wants = sink.wants } };
}

impl MemSink {
    /// A sink in memory that took nothing yet; the calls whose numbers, from 1, are in `fails` are
    /// to fail.
    pub fn new(alloc: Global, fails: Vec<u64>) -> Self
        ensures taken { result.taken ≡ [] }
        ensures calls { result.calls ≡ record { fails = fails.items; made = 0; faults = 0 } }
        ensures wants { result.wants ≡ 0 }
    {
        MemSink {
            bytes: Vec::new(alloc),
            calls: Calls::new(fails),
            wants: 0,
        }
    }

    /// The bytes that the sink in memory took so far.
    pub fn bytes(&self) -> &[u8]
        ensures { result.now ≡ self.now.taken }
    {
        self.bytes.as_slice()
    }
}

impl Sink for MemSink {
    ghost taken = { λ sink. Some sink.taken };

    ghost faults = { λ sink. sink.calls.faults };

    ghost wants = { λ sink. sink.wants };

    /// Keeps the whole piece in memory, or nothing of it.
    fn write(&mut self, piece: &[u8]) -> Result<usize, SinkFault>
        requires { 0 < length piece.now }
        ensures bytes { TakesBytes (Some self.old.taken) (Some self.new.taken) piece.now result }

        // Which answer comes, and what was taken, exactly; want of memory comes only in place of
        // success.
        ensures called { MakesCall SinkFault.Failed self.old.calls self.new.calls result }
        ensures want { HasCause SinkFault.OutOfMemory self.old.wants self.new.wants result }
        ensures whole { IfOk result (λ n. n ≡ length piece.now) }
        ensures kept { OnErr result (self.new.taken ≡ self.old.taken) }
    {
        if self.calls.next_fails() {
            return Err(SinkFault::Failed);
        }
        match self.bytes.extend_from_slice(piece) {
            Ok(()) => Ok(piece.len()),
            Err(_) => {
                self.wants = self.wants.saturating_add(1);
                Err(SinkFault::OutOfMemory)
            }
        }
    }
}
