//! A source whose bytes lie in memory.

ghost use Rattle.std.specs.Prelude.{◌≡◌, ◌<◌, min, length, Some, Ok, Err, OnErr, if◌then◌else◌};
ghost use Rattle.synth_outside.specs.Calls.{MakesCall, is_failing};
ghost use Rattle.synth_outside.specs.Source.{GivesBytes};

use super::calls::Calls;
use super::unread::Unread;
use super::{Source, SourceFault};
use std::marker::Model;

/// A source whose bytes lie in memory, and that fails where it is told to.
///
/// It is seen as the bytes left, and the calls made with those that are to fail. It never wants
/// memory.
#[derive(Debug, Drop)]
pub struct MemSource {
    unread: Unread,
    calls: Calls,
}

impl Model for MemSource {
    ghost use Rattle.synth_outside.specs.MemSource.{PlainMemSource};

    ghost Value = { PlainMemSource };

    ghost view = { λ source. record { left = source.unread; calls = source.calls } };
}

impl MemSource {
    /// A source in memory of which all of `bytes` is left to read; the calls whose numbers, from 1,
    /// are in `fails` are to fail.
    pub fn new(bytes: Vec<u8>, fails: Vec<u64>) -> Self
        ensures left { result.left ≡ bytes.items }
        ensures calls { result.calls ≡ record { fails = fails.items; made = 0; faults = 0 } }
    {
        MemSource {
            unread: Unread::new(bytes),
            calls: Calls::new(fails),
        }
    }
}

impl Source for MemSource {
    ghost left = { λ source. Some source.left };

    ghost reads = { λ source. source.calls.made };

    ghost faults = { λ source. source.calls.faults };

    ghost leads_to = { λ _ _. Unit {0} };

    ghost breaks_at = { λ _ _. Unit {0} };

    ghost leads_to_itself = { λ _. tt };

    /// Gives as many of the bytes in memory as are left and fit. A call that fails loses none.
    fn read(&mut self, buf: &mut [u8]) -> Result<usize, SourceFault>
        requires { 0 < length buf.old }
        ensures bytes { GivesBytes (Some self.old.left) (Some self.new.left) buf.new result }

        // Which answer comes, and what is left, exactly.
        ensures called { MakesCall SourceFault.Failed self.old.calls self.new.calls result }
        ensures answer { result ≡ (if is_failing self.old.calls then Err SourceFault.Failed
            else Ok (min (length buf.old) (length self.old.left))) }
        ensures kept { OnErr result (self.new.left ≡ self.old.left) }
    {
        if self.calls.next_fails() {
            return Err(SourceFault::Failed);
        }
        Ok(self.unread.give(buf))
    }
}
