//! The trait of sources, which bytes are read from.

ghost use Rattle.std.specs.Prelude.{◌≡◌, ℕ, ◌<◌, List, length, Option, IfOk, OnErr};
ghost use Rattle.plcs_base.specs.Count.{raised};
ghost use Rattle.synth_outside.specs.Cause.{HasCause};
ghost use Rattle.synth_outside.specs.Source.{GivesBytes};

use super::SourceFault;

/// Where bytes come from, one read after the other.
///
/// `left` is the bytes that are left to read; where it is `None`, nothing is claimed of them.
/// `reads` counts the reads so far, and `faults` those that failed. Neither ever falls, and each
/// stays at 2^64 - 1 once it is there.
///
/// What a source keeps besides it can tell by two relations of its own. `leads_to` is between a
/// source and the same one after some reads that were `Ok`, and `breaks_at` between a source and the
/// same one after such reads and then one that wasn't. So whoever reads from any source, and hands
/// on which of the two holds, tells its caller what became of this one.
pub trait Source {
    ghost left: { Self → Option (List ℕ) };

    ghost reads: { Self → ℕ };

    ghost faults: { Self → ℕ };

    ghost leads_to: { Self → Self → Type 0 };

    ghost breaks_at: { Self → Self → Type 0 };

    ghost leads_to_itself: { (source : Self) → leads_to source source };

    /// Moves the first bytes that the source has left into the front of the buffer, and answers how many.
    ///
    /// `Ok(0)` is the end. A read that isn't `Ok` may have lost some first bytes, at most as many
    /// as the buffer holds. What stands in the buffer behind the bytes given, or where the read
    /// isn't `Ok`, isn't told, and want of memory isn't counted.
    fn read(&mut self, buf: &mut [u8]) -> Result<usize, SourceFault>
        requires { 0 < length buf.old }
        ensures bytes { GivesBytes (left self.old) (left self.new) buf.new result }
        ensures one { reads self.new ≡ raised (reads self.old) }
        ensures cause { HasCause SourceFault.Failed (faults self.old) (faults self.new) result }

        ensures led { IfOk result
            (λ _. (first : Self) → leads_to first self.old → leads_to first self.new) }
        ensures broke { OnErr result
            ((first : Self) → leads_to first self.old → breaks_at first self.new) };
}
