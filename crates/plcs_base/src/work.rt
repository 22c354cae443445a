//! Counts of the editor's work.
ghost use Rattle.plcs_base.specs.PlainCounts.{ChecksOne, EmitsOne, FetchesOne, LaysOne, PlainCounts};

/// A counter of the editor's work, which only a program's caller can supply.
///
/// Each call raises its own count by one, and leaves the three others as they are. A count that has
/// come to 2^64 - 1 stays there.
pub trait Work {
    ghost counts: { Self → PlainCounts };

    /// Counts an instruction that was emitted into code.
    fn emitted(&mut self)
        ensures counts { EmitsOne (counts self.old) (counts self.new) };

    /// Counts a phrase that was checked against the declarations.
    fn checked(&mut self)
        ensures counts { ChecksOne (counts self.old) (counts self.new) };

    /// Counts an instruction that was fetched from code.
    fn fetched(&mut self)
        ensures counts { FetchesOne (counts self.old) (counts self.new) };

    /// Counts a line of the screen that was laid out.
    fn laid(&mut self)
        ensures counts { LaysOne (counts self.old) (counts self.new) };
}

/// The four counts of the editor's work, each of which stays at its last value.
#[derive(Clone, Copy, Debug, Default, PartialEq, Eq)]
pub struct Counts {
    /// Instructions emitted.
    pub emitted: u64,
    /// Phrases checked.
    pub checked: u64,
    /// Instructions fetched.
    pub fetched: u64,
    /// Lines laid out.
    pub laid: u64,
}

impl Work for Counts {
    ghost counts = { λ counts. record {
      emitted = counts.emitted;
      checked = counts.checked;
      fetched = counts.fetched;
      laid = counts.laid;
    } };

    fn emitted(&mut self) {
        self.emitted = self.emitted.saturating_add(1);
    }

    fn checked(&mut self) {
        self.checked = self.checked.saturating_add(1);
    }

    fn fetched(&mut self) {
        self.fetched = self.fetched.saturating_add(1);
    }

    fn laid(&mut self) {
        self.laid = self.laid.saturating_add(1);
    }
}
