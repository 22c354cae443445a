//! Which calls on a value in memory are to fail.

ghost use Rattle.std.specs.Prelude.{◌≡◌, ◌≤◌};
ghost use Rattle.synth_outside.specs.Calls.{is_failing, after_call};

use std::marker::Model;

/// The calls made on a value in memory, counted from 1, and which of them are to fail.
#[derive(Debug, Drop)]
pub struct Calls {
    fails: Vec<u64>,
    made: u64,
    faults: u64,
}

impl Model for Calls {
    ghost use Rattle.synth_outside.specs.Calls.{PlainCalls};

    ghost Value = { PlainCalls };

    ghost view = { λ calls.
        record { fails = calls.fails.items; made = calls.made; faults = calls.faults } };
}

impl Calls {
    /// Calls of which none was made yet; those whose numbers, from 1, are in `fails` are to fail.
    pub fn new(fails: Vec<u64>) -> Self
        ensures { result ≡ record { fails = fails.items; made = 0; faults = 0 } }
    {
        Calls {
            fails,
            made: 0,
            faults: 0,
        }
    }

    /// Counts one more call, and answers whether it is to fail, which counts a fault.
    pub fn next_fails(&mut self) -> bool
        ensures answer { result ≡ is_failing self.old }
        ensures after { self.new ≡ after_call self.old }
        ensures later { self.old.faults ≤ self.new.faults }
    {
        self.made = self.made.saturating_add(1);
        let is_listed = self.fails.contains(&self.made);
        if is_listed {
            self.faults = self.faults.saturating_add(1);
        }
        is_listed
    }
}
