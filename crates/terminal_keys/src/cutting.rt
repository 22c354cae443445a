//! Bytes that are cut into sequences one after the other.

ghost use Rattle.std.specs.Prelude.{◌≡◌, ◌*◌, ◌+◌, ◌≤◌, [], ◌∷◌, ◌++◌, false, true, length};
ghost use Rattle.arrayvec.specs.ArrayVec.{array_vec_len};
ghost use Rattle.terminal_keys.specs.Private.PassedSoFar.{GivesBehind, GivesMore};
ghost use Rattle.terminal_keys.specs.Sequence.{bell, can_follow, is_whole, of_sequences, passed_of_sequence};

use crate::sequence::{can_follow, is_whole, passed_of_sequence};
use arrayvec::ArrayVec;

/// The bell of a terminal.
const BELL: u8 = 7;

/// The most bytes that are cut into sequences at once.
pub const MOST_CUT: usize = 128;

/// What passes of some sequences.
pub type Passed = ArrayVec<u8, 4096>;

/// The bells of some sequences.
pub type Bells = ArrayVec<u8, 512>;

/// The sequence that the bytes so far have begun: it lacks bytes, or none has begun.
#[derive(Drop)]
pub struct Begun {
    pub bytes: ArrayVec<u8, 32>,
    ghost lacks: { is_whole bytes.items ≡ false },
}

impl Begun {
    /// No sequence has begun.
    #[tactic(auto, unfolding(crate::specs::Sequence::is_whole))]
    pub fn new() -> Self
        ensures { result.bytes.items ≡ [] }
    {
        Begun {
            bytes: ArrayVec::new(),
        }
    }

    /// Takes bytes behind the begun sequence: appends what passes of the sequences that they end, and their bells.
    pub fn take_all(&mut self, bytes: &[u8], passes: &mut Passed, bells: &mut Bells)
        requires short { length bytes.now ≤ 128 }
        requires no_passes { passes.old.items ≡ [] }
        requires no_bells { bells.old.items ≡ [] }
        ensures passes { GivesBehind passed_of_sequence self.old.bytes.items bytes.now passes.new.items
            self.new.bytes.items }
        ensures bells { GivesBehind bell self.old.bytes.items bytes.now bells.new.items self.new.bytes.items }
    {
        for byte in bytes {
            self.take(*byte, passes, bells);
        }
    }

    /// Takes a byte behind the begun sequence.
    fn take(&mut self, byte: u8, passes: &mut Passed, bells: &mut Bells)
        requires room { array_vec_len passes.old ≤ 4064 }
        requires bells_room { array_vec_len bells.old ≤ 510 }
        ensures passes { GivesMore passed_of_sequence self.old.bytes.items (byte ∷ []) passes.old.items passes.new.items
            self.new.bytes.items }
        ensures bells { GivesMore bell self.old.bytes.items (byte ∷ []) bells.old.items bells.new.items
            self.new.bytes.items }
        ensures few { array_vec_len passes.new ≤ array_vec_len passes.old + 30 }
        ensures few_bells { array_vec_len bells.new ≤ array_vec_len bells.old + 2 }
    {
        if !can_follow(self.bytes.as_slice(), byte) {
            self.break_off(bells);
        }
        self.go_on(byte, passes, bells);
    }

    /// Gives up the begun sequence, whose next byte can't follow.
    fn break_off(&mut self, bells: &mut Bells)
        requires { array_vec_len bells.old ≤ 510 }
        ensures none { self.new.bytes.items ≡ [] }
        ensures bells { bells.new.items ≡ bells.old.items ++ bell self.old.bytes.items }
        ensures few { array_vec_len bells.new ≡ array_vec_len bells.old + 1 }
    {
        bells.push(BELL);
        self.bytes.clear();
    }

    /// Takes a byte that can follow in the begun sequence.
    fn go_on(&mut self, byte: u8, passes: &mut Passed, bells: &mut Bells)
        requires follows { can_follow self.old.bytes.items byte ≡ true }
        requires room { array_vec_len passes.old ≤ 4064 }
        requires bells_room { array_vec_len bells.old ≤ 511 }
        ensures passes { GivesMore passed_of_sequence self.old.bytes.items (byte ∷ []) passes.old.items passes.new.items
            self.new.bytes.items }
        ensures bells { GivesMore bell self.old.bytes.items (byte ∷ []) bells.old.items bells.new.items
            self.new.bytes.items }
        ensures few { array_vec_len passes.new ≤ array_vec_len passes.old + 30 }
        ensures few_bells { array_vec_len bells.new ≤ array_vec_len bells.old + 1 }
    {
        self.bytes.push(byte);
        if is_whole(self.bytes.as_slice()) {
            give(self.bytes.as_slice(), passes, bells);
            self.bytes.clear();
        }
    }

    /// Rings for the begun sequence, if there is one: no byte comes any more.
    pub fn end(self) -> Bells
        ensures passes { of_sequences passed_of_sequence self.bytes.items [] ≡ [] }
        ensures bells { of_sequences bell self.bytes.items [] ≡ result.items }
    {
        let mut bells = Bells::new();
        if !self.bytes.is_empty() {
            bells.push(BELL);
        }
        bells
    }
}

/// Appends what passes of a sequence that has its last byte, or its bell where nothing does.
fn give(sequence: &[u8], passes: &mut Passed, bells: &mut Bells)
    requires whole { is_whole sequence.now ≡ true }
    requires room { array_vec_len passes.old ≤ 4064 }
    requires bells_room { array_vec_len bells.old ≤ 511 }
    ensures passes { passes.new.items ≡ passes.old.items ++ passed_of_sequence sequence.now }
    ensures bells { bells.new.items ≡ bells.old.items ++ bell sequence.now }
    ensures few { array_vec_len passes.new ≤ array_vec_len passes.old + 30 }
    ensures few_bells { array_vec_len bells.new ≤ array_vec_len bells.old + 1 }
{
    let text = passed_of_sequence(sequence);
    if text.is_empty() {
        bells.push(BELL);
    } else {
        put(passes, text);
    }
}

/// Appends what passes of a sequence to what passes of those that were cut before it; it has to fit.
fn put(passes: &mut Passed, text: &[u8])
    requires { array_vec_len passes.old + length text.now ≤ 4096 }
    ensures all { passes.new.items ≡ passes.old.items ++ text.now }
    ensures len { array_vec_len passes.new ≡ array_vec_len passes.old + length text.now }
{
    match passes.try_extend_from_slice(text) {
        Ok(()) => {}
        Err(_) => unreachable!(),
    }
}
