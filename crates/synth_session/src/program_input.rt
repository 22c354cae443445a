//! The input of the program.
ghost use Rattle.std.specs.Prelude.{◌≡◌, ◌+◌, ◌<◌, ◌≤◌, ◌^◌, ◌∷◌, ◌++◌, [], OnErr, OnOk, length, nat_le};
ghost use Rattle.file_store.specs.Limit.{longest_input};

use file_store::LONGEST_INPUT;
use plcs_base::OutOfMemory;
use std::marker::Model;

/// The input of the program: the bytes that it may read, 1,048,576 at most. They are seen as a list.
#[derive(Drop)]
pub struct ProgramInput {
    bytes: Vec<u8>,
}

impl Model for ProgramInput {
    ghost use Rattle.std.specs.Prelude.{ℕ, ◌≤◌, List, length};
    ghost use Rattle.file_store.specs.Limit.{longest_input};

    ghost Value = { List ℕ };

    ghost view = { λ input. input.bytes.items };

    ghost invariant = { λ input. length input.bytes.items ≤ longest_input };
}

impl ProgramInput {
    /// The input of the program that is these bytes. It takes no memory.
    pub(crate) fn new(bytes: Vec<u8>) -> Self
        requires { length bytes.items ≤ longest_input }
        ensures { result ≡ bytes.items }
    {
        ProgramInput { bytes }
    }

    /// The bytes of the input.
    pub(crate) fn as_slice(&self) -> &[u8]
        ensures bytes { result.now ≡ self.now }
        ensures short { length result.now ≤ longest_input }
    {
        self.bytes.as_slice()
    }

    /// Whether the input has room for the text and a line end.
    pub(crate) fn has_room(&self, text: &[u8]) -> bool
        ensures { result ≡ nat_le (length self.now + (length text.now + 1)) longest_input }
    {
        text.len() < LONGEST_INPUT - self.bytes.len()
    }

    /// Puts the text behind the input, with a line end; it has room for both. If memory runs out, nothing is changed.
    pub(crate) fn add_line(&mut self, text: &[u8]) -> Result<(), OutOfMemory>
        requires { length self.old + (length text.now + 1) ≤ longest_input }
        ensures added { OnOk result (self.new ≡ self.old ++ (text.now ++ 10 ∷ [])) }
        ensures refused { OnErr result (self.new ≡ self.old) }
    {
        self.bytes.reserve(text.len() + 1)?;
        if self.bytes.extend_from_slice(text).is_err() || self.bytes.push(b'\n').is_err() {
            unreachable!()
        }
        Ok(())
    }
}
