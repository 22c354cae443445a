//! The texts that values hold.
ghost use Rattle.std.specs.Prelude.{◌≡◌, ◌↔◌, ◌≤◌, IsSome, IfSome, IsTrue};
ghost use Rattle.plcs_base.specs.Text.{IsTextValue};

use arrayvec::ArrayVec;
use std::marker::Model;

/// How many bytes the text of a value may have.
pub const LONGEST_TEXT: usize = 256;

/// The text that a value holds, which contracts see as its bytes.
///
/// It may hold any bytes. That a phrase spells only the bytes from 32 to 126 is a rule of phrases.
#[derive(Clone, Debug, Drop, PartialEq, Eq)]
pub struct TextValue {
    bytes: ArrayVec<u8, LONGEST_TEXT>,
}

impl Model for TextValue {
    ghost use Rattle.std.specs.Prelude.{List, ℕ};
    ghost use Rattle.plcs_base.specs.Text.{IsTextValue};

    ghost Value = { List ℕ };

    ghost view = { λ text. text.bytes.items };

    ghost invariant = { λ text. IsTextValue text.bytes.items };

    ghost inverse = { λ bytes. record { bytes = record { items = bytes } } };
}

impl TextValue {
    /// The bytes as the text of a value, or `None` where there are more than 256.
    pub fn read(bytes: &[u8]) -> Option<TextValue>
        ensures fits { IsSome result ↔ (IsTextValue bytes.now) }
        ensures same { IfSome result (λ text. text ≡ bytes.now) }
    {
        match ArrayVec::try_from(bytes) {
            Ok(kept) => Some(TextValue { bytes: kept }),
            Err(_) => None,
        }
    }

    /// The bytes of the text that the value holds, at most 256.
    pub fn as_bytes(&self) -> &[u8]
        ensures bytes { result.now ≡ self.now }
        ensures short { IsTextValue self.now }
    {
        self.bytes.as_slice()
    }
}
