//! The length of what is shown.
ghost use Rattle.std.specs.Prelude.{◌≡◌, ◌+◌, min, length};
ghost use Rattle.plcs_grammar.specs.PlainPhrase.{plain_phrase};
ghost use Rattle.plcs_grammar.specs.Canon.{Canon, longest_shown};

use crate::phrase::Phrase;
use crate::show_phrase::show;
use plcs_base::ByteOut;

/// The length in bytes of what is shown of a phrase, which is its canonical text, or 4294967295 where it is
/// longer.
pub fn shown_len(phrase: &Phrase) -> u32
    ensures { result ≡ min (length (Canon (plain_phrase phrase.now))) longest_shown }
{
    let mut out = LengthOut { count: 0 };
    show(phrase, &mut out);
    out.count
}

/// A sink that only counts the bytes that are put; at its last value the count stays.
#[derive(Drop)]
struct LengthOut {
    count: u32,
}

impl ByteOut for LengthOut {
    ghost puts = { λ before byte after. after.count ≡ min (before.count + 1) longest_shown };

    fn put(&mut self, _byte: u8) {
        self.count = self.count.saturating_add(1);
    }
}
