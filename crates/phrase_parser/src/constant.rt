//! Constants at the front of a text.
ghost use Rattle.std.specs.Prelude.{◌≡◌, drop};
ghost use Rattle.phrase_parser.specs.Private.Front.{bit_value, bit_constant, constant_end, ends_word};

use plcs_base::{LONGEST_TEXT, is_name_byte, is_printable};

/// The bit constant that the text begins with.
pub fn bit_constant(text: &[u8]) -> Option<bool>
    ensures { result ≡ bit_constant text.now }
{
    match text {
        [b'\'', digit, b'\'', b'B', behind @ ..] if ends_word(behind) => bit_value(*digit),
        _ => None,
    }
}

/// In a bit constant at the front of a text, the bit that a digit stands for.
fn bit_value(digit: u8) -> Option<bool>
    ensures { result ≡ bit_value digit }
{
    match digit {
        b'0' => Some(false),
        b'1' => Some(true),
        _ => None,
    }
}

/// Whether a bit constant may end where the text begins: no letter, digit or `_` follows.
fn ends_word(behind: &[u8]) -> bool
    ensures { result ≡ ends_word behind.now }
{
    match behind {
        [] => true,
        [byte, ..] => !is_name_byte(*byte),
    }
}

/// How many bytes the character constant has whose opening quote is the first byte of the text. `None`
/// where it is no token: it isn't closed, holds a byte that isn't printable, or is too long.
pub fn constant_length(text: &[u8]) -> Option<usize>
    ensures { result ≡ constant_end 1 0 (drop 1 text.now) }
{
    let mut end = 1;
    let mut content = 0;
    while end < text.len() {
        if text[end] != b'\'' {
            if !is_printable(text[end]) {
                return None;
            }
            end += 1;
        } else if end + 1 < text.len() && text[end + 1] == b'\'' {
            end += 2;
        } else {
            return if content <= LONGEST_TEXT {
                Some(end + 1)
            } else {
                None
            };
        }
        content += 1;
    }
    None
}
