//! The token that a text begins with.
ghost use Rattle.std.specs.Prelude.{◌≡◌, min, true};
ghost use Rattle.plcs_base.specs.Byte.{is_letter};
ghost use Rattle.plcs_grammar.specs.Token.{begins_with, numeral_value};
ghost use Rattle.phrase_parser.specs.Private.PlacedToken.{greatest_kept};
ghost use Rattle.phrase_parser.specs.Private.Front.{front_of, word_front, number_front, constant_front, sign_front, sign_kept};

use crate::byte_class::{ByteClass, leading};
use crate::constant::{bit_constant, constant_length};
use crate::token::{GREATEST_KEPT, TokenKind};
use plcs_base::{LONGEST_NAME, is_digit, is_keyword, is_letter};
use plcs_grammar::{Sign, numeral_value};

/// A token that a text begins with.
#[derive(Clone, Copy)]
pub struct Front {
    /// The kind of the token.
    pub kind: TokenKind,
    /// How many bytes the token has.
    pub length: usize,
}

/// The longest token that the text begins with. `None` where no token can be made there.
pub fn front_of(text: &[u8]) -> Option<Front>
    ensures { result ≡ front_of text.now }
{
    match text {
        [] => None,
        [b'\'', ..] => constant_front(text),
        [byte, ..] if is_letter(*byte) => word_front(text),
        [byte, ..] if is_digit(*byte) => Some(number_front(text)),
        [first, rest @ ..] => sign_front(*first, rest),
    }
}

/// The name or keyword that a text begins with, where its first byte is a letter. A run of more bytes than a
/// name may have is neither.
#[tactic(auto, using(crate::proofs::Tokens::Words::word_kept))]
fn word_front(text: &[u8]) -> Option<Front>
    requires { begins_with is_letter text.now ≡ true }
    ensures { result ≡ word_front text.now }
{
    let length = leading(ByteClass::NameByte, text);
    if length > LONGEST_NAME {
        return None;
    }
    let kind = if is_keyword(&text[..length]) {
        TokenKind::Keyword
    } else {
        TokenKind::Name
    };
    Some(Front { kind, length })
}

/// The number that a text begins with, where its first byte is a digit.
fn number_front(text: &[u8]) -> Front
    ensures { result ≡ number_front text.now }
{
    let length = leading(ByteClass::Digit, text);
    let kind = TokenKind::Number(kept_value(&text[..length]));
    Front { kind, length }
}

/// The value that is kept with the token that a text begins with, where that is a number of these digits, or
/// `GREATEST_KEPT` where it is greater.
fn kept_value(digits: &[u8]) -> u32
    ensures { result ≡ min (numeral_value digits.now) greatest_kept }
{
    numeral_value(digits).min(u64::from(GREATEST_KEPT)) as u32
}

/// The token that a text begins with where its first byte is a quote: a bit constant, or else a character constant.
fn constant_front(text: &[u8]) -> Option<Front>
    ensures { result ≡ constant_front text.now }
{
    if let Some(bit) = bit_constant(text) {
        return Some(Front {
            kind: TokenKind::Bit(bit),
            length: 4,
        });
    }
    match constant_length(text) {
        Some(length) => Some(Front {
            kind: TokenKind::Text,
            length,
        }),
        None => None,
    }
}

/// The sign that a text begins with: of its first two bytes, or else of the first.
fn sign_front(first: u8, rest: &[u8]) -> Option<Front>
    ensures { result ≡ sign_front first rest.now }
{
    if let [second, ..] = rest {
        if let Some(sign) = Sign::read(&[first, *second]) {
            return Some(sign_kept(sign, 2));
        }
    }
    match Sign::read(&[first]) {
        Some(sign) => Some(sign_kept(sign, 1)),
        None => None,
    }
}

/// The front that a sign of so many bytes is.
fn sign_kept(sign: Sign, length: usize) -> Front
    ensures { result ≡ sign_kept sign length }
{
    Front {
        kind: TokenKind::Sign(sign),
        length,
    }
}
