//! The values of tokens, read from their bytes.

ghost use Rattle.std.specs.Prelude.{◌≡◌, ◌≤◌, length, if◌then◌else◌};
ghost use Rattle.plcs_base.specs.Name.{IsName};
ghost use Rattle.plcs_base.specs.Text.{IsTextValue};
ghost use Rattle.plcs_grammar.specs.Token.{is_quote};
ghost use Rattle.phrase_parser.specs.Private.Unquoted.{undoubled, undoubled_behind};
ghost use Rattle.phrase_parser.specs.Private.TokenIn.{IsConstant, between_quotes};

use arrayvec::ArrayVec;
use plcs_base::{LONGEST_TEXT, Name, TextValue};

/// The name that the bytes of a token are.
pub fn name_of(bytes: &[u8]) -> Name
    requires { IsName bytes.now }
    ensures { result ≡ bytes.now }
{
    Name::of(bytes)
}

/// The value of the character constant that the bytes of a token are.
#[tactic(auto, using(crate::proofs::Tokens::ConstantValues::constant_long, crate::proofs::Tokens::ConstantValues::constant_short))]
pub fn constant_value(bytes: &[u8]) -> TextValue
    requires { IsConstant bytes.now }
    ensures { result ≡ undoubled (between_quotes bytes.now) }
{
    undoubled(&bytes[1..bytes.len() - 1])
}

/// The bytes of a character constant's value, with one quote for each two.
fn undoubled(bytes: &[u8]) -> TextValue
    requires { IsTextValue (undoubled bytes.now) }
    ensures { result ≡ undoubled bytes.now }
{
    let mut value: ArrayVec<u8, LONGEST_TEXT> = ArrayVec::new();
    let mut left = bytes;
    while let [byte, behind @ ..] = left {
        value.push(*byte);
        left = behind_quote(*byte, behind);
    }
    TextValue::read(value.as_slice()).unwrap()
}

/// What is left of a constant's bytes behind the byte and, where it is a quote, behind the quote that doubles it.
fn behind_quote(byte: u8, rest: &[u8]) -> &[u8]
    ensures left { undoubled result.now ≡ (if is_quote byte then undoubled_behind rest.now else undoubled rest.now) }
    ensures shorter { length result.now ≤ length rest.now }
{
    if byte != b'\'' {
        return rest;
    }
    match rest {
        [] => rest,
        [_, behind @ ..] => behind,
    }
}
