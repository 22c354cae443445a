//! Values and types as words spell them, and values as they are told.

use case_script::{Told, number_of};
use plcs_base::{ItemType, TextValue, Value};

/// The type that a word names: `FIXED`, `BIT`, or the greatest length of a text.
pub(crate) fn type_of(word: &[u8]) -> Option<ItemType> {
    match word {
        b"FIXED" => Some(ItemType::Fixed),
        b"BIT" => Some(ItemType::Bit),
        word => Some(ItemType::Text(u16::try_from(number_of(word)?).ok()?)),
    }
}

/// The value that a word spells: a number, `'0'B` or `'1'B`, or the bytes between a first and a last quote.
pub(crate) fn value_of(word: &[u8]) -> Option<Value> {
    match word {
        b"'0'B" => Some(Value::Bit(false)),
        b"'1'B" => Some(Value::Bit(true)),
        [b'\'', bytes @ .., b'\''] => Some(Value::Text(TextValue::read(bytes)?)),
        [b'-', digits @ ..] => fixed(-(number_of(digits)? as i64)),
        digits => fixed(number_of(digits)? as i64),
    }
}

/// The value that a word spells which is this whole number, if that is in range.
fn fixed(number: i64) -> Option<Value> {
    Some(Value::Fixed(i32::try_from(number).ok()?))
}

/// Tells a value: a number, whether a bit is on, or the bytes of a text.
pub(crate) fn tell(value: &Value, told: &mut Told) {
    match value {
        Value::Fixed(number) => told.value(number),
        Value::Bit(bit) => told.value(bit),
        Value::Text(text) => told.word(text.as_bytes()),
    }
}
