//! Bytes as a word in quotes.

use std::alloc::{AllocError, Global};

/// The bytes as a word of a script that `words_of` reads as them: in quotes, with an escape for each
/// quote, backslash, and byte outside 32 to 126.
pub fn quoted(alloc: Global, bytes: &[u8]) -> Result<String, AllocError> {
    let mut text = String::new(alloc);
    text.push('"')?;
    for byte in bytes {
        put_byte(&mut text, *byte)?;
    }
    text.push('"')?;
    Ok(text)
}

/// Puts a byte as it stands in quotes.
fn put_byte(text: &mut String, byte: u8) -> Result<(), AllocError> {
    match byte {
        b'\n' => text.push_str("\\n"),
        b'\r' => text.push_str("\\r"),
        b'\t' => text.push_str("\\t"),
        27 => text.push_str("\\e"),
        b'"' => text.push_str("\\\""),
        b'\\' => text.push_str("\\\\"),
        32..=126 => text.push(byte as char),
        _ => {
            text.push_str("\\x")?;
            text.push(digit(byte >> 4))?;
            text.push(digit(byte & 15))
        }
    }
}

/// The digit of a number below 16, as an escape in a word in quotes has it.
fn digit(number: u8) -> char {
    match number {
        0..=9 => (b'0' + number) as char,
        10..=15 => (b'a' + (number - 10)) as char,
        _ => '?',
    }
}
