//! Cases on bytes, names, texts and counts.
use case_script::Told;
use plcs_base::{
    ByteOut, Counts, Name, TextValue, Work, is_digit, is_letter, is_name_byte, is_printable,
};
use plcs_grammar::numeral_value;

/// A class of bytes that a case names.
#[derive(Clone, Copy)]
pub enum ByteClass {
    Letter,
    Digit,
    NameByte,
    Printable,
}

impl ByteClass {
    /// Whether the byte is of the class that a case names.
    fn has(self, byte: u8) -> bool {
        match self {
            ByteClass::Letter => is_letter(byte),
            ByteClass::Digit => is_digit(byte),
            ByteClass::NameByte => is_name_byte(byte),
            ByteClass::Printable => is_printable(byte),
        }
    }
}

/// Answers a case on bytes: those of all 256 bytes that are of the class.
pub fn put_class(class: ByteClass, told: &mut Told) -> Option<()> {
    let mut found = Told::new(told.alloc());
    for byte in 0..=255u8 {
        if class.has(byte) {
            found.put(byte);
        }
    }
    told.word(found.as_bytes());
    Some(())
}

/// Answers a case on names: the name that the bytes are.
pub fn put_name(bytes: &[u8], told: &mut Told) -> Option<()> {
    match Name::read(bytes) {
        Some(name) => told.word(name.as_bytes()),
        None => told.text("None"),
    }
    Some(())
}

/// Answers a case on texts: the text of a value that the bytes are.
pub fn put_text_value(bytes: &[u8], told: &mut Told) -> Option<()> {
    match TextValue::read(bytes) {
        Some(text) => told.word(text.as_bytes()),
        None => told.text("None"),
    }
    Some(())
}

/// Answers a case on counts: the counts, each from this number on, once these words were counted.
pub fn put_counts(from: &[u8], counted: &[Vec<u8>], told: &mut Told) -> Option<()> {
    let first = numeral_value(from);
    let mut counts = Counts {
        emitted: first,
        checked: first,
        fetched: first,
        laid: first,
    };
    for word in counted {
        count(word, &mut counts)?;
    }
    told.value(&counts);
    Some(())
}

/// Counts what the word of a case on counts names.
fn count(word: &[u8], counts: &mut Counts) -> Option<()> {
    match word {
        b"emitted" => counts.emitted(),
        b"checked" => counts.checked(),
        b"fetched" => counts.fetched(),
        b"laid" => counts.laid(),
        _ => return None,
    }
    Some(())
}
