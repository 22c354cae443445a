//! Names of the code in answers and among words.

use case_script::Told;
use plcs_base::ByteOut;
use std::alloc::Global;
use std::fmt::Debug;

/// Tells a name of the code and bytes, as `Cut "clip"`.
pub fn tell_named(name: &str, bytes: &[u8], told: &mut Told) {
    told.text(name);
    told.put(b' ');
    told.word(bytes);
}

/// Tells in an answer the bytes that were found, as a word, or else the name `None` of the code.
pub fn tell_found(found: Option<&[u8]>, told: &mut Told) {
    match found {
        Some(bytes) => told.word(bytes),
        None => told.text("None"),
    }
}

/// The value among these that the word names as the code does.
pub fn named<T: Copy + Debug>(alloc: Global, values: &[T], word: &[u8]) -> Option<T> {
    let mut name = Told::new(alloc);
    for value in values {
        name.clear();
        name.value(value);
        if name.as_bytes() == word {
            return Some(*value);
        }
    }
    None
}
