//! Cases of the reader of keys, and of the numbers of statuses.

use case_script::Told;
use plcs_base::ByteOut;
use synth_top::{Key, KeyReader, Keys, Status};

/// `feed BYTES..`: feeds bytes to one reader, whose end comes behind each word. It answers for each word the
/// keys that each byte completes, and then the key at the end.
pub fn feed(words: &[Vec<u8>], told: &mut Told) -> Option<()> {
    let mut reader = KeyReader::new();
    for bytes in words {
        tell_fed(&mut reader, bytes.as_slice(), told);
        told.text("end");
        if let Some(key) = reader.end() {
            told.put(b' ');
            told.value(&key);
        }
        told.put(b'\n');
    }
    Some(())
}

/// Feeds the bytes to the reader of keys, and tells the keys of each.
fn tell_fed(reader: &mut KeyReader, bytes: &[u8], told: &mut Told) {
    for byte in bytes {
        tell_keys(reader.feed(*byte), told);
    }
}

/// Tells the keys that the reader gives for a byte.
fn tell_keys(keys: Keys, told: &mut Told) {
    match (keys.first, keys.second) {
        (Some(first), Some(second)) => {
            told.value(&first);
            told.put(b' ');
            told.value(&second);
        }
        (Some(key), None) | (None, Some(key)) => told.value(&key),
        (None, None) => told.text("none"),
    }
    told.text(", ");
}

/// The statuses.
static STATUSES: [Status; 6] = [
    Status::Done,
    Status::ReadFault,
    Status::WriteFault,
    Status::NoMemory,
    Status::BadWords,
    Status::KeyLimit,
];

/// `status`: each status and its number.
pub fn status(told: &mut Told) -> Option<()> {
    for status in &STATUSES {
        told.value(status);
        told.put(b' ');
        told.value(&status.code());
        told.put(b'\n');
    }
    Some(())
}
