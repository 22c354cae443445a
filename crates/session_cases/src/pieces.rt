//! The pieces in which a screen is written.

use case_script::Told;

/// Tells bytes of a screen, a piece a line.
pub fn tell_pieces(written: &[u8], told: &mut Told) {
    let mut start = 0;
    for at in 1..written.len() {
        if is_place(&written[at..]) {
            told.word_line(&written[start.min(at)..at]);
            start = at;
        }
    }
    if start < written.len() {
        told.word_line(&written[start..]);
    }
}

/// How many pieces these bytes of a screen are.
pub fn count_pieces(written: &[u8]) -> usize {
    let mut count = 0usize;
    for at in 0..written.len() {
        if at == 0 || is_place(&written[at..]) {
            count = count.saturating_add(1);
        }
    }
    count
}

/// Of a whole run in which a read or a write failed, how many pieces it wrote, if they are the first of those
/// that it writes without the failure.
pub fn first_pieces(whole: &[u8], part: &[u8]) -> Option<usize> {
    let behind = whole.strip_prefix(part)?;
    if part.is_empty() || behind.is_empty() || is_place(behind) {
        Some(count_pieces(part))
    } else {
        None
    }
}

/// Whether a piece begins here: its first bytes say where it stands.
pub fn is_place(bytes: &[u8]) -> bool {
    let Some(behind) = bytes.strip_prefix(b"\x1b[") else {
        return false;
    };
    behind.iter().find(|byte| !byte.is_ascii_digit()) == Some(&b';')
}

/// How many screens these bytes are: each ends with a piece that is a place alone, that of the cursor.
pub fn count_screens(written: &[u8]) -> usize {
    let mut count = 0usize;
    for at in 0..written.len() {
        if is_place(&written[at..]) && is_alone(&written[at..]) {
            count = count.saturating_add(1);
        }
    }
    count
}

/// Whether a piece that begins here is a place alone: another one, or nothing, is behind it.
fn is_alone(bytes: &[u8]) -> bool {
    match bytes.split(|byte| *byte == b'H').next() {
        Some(place) => match bytes.get(place.len().saturating_add(1)..) {
            Some(behind) => behind.is_empty() || is_place(behind),
            None => false,
        },
        None => false,
    }
}
