//! Sequences of a terminal's bytes: where each ends, and what passes of it.

ghost use Rattle.std.specs.Prelude.{◌≡◌, ◌≤◌, [], IsTrue, length, nat_lt, slice_index, if◌then◌else◌};
ghost use Rattle.terminal_keys.specs.Sequence.{can_follow, is_arrow, is_console_key, is_escape, is_final, is_mouse, is_trailing, is_whole, is_whole_escape, passed_of_sequence, passed_of_whole, trailing_bytes};

use plcs_base::is_printable;

/// The most bytes that a sequence has; one that goes on beyond them is cut off.
pub const LONGEST: usize = 32;

/// The arrow Up.
const UP: [u8; 3] = [27, 91, 65];

/// The arrow Down.
const DOWN: [u8; 3] = [27, 91, 66];

/// The arrow Right.
const RIGHT: [u8; 3] = [27, 91, 67];

/// The arrow Left.
const LEFT: [u8; 3] = [27, 91, 68];

/// What PageUp sends.
const PAGE_UP: [u8; 4] = [27, 91, 53, 126];

/// What PageDown sends.
const PAGE_DOWN: [u8; 4] = [27, 91, 54, 126];

/// What passes of a sequence, which may lack bytes: an ASCII byte and an arrow as they are, ten arrows of a
/// page key, and nothing of every other one.
pub fn passed_of_sequence(sequence: &[u8]) -> &[u8]
    ensures text { result.now ≡ passed_of_sequence sequence.now }
    ensures short { length result.now ≤ 30 }
{
    if is_whole(sequence) {
        passed_of_whole(sequence)
    } else {
        &[]
    }
}

/// What passes of a sequence that has its last byte.
#[tactic(auto, unfolding(crate::specs::Sequence::passed_of_whole))]
fn passed_of_whole(sequence: &[u8]) -> &[u8]
    ensures text { result.now ≡ passed_of_whole sequence.now }
    ensures short { length result.now ≤ 30 }
{
    if sequence.len() == 1 {
        return passed_byte(sequence);
    }
    if is_arrow(sequence) {
        return sequence;
    }
    if sequence == PAGE_UP.as_slice() {
        return b"\x1b[A\x1b[A\x1b[A\x1b[A\x1b[A\x1b[A\x1b[A\x1b[A\x1b[A\x1b[A";
    }
    if sequence == PAGE_DOWN.as_slice() {
        return b"\x1b[B\x1b[B\x1b[B\x1b[B\x1b[B\x1b[B\x1b[B\x1b[B\x1b[B\x1b[B";
    }
    &[]
}

/// What passes of a sequence of one byte.
fn passed_byte(sequence: &[u8]) -> &[u8]
    requires { length sequence.now ≡ 1 }
    ensures text { result.now ≡ if nat_lt (slice_index sequence.now 0) 128 then sequence.now else [] }
    ensures short { length result.now ≤ 1 }
{
    if sequence[0] < 128 { sequence } else { &[] }
}

/// Whether a sequence is an arrow's.
fn is_arrow(sequence: &[u8]) -> bool
    ensures answer { result ≡ is_arrow sequence.now }
    ensures short { IsTrue result → length sequence.now ≡ 3 }
{
    sequence == UP.as_slice()
        || sequence == DOWN.as_slice()
        || sequence == RIGHT.as_slice()
        || sequence == LEFT.as_slice()
}

/// Whether a sequence has its last byte.
#[tactic(auto, unfolding(crate::specs::Sequence::is_whole))]
pub fn is_whole(sequence: &[u8]) -> bool
    ensures { result ≡ is_whole sequence.now }
{
    sequence.len() >= LONGEST || has_last(sequence)
}

/// Whether a sequence, however long it is, has its last byte.
fn has_last(sequence: &[u8]) -> bool
    ensures { result ≡ if is_escape sequence.now then is_whole_escape sequence.now
        else nat_lt (trailing_bytes (slice_index sequence.now 0)) (length sequence.now) }
{
    if is_escape(sequence) {
        is_whole_escape(sequence)
    } else {
        trailing_bytes(byte_at(sequence, 0)) < sequence.len()
    }
}

/// Whether a sequence that ESC begins has its last byte.
fn is_whole_escape(sequence: &[u8]) -> bool
    ensures { result ≡ is_whole_escape sequence.now }
{
    if is_console_key(sequence) {
        return sequence.len() >= 4;
    }
    if is_mouse(sequence) {
        return sequence.len() >= 6;
    }
    sequence.len() >= 3 && is_final(byte_at(sequence, sequence.len() - 1))
}

/// Whether a byte can stand in a sequence behind those that have begun it.
#[tactic(auto, unfolding(crate::specs::Sequence::can_follow))]
pub fn can_follow(begun: &[u8], byte: u8) -> bool
    ensures { result ≡ can_follow begun.now byte }
{
    if begun.is_empty() {
        return true;
    }
    if !is_escape(begun) {
        return is_trailing(byte);
    }
    if begun.len() <= 1 {
        return byte == 91 || byte == 79;
    }
    if is_mouse(begun) {
        return byte >= 32;
    }
    is_printable(byte)
}

/// Whether ESC stands first in a sequence.
fn is_escape(sequence: &[u8]) -> bool
    ensures { result ≡ is_escape sequence.now }
{
    byte_at(sequence, 0) == 27
}

/// Whether a sequence begins as that of a function key of the Linux console.
fn is_console_key(sequence: &[u8]) -> bool
    ensures { result ≡ is_console_key sequence.now }
{
    byte_at(sequence, 1) == 91 && byte_at(sequence, 2) == 91
}

/// Whether a sequence begins as a mouse's.
fn is_mouse(sequence: &[u8]) -> bool
    ensures { result ≡ is_mouse sequence.now }
{
    byte_at(sequence, 1) == 91 && byte_at(sequence, 2) == 77
}

/// How many bytes a letter beyond ASCII has behind the one with which it begins.
fn trailing_bytes(first: u8) -> usize
    ensures { result ≡ trailing_bytes first }
{
    if first < 192 {
        0
    } else if first < 224 {
        1
    } else if first < 240 {
        2
    } else if first < 248 {
        3
    } else {
        0
    }
}

/// Whether a byte stands behind the first of a letter beyond ASCII.
fn is_trailing(byte: u8) -> bool
    ensures { result ≡ is_trailing byte }
{
    matches!(byte, 128..=191)
}

/// Whether a byte ends the sequence of a key.
fn is_final(byte: u8) -> bool
    ensures { result ≡ is_final byte }
{
    matches!(byte, b'@'..=b'~')
}

/// The byte of a sequence at a place, from 0; 0 where it has none there.
fn byte_at(sequence: &[u8], place: usize) -> u8
    ensures { result ≡ slice_index sequence.now place }
{
    if place < sequence.len() {
        sequence[place]
    } else {
        0
    }
}
