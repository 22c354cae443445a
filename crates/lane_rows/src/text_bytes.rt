//! The bytes of a text in lines: whether each of them may stand in it, and how many end a line.
ghost use Rattle.std.specs.Prelude.{◌≡◌, ◌+◌, ◌≤◌, count_by, length, slice_range, take};
ghost use Rattle.std.specs.List.{list_all};
ghost use Rattle.lane_rows.specs.TextByte.{is_line_end, is_text_byte};
ghost use Rattle.lane_rows.specs.Private.LaneRun.{IsRunIn, PassBetween};
ghost use Rattle.lane_rows.specs.declared.lanes.TheConstants.{LANES};

use crate::lanes::{LANES, first_set};
use std::simd::prelude::*;

/// Whether each byte of a text is printable, from 32 to 126, or a line end, 10. It takes no memory.
pub fn all_printable(bytes: &[u8]) -> bool
    ensures { result ≡ list_all is_text_byte bytes.now }
{
    let mut at = 0;
    while bytes.len() - at >= LANES {
        if printable_run(bytes, at) < LANES {
            return false;
        }
        at += LANES;
    }
    all_printable_from(bytes, at)
}

/// How many bytes of a text are line ends, 10. It takes no memory.
pub fn count_line_ends(bytes: &[u8]) -> usize
    ensures { result ≡ count_by is_line_end bytes.now }
{
    let mut at = 0;
    let mut ends = 0;
    while bytes.len() - at >= LANES {
        ends += line_ends_in(bytes, at);
        at += LANES;
    }
    count_line_ends_from(bytes, at, ends)
}

/// How many bytes of a text from a place on are printable or line ends, one after the other, of the 32 that are loaded.
fn printable_run(bytes: &[u8], at: usize) -> usize
    requires { at + LANES ≤ length bytes.now }
    ensures { IsRunIn is_text_byte bytes.now at result }
{
    let loaded = u8x32::from_slice(&bytes[at..]);
    let controls = loaded.simd_lt(u8x32::splat(b' ')) & loaded.simd_ne(u8x32::splat(b'\n'));
    let others = controls | loaded.simd_ge(u8x32::splat(0x7f));
    first_set(others.to_bitmask())
}

/// How many of the 32 bytes of a text from a place on are line ends.
fn line_ends_in(bytes: &[u8], at: usize) -> usize
    requires { at + LANES ≤ length bytes.now }
    ensures ends { result ≡ count_by is_line_end (slice_range bytes.now at (at + LANES)) }
    ensures few { result ≤ LANES }
{
    let loaded = u8x32::from_slice(&bytes[at..]);
    loaded
        .simd_eq(u8x32::splat(b'\n'))
        .to_bitmask()
        .count_ones() as usize
}

/// Whether each byte of a text is printable or a line end, looked at byte by byte from a place on; each before it is.
fn all_printable_from(bytes: &[u8], at: usize) -> bool
    requires within { at ≤ length bytes.now }
    requires front { PassBetween is_text_byte bytes.now 0 at }
    ensures { result ≡ list_all is_text_byte bytes.now }
{
    for i in at..bytes.len() {
        if !is_text_byte(bytes[i]) {
            return false;
        }
    }
    true
}

/// How many bytes of a text are line ends, looked at byte by byte from a place on, before which there are so many.
fn count_line_ends_from(bytes: &[u8], at: usize, before: usize) -> usize
    requires within { at ≤ length bytes.now }
    requires counted { before ≡ count_by is_line_end (take at bytes.now) }
    requires few { before ≤ at }
    ensures { result ≡ count_by is_line_end bytes.now }
{
    let mut ends = before;
    for k in at..bytes.len() {
        if bytes[k] == b'\n' {
            ends += 1;
        }
    }
    ends
}

/// Whether a text in lines may have the byte: one that is printable, from 32 to 126, or a line end.
fn is_text_byte(byte: u8) -> bool
    ensures { result ≡ is_text_byte byte }
{
    matches!(byte, b'\n' | b' '..=b'~')
}
