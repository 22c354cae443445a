//! Rows of cells: where two of them differ, and where the last cell stands that isn't a blank.
//! A cell is a byte, plus 256 where it is in negative image.
ghost use Rattle.std.specs.Prelude.{◌≡◌, ◌≢◌, ℕ, ◌+◌, ◌<◌, ◌≤◌, IsTrue, length, slice_index};
ghost use Rattle.lane_rows.specs.CellRow.{IsFirstDifference, IsLastDifference, IsLastNonblank};
ghost use Rattle.lane_rows.specs.declared.lanes.TheConstants.{LANES};

use crate::lanes::{LANES, first_set};
use std::simd::prelude::*;

/// The cell of a blank in default image.
const BLANK: u16 = 32;

/// The least place, counted from 0, at which two rows of cells differ, or `None` where they don't. The rows have to be
/// equally long. It takes no memory.
pub fn first_difference(a: &[u16], b: &[u16]) -> Option<usize>
    requires same_length { length a.now ≡ length b.now }
    ensures { IsFirstDifference a.now b.now result }
{
    let mut at = 0;
    while a.len() - at >= LANES {
        let equal = equal_cells(a, b, at);
        if equal < LANES {
            return Some(at + equal);
        }
        at += LANES;
    }
    first_difference_from(a, b, at)
}

/// The greatest place, counted from 0, at which two rows of cells differ, or `None` where they don't. The rows have to
/// be equally long. It takes no memory.
pub fn last_difference(a: &[u16], b: &[u16]) -> Option<usize>
    requires same_length { length a.now ≡ length b.now }
    ensures { IsLastDifference a.now b.now result }
{
    let mut end = a.len();
    while end >= LANES && equal_cells(a, b, end - LANES) == LANES {
        end -= LANES;
    }
    last_difference_before(a, b, end)
}

/// The greatest place, counted from 0, of a cell of a row that isn't a blank in default image, or `None` where all are.
/// A blank in negative image is none. It takes no memory.
pub fn last_nonblank(a: &[u16]) -> Option<usize>
    ensures { IsLastNonblank a.now result }
{
    let mut end = a.len();
    while end >= LANES && are_blank(a, end - LANES) {
        end -= LANES;
    }
    last_nonblank_before(a, end)
}

/// How many cells from a place on are equal in two rows, one after the other, of the 32 that are loaded.
fn equal_cells(a: &[u16], b: &[u16], at: usize) -> usize
    requires in_a { at + LANES ≤ length a.now }
    requires in_b { at + LANES ≤ length b.now }
    ensures few { result ≤ LANES }
    ensures equal { (k : ℕ) → at ≤ k → k < at + result → slice_index a.now k ≡ slice_index b.now k }
    ensures differ { result < LANES → slice_index a.now (at + result) ≢ slice_index b.now (at + result) }
{
    let differ = u16x32::from_slice(&a[at..]).simd_ne(u16x32::from_slice(&b[at..]));
    first_set(differ.to_bitmask())
}

/// Whether the 32 cells of a row from a place on are all blanks in default image.
fn are_blank(a: &[u16], at: usize) -> bool
    requires { at + LANES ≤ length a.now }
    ensures { IsTrue result → (k : ℕ) → at ≤ k → k < at + LANES → slice_index a.now k ≡ 32 }
{
    let others = u16x32::from_slice(&a[at..]).simd_ne(u16x32::splat(BLANK));
    others.to_bitmask() == 0
}

/// The least place at which two rows of cells differ, looked for cell by cell from a place on, before which they are
/// equal.
fn first_difference_from(a: &[u16], b: &[u16], at: usize) -> Option<usize>
    requires same_length { length a.now ≡ length b.now }
    requires within { at ≤ length a.now }
    requires equal { (k : ℕ) → k < at → slice_index a.now k ≡ slice_index b.now k }
    ensures { IsFirstDifference a.now b.now result }
{
    for i in at..a.len() {
        if a[i] != b[i] {
            return Some(i);
        }
    }
    None
}

/// The greatest place at which two rows of cells differ, looked for cell by cell before a place, from which on they are
/// equal.
fn last_difference_before(a: &[u16], b: &[u16], end: usize) -> Option<usize>
    requires same_length { length a.now ≡ length b.now }
    requires within { end ≤ length a.now }
    requires equal { (k : ℕ) → end ≤ k → k < length a.now → slice_index a.now k ≡ slice_index b.now k }
    ensures { IsLastDifference a.now b.now result }
{
    let mut left = end;
    while left > 0 {
        left -= 1;
        if a[left] != b[left] {
            return Some(left);
        }
    }
    None
}

/// The greatest place of a cell of a row that isn't a blank in default image, looked for cell by cell before a place,
/// from which on all are blanks.
fn last_nonblank_before(a: &[u16], end: usize) -> Option<usize>
    requires within { end ≤ length a.now }
    requires blank { (k : ℕ) → end ≤ k → k < length a.now → slice_index a.now k ≡ 32 }
    ensures { IsLastNonblank a.now result }
{
    let mut left = end;
    while left > 0 {
        left -= 1;
        if a[left] != BLANK {
            return Some(left);
        }
    }
    None
}
