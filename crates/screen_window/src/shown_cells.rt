//! Cells of a row, set so that they show numbers: several at once, and the last few one by one.

ghost use Rattle.std.specs.Prelude.{◌≡◌, ◌+◌, ◌≤◌, ◌++◌, drop, length, map, take};
ghost use Rattle.plcs_base.specs.Byte.{is_printable};
ghost use Rattle.screen_window.specs.ScreenCell.{is_screen_cell};
ghost use Rattle.screen_window.specs.ShownRow.{shown_cell};
ghost use Rattle.screen_window.specs.declared.shown_cells.TheConstants.{LANES};

use crate::lines::BLANK;
use std::simd::prelude::*;

/// How many cells are shown at once, as the lanes of a vector.
const LANES: usize = 8;

/// Shows numbers in a row from a column on, which counts from 0; they have to fit.
pub fn show_cells(line: &mut [u16], from: usize, cells: &[u16])
    requires room { from + length cells.now ≤ length line.old }
    ensures shown { take (from + length cells.now) line.new ≡ take from line.old ++ map shown_cell cells.now }
    ensures width { length line.new ≡ length line.old }
{
    let mut at = 0;
    while cells.len() - at >= LANES {
        show_lanes(line, from + at, cells, at);
        at += LANES;
    }
    show_each(line, from + at, &cells[at..]);
}

/// Shows bytes in a row from a column on, which counts from 0; they have to fit.
pub fn show_bytes(line: &mut [u16], from: usize, bytes: &[u8])
    requires room { from + length bytes.now ≤ length line.old }
    ensures shown { take (from + length bytes.now) line.new ≡ take from line.old ++ map shown_cell bytes.now }
    ensures width { length line.new ≡ length line.old }
{
    for k in 0..bytes.len() {
        line[from + k] = shown_cell(u16::from(bytes[k]));
    }
}

/// Shows the 8 numbers from a place on in a row from a column on; both count from 0.
fn show_lanes(line: &mut [u16], column: usize, cells: &[u16], at: usize)
    requires room { column + LANES ≤ length line.old }
    requires within { at + LANES ≤ length cells.now }
    ensures shown { take (column + LANES) line.new
        ≡ take column line.old ++ map shown_cell (take LANES (drop at cells.now)) }
    ensures width { length line.new ≡ length line.old }
{
    shown_lanes(u16x8::from_slice(&cells[at..])).copy_to_slice(&mut line[column..]);
}

/// How 8 numbers are shown: as the cells that they are, or as blanks where they are none.
fn shown_lanes(numbers: u16x8) -> u16x8
    requires { length numbers ≡ LANES }
    ensures { result ≡ map shown_cell numbers }
{
    let in_default = numbers.simd_ge(u16x8::splat(32)) & numbers.simd_le(u16x8::splat(126));
    let in_negative = numbers.simd_ge(u16x8::splat(288)) & numbers.simd_le(u16x8::splat(382));
    (in_default | in_negative).select(numbers, u16x8::splat(BLANK))
}

/// Shows numbers one by one in a row from a column on, which counts from 0; they have to fit.
fn show_each(line: &mut [u16], column: usize, cells: &[u16])
    requires room { column + length cells.now ≤ length line.old }
    ensures shown { take (column + length cells.now) line.new ≡ take column line.old ++ map shown_cell cells.now }
    ensures width { length line.new ≡ length line.old }
{
    for k in 0..cells.len() {
        line[column + k] = shown_cell(cells[k]);
    }
}

/// How a number that is written in a row is shown there: as the cell that it is, or as a blank where it is
/// none.
fn shown_cell(cell: u16) -> u16
    ensures { result ≡ shown_cell cell }
{
    if is_screen_cell(cell) { cell } else { BLANK }
}

/// Whether a number that a row is to show is a cell.
fn is_screen_cell(cell: u16) -> bool
    ensures { result ≡ is_screen_cell cell }
{
    is_in_range(cell) || is_in_range(cell.saturating_sub(256))
}

/// Whether a number that a row is to show is a printable byte.
fn is_in_range(byte: u16) -> bool
    ensures { result ≡ is_printable byte }
{
    32 <= byte && byte <= 126
}
