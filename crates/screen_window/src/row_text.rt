//! What is written in one row of a grid, and how the cells of the row show it.

ghost use Rattle.std.specs.Prelude.{◌≡◌, ◌≤◌, ℕ, ◌-◌, List, ◌++◌, drop, length, replicate};
ghost use Rattle.screen_window.specs.ShownRow.{margin, shown_row};
ghost use Rattle.screen_window.specs.Private.RowCells.{ShowsFront, text_cells};

use crate::lines::blank_tail;
use crate::shown_cells::{show_bytes, show_cells};

/// The cell of a dash in default image.
const DASH: u16 = 45;

/// What is written in a row of a grid.
#[derive(Clone, Copy)]
pub enum RowText<'a> {
    /// A line of the program behind its margin, which says whether the run stands there.
    Line(bool, &'a [u16]),
    /// An instruction behind a blank margin.
    Code(&'a [u8]),
    /// A text from the first column on.
    Text(&'a [u8]),
    /// Dashes.
    Dashes,
    /// The prompt and the end of the typed line.
    Input(&'a [u8], &'a [u8]),
}

/// Shows what is written in a row by the row's cells: the first of them are put, and the others are blanked.
pub fn show_row(line: &mut Vec<u16>, text: RowText<'_>)
    ensures { line.new.items ≡ shown_row (length line.old.items) (text_cells (length line.old.items) text.entry) }
{
    let end = put_text(line.as_mut_slice(), text);
    blank_tail(line, end);
}

/// Puts what is written in a row into its first cells, and tells how many those are: never the last one.
fn put_text(line: &mut [u16], text: RowText<'_>) -> usize
    ensures { ShowsFront (length line.old) (text_cells (length line.old) text.entry) line.new result }
{
    match text {
        RowText::Line(runs, cells) => {
            let end = put_bytes(line, 0, margin(runs));
            put_cells(line, end, cells)
        }
        RowText::Code(bytes) => {
            let end = put_bytes(line, 0, margin(false));
            put_bytes(line, end, bytes)
        }
        RowText::Text(bytes) => put_bytes(line, 0, bytes),
        RowText::Dashes => put_dashes(line),
        RowText::Input(prompt, typed) => {
            let end = put_bytes(line, 0, prompt);
            put_bytes(line, end, typed)
        }
    }
}

/// What is written first in one row of a grid, its margin before a line or an instruction: whether the run
/// stands there.
fn margin(runs: bool) -> &'static [u8]
    ensures { result.now ≡ margin runs }
{
    if runs { b"> " } else { b"  " }
}

/// Puts bytes into a row's cells from a column on, which counts from 0, as many as go before the last column,
/// and tells the column after them.
fn put_bytes(line: &mut [u16], from: usize, bytes: &[u8]) -> usize
    requires { from ≤ length line.old }
    ensures shown { (front : List ℕ) → ShowsFront (length line.old) front line.old from
        → ShowsFront (length line.old) (front ++ bytes.now) line.new result }
    ensures within { result ≤ length line.new }
{
    let count = bytes.len().min(room(line, from));
    show_bytes(line, from, &bytes[..count]);
    from + count
}

/// Puts cells into a row's cells from a column on, which counts from 0, as many as go before the last column,
/// and tells the column after them.
fn put_cells(line: &mut [u16], from: usize, cells: &[u16]) -> usize
    requires { from ≤ length line.old }
    ensures shown { (front : List ℕ) → ShowsFront (length line.old) front line.old from
        → ShowsFront (length line.old) (front ++ cells.now) line.new result }
    ensures within { result ≤ length line.new }
{
    let count = cells.len().min(room(line, from));
    show_cells(line, from, &cells[..count]);
    from + count
}

/// How many cells of a row can be put from a column on, which counts from 0: those before the last column.
fn room(line: &[u16], from: usize) -> usize
    ensures { result ≡ length line.now - 1 - from }
{
    line.len().saturating_sub(1).saturating_sub(from)
}

/// Puts dashes into all cells of a row but the last, and tells how many.
fn put_dashes(line: &mut [u16]) -> usize
    ensures { ShowsFront (length line.old) (replicate (length line.old - 1) 45) line.new result }
{
    let end = room(line, 0);
    dash_to(line, end);
    end
}

/// Sets a row's cells before a column, which counts from 0, to dashes.
fn dash_to(line: &mut [u16], column: usize)
    requires { column ≤ length line.old }
    ensures { line.new ≡ replicate column 45 ++ drop column line.old }
{
    line[..column].fill(DASH);
}
