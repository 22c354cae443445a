//! Rows of cells as grids and terminals keep them.

ghost use Rattle.std.specs.Prelude.{◌≡◌, ◌+◌, ◌-◌, ◌≤◌, ◌<◌, [], ◌++◌, All, length, replicate, take, slice_set, slice_index_or, IfOk};
ghost use Rattle.screen_window.specs.ScreenCell.{blank};
ghost use Rattle.screen_window.specs.PlainGrid.{blank_lines};
ghost use Rattle.screen_window.specs.Private.PlainForm.{plain_lines};

use std::alloc::{AllocError, Global};

/// A blank in default image, as rows of cells keep it.
pub const BLANK: u16 = 32;

/// Rows of blanks, as a new grid or terminal keeps them.
pub fn blank_lines(alloc: Global, rows: u16, cols: u16) -> Result<Vec<Vec<u16>>, AllocError>
    ensures { IfOk result (λ lines. plain_lines lines ≡ blank_lines rows cols) }
{
    let mut lines = Vec::new(alloc);
    for _ in 0..rows {
        lines.push(blank_line(alloc, cols)?)?;
    }
    Ok(lines)
}

/// Blanks all of the rows that are kept, each of so many columns.
pub fn blank_all(lines: &mut Vec<Vec<u16>>, cols: usize)
    requires { All (λ line. length line ≡ cols) (plain_lines lines.old) }
    ensures { plain_lines lines.new ≡ blank_lines (length (plain_lines lines.old)) cols }
{
    for row in 0..lines.len() {
        set_tail(lines, row, 0);
    }
}

/// One row of blanks, of so many columns.
fn blank_line(alloc: Global, cols: u16) -> Result<Vec<u16>, AllocError>
    ensures { IfOk result (λ line. line.items ≡ replicate cols blank) }
{
    vec![in alloc; BLANK; usize::from(cols)]
}

/// Sets a cell in one of the rows, where row and column count from 0.
pub fn set_cell(lines: &mut Vec<Vec<u16>>, row: usize, col: usize, cell: u16)
    requires row { row < length (plain_lines lines.old) }
    requires col { col < length (slice_index_or (plain_lines lines.old) row []) }
    ensures { plain_lines lines.new
        ≡ slice_set (plain_lines lines.old) row (slice_set (slice_index_or (plain_lines lines.old) row []) col cell) }
{
    lines[row][col] = cell;
}

/// Blanks one of the rows from a column on, where both count from 0.
pub fn set_tail(lines: &mut Vec<Vec<u16>>, row: usize, col: usize)
    requires row { row < length (plain_lines lines.old) }
    requires col { col ≤ length (slice_index_or (plain_lines lines.old) row []) }
    ensures { plain_lines lines.new
        ≡ slice_set (plain_lines lines.old) row
        (take col (slice_index_or (plain_lines lines.old) row [])
        ++ replicate (length (slice_index_or (plain_lines lines.old) row []) - col) blank) }
{
    blank_tail(&mut lines[row], col);
}

/// Blanks the cells of a single row from a column on, which counts from 0.
pub fn blank_tail(line: &mut Vec<u16>, col: usize)
    requires { col ≤ length line.old.items }
    ensures { line.new.items ≡ take col line.old.items ++ replicate (length line.old.items - col) blank }
{
    line[col..].fill(BLANK);
}
