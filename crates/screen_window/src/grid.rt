//! Grids: what a screen shows.

ghost use Rattle.std.specs.Prelude.{◌≡◌, ◌-◌, ◌≤◌, ◌<◌, [], length, slice_index_or, IfOk};
ghost use Rattle.screen_window.specs.declared.limit.TheConstants.{FEWEST_ROWS, MOST_ROWS, FEWEST_COLS, MOST_COLS};
ghost use Rattle.screen_window.specs.PlainGrid.{blank_grid, IsGrid};
ghost use Rattle.screen_window.specs.ShownRow.{shown_row};
ghost use Rattle.screen_window.specs.Private.RowCells.{text_cells, with_row};

use crate::limit::{FEWEST_COLS, FEWEST_ROWS, MOST_COLS, MOST_ROWS};
use crate::lines::blank_lines;
use crate::row_text::{RowText, show_row};
use plcs_base::OutOfMemory;
use std::alloc::Global;
use std::marker::Model;

/// What a screen shows: rows of cells, and a cursor. A cell is its byte, from 32 to 126, plus 256 where
/// it is in negative image; the last column is blank. Rows and columns count from 1.
#[derive(Drop)]
pub struct Grid {
    cols: u16,
    lines: Vec<Vec<u16>>,
    row: u16,
    col: u16,
}

impl Model for Grid {
    ghost use Rattle.std.specs.Prelude.{length};
    ghost use Rattle.screen_window.specs.PlainGrid.{PlainGrid, IsGrid};
    ghost use Rattle.screen_window.specs.Private.PlainForm.{plain_lines};

    ghost Value = { PlainGrid };

    ghost view = { λ g. record {
      rows = length g.lines.items;
      cols = g.cols;
      lines = plain_lines g.lines;
      row = g.row;
      col = g.col;
    } };

    ghost invariant = { λ g. IsGrid (record {
      rows = length g.lines.items;
      cols = g.cols;
      lines = plain_lines g.lines;
      row = g.row;
      col = g.col;
    }) };
}

impl Grid {
    /// A grid of blanks, with the cursor in its first place.
    pub fn new(alloc: Global, rows: u16, cols: u16) -> Result<Self, OutOfMemory>
        requires least_rows { FEWEST_ROWS ≤ rows }
        requires most_rows { rows ≤ MOST_ROWS }
        requires least_cols { FEWEST_COLS ≤ cols }
        requires most_cols { cols ≤ MOST_COLS }
        ensures { IfOk result (λ g. g ≡ blank_grid rows cols) }
    {
        Ok(Grid {
            cols,
            lines: blank_lines(alloc, rows, cols)?,
            row: 1,
            col: 1,
        })
    }

    /// The number of the grid's rows.
    pub fn rows(&self) -> u16
        ensures value { result ≡ self.now.rows }
        ensures lines { length self.now.lines ≡ result }
        ensures least { FEWEST_ROWS ≤ result }
        ensures most { result ≤ MOST_ROWS }
    {
        self.lines.len() as u16
    }

    /// The number of the grid's columns.
    pub fn cols(&self) -> u16
        ensures value { result ≡ self.now.cols }
        ensures least { FEWEST_COLS ≤ result }
        ensures most { result ≤ MOST_COLS }
    {
        // What holds of all fields is known once one of them is looked at.
        let _ = &self.lines;
        self.cols
    }

    /// The cells of a row of the grid, which counts from 1.
    pub fn cells(&self, row: u16) -> &[u16]
        requires least { 1 ≤ row }
        requires most { row ≤ self.now.rows }
        ensures cells { result.now ≡ slice_index_or self.now.lines (row - 1) [] }
        ensures grid { IsGrid self.now }
    {
        self.lines[usize::from(row - 1)].as_slice()
    }

    /// The row and the column of the grid's cursor.
    pub fn cursor(&self) -> (u16, u16)
        ensures row { result.0 ≡ self.now.row }
        ensures col { result.1 ≡ self.now.col }
    {
        (self.row, self.col)
    }
}

impl Grid {
    /// Sets a row of this grid, which counts from 0, so that the grid shows what is written in the row.
    pub(crate) fn show(&mut self, row: u16, text: RowText<'_>)
        requires { row < self.old.rows }
        ensures { self.new ≡ with_row self.old row (shown_row self.old.cols (text_cells self.old.cols text.entry)) }
    {
        show_row(&mut self.lines[usize::from(row)], text);
    }

    /// Places the grid's cursor.
    pub(crate) fn place_cursor(&mut self, row: u16, col: u16)
        requires least_row { 1 ≤ row }
        requires most_row { row ≤ self.old.rows }
        requires least_col { 1 ≤ col }
        requires most_col { col ≤ self.old.cols }
        ensures { self.new ≡ record self.old { row = row; col = col } }
    {
        self.row = row;
        self.col = col;
    }
}
