//! The plain terminal, for the law of painting and for tests.

ghost use Rattle.std.specs.Prelude.{◌≡◌, ◌+◌, ◌-◌, ◌≤◌, ◌<◌, List, [], ◌++◌, length, replicate, take, slice_set, slice_index_or, IfOk};
ghost use Rattle.screen_window.specs.declared.limit.TheConstants.{FEWEST_ROWS, MOST_ROWS, FEWEST_COLS, MOST_COLS};
ghost use Rattle.screen_window.specs.ScreenCell.{blank};
ghost use Rattle.screen_window.specs.PlainGrid.{blank_lines};
ghost use Rattle.screen_window.specs.PlainTerminal.{IsTerminal, new_terminal};
ghost use Rattle.screen_window.specs.Terminal.{Term, cleared, ended, ended_after_digit, with_cursor_at, nearest, terminal_after, terminal_after_in, tail_blanked, typed, with_sequence};

use crate::limit::{FEWEST_COLS, FEWEST_ROWS, MOST_COLS, MOST_ROWS};
use crate::lines::{blank_all, blank_lines, set_cell, set_tail};
use crate::sequence::{Gathered, Sequence};
use plcs_base::{OutOfMemory, is_digit, is_printable};
use std::alloc::Global;
use std::marker::Model;
use unparse_layout::screen_cell;

/// A terminal that takes bytes: cells, a cursor and an image.
///
/// A byte 32 to 126 sets the cell at the cursor in the current image and moves the cursor right, but at
/// the last column it stays. `ESC [ r ; c H` moves the cursor, `ESC [ K` blanks from the cursor to the
/// row's end, `ESC [ 2 J` blanks all, `ESC [ 7 m` and `ESC [ 0 m` set the image, each exactly as it is
/// spelled here. Every other sequence does nothing, and every other byte is ignored.
#[derive(Drop)]
pub struct Terminal {
    cols: usize,
    lines: Vec<Vec<u16>>,
    above: usize,
    before: usize,
    negative: bool,
    sequence: Sequence,
}

impl Model for Terminal {
    ghost use Rattle.std.specs.Prelude.{length};
    ghost use Rattle.screen_window.specs.PlainTerminal.{PlainTerminal, IsTerminal};
    ghost use Rattle.screen_window.specs.Private.PlainForm.{plain_lines};

    ghost Value = { PlainTerminal };

    ghost view = { λ z. record {
      rows = length z.lines.items;
      cols = z.cols;
      lines = plain_lines z.lines;
      above = z.above;
      before = z.before;
      negative = z.negative;
      sequence = z.sequence;
    } };

    ghost invariant = { λ z. IsTerminal (record {
      rows = length z.lines.items;
      cols = z.cols;
      lines = plain_lines z.lines;
      above = z.above;
      before = z.before;
      negative = z.negative;
      sequence = z.sequence;
    }) };
}

impl Terminal {
    /// A blank terminal in default image, with the cursor in its first place.
    pub fn new(alloc: Global, rows: u16, cols: u16) -> Result<Self, OutOfMemory>
        requires least_rows { FEWEST_ROWS ≤ rows }
        requires most_rows { rows ≤ MOST_ROWS }
        requires least_cols { FEWEST_COLS ≤ cols }
        requires most_cols { cols ≤ MOST_COLS }
        ensures { IfOk result (λ z. z ≡ new_terminal rows cols) }
    {
        Ok(Terminal {
            cols: usize::from(cols),
            lines: blank_lines(alloc, rows, cols)?,
            above: 0,
            before: 0,
            negative: false,
            sequence: Sequence::Absent,
        })
    }

    /// Takes bytes on the terminal. A sequence that they leave unfinished waits for its next byte.
    #[tactic(auto, unfolding(crate::specs::Terminal::Term))]
    pub fn take(&mut self, bytes: &[u8])
        ensures taken { self.new ≡ Term self.old bytes.now }
        ensures rows { self.new.rows ≡ self.old.rows }
        ensures cols { self.new.cols ≡ self.old.cols }
    {
        for byte in bytes {
            self.take_byte(*byte);
        }
    }

    /// The cells of a row of the terminal, which counts from 1. A cell is its byte, plus 256 where it is
    /// in negative image.
    pub fn cells(&self, row: u16) -> &[u16]
        requires least { 1 ≤ row }
        requires most { row ≤ self.now.rows }
        ensures cells { result.now ≡ slice_index_or self.now.lines (row - 1) [] }
        ensures terminal { IsTerminal self.now }
    {
        self.lines[usize::from(row - 1)].as_slice()
    }

    /// The row and the column of the terminal's cursor, which count from 1.
    pub fn cursor(&self) -> (u16, u16)
        ensures row { result.0 ≡ self.now.above + 1 }
        ensures col { result.1 ≡ self.now.before + 1 }
    {
        (self.above as u16 + 1, self.before as u16 + 1)
    }

    /// Takes one byte on the terminal, by what it took of a sequence.
    fn take_byte(&mut self, byte: u8)
        ensures { self.new ≡ terminal_after self.old byte }
    {
        match self.sequence {
            Sequence::Absent => self.take_plain(byte),
            Sequence::Escape if byte == b'[' => {
                self.sequence = Sequence::Behind(Gathered::Nothing);
            }
            Sequence::Escape => self.sequence = Sequence::Absent,
            Sequence::Behind(gathered) => self.take_after(gathered, byte),
        }
    }

    /// Takes a byte outside of sequences on the terminal: ESC, or a printable one.
    fn take_plain(&mut self, byte: u8)
        requires { self.old.sequence ≡ Sequence.Absent }
        ensures { self.new ≡ terminal_after_in Sequence.Absent self.old byte }
    {
        if byte == 0x1b {
            self.sequence = Sequence::Escape;
        } else if is_printable(byte) {
            self.type_byte(byte);
        }
    }

    /// Takes a byte on the terminal behind `ESC [` and what was gathered.
    fn take_after(&mut self, gathered: Gathered, byte: u8)
        ensures { self.new ≡ terminal_after_in (Sequence.Behind gathered) self.old byte }
    {
        if is_digit(byte) {
            self.sequence = Sequence::Behind(gathered.with_digit(u16::from(byte - b'0')));
        } else if byte == b';' {
            self.sequence = Sequence::Behind(gathered.with_separator());
        } else {
            self.end(gathered, byte);
            self.sequence = Sequence::Absent;
        }
    }

    /// Does to the terminal what a whole sequence says, if it says something.
    fn end(&mut self, gathered: Gathered, byte: u8)
        ensures { self.new ≡ ended self.old gathered byte }
    {
        match gathered {
            Gathered::Nothing if byte == b'K' => set_tail(&mut self.lines, self.above, self.before),
            Gathered::Digit(digit) => self.end_after_digit(digit, byte),
            Gathered::Position(row, col) if byte == b'H' => self.move_to(row, col),
            _ => {}
        }
    }

    /// Does to the plain terminal what a whole sequence of one digit and this byte says, if it says something.
    fn end_after_digit(&mut self, digit: u16, byte: u8)
        ensures { self.new ≡ ended_after_digit self.old digit byte }
    {
        if byte == b'J' {
            if digit == 2 {
                self.clear();
            }
        } else if byte == b'm' {
            if digit == 7 {
                self.negative = true;
            } else if digit == 0 {
                self.negative = false;
            }
        }
    }

    /// Moves the terminal's cursor to the cell nearest to a row and a column, which count from 1.
    fn move_to(&mut self, row: u16, col: u16)
        ensures { self.new ≡ with_cursor_at self.old row col }
    {
        self.above = nearest(self.lines.len(), row);
        self.before = nearest(self.cols, col);
    }

    /// Blanks all cells of the terminal.
    fn clear(&mut self)
        ensures { self.new ≡ cleared self.old }
    {
        blank_all(&mut self.lines, self.cols);
    }

    /// Sets the terminal's cell at its cursor, and moves the cursor right.
    fn type_byte(&mut self, byte: u8)
        ensures { self.new ≡ typed self.old byte }
    {
        set_cell(
            &mut self.lines,
            self.above,
            self.before,
            screen_cell(self.negative, byte),
        );
        self.before = (self.before + 1).min(self.cols - 1);
    }
}

/// Where a terminal's cursor is moved: of so many rows or columns, how many are before the one of this
/// number, which counts from 1.
fn nearest(count: usize, number: u16) -> usize
    requires { 0 < count }
    ensures result { result ≡ nearest count number }
    ensures within { result < count }
{
    usize::from(number).saturating_sub(1).min(count - 1)
}
