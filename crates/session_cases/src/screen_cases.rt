//! Cases of screens: what a terminal shows of a run.

ghost use Rattle.std.specs.Prelude.{◌≡◌, ◌≤◌, IfSome};
ghost use Rattle.screen_window.specs.declared.limit.TheConstants.{FEWEST_COLS, FEWEST_ROWS, MOST_COLS, MOST_ROWS};

use crate::playing::{Played, play_on};
use crate::scene::Scene;
use case_script::{Told, number_of};
use plcs_base::ByteOut;
use screen_window::{FEWEST_COLS, FEWEST_ROWS, MOST_COLS, MOST_ROWS, Terminal};
use std::alloc::Global;

/// `screen`, `screen ROWS COLS`: what a terminal of that size shows of a run on the keys at hand; without a
/// size it has 12 rows and 40 columns. It answers the status, the place of the cursor, and the rows.
pub fn screen(alloc: Global, scene: &mut Scene, rows: &[u8], cols: &[u8]) -> Option<()> {
    let size = size_of(rows, cols)?;
    match play_on(alloc, rows, cols, scene.keys.as_slice()) {
        Some(played) => {
            let told = tell_screen(alloc, size, &played, &mut scene.told);
            drop(played);
            told
        }
        None => None,
    }
}

/// Tells how a run ended, and what a terminal of this size shows of it.
fn tell_screen(alloc: Global, size: (u16, u16), played: &Played, told: &mut Told) -> Option<()>
    requires least_rows { FEWEST_ROWS ≤ size.0 }
    requires most_rows { size.0 ≤ MOST_ROWS }
    requires least_cols { FEWEST_COLS ≤ size.1 }
    requires most_cols { size.1 ≤ MOST_COLS }
{
    match terminal_of(alloc, size, played.written()) {
        Some(terminal) => {
            told.value(&played.status);
            tell_terminal(&terminal, size.0, told);
            drop(terminal);
            Some(())
        }
        None => None,
    }
}

/// The size that these words of a case of screens ask for, if screens have it.
fn size_of(rows: &[u8], cols: &[u8]) -> Option<(u16, u16)>
    ensures least_rows { IfSome result (λ size. FEWEST_ROWS ≤ size.0) }
    ensures most_rows { IfSome result (λ size. size.0 ≤ MOST_ROWS) }
    ensures least_cols { IfSome result (λ size. FEWEST_COLS ≤ size.1) }
    ensures most_cols { IfSome result (λ size. size.1 ≤ MOST_COLS) }
{
    let rows = number_within(rows, FEWEST_ROWS, MOST_ROWS)?;
    let cols = number_within(cols, FEWEST_COLS, MOST_COLS)?;
    Some((rows, cols))
}

/// The number of rows or columns of the terminal that shows a run, as the word of a case of screens says it, if
/// it is one from the least to the most.
fn number_within(word: &[u8], least: u16, most: u16) -> Option<u16>
    ensures least { IfSome result (λ number. least ≤ number) }
    ensures most { IfSome result (λ number. number ≤ most) }
{
    let number = u16::try_from(number_of(word)?).ok()?;
    if number < least || number > most {
        return None;
    }
    Some(number)
}

/// A terminal of this size that shows what a run painted with these bytes.
pub fn terminal_of(alloc: Global, size: (u16, u16), bytes: &[u8]) -> Option<Terminal>
    requires least_rows { FEWEST_ROWS ≤ size.0 }
    requires most_rows { size.0 ≤ MOST_ROWS }
    requires least_cols { FEWEST_COLS ≤ size.1 }
    requires most_cols { size.1 ≤ MOST_COLS }
    ensures { IfSome result (λ terminal. terminal.rows ≡ size.0) }
{
    match Terminal::new(alloc, size.0, size.1) {
        Ok(mut terminal) => {
            terminal.take(bytes);
            Some(terminal)
        }
        Err(_) => None,
    }
}

/// Tells what a terminal shows of a run: the cursor's place, and the rows, a row a line.
fn tell_terminal(terminal: &Terminal, rows: u16, told: &mut Told)
    requires { terminal.now.rows ≡ rows }
{
    let (row, col) = terminal.cursor();
    told.text(" at ");
    told.value(&row);
    told.put(b' ');
    told.value(&col);
    told.put(b'\n');
    for above in 0..rows {
        tell_row(terminal.cells(above + 1), told);
    }
}

/// Tells a row that a terminal shows of a run: the text of its cells without the blanks at its end. What stands
/// between two `~` is in negative image, and all else in default image.
fn tell_row(cells: &[u16], told: &mut Told) {
    let mut negative = false;
    for cell in shown_cells(cells) {
        if (*cell >= 256) != negative {
            negative = !negative;
            told.put(b'~');
        }
        told.put((*cell & 127) as u8);
    }
    if negative {
        told.put(b'~');
    }
    told.put(b'\n');
}

/// The cells that a case of screens tells of a terminal's row: those up to the last one that isn't a blank in
/// default image.
fn shown_cells(cells: &[u16]) -> &[u16] {
    let mut end = 0;
    for (col, cell) in cells.iter().enumerate() {
        if *cell != 32 {
            end = col + 1;
        }
    }
    &cells[..end.min(cells.len())]
}
