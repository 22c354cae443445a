//! Cells of the screen as text.

use case_script::Told;
use plcs_base::ByteOut;

/// Tells the number of a row of the screen and its cells as text, without the blanks at its end, where
/// something is left.
pub fn tell_row(number: u16, cells: &[u16], told: &mut Told) {
    let shown = visible(cells);
    if !shown.is_empty() {
        told.value(&number);
        told.put(b' ');
        tell_cells(shown, told);
        told.put(b'\n');
    }
}

/// The cells of a row of the screen that are told as text: up to the last that isn't a blank in default image.
fn visible(cells: &[u16]) -> &[u16] {
    let mut end = 0;
    for (col, cell) in cells.iter().enumerate() {
        if *cell != 32 {
            end = col + 1;
        }
    }
    &cells[..end.min(cells.len())]
}

/// Tells the bytes of the cells, and behind them each stretch in negative image: the column of its first cell,
/// counted from 0, and the one behind its last.
pub fn tell_cells(cells: &[u16], told: &mut Told) {
    let mut bytes = Told::new(told.alloc());
    for cell in cells {
        bytes.put((*cell % 256) as u8);
    }
    told.word(bytes.as_bytes());
    drop(bytes);
    tell_stretches(cells, told);
}

/// Tells behind the text of cells of the screen each stretch of them in negative image.
fn tell_stretches(cells: &[u16], told: &mut Told) {
    let mut start = None;
    for (col, cell) in cells.iter().enumerate() {
        match (start, *cell >= 256) {
            (None, true) => start = Some(col),
            (Some(from), false) => {
                tell_stretch(from, col, told);
                start = None;
            }
            _ => {}
        }
    }
    if let Some(from) = start {
        tell_stretch(from, cells.len(), told);
    }
}

/// Tells a stretch of cells from this column to that one.
fn tell_stretch(from: usize, to: usize, told: &mut Told) {
    told.text(" negative ");
    told.value(&from);
    told.text("..");
    told.value(&to);
}
