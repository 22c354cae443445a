//! What a terminal makes of bytes.
ghost use Rattle.std.specs.Prelude.{◌≡◌, ◌≤◌};
ghost use Rattle.screen_window.specs.declared.limit.TheConstants.{FEWEST_COLS, FEWEST_ROWS, MOST_COLS, MOST_ROWS};

use crate::cells::tell_row;
use crate::words::size_at;
use case_script::Told;
use plcs_base::OutOfMemory;
use screen_window::Terminal;
use std::alloc::Global;

/// Has a terminal take the words behind its size, each whole, and another one the same byte by byte, and
/// tells what both show.
pub fn terminal(alloc: Global, words: &[Vec<u8>], told: &mut Told) -> Option<()> {
    let (rows, cols) = size_at(words)?;
    match Terminal::new(alloc, rows, cols) {
        Ok(mut whole) => {
            let done = take_beside(alloc, rows, cols, &mut whole, words, told);
            drop(whole);
            done
        }
        Err(OutOfMemory) => None,
    }
}

/// Has the terminal of this size take the words behind its size, each whole, and a new one the same byte by byte, and
/// tells what both show.
fn take_beside(
    alloc: Global,
    rows: u16,
    cols: u16,
    whole: &mut Terminal,
    words: &[Vec<u8>],
    told: &mut Told,
) -> Option<()>
    requires least_rows { FEWEST_ROWS ≤ rows }
    requires most_rows { rows ≤ MOST_ROWS }
    requires least_cols { FEWEST_COLS ≤ cols }
    requires most_cols { cols ≤ MOST_COLS }
    requires whole { whole.old.rows ≡ rows }
{
    match Terminal::new(alloc, rows, cols) {
        Ok(mut parted) => {
            take_all(whole, &mut parted, words);
            tell_terminals(rows, whole, &parted, told);
            drop(parted);
            Some(())
        }
        Err(OutOfMemory) => None,
    }
}

/// Has the one terminal take the words behind its size, each whole, and the other the same byte by byte.
fn take_all(whole: &mut Terminal, parted: &mut Terminal, words: &[Vec<u8>])
    ensures whole { whole.new.rows ≡ whole.old.rows }
    ensures parted { parted.new.rows ≡ parted.old.rows }
{
    for k in 2..words.len() {
        whole.take(words[k].as_slice());
        take_parted(parted, words[k].as_slice());
    }
}

/// Has the terminal take the bytes one by one.
fn take_parted(terminal: &mut Terminal, bytes: &[u8])
    ensures { terminal.new.rows ≡ terminal.old.rows }
{
    for byte in bytes {
        terminal.take(&[*byte]);
    }
}

/// Tells what a terminal made of bytes that it took whole, its rows that aren't blank and the place of its
/// cursor, or that the other one, which took them byte by byte, made something else of them.
fn tell_terminals(rows: u16, one: &Terminal, other: &Terminal, told: &mut Told)
    requires one { one.now.rows ≡ rows }
    requires other { other.now.rows ≡ rows }
{
    for row in 1..=rows {
        tell_row(row, one.cells(row), told);
        if one.cells(row) != other.cells(row) || one.cursor() != other.cursor() {
            told.line("DIFFERS");
        }
    }
    told.text("cursor ");
    told.value(&one.cursor());
}
