//! Random views painted one over the other on a terminal.
ghost use Rattle.std.specs.Prelude.{◌≡◌, ◌<◌, ◌≤◌, IfSome};
ghost use Rattle.template_tree.specs.Programs.Tree.{IsTree};
ghost use Rattle.screen_window.specs.declared.limit.TheConstants.{FEWEST_COLS, FEWEST_ROWS, MOST_COLS, MOST_ROWS};

use crate::random::Numbers;
use crate::screens::draw_marked;
use crate::view_words::ViewWords;
use crate::words::{number_at, size_at};
use case_script::Told;
use plcs_base::{OutOfMemory, PhraseAt, Slot};
use screen_window::{Grid, Terminal, paint};
use std::alloc::{AllocError, Global};
use std::mem;
use synth_outside::MemSink;
use template_tree::Tree;

/// Paints random views of the program one over the other, from the seed on, and compares the terminal
/// with each grid. The words say its rows and columns, the seed, and how many grids are painted.
pub fn paintings(alloc: Global, tree: &Tree, words: &[Vec<u8>], told: &mut Told) -> Option<()>
    requires { IsTree tree.now }
{
    let size = size_at(words)?;
    let mut numbers = Numbers::behind(number_at(words, 2)?);
    let count = number_at(words, 3)?;
    let same = paint_some(alloc, tree, size, count, &mut numbers)?;
    told.value(&count);
    told.text(" grids are shown: ");
    told.value(&same);
    Some(())
}

/// Paints so many random views of the program one over the other, and tells whether the terminal has the
/// cells and the cursor of each.
fn paint_some(
    alloc: Global,
    tree: &Tree,
    size: (u16, u16),
    count: u32,
    numbers: &mut Numbers,
) -> Option<bool>
    requires tree { IsTree tree.now }
    requires least_rows { FEWEST_ROWS ≤ size.0 }
    requires most_rows { size.0 ≤ MOST_ROWS }
    requires least_cols { FEWEST_COLS ≤ size.1 }
    requires most_cols { size.1 ≤ MOST_COLS }
{
    match Terminal::new(alloc, size.0, size.1) {
        Ok(mut terminal) => {
            let same = paint_on(alloc, tree, size, count, numbers, &mut terminal);
            drop(terminal);
            same
        }
        Err(OutOfMemory) => None,
    }
}

/// Paints so many random views of the program one over the other on this terminal, which shows nothing yet, and tells
/// whether it has the cells and the cursor of each.
fn paint_on(
    alloc: Global,
    tree: &Tree,
    size: (u16, u16),
    count: u32,
    numbers: &mut Numbers,
    terminal: &mut Terminal,
) -> Option<bool>
    requires tree { IsTree tree.now }
    requires least_rows { FEWEST_ROWS ≤ size.0 }
    requires most_rows { size.0 ≤ MOST_ROWS }
    requires least_cols { FEWEST_COLS ≤ size.1 }
    requires most_cols { size.1 ≤ MOST_COLS }
    requires terminal { terminal.old.rows ≡ size.0 }
{
    match Grid::new(alloc, size.0, size.1) {
        Ok(mut grid) => {
            let same = paint_each(alloc, tree, size, count, numbers, terminal, &mut grid);
            drop(grid);
            same
        }
        Err(OutOfMemory) => None,
    }
}

/// Paints so many random views of the program one over the other on this terminal, which shows this grid, and tells
/// whether it has the cells and the cursor of each.
fn paint_each(
    alloc: Global,
    tree: &Tree,
    size: (u16, u16),
    count: u32,
    numbers: &mut Numbers,
    terminal: &mut Terminal,
    grid: &mut Grid,
) -> Option<bool>
    requires tree { IsTree tree.now }
    requires least_rows { FEWEST_ROWS ≤ size.0 }
    requires most_rows { size.0 ≤ MOST_ROWS }
    requires least_cols { FEWEST_COLS ≤ size.1 }
    requires most_cols { size.1 ≤ MOST_COLS }
    requires terminal { terminal.old.rows ≡ size.0 }
    requires rows { grid.old.rows ≡ size.0 }
    requires cols { grid.old.cols ≡ size.1 }
{
    let mut same = true;
    for _ in 0..count {
        same = paint_next(alloc, tree, size, numbers, terminal, grid)? && same;
    }
    Some(same)
}

/// Paints one random view of the program over the one that this terminal and this grid show, and tells whether the
/// terminal has the cells and the cursor of it then.
fn paint_next(
    alloc: Global,
    tree: &Tree,
    size: (u16, u16),
    numbers: &mut Numbers,
    terminal: &mut Terminal,
    grid: &mut Grid,
) -> Option<bool>
    requires tree { IsTree tree.now }
    requires least_rows { FEWEST_ROWS ≤ size.0 }
    requires most_rows { size.0 ≤ MOST_ROWS }
    requires least_cols { FEWEST_COLS ≤ size.1 }
    requires most_cols { size.1 ≤ MOST_COLS }
    requires terminal { terminal.old.rows ≡ size.0 }
    requires rows { grid.old.rows ≡ size.0 }
    requires cols { grid.old.cols ≡ size.1 }
    ensures terminal { terminal.new.rows ≡ size.0 }
    ensures rows { grid.new.rows ≡ size.0 }
    ensures cols { grid.new.cols ≡ size.1 }
{
    match drawn(alloc, tree, size, numbers) {
        Some(new) => {
            let shown = is_shown(alloc, grid, &new, terminal);
            drop(mem::replace(grid, new));
            Some(shown)
        }
        None => None,
    }
}

/// A random view of the program, which is to be painted, on a grid of this size.
fn drawn(alloc: Global, tree: &Tree, size: (u16, u16), numbers: &mut Numbers) -> Option<Grid>
    requires tree { IsTree tree.now }
    requires least_rows { FEWEST_ROWS ≤ size.0 }
    requires most_rows { size.0 ≤ MOST_ROWS }
    requires least_cols { FEWEST_COLS ≤ size.1 }
    requires most_cols { size.1 ≤ MOST_COLS }
    ensures rows { IfSome result (λ grid. grid.rows ≡ size.0) }
    ensures cols { IfSome result (λ grid. grid.cols ≡ size.1) }
{
    match Grid::new(alloc, size.0, size.1) {
        Ok(mut grid) => match draw_random(alloc, tree, numbers, &mut grid) {
            Some(()) => Some(grid),
            None => {
                drop(grid);
                None
            }
        },
        Err(OutOfMemory) => None,
    }
}

/// Paints one random view over the other, and tells whether the terminal has the cells and the cursor of it
/// then.
fn is_shown(alloc: Global, old: &Grid, new: &Grid, terminal: &mut Terminal) -> bool
    requires rows { old.now.rows ≡ new.now.rows }
    requires cols { old.now.cols ≡ new.now.cols }
    requires terminal { terminal.old.rows ≡ new.now.rows }
    ensures { terminal.new.rows ≡ terminal.old.rows }
{
    let mut sink = MemSink::new(alloc, Vec::new(alloc));
    let painted = paint(old, new, &mut sink).is_ok();
    terminal.take(sink.bytes());
    drop(sink);
    painted && has_cells(terminal, new)
}

/// Whether the terminal on which a random view was painted has the cells and the cursor of the view's grid.
fn has_cells(terminal: &Terminal, grid: &Grid) -> bool
    requires { terminal.now.rows ≡ grid.now.rows }
{
    let mut same = terminal.cursor() == grid.cursor();
    for row in 0..grid.rows() {
        same = same && terminal.cells(row + 1) == grid.cells(row + 1);
    }
    same
}

/// Draws a random view of the program, which is to be painted, on a grid: in one of three cases of code.
fn draw_random(alloc: Global, tree: &Tree, numbers: &mut Numbers, grid: &mut Grid) -> Option<()>
    requires { IsTree tree.now }
    ensures rows { grid.new.rows ≡ grid.old.rows }
    ensures cols { grid.new.cols ≡ grid.old.cols }
{
    let mut texts = Texts::none(alloc);
    let drawn = match texts.fill(alloc, numbers) {
        Ok(()) => draw_texts(alloc, tree, numbers, &texts, grid),
        Err(AllocError) => None,
    };
    drop(texts);
    drawn
}

/// The texts of a view that is painted, and its rows of code.
#[derive(Drop)]
struct Texts {
    output: Vec<u8>,
    typed: Vec<u8>,
    message: Vec<u8>,
    code: Vec<Vec<u8>>,
}

impl Texts {
    /// Texts without bytes, and no rows of code.
    fn none(alloc: Global) -> Texts {
        Texts {
            output: Vec::new(alloc),
            typed: Vec::new(alloc),
            message: Vec::new(alloc),
            code: Vec::new(alloc),
        }
    }

    /// Makes the texts of a view that is painted random, and in one of three cases the rows of code.
    fn fill(&mut self, alloc: Global, numbers: &mut Numbers) -> Result<(), AllocError> {
        numbers.text(400, &mut self.output)?;
        numbers.text(170, &mut self.typed)?;
        numbers.text(170, &mut self.message)?;
        fill_rows(alloc, numbers, &mut self.code)
    }
}

/// Puts random rows of code of a view that is painted behind these, or none in two of three cases.
fn fill_rows(
    alloc: Global,
    numbers: &mut Numbers,
    rows: &mut Vec<Vec<u8>>,
) -> Result<(), AllocError> {
    if numbers.below(3) == 0 {
        for _ in 0..numbers.below(100) {
            put_row(alloc, numbers, rows)?;
        }
    }
    Ok(())
}

/// Puts a random row of code of a view that is painted behind these.
fn put_row(
    alloc: Global,
    numbers: &mut Numbers,
    rows: &mut Vec<Vec<u8>>,
) -> Result<(), AllocError> {
    let mut row = Vec::new(alloc);
    match numbers.text(170, &mut row) {
        Ok(()) => {
            rows.push(row)?;
            Ok(())
        }
        Err(AllocError) => {
            drop(row);
            Err(AllocError)
        }
    }
}

/// Draws a random view of the program that has these texts, which is to be painted, on a grid.
fn draw_texts(
    alloc: Global,
    tree: &Tree,
    numbers: &mut Numbers,
    texts: &Texts,
    grid: &mut Grid,
) -> Option<()>
    requires { IsTree tree.now }
    ensures rows { grid.new.rows ≡ grid.old.rows }
    ensures cols { grid.new.cols ≡ grid.old.cols }
{
    let marked = random_mark(numbers);
    let view = ViewWords {
        slot: numbers.below(60),
        part: None,
        top: numbers.below(30),
        run: Some(numbers.below(60)),
        point: numbers.below(2) as u16,
        output: texts.output.as_slice(),
        message: texts.message.as_slice(),
        prompt: b"statement> ",
        typed: texts.typed.as_slice(),
    };
    // What was counted isn't told here.
    let _ = draw_marked(alloc, tree, marked, texts.code.as_slice(), &view, grid)?;
    Some(())
}

/// A random phrase of a view that is painted, which is marked by hand, or in every other case none.
fn random_mark(numbers: &mut Numbers) -> Option<PhraseAt> {
    let slot = Slot(numbers.below(60));
    let part = numbers.below(4) as u8;
    if numbers.below(2) == 0 {
        Some(PhraseAt { slot, part })
    } else {
        None
    }
}
