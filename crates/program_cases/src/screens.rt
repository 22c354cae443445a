//! Views drawn on grids, and grids painted one over the other.
ghost use Rattle.std.specs.Prelude.{◌≡◌, ◌<◌, ◌≤◌, ◌^◌};
ghost use Rattle.template_tree.specs.Programs.PlainTree.{roomless};
ghost use Rattle.template_tree.specs.Programs.Tree.{IsTree};
ghost use Rattle.unparse_layout.specs.Agreement.{IsLayoutOf};
ghost use Rattle.screen_window.specs.HeldLines.{HoldLinesOf};
ghost use Rattle.screen_window.specs.declared.limit.TheConstants.{FEWEST_COLS, FEWEST_ROWS, MOST_COLS, MOST_ROWS};

use crate::cells::tell_row;
use crate::marks::marks_of;
use crate::one_mark::OneMark;
use crate::program::path_to;
use crate::view_words::{ViewWords, view_words};
use crate::words::size_at;
use case_script::{Told, numbers_of};
use plcs_base::{ByteOut, Counts, Marked, OutOfMemory, PhraseAt};
use screen_window::{FEWEST_COLS, FEWEST_ROWS, Grid, LineCache, View, compose, paint};
use std::alloc::{AllocError, Global};
use std::mem;
use synth_outside::MemSink;
use template_tree::{Stop, Tree};
use unparse_layout::Layout;

/// The last two grids on which views were drawn.
#[derive(Drop)]
pub struct Screens {
    before: Grid,
    last: Grid,
}

impl Screens {
    /// Two grids of the least size, on which no view is drawn yet, to be painted one over the other.
    pub fn new(alloc: Global) -> Result<Screens, AllocError> {
        Screens::blank(alloc, FEWEST_ROWS, FEWEST_COLS)
    }

    /// Two blank grids of this size. A case draws a view on one more, which comes behind them.
    fn blank(alloc: Global, rows: u16, cols: u16) -> Result<Screens, AllocError>
        requires least_rows { FEWEST_ROWS ≤ rows }
        requires most_rows { rows ≤ MOST_ROWS }
        requires least_cols { FEWEST_COLS ≤ cols }
        requires most_cols { cols ≤ MOST_COLS }
    {
        let Ok(before) = Grid::new(alloc, rows, cols) else {
            return Err(AllocError);
        };
        match Grid::new(alloc, rows, cols) {
            Ok(last) => Ok(Screens { before, last }),
            Err(OutOfMemory) => {
                drop(before);
                Err(AllocError)
            }
        }
    }

    /// Takes a blank grid of this size behind the last one.
    fn turn(&mut self, alloc: Global, rows: u16, cols: u16) -> Option<()>
        requires least_rows { FEWEST_ROWS ≤ rows }
        requires most_rows { rows ≤ MOST_ROWS }
        requires least_cols { FEWEST_COLS ≤ cols }
        requires most_cols { cols ≤ MOST_COLS }
    {
        match Grid::new(alloc, rows, cols) {
            Ok(grid) => {
                let last = mem::replace(&mut self.last, grid);
                drop(mem::replace(&mut self.before, last));
                Some(())
            }
            Err(OutOfMemory) => None,
        }
    }
}

/// Draws a view on a grid, and tells the grid.
pub fn grid(
    alloc: Global,
    tree: &Tree,
    marked: Option<PhraseAt>,
    code: &[Vec<u8>],
    words: &[Vec<u8>],
    screens: &mut Screens,
    told: &mut Told,
) -> Option<()>
    requires { IsTree tree.now }
{
    let view = view_words(words)?;
    let (rows, cols) = size_at(words)?;
    screens.turn(alloc, rows, cols)?;
    let work = draw_marked(alloc, tree, marked, code, &view, &mut screens.last)?;
    tell_grid(&screens.last, told);
    told.value(&work);
    Some(())
}

/// Draws a view on a grid under the one mark, or under those of the program.
pub fn draw_marked(
    alloc: Global,
    tree: &Tree,
    marked: Option<PhraseAt>,
    code: &[Vec<u8>],
    view: &ViewWords<'_>,
    grid: &mut Grid,
) -> Option<Counts>
    requires { IsTree tree.now }
    ensures rows { grid.new.rows ≡ grid.old.rows }
    ensures cols { grid.new.cols ≡ grid.old.cols }
{
    if let Some(at) = marked {
        return draw(alloc, tree, &OneMark(at), code, view, grid);
    }
    match marks_of(alloc, tree) {
        Some(marks) => {
            let drawn = draw(alloc, tree, &marks, code, view, grid);
            drop(marks);
            drawn
        }
        None => None,
    }
}

/// Draws the view of a case on a grid under these marks; code is shown where there are rows of it.
fn draw<M: Marked>(
    alloc: Global,
    tree: &Tree,
    marks: &M,
    code: &[Vec<u8>],
    view: &ViewWords<'_>,
    grid: &mut Grid,
) -> Option<Counts>
    requires { IsTree tree.now }
    ensures rows { grid.new.rows ≡ grid.old.rows }
    ensures cols { grid.new.cols ≡ grid.old.cols }
{
    match Layout::new(alloc, tree) {
        Ok(layout) => {
            let drawn = draw_laid(alloc, tree, &layout, marks, code, view, grid);
            drop(layout);
            drawn
        }
        Err(OutOfMemory) => None,
    }
}

/// Draws the view of a case on a grid under these marks, where this is the layout of the program.
fn draw_laid<M: Marked>(
    alloc: Global,
    tree: &Tree,
    layout: &Layout<Counts>,
    marks: &M,
    code: &[Vec<u8>],
    view: &ViewWords<'_>,
    grid: &mut Grid,
) -> Option<Counts>
    requires tree { IsTree tree.now }
    requires agrees { IsLayoutOf layout.now tree.now }
    ensures rows { grid.new.rows ≡ grid.old.rows }
    ensures cols { grid.new.cols ≡ grid.old.cols }
{
    match LineCache::new(alloc) {
        Ok(mut lines) => {
            let work = draw_lines(tree, layout, marks, code, view, grid, &mut lines);
            drop(lines);
            Some(work)
        }
        Err(OutOfMemory) => None,
    }
}

/// Draws the view of a case on a grid under these marks, where the lines are kept of which it is made.
fn draw_lines<M: Marked>(
    tree: &Tree,
    layout: &Layout<Counts>,
    marks: &M,
    code: &[Vec<u8>],
    view: &ViewWords<'_>,
    grid: &mut Grid,
    lines: &mut LineCache<Counts>,
) -> Counts
    requires tree { IsTree tree.now }
    requires agrees { IsLayoutOf layout.now tree.now }
    requires held { HoldLinesOf (M.marks marks.now) (roomless tree.now.items) lines.old }
    ensures rows { grid.new.rows ≡ grid.old.rows }
    ensures cols { grid.new.cols ≡ grid.old.cols }
{
    let stop = Stop {
        path: path_to(tree, view.slot),
        part: view.part,
    };
    let view = View {
        tree,
        layout,
        marks,
        stop: &stop,
        top: view.top.min(1_000_000),
        run_place: view.run_place(),
        output: view.output,
        message: view.message,
        prompt: view.prompt,
        typed: view.typed,
        code: if code.is_empty() { None } else { Some(code) },
    };
    // That a grid is within its bounds is known once it is asked for its rows.
    let _ = grid.rows();
    let mut work = Counts::default();
    compose(grid, lines, &view, &mut work);
    work
}

/// Tells the rows of the grid that aren't blank, and the place of its cursor.
fn tell_grid(grid: &Grid, told: &mut Told) {
    for row in 1..=grid.rows() {
        tell_row(row, grid.cells(row), told);
    }
    told.text("cursor ");
    told.value_line(&grid.cursor());
}

/// Paints the last grid over the one before it. The writes of these numbers fail.
pub fn paint_grid(
    alloc: Global,
    screens: &Screens,
    words: &[Vec<u8>],
    told: &mut Told,
) -> Option<()> {
    let (old, new) = (&screens.before, &screens.last);
    if old.rows() != new.rows() || old.cols() != new.cols() {
        return None;
    }
    match numbers_of(alloc, words) {
        Some(fails) => {
            let mut sink = MemSink::new(alloc, fails);
            told.value(&paint(old, new, &mut sink));
            told.put(b' ');
            told.word(sink.bytes());
            drop(sink);
            Some(())
        }
        None => None,
    }
}
