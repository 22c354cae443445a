//! Views drawn on grids.

ghost use Rattle.std.specs.Prelude.{◌≡◌, ℕ, ◌+◌, ◌-◌, ◌≤◌, ◌<◌, [], Some, map, length, slice_index_or, option_map, nat_lt, if◌then◌else◌, ◌^◌, ◌++◌};
ghost use Rattle.plcs_base.specs.PlainCounts.{CountsNothing, LaysAtMost};
ghost use Rattle.template_tree.specs.Positions.Path.{slot_at};
ghost use Rattle.template_tree.specs.Programs.PlainTree.{roomless};
ghost use Rattle.template_tree.specs.Programs.Tree.{IsTree};
ghost use Rattle.unparse_layout.specs.Agreement.{IsLayoutOf};
ghost use Rattle.screen_window.specs.declared.limit.TheConstants.{FEWEST_COLS, FEWEST_ROWS, MOST_COLS, MOST_ROWS};
ghost use Rattle.screen_window.specs.HeldLines.{HoldLinesOf};
ghost use Rattle.screen_window.specs.Limit.{IsSize};
ghost use Rattle.screen_window.specs.NodeLine.{is_line};
ghost use Rattle.screen_window.specs.Screen.{Screen, screen_row, window_rows};
ghost use Rattle.screen_window.specs.ShownRow.{shown_row};
ghost use Rattle.screen_window.specs.View.{plain_view};
ghost use Rattle.screen_window.specs.Window.{is_run_line, line_row, run_line};
ghost use Rattle.screen_window.specs.Private.RowCells.{text_cells, with_row};
ghost use Rattle.screen_window.specs.Cursor.{begins_node, cursor_position, cut_col};
ghost use Rattle.screen_window.specs.LowerRows.{last_ones};
ghost use Rattle.screen_window.specs.Private.Buckets.{held_row};
ghost use Rattle.screen_window.specs.Private.Drawing.{IsDrawn, begins_stop, found_or, row_from, row_line};

use crate::cursor::{stop_col, stop_node};
use crate::grid::Grid;
use crate::limit::{FEWEST_COLS, FEWEST_ROWS, MOST_COLS, MOST_ROWS, OTHER_ROWS};
use crate::line_cache::LineCache;
use crate::lower_rows::{last_ones, message_row, output_row};
use crate::node_line::{NodeLine, is_line, place_line};
use crate::row_text::RowText;
use crate::view::View;
use plcs_base::{Marked, Place, Work, counts_add_up};
use template_tree::{Stop, Tree};
use unparse_layout::{Line, LineKind};

/// Draws a view on a grid, with lines that the cache holds, and lays those that it doesn't hold yet: no more than
/// the window has rows. It takes no memory.
pub fn compose<W: Work, M: Marked>(
    grid: &mut Grid,
    cache: &mut LineCache<W>,
    view: &View<'_, W, M>,
    work: &mut W,
)
    requires tree { IsTree view.now.tree.now }
    requires layout { IsLayoutOf view.now.layout.now view.now.tree.now }
    requires top { view.now.top + grid.old.rows < 2 ^ 32 }
    requires held { HoldLinesOf (M.marks view.now.marks.now) (roomless view.now.tree.now.items) cache.old }
    ensures drawn { grid.new ≡ Screen grid.old.rows grid.old.cols (plain_view M.marks view.now) }
    ensures rows { grid.new.rows ≡ grid.old.rows }
    ensures cols { grid.new.cols ≡ grid.old.cols }
    ensures held { HoldLinesOf (M.marks view.now.marks.now) (roomless view.now.tree.now.items) cache.new }
    ensures counts { LaysAtMost (window_rows grid.old.rows) (W.counts work.old) (W.counts work.new) }
{
    let found = draw_rows(grid, cache, view, work);
    let (row, col) = cursor_position(grid.rows(), grid.cols(), view, found);
    grid.place_cursor(row, col);
}

/// Draws the rows of a view, and tells in which row of the window the line of the cursor's stop is, where
/// rows count from 0.
fn draw_rows<W: Work, M: Marked>(
    grid: &mut Grid,
    cache: &mut LineCache<W>,
    view: &View<'_, W, M>,
    work: &mut W,
) -> Option<u16>
    requires tree { IsTree view.now.tree.now }
    requires layout { IsLayoutOf view.now.layout.now view.now.tree.now }
    requires top { view.now.top + grid.old.rows < 2 ^ 32 }
    requires held { HoldLinesOf (M.marks view.now.marks.now) (roomless view.now.tree.now.items) cache.old }
    ensures drawn { IsDrawn
        (λ row. shown_row grid.old.cols (screen_row grid.old.rows grid.old.cols (plain_view M.marks view.now) row))
        grid.old.rows grid.old grid.new }
    ensures found { result
        ≡ row_from (plain_view M.marks view.now)
        (slot_at (roomless view.now.tree.now.items) view.now.stop.now.path.items) 0 (window_rows grid.old.rows) }
    ensures held { HoldLinesOf (M.marks view.now.marks.now) (roomless view.now.tree.now.items) cache.new }
    ensures counts { LaysAtMost (window_rows grid.old.rows) (W.counts work.old) (W.counts work.new) }
{
    counts_add_up();
    let run = run_line(view.tree, view.run_place);
    let stop = stop_slot(view.tree, view.stop);
    let rows = grid.rows();
    let mut found = None;
    for row in 0..rows {
        lay_row(cache, view, rows - OTHER_ROWS, row, work);
        let laid = held_row(cache, view.top, rows - OTHER_ROWS, row);
        found = found_or(found, begins_stop(stop, laid), row);
        draw_row(grid, view, row, run, laid);
    }
    found
}

/// Lays the program's line in a row of the screen that is drawn, where that lies in the window, which has so
/// many rows, and the line isn't held yet.
fn lay_row<W: Work, M: Marked>(
    cache: &mut LineCache<W>,
    view: &View<'_, W, M>,
    window: u16,
    row: u16,
    work: &mut W,
)
    requires tree { IsTree view.now.tree.now }
    requires layout { IsLayoutOf view.now.layout.now view.now.tree.now }
    requires top { view.now.top + row < 2 ^ 32 }
    requires held { HoldLinesOf (M.marks view.now.marks.now) (roomless view.now.tree.now.items) cache.old }
    ensures held { HoldLinesOf (M.marks view.now.marks.now) (roomless view.now.tree.now.items) cache.new }
    ensures line { held_row cache.new view.now.top window row ≡ row_line window (plain_view M.marks view.now) row }
    ensures lays { row < window → LaysAtMost 1 (W.counts work.old) (W.counts work.new) }
    ensures still { window ≤ row → CountsNothing (W.counts work.old) (W.counts work.new) }
{
    if row < window {
        cache.lay(view, view.top + u32::from(row), work);
    }
}

/// The program's line in a row of the screen that is drawn, as it is held, where that lies in the window,
/// which begins with the line of the number `top` and has so many rows.
fn held_row<W: Work>(cache: &LineCache<W>, top: u32, window: u16, row: u16) -> Option<&Line<W>>
    requires { top + row < 2 ^ 32 }
    ensures { option_map (λ line. line.now) result ≡ held_row cache.now top window row }
{
    if window > row {
        cache.line(top + u32::from(row))
    } else {
        None
    }
}

/// The slot of the node whose first line is looked for while a view is drawn: the one at which the cursor
/// stands, if there is one.
fn stop_slot(tree: &Tree, stop: &Stop) -> Option<u32>
    requires { IsTree tree.now }
    ensures { result ≡ slot_at (roomless tree.now.items) stop.now.path.items }
{
    let node = stop_node(tree, stop)?;
    Some(node.slot().0)
}

/// Whether a line drawn on a grid is that of the cursor's stop: the first of the node in the slot, where
/// there is a slot.
fn begins_stop<W>(slot: Option<u32>, laid: Option<&Line<W>>) -> bool
    ensures { result ≡ begins_stop slot (option_map (λ line. line.now) laid.entry) }
{
    match slot {
        Some(slot) => begins_node(slot, laid),
        None => false,
    }
}

/// Whether a line that is drawn, if there is one, is the first of the node in the slot.
fn begins_node<W>(slot: u32, laid: Option<&Line<W>>) -> bool
    ensures { result ≡ begins_node slot (option_map (λ line. line.now) laid.entry) }
{
    match laid {
        Some(laid) => is_line(
            NodeLine {
                slot,
                kind: LineKind::First,
            },
            laid,
        ),
        None => false,
    }
}

/// The row of the cursor's stop that was found while a view is drawn, or else this one where it is that.
fn found_or(found: Option<u16>, here: bool, row: u16) -> Option<u16>
    ensures { result ≡ found_or found here row }
{
    match found {
        Some(found) => Some(found),
        None if here => Some(row),
        None => None,
    }
}

/// The row and the column of the cursor on the grid of a view, which count from 1, where the line of its
/// stop was found in this row of the window, which counts from 0.
fn cursor_position<W: Work, M: Marked>(
    rows: u16,
    cols: u16,
    view: &View<'_, W, M>,
    found: Option<u16>,
) -> (u16, u16)
    requires tree { IsTree view.now.tree.now }
    requires size { IsSize rows cols }
    requires found { found
        ≡ row_from (plain_view M.marks view.now)
        (slot_at (roomless view.now.tree.now.items) view.now.stop.now.path.items) 0 (window_rows rows) }
    ensures within { result.0 ≤ rows }
    ensures row { result.0 ≡ (cursor_position rows cols (plain_view M.marks view.now)).row }
    ensures col { result.1 ≡ (cursor_position rows cols (plain_view M.marks view.now)).col }
{
    if !view.typed.is_empty() {
        return (rows, typed_col(cols, view.prompt, view.typed));
    }
    match (stop_node(view.tree, view.stop), found) {
        (Some(node), Some(row)) => (row + 1, stop_col(cols, view.stop, node)),
        _ => (1, 1),
    }
}

/// The column of the cursor on the grid on which a view with a typed line is drawn: behind the prompt and the
/// line's end, or the last but one where it lies beyond.
fn typed_col(cols: u16, prompt: &[u8], typed: &[u8]) -> u16
    requires least { FEWEST_COLS ≤ cols }
    requires most { cols ≤ MOST_COLS }
    ensures { result ≡ cut_col cols (length (prompt.now ++ last_ones (cols - 2 - length prompt.now) typed.now) + 1) }
{
    let room = usize::from(cols - 2).saturating_sub(prompt.len());
    let col = prompt
        .len()
        .saturating_add(last_ones(typed, room).len())
        .saturating_add(1);
    col.min(usize::from(cols - 1)) as u16
}

/// Draws a row of a view, which counts from 0, where this line lies in it.
#[tactic(auto, unfolding(crate::specs::Screen::screen_row))]
fn draw_row<W: Work, M: Marked>(
    grid: &mut Grid,
    view: &View<'_, W, M>,
    row: u16,
    run: Option<NodeLine>,
    laid: Option<&Line<W>>,
)
    requires tree { IsTree view.now.tree.now }
    requires row { row < grid.old.rows }
    requires run { run ≡ run_line (roomless view.now.tree.now.items) view.now.run_place }
    requires line { option_map (λ line. line.now) laid
        ≡ row_line (window_rows grid.old.rows) (plain_view M.marks view.now) row }
    ensures { grid.new
        ≡ with_row grid.old row
        (shown_row grid.old.cols (screen_row grid.old.rows grid.old.cols (plain_view M.marks view.now) row)) }
{
    let rows = grid.rows();
    let cols = grid.cols();
    if row < rows - OTHER_ROWS {
        match view.code {
            Some(code) => grid.show(row, RowText::Code(code_text(code, row))),
            None => grid.show(row, line_text(run, laid)),
        }
    } else {
        grid.show(row, lower_text(view, rows, cols, row));
    }
}

/// What is drawn on a grid of a view in a row below the window: the dashes, or one of the lower rows.
#[tactic(auto, unfolding(crate::specs::Screen::screen_row))]
fn lower_text<'a, W: Work, M: Marked>(
    view: &View<'a, W, M>,
    rows: u16,
    cols: u16,
    row: u16,
) -> RowText<'a>
    requires tree { IsTree view.now.tree.now }
    requires rows { FEWEST_ROWS ≤ rows }
    requires few { rows ≤ MOST_ROWS }
    requires below { window_rows rows ≤ row }
    ensures { text_cells cols result ≡ screen_row rows cols (plain_view M.marks view.now) row }
{
    let window = rows - OTHER_ROWS;
    if row == window {
        RowText::Dashes
    } else if row < rows - 2 {
        RowText::Text(output_row(view.output, usize::from(row - (window + 1))))
    } else if row == rows - 2 {
        RowText::Text(message_row(view.message, view.tree, view.stop, view.marks))
    } else {
        let room = usize::from(cols).saturating_sub(2);
        RowText::Input(
            view.prompt,
            last_ones(view.typed, room.saturating_sub(view.prompt.len())),
        )
    }
}

/// The instruction that is drawn in a row of a view's window, where code is shown, or nothing below the
/// last.
fn code_text(rows: &[Vec<u8>], row: u16) -> &[u8]
    ensures { result.now ≡ slice_index_or (map (λ text. text.items) rows.now) row [] }
{
    match rows.get(usize::from(row)) {
        Some(text) => text.as_slice(),
        None => &[],
    }
}

/// What is drawn in a row of a view's window, where the program is shown: its line, or nothing below the
/// last.
fn line_text<'a, W>(run: Option<NodeLine>, laid: Option<&'a Line<W>>) -> RowText<'a>
    ensures { (cols : ℕ) → text_cells cols result ≡ line_row run (option_map (λ line. line.now) laid.entry) }
{
    match laid {
        Some(laid) => RowText::Line(is_run_line(run, laid), laid.cells()),
        None => RowText::Text(&[]),
    }
}

/// Whether a line that is drawn is that of the run's place, if there is one.
fn is_run_line<W>(run: Option<NodeLine>, laid: &Line<W>) -> bool
    ensures { result ≡ is_run_line run laid.now }
{
    match run {
        Some(line) => is_line(line, laid),
        None => false,
    }
}

/// The line of a composed view in whose margin the run is drawn: that of the run's place, if a run stands
/// and its slot is live.
fn run_line(tree: &Tree, place: Option<Place>) -> Option<NodeLine>
    requires { IsTree tree.now }
    ensures { result ≡ run_line (roomless tree.now.items) place }
{
    place_line(tree, place?)
}
