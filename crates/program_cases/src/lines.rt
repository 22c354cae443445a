//! Lines of the screen, and the lines of stops.
ghost use Rattle.std.specs.Prelude.{};
ghost use Rattle.template_tree.specs.Programs.PlainTree.{roomless_tree};
ghost use Rattle.template_tree.specs.Positions.Stop.{IsStop, plain_stop};
ghost use Rattle.template_tree.specs.Programs.Tree.{IsTree};
ghost use Rattle.unparse_layout.specs.Agreement.{IsLayoutOf};

use crate::cells::tell_cells;
use crate::marks::marks_of;
use crate::one_mark::OneMark;
use crate::words::number_at;
use case_script::Told;
use cursor_moves::{Move, right, top};
use plcs_base::{ByteOut, Counts, Marked, OutOfMemory, PhraseAt, Slot};
use std::alloc::Global;
use template_tree::{Stop, Tree};
use unparse_layout::{Layout, Line};

/// Tells the lines of the screen from this number to that one, or all of them and that none comes behind them.
pub fn lines(
    alloc: Global,
    tree: &Tree,
    marked: Option<PhraseAt>,
    words: &[Vec<u8>],
    told: &mut Told,
) -> Option<()>
    requires { IsTree tree.now }
{
    match Layout::new(alloc, tree) {
        Ok(layout) => {
            let done = lines_of(alloc, &layout, tree, marked, words, told);
            drop(layout);
            done
        }
        Err(OutOfMemory) => None,
    }
}

/// Tells the lines of the program's layout from this number to that one, or all of them and that none comes behind
/// them.
fn lines_of(
    alloc: Global,
    layout: &Layout<Counts>,
    tree: &Tree,
    marked: Option<PhraseAt>,
    words: &[Vec<u8>],
    told: &mut Told,
) -> Option<()>
    requires tree { IsTree tree.now }
    requires agrees { IsLayoutOf layout.now tree.now }
{
    let first = number_at(words, 0).unwrap_or(0);
    let last = number_at(words, 1).unwrap_or(layout.lines());
    match marked {
        Some(at) => {
            tell_lines(layout, tree, &OneMark(at), first, last, told);
            Some(())
        }
        None => tell_marked_lines(alloc, layout, tree, first, last, told),
    }
}

/// Tells the lines of the screen under the marks of the program.
fn tell_marked_lines(
    alloc: Global,
    layout: &Layout<Counts>,
    tree: &Tree,
    first: u32,
    last: u32,
    told: &mut Told,
) -> Option<()>
    requires tree { IsTree tree.now }
    requires agrees { IsLayoutOf layout.now tree.now }
{
    match marks_of(alloc, tree) {
        Some(marks) => {
            tell_lines(layout, tree, &marks, first, last, told);
            drop(marks);
            Some(())
        }
        None => None,
    }
}

/// Tells the lines of the screen under these marks, and what was counted.
fn tell_lines<M: Marked>(
    layout: &Layout<Counts>,
    tree: &Tree,
    marks: &M,
    first: u32,
    last: u32,
    told: &mut Told,
)
    requires tree { IsTree tree.now }
    requires agrees { IsLayoutOf layout.now tree.now }
{
    let mut work = Counts::default();
    for k in first..=last {
        told.value(&k);
        told.put(b' ');
        match layout.line(tree, marks, k, &mut work) {
            Some(line) => {
                tell_line(&line, told);
                drop(line);
            }
            None => told.line("None"),
        }
    }
    told.value_line(&work);
}

/// Tells which of its node's lines a line of the screen is, the slot of that, and its cells.
fn tell_line(line: &Line<Counts>, told: &mut Told) {
    told.value(&line.kind());
    told.text(" of ");
    told.value(&line.slot().0);
    told.put(b' ');
    tell_cells(line.cells(), told);
    told.put(b'\n');
}

/// Whether the layout, made once and mended, has the lines that one has which is made anew.
pub fn same_lines(alloc: Global, layout: &Layout<Counts>, tree: &Tree) -> Option<bool>
    requires tree { IsTree tree.now }
    requires agrees { IsLayoutOf layout.now tree.now }
{
    match Layout::new(alloc, tree) {
        Ok(other) => {
            let same = have_same_lines(layout, &other, tree);
            drop(other);
            Some(same)
        }
        Err(OutOfMemory) => None,
    }
}

/// Whether two layouts of the program have the same lines.
fn have_same_lines(layout: &Layout<Counts>, other: &Layout<Counts>, tree: &Tree) -> bool
    requires tree { IsTree tree.now }
    requires agrees { IsLayoutOf layout.now tree.now }
    requires other { IsLayoutOf other.now tree.now }
{
    if layout.lines() != other.lines() {
        return false;
    }
    for k in 0..=layout.lines() {
        if !have_same_line(layout, other, tree, k) {
            return false;
        }
    }
    true
}

/// Whether two layouts of the program have the same line of this number, or both have none.
fn have_same_line(layout: &Layout<Counts>, other: &Layout<Counts>, tree: &Tree, k: u32) -> bool
    requires tree { IsTree tree.now }
    requires agrees { IsLayoutOf layout.now tree.now }
    requires other { IsLayoutOf other.now tree.now }
{
    let marks = OneMark(PhraseAt {
        slot: Slot(0),
        part: 0,
    });
    let mut work = Counts::default();
    let line = layout.line(tree, &marks, k, &mut work);
    let beside = other.line(tree, &marks, k, &mut work);
    let same = is_same(&line, &beside);
    drop(line);
    drop(beside);
    same
}

/// Whether two lines of the screen are the same, or none.
fn is_same(line: &Option<Line<Counts>>, other: &Option<Line<Counts>>) -> bool {
    match (line, other) {
        (Some(line), Some(other)) => {
            line.cells() == other.cells()
                && line.slot() == other.slot()
                && line.kind() == other.kind()
        }
        (None, None) => true,
        _ => false,
    }
}

/// Answers a case on the lines of stops: tells the line on which each visible stop stands, from the first one on.
pub fn stops(alloc: Global, tree: &Tree, told: &mut Told) -> Option<()>
    requires { IsTree tree.now }
{
    match Layout::new(alloc, tree) {
        Ok(layout) => {
            tell_stops(&layout, tree, told);
            drop(layout);
            Some(())
        }
        Err(OutOfMemory) => None,
    }
}

/// Tells the line of the screen that each visible stop has in the layout.
fn tell_stops(layout: &Layout<Counts>, tree: &Tree, told: &mut Told)
    requires tree { IsTree tree.now }
    requires agrees { IsLayoutOf layout.now tree.now }
{
    let mut stop = top(tree);
    for _ in 0..u32::MAX {
        tell_stop(layout, tree, &stop, told);
        match right(tree, &stop) {
            Move::Moved(next) => stop = next,
            Move::AtEdge => break,
        }
    }
}

/// Tells the line of the screen on which the stop stands.
fn tell_stop(layout: &Layout<Counts>, tree: &Tree, stop: &Stop, told: &mut Told)
    requires tree { IsTree tree.now }
    requires agrees { IsLayoutOf layout.now tree.now }
    requires stop { IsStop (roomless_tree tree.now).items (plain_stop stop.now) }
{
    told.value(&stop.path.as_slice());
    told.text(" part ");
    told.value(&stop.part);
    told.text(" on ");
    told.value_line(&layout.line_of(tree, stop));
}
