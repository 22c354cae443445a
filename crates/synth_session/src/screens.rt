//! The two screens of a session: the one that is shown, and the one that is shown next.
ghost use Rattle.std.specs.Prelude.{◌≡◌, ◌+◌, ◌-◌, ◌≤◌, ◌<◌, ◌^◌, IfOk, OnErr, OnOk};
ghost use Rattle.plcs_base.specs.PlainCounts.{LaysAtMost};
ghost use Rattle.template_tree.specs.Programs.PlainTree.{roomless};
ghost use Rattle.template_tree.specs.Programs.Tree.{IsTree};
ghost use Rattle.unparse_layout.specs.Agreement.{IsLayoutOf};
ghost use Rattle.screen_window.specs.HeldLines.{HoldLinesOf};
ghost use Rattle.screen_window.specs.Paint.{Paint};
ghost use Rattle.screen_window.specs.PlainGrid.{blank_grid};
ghost use Rattle.screen_window.specs.Screen.{Screen, window_rows};
ghost use Rattle.screen_window.specs.View.{plain_view};
ghost use Rattle.screen_window.specs.Writes.{Writes};
ghost use Rattle.screen_window.specs.declared.limit.TheConstants.{MOST_ROWS, OTHER_ROWS};

use crate::size::ScreenSize;
use plcs_base::{Marked, OutOfMemory, Work};
use screen_window::{Grid, LineCache, OTHER_ROWS, View, compose, paint};
use std::alloc::Global;
use std::marker::Model;
use std::mem;
use synth_outside::{Sink, SinkFault};

/// The two screens of a session: the one that was painted last, and the one that is painted next; they have one
/// size.
#[derive(Drop)]
pub struct Screens {
    shown: Grid,
    next: Grid,
}

impl Model for Screens {
    ghost use Rattle.synth_session.specs.PlainScreens.{PlainScreens, HaveOneSize};

    ghost Value = { PlainScreens };

    ghost view = { λ screens. record { shown = screens.shown; next = screens.next } };

    ghost invariant = { λ screens. HaveOneSize screens.shown screens.next };
}

impl Screens {
    /// Two blank screens of this size.
    pub(crate) fn new(alloc: Global, size: ScreenSize) -> Result<Screens, OutOfMemory>
        ensures shown { IfOk result (λ screens. screens.shown ≡ blank_grid size.rows size.cols) }
        ensures next { IfOk result (λ screens. screens.next ≡ blank_grid size.rows size.cols) }
    {
        let (rows, cols) = (size.rows(), size.cols());
        match Grid::new(alloc, rows, cols) {
            Ok(shown) => match Grid::new(alloc, rows, cols) {
                Ok(next) => Ok(Screens { shown, next }),
                Err(OutOfMemory) => {
                    drop(shown);
                    Err(OutOfMemory)
                }
            },
            Err(OutOfMemory) => Err(OutOfMemory),
        }
    }

    /// How many rows the window of both screens has.
    pub(crate) fn window_rows(&self) -> u16
        ensures rows { result ≡ window_rows self.now.shown.rows }
        ensures least { 1 ≤ result }
        ensures most { result ≤ MOST_ROWS - OTHER_ROWS }
    {
        self.shown.rows() - OTHER_ROWS
    }

    /// Draws a view on the screen that is shown next, with the lines that are held.
    pub(crate) fn draw<W: Work, M: Marked>(
        &mut self,
        lines: &mut LineCache<W>,
        view: &View<'_, W, M>,
        work: &mut W,
    )
        requires tree { IsTree view.now.tree.now }
        requires layout { IsLayoutOf view.now.layout.now view.now.tree.now }
        requires top { view.now.top + MOST_ROWS < 2 ^ 32 }
        requires held { HoldLinesOf (M.marks view.now.marks.now) (roomless view.now.tree.now.items) lines.old }
        ensures next { self.new.next ≡ Screen self.old.shown.rows self.old.shown.cols (plain_view M.marks view.now) }
        ensures shown { self.new.shown ≡ self.old.shown }
        ensures held { HoldLinesOf (M.marks view.now.marks.now) (roomless view.now.tree.now.items) lines.new }
        ensures counts { LaysAtMost (window_rows self.old.shown.rows) (W.counts work.old) (W.counts work.new) }
    {
        // That the screen is within its bounds is known once it is asked for its rows.
        let _ = self.next.rows();
        compose(&mut self.next, lines, view, work);
    }

    /// Paints the next screen over the one that is shown, and shows it then.
    pub(crate) fn paint<K: Sink>(&mut self, sink: &mut K) -> Result<(), SinkFault>
        ensures wrote { Writes (Paint self.old.shown self.old.next) result
            (K.taken sink.old) (K.taken sink.new)
            (K.faults sink.old) (K.faults sink.new) (K.wants sink.old) (K.wants sink.new) }
        ensures shown { OnOk result (self.new.shown ≡ self.old.next) }
        ensures failed { OnErr result (self.new ≡ self.old) }
        ensures rows { self.new.shown.rows ≡ self.old.shown.rows }
        ensures cols { self.new.shown.cols ≡ self.old.shown.cols }
    {
        match paint(&self.shown, &self.next, sink) {
            Ok(()) => {
                mem::swap(&mut self.shown, &mut self.next);
                Ok(())
            }
            Err(fault) => Err(fault),
        }
    }
}
