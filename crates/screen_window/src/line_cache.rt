//! Caches of lines: those that were laid for a window are held, so that they are laid once for several screens.

ghost use Rattle.std.specs.Prelude.{◌≡◌, ◌<◌, Some, IfOk, length, option_map, slice_get, slice_set};
ghost use Rattle.plcs_base.specs.Mark.{MarkMap};
ghost use Rattle.plcs_base.specs.PlainCounts.{LaysAtMost};
ghost use Rattle.template_tree.specs.Programs.PlainTree.{Forest, roomless};
ghost use Rattle.template_tree.specs.Programs.Tree.{IsTree};
ghost use Rattle.unparse_layout.specs.Agreement.{IsLayoutOf};
ghost use Rattle.unparse_layout.specs.LaidLine.{LaidLines};
ghost use Rattle.screen_window.specs.declared.line_cache.TheConstants.{MOST_LINES};
ghost use Rattle.screen_window.specs.HeldLines.{HoldLinesOf};
ghost use Rattle.screen_window.specs.Private.Buckets.{AreEmpty, bucket_of, held_line, is_held};

use crate::view::View;
use plcs_base::{Marked, OutOfMemory, Work, counts_add_up};
use std::alloc::{AllocError, Global};
use std::marker::Model;
use unparse_layout::Line;

/// How many buckets a cache has for lines: as many as the highest window has rows, so that those of one window have
/// buckets of their own.
const MOST_LINES: usize = 94;

/// What a bucket holds of the line of a number, counted from 0: the line, or that there is none.
#[derive(Drop)]
struct HeldLine<W> {
    number: u32,
    line: Option<Line<W>>,
}

impl<W> Model for HeldLine<W> {
    ghost use Rattle.screen_window.specs.HeldLines.{PlainHeldLine};

    ghost Value = { PlainHeldLine };

    ghost view = { λ held. record { number = held.number; line = held.line } };
}

/// Lines of a program that were laid for a window, each held in the bucket of its number. Contracts see what each
/// bucket holds.
///
/// It has to forget the lines when the program or its marks change.
#[derive(Drop)]
pub struct LineCache<W> {
    buckets: Vec<Option<HeldLine<W>>>,
}

impl<W> Model for LineCache<W> {
    ghost use Rattle.std.specs.Prelude.{◌≡◌, List, Option, length};
    ghost use Rattle.screen_window.specs.declared.line_cache.TheConstants.{MOST_LINES};
    ghost use Rattle.screen_window.specs.HeldLines.{PlainHeldLine};

    ghost Value = { List (Option PlainHeldLine) };

    ghost view = { λ cache. cache.buckets.items };

    ghost invariant = { λ cache. length cache.buckets.items ≡ MOST_LINES };
}

impl<W: Work> LineCache<W> {
    /// A cache that holds no line, and so none of any other program.
    pub fn new(alloc: Global) -> Result<Self, OutOfMemory>
        ensures { IfOk result (λ cache. (marks : MarkMap) (items : Forest) → HoldLinesOf marks items cache) }
    {
        let buckets = empty_buckets(alloc)?;
        Ok(LineCache { buckets })
    }

    /// Forgets all lines of the cache, which so holds none of any other program. It takes no memory.
    pub fn forget(&mut self)
        ensures { (marks : MarkMap) (items : Forest) → HoldLinesOf marks items self.new }
    {
        empty_all(&mut self.buckets);
    }

    /// Lays the line of this number of a view's program, where the cache doesn't hold it yet, and holds it.
    pub(crate) fn lay<M: Marked>(&mut self, view: &View<'_, W, M>, number: u32, work: &mut W)
        requires tree { IsTree view.now.tree.now }
        requires layout { IsLayoutOf view.now.layout.now view.now.tree.now }
        requires held { HoldLinesOf (M.marks view.now.marks.now) (roomless view.now.tree.now.items) self.old }
        ensures held { HoldLinesOf (M.marks view.now.marks.now) (roomless view.now.tree.now.items) self.new }
        ensures line { held_line self.new number
            ≡ slice_get (LaidLines (M.marks view.now.marks.now) (roomless view.now.tree.now.items)) number }
        ensures counts { LaysAtMost 1 (W.counts work.old) (W.counts work.new) }
    {
        counts_add_up();
        if !self.holds(number) {
            let line = view.layout.line(view.tree, view.marks, number, work);
            self.hold(number, line);
        }
    }

    /// The line that the cache holds in the bucket of this number, if it holds one.
    pub(crate) fn line(&self, number: u32) -> Option<&Line<W>>
        ensures { option_map (λ line. line.now) result ≡ held_line self.now number }
    {
        match &self.buckets[bucket_of(number)] {
            Some(held) => held.line.as_ref(),
            None => None,
        }
    }

    /// Whether the cache holds the line of this number, or that there is none.
    fn holds(&self, number: u32) -> bool
        ensures held { result ≡ is_held self.now number }
        ensures count { length self.now ≡ MOST_LINES }
    {
        match &self.buckets[bucket_of(number)] {
            Some(held) => held.number == number,
            None => false,
        }
    }

    /// Holds this as the line of the number in the cache.
    fn hold(&mut self, number: u32, line: Option<Line<W>>)
        ensures { self.new
            ≡ slice_set self.old (bucket_of number) (Some (record { number = number; line = line })) }
    {
        self.buckets[bucket_of(number)] = Some(HeldLine { number, line });
    }
}

/// The number of the bucket in which the line of the number is held, where both count from 0.
fn bucket_of(number: u32) -> usize
    ensures bucket { result ≡ bucket_of number }
    ensures within { result < MOST_LINES }
{
    number as usize % MOST_LINES
}

/// The buckets of a cache that holds no line.
fn empty_buckets<W>(alloc: Global) -> Result<Vec<Option<HeldLine<W>>>, AllocError>
    ensures empty { IfOk result (λ buckets. AreEmpty buckets.items) }
    ensures count { IfOk result (λ buckets. length buckets.items ≡ MOST_LINES) }
{
    let mut buckets = Vec::new(alloc);
    for _ in 0..MOST_LINES {
        buckets.push(None)?;
    }
    Ok(buckets)
}

/// Empties all buckets of a cache.
fn empty_all<W>(buckets: &mut Vec<Option<HeldLine<W>>>)
    ensures empty { AreEmpty buckets.new.items }
    ensures count { length buckets.new.items ≡ length buckets.old.items }
{
    for k in 0..buckets.len() {
        buckets[k] = None;
    }
}
