//! One line, cut out of a listing while that is put.
ghost use Rattle.std.specs.Prelude.{◌≡◌, ◌≤◌, [], length, option_map, slice_get, take};
ghost use Rattle.template_tree.specs.Listings.Line.{line_bytes, listing_lines};
ghost use Rattle.template_tree.specs.Programs.Tree.{IsTree};

use crate::stopped_line::LONGEST_SHOWN;
use arrayvec::ArrayVec;
use plcs_base::ByteOut;
use std::marker::Model;
use template_tree::{Tree, listing_splits_in_lines};

/// What is cut out of a listing so far.
#[derive(Drop)]
struct LineCut {
    /// How many line ends are still to come before the line.
    ends: u32,
    /// Whether the line's own end came.
    over: bool,
    /// The first bytes of the line.
    text: ArrayVec<u8, LONGEST_SHOWN>,
}

impl Model for LineCut {
    ghost use Rattle.program_run.specs.Private.CutLine.{PlainLineCut};

    ghost Value = { PlainLineCut };

    ghost view = { λ cut. record { ends = cut.ends; over = cut.over; text = cut.text.items } };
}

impl ByteOut for LineCut {
    ghost use Rattle.program_run.specs.Private.CutLine.{PutsCut};

    ghost puts = { PutsCut };

    fn put(&mut self, byte: u8) {
        if self.over {
            return;
        }
        if byte == b'\n' {
            self.end_line();
        } else if self.ends == 0 {
            self.show(byte);
        }
    }
}

impl LineCut {
    ghost use Rattle.program_run.specs.Private.CutLine.{line_ended, with_shown};

    /// A line of the listing ends, the one that is cut out or one before it.
    fn end_line(&mut self)
        ensures { self.new ≡ line_ended self.old }
    {
        if self.ends == 0 {
            self.over = true;
        } else {
            self.ends -= 1;
        }
    }

    /// A byte of the line that is cut out comes; it is dropped where enough came before.
    fn show(&mut self, byte: u8)
        ensures { self.new ≡ with_shown byte self.old }
    {
        if let Err(_) = self.text.try_push(byte) {}
    }
}

/// The first bytes of the line of this number of the tree's listing, counted from 0, as many as are shown; `None`
/// where there is no such line.
pub(crate) fn cut_line(tree: &Tree, number: u32) -> Option<ArrayVec<u8, LONGEST_SHOWN>>
    requires { IsTree tree.now }
    ensures { option_map (λ text. text.items) result
        ≡ option_map (λ line. take LONGEST_SHOWN (line_bytes line)) (slice_get (listing_lines tree.now.items) number) }
{
    listing_splits_in_lines();
    let mut cut = LineCut {
        ends: number,
        over: false,
        text: ArrayVec::new(),
    };
    tree.put_listing(&mut cut);
    if cut.over { Some(cut.text) } else { None }
}
