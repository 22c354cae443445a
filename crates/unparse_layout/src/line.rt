//! Lines of the screen as they are laid: their cells, the slots of their nodes and their kinds.
ghost use Rattle.std.specs.Prelude.{◌≡◌, ◌≤◌, length};
ghost use Rattle.unparse_layout.specs.LaidLine.{longest_line, screen_cell};

use arrayvec::ArrayVec;
use plcs_base::Slot;
use std::marker::{Model, PhantomData};

/// How many cells a line may have: what goes beyond is cut.
pub const LONGEST_LINE: usize = 158;

/// What is added to a byte of a line in negative image.
const NEGATIVE: u16 = 256;

/// Which of a node's lines a line of the screen is.
#[derive(Clone, Copy, Debug, PartialEq, Eq)]
pub enum LineKind {
    /// A node's first line.
    First,
    /// A line before some of what stands inside a node, as `ELSE`.
    Lead,
    /// The line that stands for a node's elided refinement.
    Elision,
    /// A node's last line, `END;`.
    Last,
}

/// A line of the screen, which contracts see as its cells with the slot of the node to which it belongs.
///
/// Only `Layout::line` makes one, which is counted as work of `W`.
#[derive(Drop)]
pub struct Line<W> {
    slot: Slot,
    kind: LineKind,
    cells: ArrayVec<u16, LONGEST_LINE>,
    of: PhantomData<W>,
}

impl<W> Model for Line<W> {
    ghost use Rattle.unparse_layout.specs.LaidLine.{PlainLine};

    ghost Value = { PlainLine };

    ghost view = { λ a. record { slot = a.slot.0; kind = a.kind; cells = a.cells.items } };
}

impl<W> Line<W> {
    /// The laid line of the screen with these cells, of this kind and slot.
    pub(crate) fn laid(slot: Slot, kind: LineKind, cells: ArrayVec<u16, LONGEST_LINE>) -> Line<W>
        ensures { result ≡ record { slot = slot.0; kind = kind; cells = cells.items } }
    {
        Line {
            slot,
            kind,
            cells,
            of: PhantomData,
        }
    }

    /// A laid line's cells from the left, at most 158: a byte, plus 256 where it is in negative image. The blanks of
    /// its level are among them.
    pub fn cells(&self) -> &[u16]
        ensures cells { result.now ≡ self.now.cells }
        ensures short { length result.now ≤ longest_line }
    {
        self.cells.as_slice()
    }

    /// The slot of the node to which a laid line belongs.
    pub fn slot(&self) -> Slot
        ensures { result.0 ≡ self.now.slot }
    {
        self.slot
    }

    /// The kind of a laid line: which of its node's lines it is.
    pub fn kind(&self) -> LineKind
        ensures { result ≡ self.now.kind }
    {
        self.kind
    }
}

/// The cell of a line of the screen for a byte, in negative image or not.
pub fn screen_cell(negative: bool, byte: u8) -> u16
    ensures { result ≡ screen_cell negative byte }
{
    if negative {
        return u16::from(byte) + NEGATIVE;
    }
    u16::from(byte)
}
