//! How lines are laid as cells: the blanks before them, and then segment by segment, with marked phrases in
//! negative image.
ghost use Rattle.std.specs.Prelude.{◌≡◌, ◌*◌, ◌≤◌, ◌<◌, false, flat_map, length, replicate, take, ◌++◌};
ghost use Rattle.plcs_grammar.specs.Template.{PlainSegment, plain_segment, row_of};
ghost use Rattle.template_tree.specs.Programs.Limit.{deepest_path};
ghost use Rattle.unparse_layout.specs.LaidLine.{laid_line, longest_line, stretch_cells};
ghost use Rattle.unparse_layout.specs.OwnedLine.{first_line, next_after, stretch_of, stretches_of};
ghost use Rattle.unparse_layout.specs.Private.Cells.{PutsAside};
ghost use Rattle.unparse_layout.specs.Private.PlainPlan.{planned};

use crate::line::{LONGEST_LINE, Line, LineKind, screen_cell};
use crate::plan::Plan;
use arrayvec::ArrayVec;
use plcs_base::{ByteOut, Marked, PhraseAt, Slot, put_bytes};
use plcs_grammar::{Category, Segment, show};
use template_tree::{Node, phrase_in};

/// Lays as cells a line that was found, under these marks.
pub(crate) fn lay<W, M: Marked>(plan: &Plan, marks: &M) -> Line<W>
    ensures { result ≡ laid_line (M.marks marks.now) (planned plan.now) }
{
    match plan {
        Plan::Fixed(slot, kind, level, bytes) => lay_fixed(*slot, *kind, *level, bytes),
        Plan::First(level, node) => lay_first(*level, node, marks),
    }
}

/// Lays as cells a line in which no part stands.
fn lay_fixed<W>(slot: Slot, kind: LineKind, level: u32, bytes: &[u8]) -> Line<W>
    ensures { result
        ≡ record { slot = slot.0; kind = kind; cells = take longest_line (replicate (2 * level) 32 ++ bytes.now) } }
{
    let mut out = CellsOut {
        cells: ArrayVec::new(),
        negative: false,
    };
    put_blanks(level, &mut out);
    put_bytes(bytes, &mut out);
    Line::laid(slot, kind, out.cells)
}

/// Lays as cells the first line of the node.
fn lay_first<W, M: Marked>(level: u32, node: &Node, marks: &M) -> Line<W>
    ensures { result ≡ laid_line (M.marks marks.now) (first_line level node.now.label) }
{
    let mut out = CellsOut {
        cells: ArrayVec::new(),
        negative: false,
    };
    put_blanks(level, &mut out);
    put_first(node, marks, &mut out);
    Line::laid(node.slot(), LineKind::First, out.cells)
}

/// Puts the cells of the blanks before a line that is laid at the level.
fn put_blanks(level: u32, out: &mut CellsOut)
    requires plain { out.old.negative ≡ false }
    requires short { length out.old.cells.items ≤ longest_line }
    ensures { PutsAside out.old (replicate (2 * level) 32) out.new }
{
    'levels: for _ in 0..level {
        put_bytes(b"  ", out);
    }
}

/// Puts the cells of the first line that is laid of a node, behind the blanks.
fn put_first<M: Marked>(node: &Node, marks: &M, out: &mut CellsOut)
    requires plain { out.old.negative ≡ false }
    requires short { length out.old.cells.items ≤ longest_line }
    ensures { PutsAside out.old
        (flat_map (stretch_cells (M.marks marks.now) node.now.label.slot)
        (stretches_of 0 (row_of node.now.label.kind).line node.now.label.parts))
        out.new }
{
    let mut part = 0;
    for segment in node.kind().row().line {
        part = put_segment(*segment, node, part, marks, out);
    }
}

/// Puts the cells of a segment of a line that is laid, where the next part has this number, and gives the number of
/// the part after it.
fn put_segment<M: Marked>(
    segment: Segment,
    node: &Node,
    part: u8,
    marks: &M,
    out: &mut CellsOut,
) -> u8
    requires few { part < 255 }
    requires plain { out.old.negative ≡ false }
    requires short { length out.old.cells.items ≤ longest_line }
    ensures put { PutsAside out.old
        (stretch_cells (M.marks marks.now) node.now.label.slot
        (stretch_of part (plain_segment segment) node.now.label.parts))
        out.new }
    ensures next { result ≡ next_after part (plain_segment segment) }
{
    match segment {
        Segment::Words(bytes) => {
            put_bytes(bytes, out);
            part
        }
        Segment::Part(category) => {
            put_part(category, node, part, marks, out);
            part + 1
        }
    }
}

/// Puts the cells of what stands in a part of a line that is laid: its phrase, in negative image where it is marked,
/// or the placeholder of the category.
fn put_part<M: Marked>(category: Category, node: &Node, part: u8, marks: &M, out: &mut CellsOut)
    requires plain { out.old.negative ≡ false }
    requires short { length out.old.cells.items ≤ longest_line }
    ensures { PutsAside out.old
        (stretch_cells (M.marks marks.now) node.now.label.slot
        (stretch_of part (PlainSegment.part category) node.now.label.parts))
        out.new }
{
    let Some(phrase) = phrase_in(node, part) else {
        put_bytes(category.placeholder(), out);
        return;
    };
    let at = PhraseAt {
        slot: node.slot(),
        part,
    };
    out.negative = marks.mark(at).is_some();
    show(phrase, out);
    out.negative = false;
}

/// The cells so far of a line that is laid, and whether the bytes that come are in negative image.
#[derive(Drop)]
struct CellsOut {
    cells: ArrayVec<u16, LONGEST_LINE>,
    negative: bool,
}

impl ByteOut for CellsOut {
    ghost use Rattle.unparse_layout.specs.Private.Cells.{PutsCell};

    ghost puts = { PutsCell };

    fn put(&mut self, byte: u8) {
        let cell = screen_cell(self.negative, byte);
        if let Err(_) = self.cells.try_push(cell) {}
    }
}
