//! The pieces of a statement's own code, laid.
ghost use Rattle.std.specs.Prelude.{◌≡◌, ◌∷◌, [], is_none, option_map};
ghost use Rattle.plcs_grammar.specs.PlainPhrase.{plain_exprs};
ghost use Rattle.template_tree.specs.Programs.Part.{part_at};
ghost use Rattle.plcs_code.specs.ExprCode.{listed_exprs, listed_instrs, part_instrs};
ghost use Rattle.plcs_code.specs.Pieces.{enter_piece, first_piece, get_piece, piece_at};
ghost use Rattle.plcs_code.specs.PlainInstr.{plain_instr};
ghost use Rattle.plcs_code.specs.Private.LaysAll.{LaysAll};
ghost use Rattle.plcs_code.specs.Private.PlainHalt.{plain_halt};
ghost use Rattle.plcs_code.specs.Private.PutInstr.{put_instr};

use crate::instr::Instr;
use crate::instr_out::InstrOut;
use crate::lay_expr::lay_exprs;
use crate::lay_phrase::{lay_items, lay_phrase};
use crate::limit::MOST_INSTRS;
use crate::statement_parts::{get_targets, listed_exprs};
use crate::suspension::Halt;
use plcs_base::{Place, Point, Slot, Work};
use plcs_grammar::Expr;
use std::alloc::Global;
use template_tree::{Node, phrase_in};

/// Begins a piece at a point of a slot, with what stops a run there, if anything does. The answer is
/// whether the piece goes on.
pub(crate) fn begin<W: Work, O: InstrOut<W>>(
    slot: Slot,
    point: u16,
    stop: Option<Halt>,
    out: &mut O,
    work: &mut W,
) -> bool
    ensures laid { LaysAll O.lays out.old (W.counts work.old) (piece_at slot.0 point
        (option_map plain_halt stop) []) out.new (W.counts work.new) }
    ensures goes_on { result ≡ is_none (option_map plain_halt stop) }
{
    let point = Point(point);
    out.put(Instr::At(Place { slot, point }), work);
    let Some(stop) = stop else {
        return true;
    };
    out.put(stop.instr(), work);
    false
}

/// Lays the code of what stands in a part, within a piece.
fn lay_part<W: Work, O: InstrOut<W>>(
    alloc: Global,
    node: &Node,
    part: u8,
    out: &mut O,
    work: &mut W,
)
    ensures { LaysAll O.lays out.old (W.counts work.old) (part_instrs (part_at node.now.label.parts part)) out.new
        (W.counts work.new) }
{
    if let Some(phrase) = phrase_in(node, part) {
        lay_phrase(alloc, phrase, out, work);
    }
}

/// Lays a piece of the first part alone at a point of the slot: that of an assignment, a condition or a call.
pub(crate) fn lay_first<W: Work, O: InstrOut<W>>(
    alloc: Global,
    node: &Node,
    point: u16,
    stop: Option<Halt>,
    out: &mut O,
    work: &mut W,
)
    ensures { LaysAll O.lays out.old (W.counts work.old) (first_piece node.now.label.slot point
        (option_map plain_halt stop) node.now.label.parts) out.new (W.counts work.new) }
{
    if begin(node.slot(), point, stop, out, work) {
        lay_part(alloc, node, 0, out, work);
    }
}

/// Lays the piece of a statement that enters a loop that counts: its first value, its limit and its step.
pub(crate) fn lay_enter<W: Work, O: InstrOut<W>>(
    alloc: Global,
    node: &Node,
    stop: Option<Halt>,
    out: &mut O,
    work: &mut W,
)
    ensures { LaysAll O.lays out.old (W.counts work.old) (enter_piece node.now.label.slot
        (option_map plain_halt stop) node.now.label.parts) out.new (W.counts work.new) }
{
    if begin(node.slot(), 0, stop, out, work) {
        lay_part(alloc, node, 1, out, work);
        lay_part(alloc, node, 2, out, work);
        lay_part(alloc, node, 3, out, work);
    }
}

/// Lays the piece of a GET.
pub(crate) fn lay_get<W: Work, O: InstrOut<W>>(
    alloc: Global,
    node: &Node,
    stop: Option<Halt>,
    out: &mut O,
    work: &mut W,
)
    ensures { LaysAll O.lays out.old (W.counts work.old) (get_piece node.now.label.slot
        (option_map plain_halt stop) (part_at node.now.label.parts 0)) out.new (W.counts work.new) }
{
    let Some(stop) = stop else {
        lay_items(alloc, node.slot(), get_targets(node), out, work);
        return;
    };
    begin(node.slot(), 0, Some(stop), out, work);
}

/// Lays the piece of a PUT, on a new line or not.
pub(crate) fn lay_put<W: Work, O: InstrOut<W>>(
    alloc: Global,
    node: &Node,
    stop: Option<Halt>,
    skip: bool,
    out: &mut O,
    work: &mut W,
)
    ensures { LaysAll O.lays out.old (W.counts work.old)
        (piece_at node.now.label.slot 0 (option_map plain_halt stop)
        (listed_instrs (put_instr skip) (listed_exprs (part_at node.now.label.parts 0))))
        out.new (W.counts work.new) }
{
    if begin(node.slot(), 0, stop, out, work) {
        lay_listed(alloc, listed_exprs(node), skip, out, work);
    }
}

/// Lays the piece of a PUT: the code of its expressions, and the instruction that writes them.
fn lay_listed<W: Work, O: InstrOut<W>>(
    alloc: Global,
    exprs: &[Expr],
    skip: bool,
    out: &mut O,
    work: &mut W,
)
    ensures { LaysAll O.lays out.old (W.counts work.old) (listed_instrs (put_instr skip) (plain_exprs exprs.now))
        out.new (W.counts work.new) }
{
    lay_exprs(alloc, exprs, out, work);
    put_counted(exprs.len(), skip, out, work);
}

/// Lays the instruction of a PUT's piece that writes so many values.
fn put_counted<W: Work, O: InstrOut<W>>(number: usize, skip: bool, out: &mut O, work: &mut W)
    ensures { LaysAll O.lays out.old (W.counts work.old) (put_instr skip number ∷ []) out.new (W.counts work.new) }
{
    if number > MOST_INSTRS {
        out.refuse(work);
        return;
    }
    out.put(put_instr(skip, number as u32), work);
}

/// The instruction of a PUT's piece that writes so many values, on a new line or not.
fn put_instr(skip: bool, number: u32) -> Instr
    ensures { plain_instr result ≡ put_instr skip number }
{
    if skip {
        Instr::PutSkip(number)
    } else {
        Instr::Put(number)
    }
}
