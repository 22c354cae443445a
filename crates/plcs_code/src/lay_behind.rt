//! What stands in a node's own code behind that of the nodes inside it, laid.
ghost use Rattle.std.specs.Prelude.{◌≡◌, ◌∷◌, None, [], option_map};
ghost use Rattle.template_tree.specs.Positions.Place.{place_at};
ghost use Rattle.plcs_code.specs.Pieces.{own_pieces, piece_at, template_pieces};
ghost use Rattle.plcs_code.specs.PlainInstr.{PlainInstr};
ghost use Rattle.plcs_code.specs.Private.LaysAll.{LaysAll};
ghost use Rattle.plcs_code.specs.Private.PlainHalt.{plain_halt};

use crate::instr::Instr;
use crate::instr_out::InstrOut;
use crate::lay_pieces::{begin, lay_first};
use crate::suspension::{Halt, first_suspension};
use plcs_base::{Marked, Place, Point, Slot, Work};
use plcs_grammar::{NodeKind, Template};
use std::alloc::Global;
use template_tree::Node;

/// Lays what stands in the own code of a node behind that of the nodes inside it, but for its jump.
pub(crate) fn lay_behind<W: Work, O: InstrOut<W>, M: Marked>(
    alloc: Global,
    node: &Node,
    marks: &M,
    out: &mut O,
    work: &mut W,
)
    ensures { LaysAll O.lays out.old (W.counts work.old)
        (own_pieces (M.marks marks.now) [] node.now.label).behind
        out.new (W.counts work.new) }
{
    match node.kind() {
        NodeKind::DeclarationHole => {}
        NodeKind::StatementHole => {}
        NodeKind::ProcedureHole => {}
        NodeKind::Main => lay_end(node.slot(), out, work),
        NodeKind::Assign => {}
        NodeKind::Filled(template) => {
            lay_template(
                alloc,
                node,
                template,
                first_suspension(node, marks),
                out,
                work,
            );
        }
    }
}

/// Lays what stands in the own code of a node of the template behind that of the nodes inside it.
fn lay_template<W: Work, O: InstrOut<W>>(
    alloc: Global,
    node: &Node,
    template: Template,
    stop: Option<Halt>,
    out: &mut O,
    work: &mut W,
)
    ensures { LaysAll O.lays out.old (W.counts work.old)
        (template_pieces node.now.label.slot None (option_map plain_halt stop) node.now.label.parts [] template).behind
        out.new (W.counts work.new) }
{
    match template {
        Template::Fixed => {}
        Template::Bit => {}
        Template::Char => {}
        Template::If => {}
        Template::IfElse => {}
        Template::While => {}
        Template::For => lay_iteration(node.slot(), stop, out, work),
        Template::Until => lay_first(alloc, node, 1, stop, out, work),
        Template::Group => {}
        Template::Get => {}
        Template::Put => {}
        Template::PutSkip => {}
        Template::Call => {}
        Template::Return => {}
        Template::Comment => {}
        Template::Proc => lay_end(node.slot(), out, work),
        Template::ProcP => lay_end(node.slot(), out, work),
    }
}

/// Lays, behind what is inside a loop that counts, the piece before its next iteration.
fn lay_iteration<W: Work, O: InstrOut<W>>(slot: Slot, stop: Option<Halt>, out: &mut O, work: &mut W)
    ensures { LaysAll O.lays out.old (W.counts work.old) (piece_at slot.0 1 (option_map plain_halt stop) [])
        out.new (W.counts work.new) }
{
    begin(slot, 1, stop, out, work);
}

/// Lays the end of main or a procedure, behind what is inside.
fn lay_end<W: Work, O: InstrOut<W>>(slot: Slot, out: &mut O, work: &mut W)
    ensures { LaysAll O.lays out.old (W.counts work.old)
        (PlainInstr.place (place_at slot.0 1) ∷ PlainInstr.leave ∷ [])
        out.new (W.counts work.new) }
{
    let point = Point(1);
    out.put(Instr::At(Place { slot, point }), work);
    out.put(Instr::Leave, work);
}
