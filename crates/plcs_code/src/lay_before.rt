//! What stands in a node's own code before that of the nodes inside it, laid.
ghost use Rattle.std.specs.Prelude.{◌≡◌, ◌<◌, ◌++◌, ◌∷◌, [], None, flat_map, length, option_map, unwrap_or};
ghost use Rattle.template_tree.specs.Checks.Environment.{parameters_given};
ghost use Rattle.plcs_code.specs.Pieces.{cell_instr, own_pieces, parameters_instrs, piece_at, template_pieces};
ghost use Rattle.plcs_code.specs.PlainInstr.{plain_instr};
ghost use Rattle.plcs_code.specs.Private.LaysAll.{LaysAll};
ghost use Rattle.plcs_code.specs.Private.PlainHalt.{plain_halt};

use crate::instr::Instr;
use crate::instr_out::InstrOut;
use crate::lay_cells::{lay_cells, lay_parameters};
use crate::lay_pieces::{lay_enter, lay_first, lay_get, lay_put};
use crate::suspension::{Halt, suspension};
use plcs_base::{Declared, Marked, Name, Place, Point, Slot, Work};
use plcs_grammar::{NodeKind, Template};
use std::alloc::Global;
use template_tree::{Node, parameters_given};

/// Lays what stands in the own code of a node before that of the nodes inside it, but for its jump.
pub(crate) fn lay_before<W: Work, O: InstrOut<W>, M: Marked>(
    alloc: Global,
    node: &Node,
    marks: &M,
    items: &[Declared],
    out: &mut O,
    work: &mut W,
)
    requires few { length node.now.label.parts < 256 }
    ensures { LaysAll O.lays out.old (W.counts work.old)
        (own_pieces (M.marks marks.now) items.now node.now.label).before
        out.new (W.counts work.new) }
{
    let stop = suspension(node, marks);
    match node.kind() {
        NodeKind::DeclarationHole => {}
        NodeKind::StatementHole => lay_alone(node.slot(), Instr::SuspendPlaceholder, out, work),
        NodeKind::ProcedureHole => {}
        NodeKind::Main => lay_items_of(items, &[], out, work),
        NodeKind::Assign => lay_first(alloc, node, 0, stop, out, work),
        NodeKind::Filled(template) => {
            lay_template(alloc, node, template, stop, items, out, work);
        }
    }
}

/// Lays what stands in the own code of a node of the template before that of the nodes inside it.
fn lay_template<W: Work, O: InstrOut<W>>(
    alloc: Global,
    node: &Node,
    template: Template,
    stop: Option<Halt>,
    items: &[Declared],
    out: &mut O,
    work: &mut W,
)
    ensures { LaysAll O.lays out.old (W.counts work.old)
        (template_pieces node.now.label.slot (option_map plain_halt stop) None node.now.label.parts items.now
        template).before
        out.new (W.counts work.new) }
{
    match template {
        Template::Fixed => {}
        Template::Bit => {}
        Template::Char => {}
        Template::If => lay_first(alloc, node, 0, stop, out, work),
        Template::IfElse => lay_first(alloc, node, 0, stop, out, work),
        Template::While => lay_first(alloc, node, 0, stop, out, work),
        Template::For => lay_enter(alloc, node, stop, out, work),
        Template::Until => {}
        Template::Group => {}
        Template::Get => lay_get(alloc, node, stop, out, work),
        Template::Put => lay_put(alloc, node, stop, false, out, work),
        Template::PutSkip => lay_put(alloc, node, stop, true, out, work),
        Template::Call => lay_first(alloc, node, 0, stop, out, work),
        Template::Return => lay_alone(node.slot(), Instr::Leave, out, work),
        Template::Comment => {}
        Template::Proc => lay_items_of(items, &[], out, work),
        Template::ProcP => lay_items_of(items, parameters_of(node), out, work),
    }
}

/// Lays what stands before the codes of the nodes inside a node where that is one instruction alone, at the
/// start of its slot.
fn lay_alone<W: Work, O: InstrOut<W>>(slot: Slot, instr: Instr, out: &mut O, work: &mut W)
    ensures { LaysAll O.lays out.old (W.counts work.old) (piece_at slot.0 0 None (plain_instr instr ∷ []))
        out.new (W.counts work.new) }
{
    let point = Point(0);
    out.put(Instr::At(Place { slot, point }), work);
    out.put(instr, work);
}

/// Lays what stands in the own code of a procedure with these parameters before that of the nodes inside it:
/// the instructions that make its cells.
fn lay_items_of<W: Work, O: InstrOut<W>>(
    items: &[Declared],
    names: &[Name],
    out: &mut O,
    work: &mut W,
)
    ensures { LaysAll O.lays out.old (W.counts work.old)
        (parameters_instrs items.now [] names.now ++ flat_map (cell_instr names.now) items.now)
        out.new (W.counts work.new) }
{
    lay_parameters(items, names, out, work);
    lay_cells(items, names, out, work);
}

/// The parameters in the heading of a procedure, whose cells are laid before what is inside: none where no list of
/// them stands there.
fn parameters_of(node: &Node) -> &[Name]
    ensures { result.now ≡ unwrap_or (parameters_given node.now.label.parts) [] }
{
    match parameters_given(node) {
        Some(names) => names,
        None => &[],
    }
}
