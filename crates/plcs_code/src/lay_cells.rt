//! The code that makes the cells of a procedure, laid.
ghost use Rattle.std.specs.Prelude.{◌≡◌, [], bytes_eq, flat_map, option_map};
ghost use Rattle.std.specs.List.{list_any};
ghost use Rattle.template_tree.specs.Checks.Environment.{item_named};
ghost use Rattle.plcs_code.specs.Pieces.{cell_instr, new_parameter, parameters_instrs};
ghost use Rattle.plcs_code.specs.Private.LaysAll.{LaysAll};

use crate::instr::Instr;
use crate::instr_out::InstrOut;
use plcs_base::{Declared, Name, Work};

/// Lays the instructions that make the cells of parameters, each at its first place in the list.
///
/// A phrase has no more than 134 names, so that each item of a procedure is compared with few of them.
pub(crate) fn lay_parameters<W: Work, O: InstrOut<W>>(
    items: &[Declared],
    names: &[Name],
    out: &mut O,
    work: &mut W,
)
    ensures { LaysAll O.lays out.old (W.counts work.old) (parameters_instrs items.now [] names.now)
        out.new (W.counts work.new) }
{
    for (i, name) in names.iter().enumerate() {
        lay_parameter(items, &names[..i], name, out, work);
    }
}

/// Lays the instruction that makes the cell of a parameter behind earlier ones, if none of them has its
/// name, and an effective scalar item has it.
fn lay_parameter<W: Work, O: InstrOut<W>>(
    items: &[Declared],
    earlier: &[Name],
    name: &Name,
    out: &mut O,
    work: &mut W,
)
    ensures { LaysAll O.lays out.old (W.counts work.old) (new_parameter items.now earlier.now name.now)
        out.new (W.counts work.new) }
{
    if is_among(name, earlier) {
        return;
    }
    let Some(item) = item_named(items, name) else {
        return;
    };
    if item.size == 0 {
        out.put(Instr::Param(item.name.copy(), item.ty), work);
    }
}

/// The effective item of the name, for which code is laid that makes the cell of a parameter, or `None` where
/// none has it.
fn item_named<'a>(items: &'a [Declared], name: &Name) -> Option<&'a Declared>
    ensures { option_map (λ item. item.now) result ≡ item_named name.now items.now }
{
    items.iter().find(|item| *name == item.name)
}

/// Lays the instructions that make the cells of the effective items that are no parameters.
pub(crate) fn lay_cells<W: Work, O: InstrOut<W>>(
    items: &[Declared],
    names: &[Name],
    out: &mut O,
    work: &mut W,
)
    ensures { LaysAll O.lays out.old (W.counts work.old) (flat_map (cell_instr names.now) items.now)
        out.new (W.counts work.new) }
{
    for item in items {
        lay_cell(item, names, out, work);
    }
}

/// Lays the instruction that makes the cells of an effective item, if it is no parameter.
fn lay_cell<W: Work, O: InstrOut<W>>(item: &Declared, names: &[Name], out: &mut O, work: &mut W)
    ensures { LaysAll O.lays out.old (W.counts work.old) (cell_instr names.now item.now)
        out.new (W.counts work.new) }
{
    if is_among(&item.name, names) {
        return;
    }
    out.put(Instr::Cell(item.name.copy(), item.ty, item.size), work);
}

/// Whether a name stands among those of parameters, whose cells are made first.
fn is_among(name: &Name, names: &[Name]) -> bool
    ensures { result ≡ list_any (bytes_eq name.now) names.now }
{
    names.iter().any(|other| name == other)
}
