//! The code of phrases, laid.
ghost use Rattle.std.specs.Prelude.{◌≡◌, ◌∷◌, ◌++◌, [], drop, map};
ghost use Rattle.plcs_grammar.specs.PlainPhrase.{plain_expr, plain_exprs, plain_phrase, plain_var_ref};
ghost use Rattle.template_tree.specs.Positions.Place.{place_at};
ghost use Rattle.plcs_code.specs.ExprCode.{argument_instrs, arguments_instrs, items_instrs, phrase_instrs, variable_instr};
ghost use Rattle.plcs_code.specs.PlainInstr.{PlainInstr, plain_instr};
ghost use Rattle.plcs_code.specs.Private.LaysAll.{LaysAll};

use crate::instr::Instr;
use crate::instr_out::InstrOut;
use crate::lay_expr::{lay_expr, lay_exprs, lay_index};
use crate::limit::MOST_INSTRS;
use plcs_base::{Name, Place, Point, Slot, Work};
use plcs_grammar::{Expr, Phrase, VarRef};
use std::alloc::Global;

/// Lays the code of a phrase: of an assignment, of an expression or of several, or of a call. Other
/// phrases have none of their own.
pub(crate) fn lay_phrase<W: Work, O: InstrOut<W>>(
    alloc: Global,
    phrase: &Phrase,
    out: &mut O,
    work: &mut W,
)
    ensures { LaysAll O.lays out.old (W.counts work.old) (phrase_instrs (plain_phrase phrase.now)) out.new
        (W.counts work.new) }
{
    match phrase {
        Phrase::Assignment(target, value) => {
            lay_index(alloc, target, out, work);
            lay_expr(alloc, value, out, work);
            out.put(store(target), work);
        }
        Phrase::Condition(expr) => lay_expr(alloc, expr, out, work),
        Phrase::Expression(expr) => lay_expr(alloc, expr, out, work),
        Phrase::ExpressionList(exprs) => lay_exprs(alloc, exprs, out, work),
        Phrase::VariableList(_) => {}
        Phrase::Variable(_) => {}
        Phrase::CallRef(name, arguments) => {
            lay_arguments(alloc, arguments, out, work);
            put_call(name, arguments.len(), out, work);
        }
        Phrase::DeclaredList(_) => {}
        Phrase::ProcedureName(_) => {}
        Phrase::NameList(_) => {}
        Phrase::Length(_) => {}
        Phrase::CommentText(_) => {}
    }
}

/// Lays the codes of the arguments of a call, one after the other.
fn lay_arguments<W: Work, O: InstrOut<W>>(
    alloc: Global,
    arguments: &[Expr],
    out: &mut O,
    work: &mut W,
)
    ensures { LaysAll O.lays out.old (W.counts work.old) (arguments_instrs (plain_exprs arguments.now)) out.new
        (W.counts work.new) }
{
    for argument in arguments {
        lay_argument(alloc, argument, out, work);
    }
}

/// Lays the code of an argument of a call: a variable without parentheses is passed by reference, and the
/// value of any other expression by a dummy.
fn lay_argument<W: Work, O: InstrOut<W>>(alloc: Global, argument: &Expr, out: &mut O, work: &mut W)
    ensures { LaysAll O.lays out.old (W.counts work.old) (argument_instrs (plain_expr argument.now)) out.new
        (W.counts work.new) }
{
    if let Expr::Var(variable) = argument {
        lay_index(alloc, variable, out, work);
        out.put(refer(variable), work);
        return;
    }
    lay_expr(alloc, argument, out, work);
    out.put(Instr::Dummy, work);
}

/// Of the code of a phrase that is a call, lays the instruction that calls, with so many arguments.
fn put_call<W: Work, O: InstrOut<W>>(name: &Name, arguments: usize, out: &mut O, work: &mut W)
    ensures { LaysAll O.lays out.old (W.counts work.old) (PlainInstr.call name.now arguments ∷ []) out.new
        (W.counts work.new) }
{
    if arguments > MOST_INSTRS {
        out.refuse(work);
        return;
    }
    out.put(Instr::Call(name.copy(), arguments as u32), work);
}

/// Lays the code of a phrase, the list of variables of the GET in a slot: that of each of its items, which is a
/// step of its own.
pub(crate) fn lay_items<W: Work, O: InstrOut<W>>(
    alloc: Global,
    slot: Slot,
    targets: &[VarRef],
    out: &mut O,
    work: &mut W,
)
    ensures { LaysAll O.lays out.old (W.counts work.old) (items_instrs slot.0 0
        (map plain_var_ref targets.now)) out.new (W.counts work.new) }
{
    for (k, target) in targets.iter().enumerate() {
        put_item_place(slot, k, out, work);
        lay_index(alloc, target, out, work);
        out.put(get(target), work);
    }
}

/// Lays, in the code of a GET's phrase, the place of one of its items, at which a step ends.
fn put_item_place<W: Work, O: InstrOut<W>>(slot: Slot, k: usize, out: &mut O, work: &mut W)
    ensures { LaysAll O.lays out.old (W.counts work.old) (PlainInstr.place (place_at slot.0 k) ∷ []) out.new
        (W.counts work.new) }
{
    if k > u16::MAX as usize {
        out.refuse(work);
        return;
    }
    let point = Point(k as u16);
    out.put(Instr::At(Place { slot, point }), work);
}

/// The instruction that stores a value into a variable, for the phrase of an assignment.
fn store(variable: &VarRef) -> Instr
    ensures { plain_instr result ≡ variable_instr PlainInstr.store PlainInstr.store_at (plain_var_ref variable.now) }
{
    match &variable.index {
        None => Instr::Store(variable.name.copy()),
        Some(_) => Instr::StoreAt(variable.name.copy()),
    }
}

/// The instruction that reads an item into a variable, for the phrase of a GET.
fn get(variable: &VarRef) -> Instr
    ensures { plain_instr result ≡ variable_instr PlainInstr.get PlainInstr.get_at (plain_var_ref variable.now) }
{
    match &variable.index {
        None => Instr::Get(variable.name.copy()),
        Some(_) => Instr::GetAt(variable.name.copy()),
    }
}

/// The instruction that passes a variable by reference, for the phrase of a call.
fn refer(variable: &VarRef) -> Instr
    ensures { plain_instr result ≡ variable_instr PlainInstr.reference PlainInstr.reference_at
        (plain_var_ref variable.now) }
{
    match &variable.index {
        None => Instr::Ref(variable.name.copy()),
        Some(_) => Instr::RefAt(variable.name.copy()),
    }
}
