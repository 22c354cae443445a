//! The code of expressions, laid.
ghost use Rattle.std.specs.Prelude.{◌≡◌, ◌∷◌, []};
ghost use Rattle.plcs_grammar.specs.PlainPhrase.{plain_expr, plain_exprs, plain_var_ref};
ghost use Rattle.plcs_code.specs.ExprCode.{expr_instrs, exprs_instrs, index_instrs, variable_instr};
ghost use Rattle.plcs_code.specs.PlainInstr.{PlainInstr, plain_instr};
ghost use Rattle.plcs_code.specs.Private.LaysAll.{LaysAll};

use crate::instr::Instr;
use crate::instr_out::InstrOut;
use crate::limit::MOST_INSTRS;
use plcs_base::Work;
use plcs_grammar::{Builtin, Expr, VarRef};
use std::alloc::Global;

/// Lays the code of an expression: that of its operands from left to right, and then its operator.
#[cycle(lay_expr)]
pub(crate) fn lay_expr<W: Work, O: InstrOut<W>>(
    alloc: Global,
    expr: &Expr,
    out: &mut O,
    work: &mut W,
)
    ensures { LaysAll O.lays out.old (W.counts work.old) (expr_instrs (plain_expr expr.now)) out.new
        (W.counts work.new) }
{
    match expr {
        Expr::Number(number) => out.put(Instr::PushNumber(*number), work),
        Expr::Text(text) => out.put_text(alloc, text, work),
        Expr::Bit(bit) => out.put(Instr::PushBit(*bit), work),
        Expr::Var(variable) => {
            lay_index(alloc, variable, out, work);
            out.put(load(variable), work);
        }
        Expr::Prefix(op, operand) => {
            lay_expr(alloc, operand, out, work);
            out.put(Instr::Prefix(*op), work);
        }
        Expr::Infix(op, left, right) => {
            lay_expr(alloc, left, out, work);
            lay_expr(alloc, right, out, work);
            out.put(Instr::Infix(*op), work);
        }
        Expr::Builtin(function, arguments) => {
            lay_exprs(alloc, arguments, out, work);
            put_builtin(*function, arguments.len(), out, work);
        }
        Expr::Paren(inside) => lay_expr(alloc, inside, out, work),
    }
}

/// Lays the instruction of a built-in function with so many arguments.
fn put_builtin<W: Work, O: InstrOut<W>>(
    function: Builtin,
    arguments: usize,
    out: &mut O,
    work: &mut W,
)
    ensures { LaysAll O.lays out.old (W.counts work.old) (PlainInstr.builtin function arguments ∷ []) out.new
        (W.counts work.new) }
{
    if arguments > MOST_INSTRS {
        out.refuse(work);
        return;
    }
    out.put(Instr::Builtin(function, arguments as u32), work);
}

/// Lays the code of a variable's subscript, if it has one.
#[cycle(lay_expr)]
pub(crate) fn lay_index<W: Work, O: InstrOut<W>>(
    alloc: Global,
    variable: &VarRef,
    out: &mut O,
    work: &mut W,
)
    ensures { LaysAll O.lays out.old (W.counts work.old) (index_instrs (plain_var_ref variable.now)) out.new
        (W.counts work.new) }
{
    match &variable.index {
        None => {}
        Some(index) => lay_expr(alloc, index, out, work),
    }
}

/// Lays the codes of expressions, one after the other.
#[cycle(lay_expr)]
pub(crate) fn lay_exprs<W: Work, O: InstrOut<W>>(
    alloc: Global,
    exprs: &[Expr],
    out: &mut O,
    work: &mut W,
)
    ensures { LaysAll O.lays out.old (W.counts work.old) (exprs_instrs (plain_exprs exprs.now)) out.new
        (W.counts work.new) }
{
    for expr in exprs {
        lay_expr(alloc, expr, out, work);
    }
}

/// The instruction that pushes the value of a variable in an expression.
fn load(variable: &VarRef) -> Instr
    ensures { plain_instr result ≡ variable_instr PlainInstr.load PlainInstr.load_at (plain_var_ref variable.now) }
{
    match &variable.index {
        None => Instr::Load(variable.name.copy()),
        Some(_) => Instr::LoadAt(variable.name.copy()),
    }
}
