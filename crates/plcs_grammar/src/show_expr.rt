//! Expressions as they are shown.
ghost use Rattle.std.specs.Prelude.{◌≡◌};
ghost use Rattle.plcs_base.specs.Put.{PutsAll};
ghost use Rattle.plcs_grammar.specs.PlainPhrase.{PlainExpr, PlainVarRef, plain_expr, plain_exprs, plain_var_ref};
ghost use Rattle.plcs_grammar.specs.Canon.{canon, canon_list, canon_reference};
ghost use Rattle.plcs_grammar.specs.Private.Chain.{chain_text, operator_text};

use crate::builtin::Builtin;
use crate::chain::{count_operators, leftmost};
use crate::constant::{put_bit, put_number, put_quoted};
use crate::expr::{Expr, VarRef};
use crate::operator::{InfixOp, PrefixOp};
use crate::separator::put_separator;
use plcs_base::{ByteOut, Name, put_bytes};

/// Puts the canonical text of an expression.
#[cycle(show_expr)]
pub(crate) fn show_expr<O: ByteOut>(expr: &Expr, out: &mut O)
    ensures { PutsAll O.puts out.old (canon (plain_expr expr.now)) out.new }
{
    match expr {
        Expr::Number(number) => put_number(*number, out),
        Expr::Text(text) => put_quoted(text.as_bytes(), out),
        Expr::Bit(bit) => put_bit(*bit, out),
        Expr::Var(variable) => show_variable(variable, out),
        Expr::Prefix(op, operand) => show_prefix(*op, operand, out),
        Expr::Infix(op, left, right) => show_infix(*op, left, right, out),
        Expr::Builtin(function, arguments) => show_builtin(*function, arguments, out),
        Expr::Paren(inside) => show_paren(inside, out),
    }
}

/// Puts the canonical text of an operator before its operand.
#[cycle(show_expr)]
#[inline(never)]
fn show_prefix<O: ByteOut>(op: PrefixOp, operand: &Expr, out: &mut O)
    ensures { PutsAll O.puts out.old (canon (PlainExpr.unary op (plain_expr operand.now))) out.new }
{
    put_bytes(op.sign().bytes(), out);
    show_expr(operand, out);
}

/// Puts the canonical text of an operator between its operands.
#[cycle(show_expr)]
#[inline(never)]
fn show_infix<O: ByteOut>(op: InfixOp, left: &Expr, right: &Expr, out: &mut O)
    ensures { PutsAll O.puts out.old (canon (PlainExpr.binary op (plain_expr left.now) (plain_expr right.now))) out.new }
{
    let operators = count_operators(left);
    show_expr(leftmost(left, operators), out);
    show_operators(left, operators, out);
    show_operator(right, op, out);
}

/// Puts the canonical text of a call of a built-in function.
#[cycle(show_expr)]
#[inline(never)]
fn show_builtin<O: ByteOut>(function: Builtin, arguments: &[Expr], out: &mut O)
    ensures { PutsAll O.puts out.old (canon (PlainExpr.builtin function (plain_exprs arguments.now))) out.new }
{
    put_bytes(function.name(), out);
    out.put(b'(');
    show_exprs(arguments, out);
    out.put(b')');
}

/// Puts the canonical text of an expression in parentheses.
#[cycle(show_expr)]
#[inline(never)]
fn show_paren<O: ByteOut>(inside: &Expr, out: &mut O)
    ensures { PutsAll O.puts out.old (canon (PlainExpr.parenthesized (plain_expr inside.now))) out.new }
{
    put_bytes(b"( ", out);
    show_expr(inside, out);
    put_bytes(b" )", out);
}

/// Puts the text of the last so many operators of a chain, if there are some.
#[cycle(show_expr)]
#[inline(always)]
fn show_operators<O: ByteOut>(chain: &Expr, operators: u32, out: &mut O)
    ensures { PutsAll O.puts out.old (chain_text (plain_expr chain.now) operators) out.new }
{
    if operators > 0 {
        show_chain(chain, operators, out);
    }
}

/// Puts the text of the last so many operators of a chain, each with its right operand.
///
/// The chain is halved, so that a long one needs little stack and no memory.
#[cycle(show_expr)]
fn show_chain<O: ByteOut>(chain: &Expr, operators: u32, out: &mut O)
    ensures { PutsAll O.puts out.old (chain_text (plain_expr chain.now) operators) out.new }
{
    match chain {
        Expr::Infix(op, _, right) => {
            if operators == 1 {
                show_operator(right, *op, out);
            } else if operators > 1 {
                let half = operators / 2;
                show_chain(leftmost(chain, half), operators - half, out);
                show_chain(chain, half, out);
            }
        }
        _ => {}
    }
}

/// Puts an operator with a blank on each side, and its right operand.
#[cycle(show_expr)]
fn show_operator<O: ByteOut>(right: &Expr, op: InfixOp, out: &mut O)
    ensures { PutsAll O.puts out.old (operator_text op (plain_expr right.now)) out.new }
{
    put_bytes(op.spaced(), out);
    show_expr(right, out);
}

/// Puts the canonical text of a variable.
#[cycle(show_expr)]
#[inline(always)]
pub(crate) fn show_variable<O: ByteOut>(variable: &VarRef, out: &mut O)
    ensures { PutsAll O.puts out.old (canon_reference (plain_var_ref variable.now)) out.new }
{
    match &variable.index {
        None => put_bytes(variable.name.as_bytes(), out),
        Some(index) => show_element(&variable.name, index, out),
    }
}

/// Puts the canonical text of an element of an array.
#[cycle(show_expr)]
#[inline(never)]
fn show_element<O: ByteOut>(name: &Name, index: &Expr, out: &mut O)
    ensures { PutsAll O.puts out.old (canon_reference (PlainVarRef.subscripted name.now (plain_expr index.now))) out.new }
{
    put_bytes(name.as_bytes(), out);
    out.put(b'(');
    show_expr(index, out);
    out.put(b')');
}

/// Puts the canonical texts of expressions, joined by commas. It is `show_joined` for expressions, which
/// stands in the cycle.
#[cycle(show_expr)]
#[inline(never)]
pub(crate) fn show_exprs<O: ByteOut>(exprs: &[Expr], out: &mut O)
    ensures { PutsAll O.puts out.old (canon_list (plain_exprs exprs.now)) out.new }
{
    for (i, expr) in exprs.iter().enumerate() {
        put_separator(i, out);
        show_expr(expr, out);
    }
}
