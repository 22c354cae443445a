//! Equality of expressions, and of the variables in them.
ghost use Rattle.std.specs.Prelude.{◌≡◌, ◌↔◌, IsTrue};
ghost use Rattle.plcs_grammar.specs.PlainPhrase.{plain_expr, plain_exprs, plain_var_ref};

use crate::expr::{Expr, VarRef};

/// Whether two expressions have one plain form. A chain of operators is compared in a loop, from its last operator on.
#[cycle(same_expr)]
pub(crate) fn same_expr(one: &Expr, other: &Expr) -> bool
    ensures { IsTrue result ↔ (plain_expr one.now ≡ plain_expr other.now) }
{
    let mut left = one;
    let mut right = other;
    loop {
        match (left, right) {
            (Expr::Infix(op, a, b), Expr::Infix(known, c, d)) => {
                if op != known || !same_expr(b, d) {
                    return false;
                }
                left = a;
                right = c;
            }
            (Expr::Number(n), Expr::Number(known)) => return n == known,
            (Expr::Text(text), Expr::Text(known)) => return text.as_bytes() == known.as_bytes(),
            (Expr::Bit(bit), Expr::Bit(known)) => return bit == known,
            (Expr::Var(variable), Expr::Var(known)) => return same_variable(variable, known),
            (Expr::Prefix(op, a), Expr::Prefix(known, c)) => return op == known && same_expr(a, c),
            (Expr::Builtin(function, all), Expr::Builtin(known, others)) => {
                return function == known && same_exprs(all, others);
            }
            (Expr::Paren(a), Expr::Paren(c)) => return same_expr(a, c),
            _ => return false,
        }
    }
}

/// Whether two variables, with the expressions that are their subscripts, have one plain form.
#[cycle(same_expr)]
pub(crate) fn same_variable(one: &VarRef, other: &VarRef) -> bool
    ensures { IsTrue result ↔ (plain_var_ref one.now ≡ plain_var_ref other.now) }
{
    if one.name.as_bytes() != other.name.as_bytes() {
        return false;
    }
    match (&one.index, &other.index) {
        (None, None) => true,
        (Some(a), Some(c)) => same_expr(a, c),
        _ => false,
    }
}

/// Whether two lists of expressions have the same plain forms, one by one.
#[cycle(same_expr)]
pub(crate) fn same_exprs(all: &[Expr], others: &[Expr]) -> bool
    ensures { IsTrue result ↔ (plain_exprs all.now ≡ plain_exprs others.now) }
{
    if all.len() != others.len() {
        return false;
    }
    for i in 0..all.len() {
        if !same_expr(&all[i], &others[i]) {
            return false;
        }
    }
    true
}
