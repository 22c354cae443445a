//! Copies of expressions, and of the variables, names and texts in them.
ghost use Rattle.std.specs.Prelude.{◌≡◌, IfOk, map};
ghost use Rattle.plcs_grammar.specs.PlainPhrase.{plain_expr, plain_var_ref};
ghost use Rattle.plcs_grammar.specs.Private.Link.{linked};

use crate::expr::{Expr, VarRef};
use crate::operator::InfixOp;
use plcs_base::{Name, OutOfMemory, TextValue};
use std::alloc::Global;

/// A copy of an expression. A chain of operators is copied in a loop.
#[cycle(copy_expr)]
pub(crate) fn copy_expr(alloc: Global, expr: &Expr) -> Result<Expr, OutOfMemory>
    ensures { IfOk result (λ copy. plain_expr copy ≡ plain_expr expr.now) }
{
    let mut links = Vec::new(alloc);
    let mut at = expr;
    loop {
        match at {
            Expr::Infix(op, left, right) => {
                let Ok(right) = copy_expr(alloc, right) else {
                    drop(links);
                    return Err(OutOfMemory);
                };
                if let Err(_) = links.reserve(1) {
                    drop(links);
                    drop(right);
                    return Err(OutOfMemory);
                }
                links.push_reserved(Link { op: *op, right });
                at = left;
            }
            Expr::Number(number) => return chained(alloc, Expr::Number(*number), links),
            Expr::Text(text) => {
                let Ok(text) = copy_text(alloc, text) else {
                    drop(links);
                    return Err(OutOfMemory);
                };
                return chained(alloc, Expr::Text(text), links);
            }
            Expr::Bit(bit) => return chained(alloc, Expr::Bit(*bit), links),
            Expr::Var(variable) => {
                let Ok(variable) = copy_variable(alloc, variable) else {
                    drop(links);
                    return Err(OutOfMemory);
                };
                return chained(alloc, Expr::Var(variable), links);
            }
            Expr::Prefix(op, operand) => {
                let Ok(operand) = copy_inside(alloc, operand) else {
                    drop(links);
                    return Err(OutOfMemory);
                };
                return chained(alloc, Expr::Prefix(*op, operand), links);
            }
            Expr::Builtin(function, arguments) => {
                let Ok(arguments) = copy_exprs(alloc, arguments) else {
                    drop(links);
                    return Err(OutOfMemory);
                };
                return chained(alloc, Expr::Builtin(*function, arguments), links);
            }
            Expr::Paren(inside) => {
                let Ok(inside) = copy_inside(alloc, inside) else {
                    drop(links);
                    return Err(OutOfMemory);
                };
                return chained(alloc, Expr::Paren(inside), links);
            }
        }
    }
}

/// A copy of a variable, with the expression that is its subscript.
#[cycle(copy_expr)]
pub(crate) fn copy_variable(alloc: Global, variable: &VarRef) -> Result<VarRef, OutOfMemory>
    ensures { IfOk result (λ copy. plain_var_ref copy ≡ plain_var_ref variable.now) }
{
    let Ok(name) = copy_name(&variable.name) else {
        return Err(OutOfMemory);
    };
    match &variable.index {
        None => Ok(VarRef { name, index: None }),
        Some(index) => {
            let Ok(index) = copy_inside(alloc, index) else {
                drop(name);
                return Err(OutOfMemory);
            };
            Ok(VarRef {
                name,
                index: Some(index),
            })
        }
    }
}

/// A copy of an expression that stands inside another, in memory of its own.
#[cycle(copy_expr)]
fn copy_inside(alloc: Global, expr: &Expr) -> Result<Box<Expr>, OutOfMemory>
    ensures { IfOk result (λ copy. plain_expr copy.value ≡ plain_expr expr.now) }
{
    let Ok(copy) = copy_expr(alloc, expr) else {
        return Err(OutOfMemory);
    };
    Ok(Box::new(alloc, copy)?)
}

/// Copies of expressions, in order.
#[cycle(copy_expr)]
pub(crate) fn copy_exprs(alloc: Global, exprs: &[Expr]) -> Result<Vec<Expr>, OutOfMemory>
    ensures { IfOk result (λ copies. map plain_expr copies.items ≡ map plain_expr exprs.now) }
{
    let mut copies = Vec::new(alloc);
    for expr in exprs {
        let Ok(copy) = copy_expr(alloc, expr) else {
            drop(copies);
            return Err(OutOfMemory);
        };
        if let Err(_) = copies.reserve(1) {
            drop(copies);
            drop(copy);
            return Err(OutOfMemory);
        }
        copies.push_reserved(copy);
    }
    Ok(copies)
}

/// A copy of a name, in an expression or elsewhere in a phrase.
pub(crate) fn copy_name(name: &Name) -> Result<Name, OutOfMemory>
    ensures { IfOk result (λ copy. copy ≡ name.now) }
{
    match name.clone() {
        Ok(copy) => Ok(copy),
        Err(_) => Err(OutOfMemory),
    }
}

/// A copy of a text, the value of a character constant in an expression.
fn copy_text(alloc: Global, text: &TextValue) -> Result<Box<TextValue>, OutOfMemory>
    ensures { IfOk result (λ copy. copy.value ≡ text.now) }
{
    let Ok(copy) = text.clone() else {
        return Err(OutOfMemory);
    };
    Ok(Box::new(alloc, copy)?)
}

/// The copy of a chain of operators, made of its copied leftmost operand and operators, the last of them first.
fn chained(alloc: Global, operand: Expr, links: Vec<Link>) -> Result<Expr, OutOfMemory>
    ensures { IfOk result (λ chain. plain_expr chain ≡ linked (plain_expr operand) links.items) }
{
    let mut chain = operand;
    let mut links = links;
    while let Some(last) = links.pop() {
        let left = Box::new(alloc, chain)?;
        let right = Box::new(alloc, last.right)?;
        chain = Expr::Infix(last.op, left, right);
    }
    Ok(chain)
}

/// An operator of a chain that is copied, with its right operand.
#[derive(Drop)]
pub(crate) struct Link {
    /// The operator between the chain before it and its right operand.
    pub(crate) op: InfixOp,
    /// The right operand of the operator.
    pub(crate) right: Expr,
}
