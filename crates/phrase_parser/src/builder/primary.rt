//! Primaries: operands that are no operators with operands of their own, and the expressions that they are.

ghost use Rattle.std.specs.Prelude.{◌≡◌, ◌≤◌, IfOk, pos};
ghost use Rattle.plcs_grammar.specs.Limit.{greatest_number};
ghost use Rattle.plcs_grammar.specs.PlainPhrase.{PlainExpr, PlainVarRef, plain_expr};
ghost use Rattle.phrase_parser.specs.Private.Views.{primary_of};

use crate::builder::expr::{boxed_subscript, simple, variable};
use plcs_base::{Name, TextValue};
use plcs_grammar::{Builtin, Expr};
use std::alloc::{AllocError, Global};

/// A primary: an operand that is no operator with operands of its own.
#[derive(Drop)]
pub enum Primary {
    /// A number.
    Number(i32),
    /// A character constant.
    Text(Box<TextValue>),
    /// A bit constant.
    Bit(bool),
    /// A name, behind which a parenthesis may still open.
    Name(Name),
    /// A variable with its subscript.
    Subscripted(Name, Box<Expr>),
    /// A call of a built-in function, with its arguments.
    Call(Builtin, Vec<Expr>),
    /// An expression in parentheses.
    Parenthesized(Box<Expr>),
}

/// The number as a primary.
pub fn number(n: u32) -> Primary
    requires { n ≤ greatest_number }
    ensures { primary_of result ≡ PlainExpr.number (pos n) }
{
    Primary::Number(n as i32)
}

/// The character constant as a primary.
pub fn constant(alloc: Global, value: TextValue) -> Result<Primary, AllocError>
    ensures { IfOk result (λ made. primary_of made ≡ PlainExpr.text value) }
{
    Ok(Primary::Text(Box::new(alloc, value)?))
}

/// The variable with the subscript as a primary.
pub fn element(alloc: Global, name: Name, index: Expr) -> Result<Primary, AllocError>
    ensures { IfOk result (λ made. primary_of made
        ≡ PlainExpr.variable (PlainVarRef.subscripted name (plain_expr index))) }
{
    Ok(Primary::Subscripted(name, Box::new(alloc, index)?))
}

/// The expression in parentheses as a primary.
pub fn parenthesized(alloc: Global, inside: Expr) -> Result<Primary, AllocError>
    ensures { IfOk result (λ made. primary_of made ≡ PlainExpr.parenthesized (plain_expr inside)) }
{
    Ok(Primary::Parenthesized(Box::new(alloc, inside)?))
}

/// The primary as an expression.
pub fn expression(primary: Primary) -> Expr
    ensures { plain_expr result ≡ primary_of primary }
{
    match primary {
        Primary::Number(n) => Expr::Number(n),
        Primary::Text(value) => Expr::Text(value),
        Primary::Bit(value) => Expr::Bit(value),
        Primary::Name(name) => variable(simple(name)),
        Primary::Subscripted(name, index) => variable(boxed_subscript(name, index)),
        Primary::Call(function, arguments) => Expr::Builtin(function, arguments),
        Primary::Parenthesized(inside) => Expr::Paren(inside),
    }
}
