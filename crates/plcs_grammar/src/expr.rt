//! Expressions.
use crate::builtin::Builtin;
use crate::operator::{InfixOp, PrefixOp};
use plcs_base::{Name, TextValue};

/// An expression of a phrase.
///
/// A chain of infix operators leans to the left and may be of any length, so it is let go in a loop.
/// What is nested otherwise is let go level by level.
#[cycle(expr)]
pub enum Expr {
    /// A number; a sign before it is an operator of its own.
    Number(i32),
    /// A character constant.
    Text(Box<TextValue>),
    /// A bit constant.
    Bit(bool),
    /// A variable.
    Var(VarRef),
    /// An operator and its operand.
    Prefix(PrefixOp, Box<Expr>),
    /// An operator with its left and its right operand.
    Infix(InfixOp, Box<Expr>, Box<Expr>),
    /// A call of a built-in function, with its arguments.
    Builtin(Builtin, Vec<Expr>),
    /// An expression in parentheses.
    Paren(Box<Expr>),
}

/// A variable where it is used.
#[cycle(expr)]
#[derive(Drop)]
pub struct VarRef {
    /// The name of the variable.
    pub name: Name,
    /// The subscript of an array's cell, counted from 1.
    pub index: Option<Box<Expr>>,
}

impl Drop for Expr {
    #[cycle(expr)]
    fn drop(mut self) {
        loop {
            match self {
                Expr::Infix(_, left, _) => self = Box::into_inner(left),
                Expr::Number(_)
                | Expr::Text(_)
                | Expr::Bit(_)
                | Expr::Var(_)
                | Expr::Prefix(_, _)
                | Expr::Builtin(_, _)
                | Expr::Paren(_) => return,
            }
        }
    }
}
