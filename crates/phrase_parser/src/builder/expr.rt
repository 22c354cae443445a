//! Variables and expressions, made of their parts.

ghost use Rattle.std.specs.Prelude.{◌≡◌, IfOk};
ghost use Rattle.plcs_grammar.specs.PlainPhrase.{PlainExpr, PlainVarRef, plain_expr, plain_var_ref};

use plcs_base::Name;
use plcs_grammar::{Expr, InfixOp, PrefixOp, VarRef};
use std::alloc::{AllocError, Global};

/// The variable made of this name alone, without a subscript.
pub fn simple(name: Name) -> VarRef
    ensures { plain_var_ref result ≡ PlainVarRef.simple name }
{
    VarRef { name, index: None }
}

/// The variable made of this name and this subscript.
pub fn subscripted(alloc: Global, name: Name, index: Expr) -> Result<VarRef, AllocError>
    ensures { IfOk result (λ made. plain_var_ref made ≡ PlainVarRef.subscripted name (plain_expr index)) }
{
    Ok(boxed_subscript(name, Box::new(alloc, index)?))
}

/// The variable made of this name and a subscript that is in its box already.
pub fn boxed_subscript(name: Name, index: Box<Expr>) -> VarRef
    ensures { plain_var_ref result ≡ PlainVarRef.subscripted name (plain_expr index.value) }
{
    let index = Some(index);
    VarRef { name, index }
}

/// The expression made of a variable alone.
pub fn variable(reference: VarRef) -> Expr
    ensures { plain_expr result ≡ PlainExpr.variable (plain_var_ref reference) }
{
    Expr::Var(reference)
}

/// The expression made of a prefix operator and its operand.
pub fn unary(alloc: Global, op: PrefixOp, operand: Expr) -> Result<Expr, AllocError>
    ensures { IfOk result (λ made. plain_expr made ≡ PlainExpr.unary op (plain_expr operand)) }
{
    Ok(Expr::Prefix(op, Box::new(alloc, operand)?))
}

/// The expression made of an infix operator and its left and its right operand.
pub fn binary(alloc: Global, op: InfixOp, left: Expr, right: Expr) -> Result<Expr, AllocError>
    ensures { IfOk result (λ made. plain_expr made ≡ PlainExpr.binary op (plain_expr left) (plain_expr right)) }
{
    let left = Box::new(alloc, left)?;
    let right = Box::new(alloc, right)?;
    Ok(Expr::Infix(op, left, right))
}
