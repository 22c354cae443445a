//! The base of an expression that stands in no other, and what each sign behind the expression does to it.

ghost use Rattle.std.specs.Prelude.{◌≡◌};
ghost use Rattle.phrase_parser.specs.NotRead.{Gives};
ghost use Rattle.phrase_parser.specs.Private.Machine.{ParseStack as OpenStack, ParseState as MachineState, shift_close_base, shift_close, shift_comma_base, phrase_of_base};
ghost use Rattle.phrase_parser.specs.Private.Views.{base_of, state_of};
ghost use Rattle.plcs_grammar.specs.PlainPhrase.{plain_expr, plain_phrase};

use crate::builder::expr::subscripted;
use crate::builder::lists::{with_expr, with_variable};
use crate::builder::primary::expression;
use crate::builder::stack::ParseStack;
use crate::builder::state::ParseState;
use crate::not_read::NotRead;
use plcs_base::Name;
use plcs_grammar::{Expr, Phrase, VarRef};
use std::alloc::{AllocError, Global};

/// The base of an expression that stands in no other: what it is for, with what of the phrase stands before it.
#[derive(Drop)]
pub enum Base {
    /// A whole condition.
    Condition,
    /// A whole expression.
    Expression,
    /// One of a list of expressions, behind these.
    Expressions(Vec<Expr>),
    /// What is assigned to the variable.
    Assigned(VarRef),
    /// The subscript of an assignment's target.
    TargetSubscript(Name),
    /// The subscript of a variable of a list, behind these.
    VariableSubscript(Vec<VarRef>, Name),
    /// One of the arguments of a call, behind these.
    CallArguments(Name, Vec<Expr>),
}

/// The base of an expression that stands in no other, before that expression: the state in which an operand is
/// wanted, and nothing but the base is open.
pub fn wanted_on(alloc: Global, base: Base) -> ParseState
    ensures { state_of result ≡ MachineState.wanted (OpenStack.base (base_of base)) }
{
    let frames = Vec::new(alloc);
    ParseState::Wanted(ParseStack { base, frames })
}

/// The state that a base becomes after the closing parenthesis of the subscript or call in which its expression
/// stands, if it stands in one.
pub fn shift_close_base(alloc: Global, base: Base, expr: Expr) -> Result<ParseState, NotRead>
    ensures { Gives state_of result (shift_close_base (base_of base) (plain_expr expr)) }
{
    match base {
        Base::TargetSubscript(name) => match subscripted(alloc, name, expr) {
            Ok(target) => Ok(ParseState::TargetHad(target)),
            Err(AllocError) => Err(NotRead::OutOfMemory),
        },
        Base::VariableSubscript(done, name) => match subscripted(alloc, name, expr) {
            Ok(variable) => match with_variable(done, variable) {
                Ok(all) => Ok(ParseState::VariableHad(all)),
                Err(AllocError) => Err(NotRead::OutOfMemory),
            },
            Err(AllocError) => {
                drop(done);
                Err(NotRead::OutOfMemory)
            }
        },
        Base::CallArguments(name, done) => match with_expr(done, expr) {
            Ok(all) => Ok(ParseState::CallHad(name, all)),
            Err(AllocError) => Err(NotRead::OutOfMemory),
        },
        Base::Condition | Base::Expression | Base::Expressions(_) | Base::Assigned(_) => {
            drop(base);
            drop(expr);
            Err(NotRead::Refused)
        }
    }
}

/// The state that a base becomes after a comma that follows its expression, if one can stand there.
pub fn shift_comma_base(alloc: Global, base: Base, expr: Expr) -> Result<ParseState, NotRead>
    ensures { Gives state_of result (shift_comma_base (base_of base) (plain_expr expr)) }
{
    match base {
        Base::Expressions(done) => match with_expr(done, expr) {
            Ok(all) => Ok(wanted_on(alloc, Base::Expressions(all))),
            Err(AllocError) => Err(NotRead::OutOfMemory),
        },
        Base::CallArguments(name, done) => match with_expr(done, expr) {
            Ok(all) => Ok(wanted_on(alloc, Base::CallArguments(name, all))),
            Err(AllocError) => Err(NotRead::OutOfMemory),
        },
        Base::Condition
        | Base::Expression
        | Base::Assigned(_)
        | Base::TargetSubscript(_)
        | Base::VariableSubscript(_, _) => {
            drop(base);
            drop(expr);
            Err(NotRead::Refused)
        }
    }
}

/// The phrase that a base ends as behind its expression, if it may end so.
pub fn phrase_of_base(base: Base, expr: Expr) -> Result<Phrase, NotRead>
    ensures { Gives plain_phrase result (phrase_of_base (base_of base) (plain_expr expr)) }
{
    match base {
        Base::Condition => Ok(Phrase::Condition(expr)),
        Base::Expression => Ok(Phrase::Expression(expr)),
        Base::Expressions(done) => match with_expr(done, expr) {
            Ok(all) => Ok(Phrase::ExpressionList(all)),
            Err(AllocError) => Err(NotRead::OutOfMemory),
        },
        Base::Assigned(target) => Ok(Phrase::Assignment(target, expr)),
        Base::TargetSubscript(_) | Base::VariableSubscript(_, _) | Base::CallArguments(_, _) => {
            drop(base);
            drop(expr);
            Err(NotRead::Refused)
        }
    }
}
