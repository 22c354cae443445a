//! The check's shape: what was read last and what is wanted, without trees, and what each token does to it.

ghost use Rattle.std.specs.Prelude.{◌≡◌, IfOk};
ghost use Rattle.phrase_parser.specs.Private.Recognizer.{next_name, next_constant, next_number, next_open_name, next_open, next_close, next_comma_name, next_comma, next_equal_name, next_equal, next_operator, next_sign, next, first_shape, may_end, level_after, level_by_purpose, sign_level, level_of};
ghost use Rattle.phrase_parser.specs.Private.Shapes.{shape_of, shape_if, Within, deepest_level};

use crate::check::ground::{Ground, wanted};
use crate::check::last::{Last, level_after};
use crate::check::nesting::{
    Nesting, after_operator, bracketed, may_end_in, next_close_in, next_comma_in,
};
use crate::check::purpose::{
    Purpose, level_by_purpose, next_comma_name, next_equal_name, next_open_name,
};
use crate::check::token_class::TokenClass;
use crate::operator::{infix_of, prefix_of};
use plcs_base::LONGEST_TEXT;
use plcs_grammar::{Category, Sign};
use std::alloc::{AllocError, Global};

/// The check's shape: what was read last and what is wanted, without trees.
#[derive(Drop)]
pub enum Shape {
    /// An operand is wanted, with so many levels open.
    Wanted(Nesting, u32),
    /// A part of an expression that may end there was read.
    Had(Last, Nesting),
    /// A name is wanted.
    NameWanted(Purpose),
    /// A name was read.
    NameHad(Purpose),
    /// The parenthesis behind a target's subscript was read.
    TargetHad,
    /// The parenthesis behind a variable's subscript was read.
    VariableHad,
    /// The parenthesis behind a call's arguments was read.
    CallHad,
    /// The size of an array is wanted.
    SizeWanted,
    /// The size of an array was read.
    SizeHad,
    /// The parenthesis behind an array's size was read.
    ItemHad,
    /// A length is wanted.
    LengthWanted,
    /// A length was read.
    LengthHad,
}

/// The check's shape before all tokens of a phrase; a comment has no tokens.
pub fn first_shape(alloc: Global, category: Category) -> Option<Shape>
    ensures { shape_if result ≡ first_shape category }
{
    match category {
        Category::Assignment => Some(Shape::NameWanted(Purpose::Target)),
        Category::Condition | Category::Expression => Some(wanted(alloc, Ground::Whole, 0)),
        Category::ExpressionList => Some(wanted(alloc, Ground::Listed, 0)),
        Category::VariableList => Some(Shape::NameWanted(Purpose::ListedVariable)),
        Category::Variable | Category::ProcedureName => Some(Shape::NameWanted(Purpose::Single)),
        Category::CallRef => Some(Shape::NameWanted(Purpose::Callee)),
        Category::DeclaredList => Some(Shape::NameWanted(Purpose::Item)),
        Category::NameList => Some(Shape::NameWanted(Purpose::ListedName)),
        Category::Length => Some(Shape::LengthWanted),
        Category::CommentText => None,
    }
}

/// The check's shape after one more token, if it can stand there.
pub fn next(alloc: Global, shape: Shape, class: TokenClass) -> Result<Option<Shape>, AllocError>
    requires { Within deepest_level (shape_of shape) }
    ensures { IfOk result (λ s. shape_if s ≡ next (shape_of shape) class) }
{
    match class {
        TokenClass::Name(is_builtin) => Ok(next_name(shape, is_builtin)),
        TokenClass::Keyword => Ok(None),
        TokenClass::Number(n) => Ok(next_number(shape, n)),
        TokenClass::Constant => Ok(next_constant(shape)),
        TokenClass::Sign(sign) => next_sign(alloc, shape, sign),
    }
}

/// The check's shape after a name, if one can stand there.
fn next_name(shape: Shape, is_builtin: bool) -> Option<Shape>
    ensures { shape_if result ≡ next_name (shape_of shape) is_builtin }
{
    match shape {
        Shape::Wanted(nesting, level) => Some(Shape::Had(Last::Named(is_builtin, level), nesting)),
        Shape::NameWanted(purpose) => Some(Shape::NameHad(purpose)),
        _ => None,
    }
}

/// The check's shape after a number, if one can stand there.
fn next_number(shape: Shape, n: u32) -> Option<Shape>
    ensures { shape_if result ≡ next_number (shape_of shape) n }
{
    match shape {
        Shape::Wanted(nesting, _) => Some(Shape::Had(Last::Operand, nesting)),
        Shape::SizeWanted if n >= 1 => Some(Shape::SizeHad),
        Shape::LengthWanted if n >= 1 && n as usize <= LONGEST_TEXT => Some(Shape::LengthHad),
        _ => None,
    }
}

/// The check's shape after a constant, if one can stand there.
fn next_constant(shape: Shape) -> Option<Shape>
    ensures { shape_if result ≡ next_constant (shape_of shape) }
{
    match shape {
        Shape::Wanted(nesting, _) => Some(Shape::Had(Last::Operand, nesting)),
        _ => None,
    }
}

/// The check's shape after a sign, if it can stand there.
fn next_sign(alloc: Global, shape: Shape, sign: Sign) -> Result<Option<Shape>, AllocError>
    requires { Within deepest_level (shape_of shape) }
    ensures { IfOk result (λ s. shape_if s ≡ next_sign (shape_of shape) sign) }
{
    match sign {
        Sign::OpenParenthesis => next_open(alloc, shape),
        Sign::CloseParenthesis => Ok(next_close(shape)),
        Sign::Comma => next_comma(alloc, shape),
        Sign::Equal => Ok(next_equal(alloc, shape)),
        Sign::Plus
        | Sign::Minus
        | Sign::Times
        | Sign::Divide
        | Sign::Join
        | Sign::NotEqual
        | Sign::Less
        | Sign::LessEqual
        | Sign::Greater
        | Sign::GreaterEqual
        | Sign::Ampersand
        | Sign::Bar
        | Sign::Caret => Ok(next_operator(shape, sign)),
    }
}

/// The check's shape after an opening parenthesis, if one can stand there.
fn next_open(alloc: Global, shape: Shape) -> Result<Option<Shape>, AllocError>
    requires { Within deepest_level (shape_of shape) }
    ensures { IfOk result (λ s. shape_if s ≡ next_open (shape_of shape)) }
{
    match shape {
        Shape::Wanted(nesting, level) => Ok(Some(bracketed(nesting, false, level)?)),
        Shape::Had(Last::Named(is_builtin, level), nesting) => {
            Ok(Some(bracketed(nesting, is_builtin, level)?))
        }
        Shape::NameHad(purpose) => Ok(next_open_name(alloc, purpose)),
        _ => Ok(None),
    }
}

/// The check's shape after a closing parenthesis, if one can stand there.
fn next_close(shape: Shape) -> Option<Shape>
    ensures { shape_if result ≡ next_close (shape_of shape) }
{
    match shape {
        Shape::Had(_, nesting) => next_close_in(nesting),
        Shape::SizeHad => Some(Shape::ItemHad),
        _ => None,
    }
}

/// The check's shape after a comma, if one can stand there.
fn next_comma(alloc: Global, shape: Shape) -> Result<Option<Shape>, AllocError>
    ensures { IfOk result (λ s. shape_if s ≡ next_comma (shape_of shape)) }
{
    match shape {
        Shape::Had(_, nesting) => next_comma_in(alloc, nesting),
        Shape::NameHad(purpose) => Ok(next_comma_name(purpose)),
        Shape::VariableHad => Ok(Some(Shape::NameWanted(Purpose::ListedVariable))),
        Shape::ItemHad => Ok(Some(Shape::NameWanted(Purpose::Item))),
        _ => Ok(None),
    }
}

/// The check's shape after `=`, if it can stand there.
fn next_equal(alloc: Global, shape: Shape) -> Option<Shape>
    ensures { shape_if result ≡ next_equal (shape_of shape) }
{
    match shape {
        Shape::Had(_, nesting) => Some(after_operator(nesting)),
        Shape::NameHad(purpose) => next_equal_name(alloc, purpose),
        Shape::TargetHad => Some(wanted(alloc, Ground::Whole, 0)),
        _ => None,
    }
}

/// The check's shape after a sign that is an operator wherever it stands, if it can stand there.
#[tactic(auto, using(crate::proofs::Findings::OperatorTests::prefix_if, crate::proofs::Findings::OperatorTests::infix_if))]
fn next_operator(shape: Shape, sign: Sign) -> Option<Shape>
    requires { Within deepest_level (shape_of shape) }
    ensures { shape_if result ≡ next_operator (shape_of shape) sign }
{
    match shape {
        Shape::Wanted(nesting, level) if prefix_of(sign).is_some() => Some(Shape::Wanted(
            nesting,
            level + 1,
        )),
        Shape::Had(_, nesting) if infix_of(sign).is_some() => Some(after_operator(nesting)),
        _ => None,
    }
}

/// Whether the tokens that lead to the check's shape may be a whole phrase.
pub fn may_end(shape: &Shape) -> bool
    ensures { result ≡ may_end (shape_of shape.now) }
{
    match shape {
        Shape::Had(_, nesting) => may_end_in(nesting),
        Shape::NameHad(Purpose::Target) => false,
        Shape::NameHad(_)
        | Shape::VariableHad
        | Shape::CallHad
        | Shape::ItemHad
        | Shape::LengthHad => true,
        _ => false,
    }
}

/// The level that a token opens at the check's shape, or 0.
pub fn level_of(shape: &Shape, class: TokenClass) -> u32
    requires { Within deepest_level (shape_of shape.now) }
    ensures { result ≡ level_of (shape_of shape.now) class }
{
    match class {
        TokenClass::Sign(sign) => sign_level(shape, sign),
        TokenClass::Name(_) | TokenClass::Keyword | TokenClass::Number(_) | TokenClass::Constant =>
            0,
    }
}

/// The level that a sign opens at the check's shape, or 0.
fn sign_level(shape: &Shape, sign: Sign) -> u32
    requires { Within deepest_level (shape_of shape.now) }
    ensures { result ≡ sign_level (shape_of shape.now) sign }
{
    match (shape, sign) {
        (Shape::Wanted(_, level), _) => *level + 1,
        (Shape::Had(last, _), Sign::OpenParenthesis) => level_after(*last),
        (Shape::NameHad(purpose), Sign::OpenParenthesis) => level_by_purpose(*purpose),
        _ => 0,
    }
}
