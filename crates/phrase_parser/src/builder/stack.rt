//! The builder's stack: what stands open around an operand, and what each sign does to it.

ghost use Rattle.std.specs.Prelude.{◌≡◌, IfOk, Some};
ghost use Rattle.phrase_parser.specs.NotRead.{Gives};
ghost use Rattle.phrase_parser.specs.Private.Machine.{open_frame, shift_open_after, shift_open, ParseStack as OpenStack, ParseState as MachineState, shift_close_base, shift_close_stack, shift_close, shift_comma_base, shift_comma_stack, after_infix, shift_prefix, shift_infix, phrase_of_base, phrase_of_stack, reduced};
ghost use Rattle.phrase_parser.specs.Private.Views.{stack_of, primary_of, state_of, pushed, pair_of};
ghost use Rattle.plcs_grammar.specs.PlainPhrase.{plain_expr, plain_phrase};
ghost use Rattle.plcs_grammar.specs.Level.{priority};
ghost use Rattle.phrase_parser.specs.Private.Reduction.{rest_of};

use crate::builder::base::{Base, phrase_of_base, shift_close_base, shift_comma_base};
use crate::builder::expr::{binary, unary};
use crate::builder::lists::with_expr;
use crate::builder::primary::{Primary, element, expression, parenthesized};
use crate::builder::state::{ParseState, shift_close, shift_open};
use crate::not_read::NotRead;
use crate::operator::priority;
use plcs_base::Name;
use plcs_grammar::{Builtin, Expr, InfixOp, Phrase, PrefixOp};
use std::alloc::{AllocError, Global};

/// The builder's stack: all that stands open around an operand.
#[derive(Drop)]
pub struct ParseStack {
    /// What the outermost expression is for.
    pub base: Base,
    /// What stands open inside it, the innermost last.
    pub frames: Vec<ParseFrame>,
}

/// A frame of the builder's stack: one thing that stands open around an operand.
#[derive(Drop)]
pub enum ParseFrame {
    /// An operator that waits for its operand.
    Prefix(PrefixOp),
    /// An operator with its left operand, which waits for its right one.
    Left(Expr, InfixOp),
    /// A parenthesis that is no subscript's and no call's.
    Parenthesis,
    /// The parenthesis behind the name of a variable.
    Subscript(Name),
    /// The parenthesis behind the name of a built-in function, with the arguments that are read.
    Arguments(Builtin, Vec<Expr>),
}

/// The state that a stack becomes after a parenthesis that is opened after an operand, which only a name takes.
pub fn shift_open_after(
    alloc: Global,
    stack: ParseStack,
    primary: Primary,
) -> Result<ParseState, NotRead>
    ensures { Gives state_of result (shift_open_after (stack_of stack) (primary_of primary)) }
{
    let Primary::Name(name) = primary else {
        drop(primary);
        drop(stack);
        return Err(NotRead::Refused);
    };
    let function = Builtin::read(name.as_bytes());
    wanted_in(stack, open_frame(alloc, name, function))
}

/// The frame that a parenthesis opens on the stack behind a name, which may be that of the built-in function.
fn open_frame(alloc: Global, name: Name, function: Option<Builtin>) -> ParseFrame
    ensures { (s : OpenStack) → pushed result s ≡ open_frame name function s }
{
    match function {
        None => ParseFrame::Subscript(name),
        Some(function) => ParseFrame::Arguments(function, Vec::new(alloc)),
    }
}

/// The state that a stack becomes after the closing parenthesis of the innermost that is open on it.
#[tactic(auto, using(crate::proofs::Frames::FrameStacks::stack_on_push))]
pub fn shift_close_stack(
    alloc: Global,
    stack: ParseStack,
    expr: Expr,
) -> Result<ParseState, NotRead>
    ensures { Gives state_of result (shift_close_stack (stack_of stack) (plain_expr expr)) }
{
    let ParseStack { base, mut frames } = stack;
    match frames.pop() {
        None => {
            drop(frames);
            shift_close_base(alloc, base, expr)
        }
        Some(frame) => match closed(alloc, frame, expr) {
            Ok(primary) => Ok(ParseState::Had(ParseStack { base, frames }, primary)),
            Err(fault) => {
                drop(frames);
                drop(base);
                Err(fault)
            }
        },
    }
}

/// The primary that the innermost frame of a stack becomes after its closing parenthesis, if it has one.
fn closed(alloc: Global, frame: ParseFrame, expr: Expr) -> Result<Primary, NotRead>
    ensures { (s : OpenStack) → Gives (λ p. MachineState.had s (primary_of p)) result
        (shift_close_stack (pushed frame s) (plain_expr expr)) }
{
    match frame {
        ParseFrame::Parenthesis => match parenthesized(alloc, expr) {
            Ok(primary) => Ok(primary),
            Err(AllocError) => Err(NotRead::OutOfMemory),
        },
        ParseFrame::Subscript(name) => match element(alloc, name, expr) {
            Ok(primary) => Ok(primary),
            Err(AllocError) => Err(NotRead::OutOfMemory),
        },
        ParseFrame::Arguments(function, done) => match with_expr(done, expr) {
            Ok(all) => Ok(Primary::Call(function, all)),
            Err(AllocError) => Err(NotRead::OutOfMemory),
        },
        ParseFrame::Prefix(_) | ParseFrame::Left(_, _) => {
            drop(frame);
            drop(expr);
            Err(NotRead::Refused)
        }
    }
}

/// The state that a stack becomes after a comma in the innermost parenthesis that is open on it.
#[tactic(auto, using(crate::proofs::Frames::FrameStacks::stack_on_push))]
pub fn shift_comma_stack(
    alloc: Global,
    stack: ParseStack,
    expr: Expr,
) -> Result<ParseState, NotRead>
    ensures { Gives state_of result (shift_comma_stack (stack_of stack) (plain_expr expr)) }
{
    let ParseStack { base, mut frames } = stack;
    match frames.pop() {
        None => {
            drop(frames);
            shift_comma_base(alloc, base, expr)
        }
        Some(frame) => match with_argument(frame, expr) {
            Ok(frame) => wanted_in(ParseStack { base, frames }, frame),
            Err(fault) => {
                drop(frames);
                drop(base);
                Err(fault)
            }
        },
    }
}

/// The frame that the innermost of a stack becomes after a comma behind one more argument, if it takes any.
fn with_argument(frame: ParseFrame, expr: Expr) -> Result<ParseFrame, NotRead>
    ensures { (s : OpenStack) → Gives (λ f. MachineState.wanted (pushed f s)) result
        (shift_comma_stack (pushed frame s) (plain_expr expr)) }
{
    match frame {
        ParseFrame::Arguments(function, done) => match with_expr(done, expr) {
            Ok(all) => Ok(ParseFrame::Arguments(function, all)),
            Err(AllocError) => Err(NotRead::OutOfMemory),
        },
        ParseFrame::Prefix(_)
        | ParseFrame::Left(_, _)
        | ParseFrame::Parenthesis
        | ParseFrame::Subscript(_) => {
            drop(frame);
            drop(expr);
            Err(NotRead::Refused)
        }
    }
}

/// The state that a stack becomes after a prefix operator, where an operand is wanted.
pub fn shift_prefix(stack: ParseStack, op: Option<PrefixOp>) -> Result<ParseState, NotRead>
    ensures { Gives state_of result (shift_prefix (stack_of stack) op) }
{
    match op {
        None => {
            drop(stack);
            Err(NotRead::Refused)
        }
        Some(op) => wanted_in(stack, ParseFrame::Prefix(op)),
    }
}

/// The state that a stack becomes after an infix operator, once the operand before it is joined.
pub fn shift_infix(
    alloc: Global,
    stack: ParseStack,
    primary: Primary,
    op: Option<InfixOp>,
) -> Result<ParseState, NotRead>
    ensures { Gives state_of result (shift_infix (stack_of stack) (primary_of primary) op) }
{
    match op {
        None => {
            drop(stack);
            drop(primary);
            Err(NotRead::Refused)
        }
        Some(op) => joined_before(alloc, stack, primary, op),
    }
}

/// The state that a stack becomes after this infix operator, once the operand before it is joined.
pub fn joined_before(
    alloc: Global,
    stack: ParseStack,
    primary: Primary,
    op: InfixOp,
) -> Result<ParseState, NotRead>
    ensures { Gives state_of result
        (Some (after_infix op (reduced (stack_of stack) (priority op) (primary_of primary)))) }
{
    match reduced(alloc, stack, priority(op), expression(primary)) {
        Ok((stack, left)) => wanted_in(stack, ParseFrame::Left(left, op)),
        Err(AllocError) => Err(NotRead::OutOfMemory),
    }
}

/// The state in which an operand is wanted on the builder's stack with one frame more.
pub fn wanted_in(stack: ParseStack, frame: ParseFrame) -> Result<ParseState, NotRead>
    ensures { Gives state_of result (Some (MachineState.wanted (pushed frame (stack_of stack)))) }
{
    match with_frame(stack, frame) {
        Ok(stack) => Ok(ParseState::Wanted(stack)),
        Err(AllocError) => Err(NotRead::OutOfMemory),
    }
}

/// The builder's stack with one frame more.
#[tactic(auto, using(crate::proofs::Frames::FrameStacks::stack_on_push))]
fn with_frame(stack: ParseStack, frame: ParseFrame) -> Result<ParseStack, AllocError>
    ensures { IfOk result (λ s. stack_of s ≡ pushed frame (stack_of stack)) }
{
    let ParseStack { base, mut frames } = stack;
    match frames.push(frame) {
        Ok(()) => Ok(ParseStack { base, frames }),
        Err(refused) => {
            drop(refused);
            drop(base);
            drop(frames);
            Err(AllocError)
        }
    }
}

/// The phrase that a stack ends as behind the expression, unless something is still open on it.
#[tactic(auto, using(crate::proofs::Frames::FrameStacks::stack_on_push, crate::proofs::Frames::FrameStacks::ended_at_open))]
pub fn phrase_of_stack(stack: ParseStack, expr: Expr) -> Result<Phrase, NotRead>
    ensures { Gives plain_phrase result (phrase_of_stack (stack_of stack) (plain_expr expr)) }
{
    let ParseStack { base, mut frames } = stack;
    match frames.pop() {
        None => phrase_of_base(base, expr),
        Some(frame) => {
            drop(frame);
            drop(frames);
            drop(base);
            drop(expr);
            Err(NotRead::Refused)
        }
    }
}

/// The level at which every operator that is open on a stack is joined.
pub const EVERY_LEVEL: u8 = 1;

/// An operand, joined with each operator of the level or a higher one that is open on the stack, and what is left
/// open. Where nothing is open there is nothing to join, at once.
#[inline(always)]
#[tactic(auto, using(crate::proofs::Frames::FrameStacks::nothing_open))]
pub fn reduced(
    alloc: Global,
    stack: ParseStack,
    level: u8,
    operand: Expr,
) -> Result<(ParseStack, Expr), AllocError>
    ensures { IfOk result (λ o. pair_of o ≡ reduced (stack_of stack) level (plain_expr operand)) }
{
    if stack.frames.is_empty() {
        return Ok((stack, operand));
    }
    reduced_by_frames(alloc, stack, level, operand)
}

/// An operand, joined with one operator of the level or a higher one after the other that is open on the stack, and
/// what is left open.
#[tactic(auto, using(crate::proofs::Frames::FrameStacks::stack_on_push))]
fn reduced_by_frames(
    alloc: Global,
    stack: ParseStack,
    level: u8,
    operand: Expr,
) -> Result<(ParseStack, Expr), AllocError>
    ensures { IfOk result (λ o. pair_of o ≡ reduced (stack_of stack) level (plain_expr operand)) }
{
    let ParseStack { base, mut frames } = stack;
    let mut operand = operand;
    while let Some(frame) = frames.pop() {
        match join(alloc, frame, level, operand) {
            Ok(Joined::Operand(whole)) => operand = whole,
            Ok(Joined::Open(frame, left_over)) => {
                return left_open(ParseStack { base, frames }, frame, left_over);
            }
            Err(AllocError) => {
                drop(frames);
                drop(base);
                return Err(AllocError);
            }
        }
    }
    Ok((ParseStack { base, frames }, operand))
}

/// The builder's stack with the frame that stays open, and the operand in it.
fn left_open(
    stack: ParseStack,
    frame: ParseFrame,
    operand: Expr,
) -> Result<(ParseStack, Expr), AllocError>
    ensures { IfOk result (λ o. pair_of o ≡ (pushed frame (stack_of stack), plain_expr operand)) }
{
    match with_frame(stack, frame) {
        Ok(stack) => Ok((stack, operand)),
        Err(AllocError) => {
            drop(operand);
            Err(AllocError)
        }
    }
}

/// An operand, joined with the frame of the stack around it if that is an operator of the level or a higher one.
fn join(alloc: Global, frame: ParseFrame, level: u8, operand: Expr) -> Result<Joined, AllocError>
    ensures { IfOk result
        (λ j. (s : OpenStack) → reduced (pushed frame s) level (plain_expr operand) ≡ rest_of j s level) }
{
    match frame {
        ParseFrame::Prefix(op) => Ok(Joined::Operand(unary(alloc, op, operand)?)),
        ParseFrame::Left(left, op) => {
            if level <= priority(op) {
                Ok(Joined::Operand(binary(alloc, op, left, operand)?))
            } else {
                Ok(Joined::Open(ParseFrame::Left(left, op), operand))
            }
        }
        frame => Ok(Joined::Open(frame, operand)),
    }
}

/// What comes of an operand and the frame of the stack around it.
#[derive(Drop)]
pub enum Joined {
    /// The two are an operand.
    Operand(Expr),
    /// The frame stays open.
    Open(ParseFrame, Expr),
}
