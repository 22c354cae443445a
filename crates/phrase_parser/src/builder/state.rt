//! The builder's state: what was read last and what is wanted, and what each token does to it.

ghost use Rattle.phrase_parser.specs.Private.Machine.{start_state, shift, shift_operand, shift_name, shift_number, shift_equal_role, shift_equal, shift_prefix, shift_infix, shift_operator, shift_sign, shift_open_after, shift_open_role, shift_open, shift_close_stack, shift_close, shift_comma_stack, shift_comma_role, shift_comma, phrase_of_stack, phrase_of_role, phrase_of};
ghost use Rattle.phrase_parser.specs.Private.TokenIn.{IsConstant, IsPlacedIn, between_quotes, token_in};
ghost use Rattle.phrase_parser.specs.Private.Unquoted.{undoubled};
ghost use Rattle.phrase_parser.specs.Private.Views.{state_of, primary_of};
ghost use Rattle.std.specs.Prelude.{◌≡◌, ◌≤◌};
ghost use Rattle.phrase_parser.specs.NotRead.{Gives};
ghost use Rattle.plcs_grammar.specs.Limit.{greatest_number};
ghost use Rattle.plcs_grammar.specs.PlainPhrase.{PlainExpr, plain_phrase};

use crate::builder::base::{Base, wanted_on};
use crate::builder::lists::with_item;
use crate::builder::primary::{Primary, constant, expression, number};
use crate::builder::role::{
    Role, phrase_of_role, shift_comma_role, shift_equal_role, shift_open_role,
};
use crate::builder::stack::{
    EVERY_LEVEL, ParseFrame, ParseStack, joined_before, phrase_of_stack, reduced,
    shift_close_stack, shift_comma_stack, shift_infix, shift_open_after, shift_prefix, wanted_in,
};
use crate::builder::token_value::{constant_value, name_of};
use crate::not_read::NotRead;
use crate::operator::{infix_of, prefix_of};
use crate::token::{Placed, TokenKind};
use plcs_base::{LONGEST_TEXT, Name};
use plcs_grammar::{Category, Expr, InfixOp, Item, Phrase, Sign, VarRef};
use std::alloc::{AllocError, Global};
use std::mem;

/// A state of the builder: what was read last, and what is wanted.
#[derive(Drop)]
pub enum ParseState {
    /// An operand is wanted.
    Wanted(ParseStack),
    /// A primary was just read.
    Had(ParseStack, Primary),
    /// A name is wanted.
    NameWanted(Role),
    /// A name was just read.
    NameHad(Role, Name),
    /// The parenthesis behind a target's subscript was just read.
    TargetHad(VarRef),
    /// The parenthesis behind a variable's subscript was just read.
    VariableHad(Vec<VarRef>),
    /// The parenthesis behind a call's arguments was just read.
    CallHad(Name, Vec<Expr>),
    /// The size of an array is wanted.
    SizeWanted(Vec<Item>, Name),
    /// The size of an array was just read.
    SizeHad(Vec<Item>, Name, u32),
    /// The parenthesis behind the size of an array was just read.
    ItemHad(Vec<Item>),
    /// A length is wanted.
    LengthWanted,
    /// A length was just read.
    LengthHad(u16),
}

/// The builder's state before all tokens of a phrase; a comment has no tokens.
pub fn start_state(alloc: Global, category: Category) -> Result<ParseState, NotRead>
    ensures { Gives state_of result (start_state category) }
{
    match category {
        Category::Assignment => Ok(ParseState::NameWanted(Role::Target)),
        Category::Condition => Ok(wanted_on(alloc, Base::Condition)),
        Category::Expression => Ok(wanted_on(alloc, Base::Expression)),
        Category::ExpressionList => Ok(wanted_on(alloc, Base::Expressions(Vec::new(alloc)))),
        Category::VariableList => Ok(ParseState::NameWanted(Role::Variables(Vec::new(alloc)))),
        Category::Variable => Ok(ParseState::NameWanted(Role::Variable)),
        Category::CallRef => Ok(ParseState::NameWanted(Role::Callee)),
        Category::DeclaredList => Ok(ParseState::NameWanted(Role::Items(Vec::new(alloc)))),
        Category::ProcedureName => Ok(ParseState::NameWanted(Role::Procedure)),
        Category::NameList => Ok(ParseState::NameWanted(Role::Names(Vec::new(alloc)))),
        Category::Length => Ok(ParseState::LengthWanted),
        Category::CommentText => Err(NotRead::Refused),
    }
}

/// Brings the builder's state on by one more token, if it can stand there. A state is large, so it stays where it is;
/// where the token can't stand, the state is lost.
pub fn shift(
    alloc: Global,
    state: &mut ParseState,
    text: &[u8],
    token: Placed,
) -> Result<(), NotRead>
    requires { IsPlacedIn text.now token }
    ensures { Gives (λ _. state_of state.new) result (shift (state_of state.old) (token_in text.now token)) }
{
    let bytes = &text[token.start..token.end];
    match token.kind {
        TokenKind::Name => shift_name(state, name_of(bytes)),
        TokenKind::Keyword => Err(NotRead::Refused),
        TokenKind::Number(n) => shift_number(state, n),
        TokenKind::Text => shift_text(alloc, state, bytes),
        TokenKind::Bit(value) => shift_operand(state, Primary::Bit(value)),
        TokenKind::Sign(sign) => shift_sign(alloc, state, sign),
    }
}

/// Brings the builder's state on by the character constant that the bytes of a token are, if one can stand there. A
/// function clears the room of all its values whenever it begins, so the value of a text has room in one of its own.
#[inline(never)]
fn shift_text(alloc: Global, state: &mut ParseState, bytes: &[u8]) -> Result<(), NotRead>
    requires { IsConstant bytes.now }
    ensures { Gives (λ _. state_of state.new) result
        (shift_operand (state_of state.old) (PlainExpr.text (undoubled (between_quotes bytes.now)))) }
{
    shift_operand(state, constant(alloc, constant_value(bytes))?)
}

/// Takes the state, for which another one is left that takes no room.
fn taken(state: &mut ParseState) -> ParseState
    ensures { result ≡ state.old }
{
    mem::replace(state, ParseState::LengthWanted)
}

/// Brings the builder's state on by a name, if one can stand there.
fn shift_name(state: &mut ParseState, name: Name) -> Result<(), NotRead>
    ensures { Gives (λ _. state_of state.new) result (shift_name (state_of state.old) name) }
{
    match taken(state) {
        ParseState::Wanted(stack) => {
            drop(mem::replace(state, ParseState::Had(stack, Primary::Name(name))));
            Ok(())
        }
        ParseState::NameWanted(role) => {
            drop(mem::replace(state, ParseState::NameHad(role, name)));
            Ok(())
        }
        other => {
            let_go(other);
            Err(NotRead::Refused)
        }
    }
}

/// Brings the builder's state on by a number, if one can stand there.
fn shift_number(state: &mut ParseState, n: u32) -> Result<(), NotRead>
    requires { n ≤ greatest_number }
    ensures { Gives (λ _. state_of state.new) result (shift_number (state_of state.old) n) }
{
    let behind = match taken(state) {
        ParseState::Wanted(stack) => ParseState::Had(stack, number(n)),
        ParseState::SizeWanted(done, name) if n >= 1 => ParseState::SizeHad(done, name, n),
        ParseState::LengthWanted if n >= 1 && n as usize <= LONGEST_TEXT => {
            ParseState::LengthHad(n as u16)
        }
        other => {
            let_go(other);
            return Err(NotRead::Refused);
        }
    };
    drop(mem::replace(state, behind));
    Ok(())
}

/// Brings the builder's state on by a whole operand, if one can stand there.
fn shift_operand(state: &mut ParseState, primary: Primary) -> Result<(), NotRead>
    ensures { Gives (λ _. state_of state.new) result (shift_operand (state_of state.old) (primary_of primary)) }
{
    match taken(state) {
        ParseState::Wanted(stack) => {
            drop(mem::replace(state, ParseState::Had(stack, primary)));
            Ok(())
        }
        other => {
            let_go(other);
            drop(primary);
            Err(NotRead::Refused)
        }
    }
}

/// Brings the builder's state on by a sign, if it can stand there.
#[inline(never)]
fn shift_sign(alloc: Global, state: &mut ParseState, sign: Sign) -> Result<(), NotRead>
    ensures { Gives (λ _. state_of state.new) result (shift_sign (state_of state.old) sign) }
{
    match after_sign(alloc, taken(state), sign) {
        Ok(behind) => {
            drop(mem::replace(state, behind));
            Ok(())
        }
        Err(fault) => Err(fault),
    }
}

/// The builder's state after a sign, if it can stand there.
#[inline(always)]
fn after_sign(alloc: Global, state: ParseState, sign: Sign) -> Result<ParseState, NotRead>
    ensures { Gives state_of result (shift_sign (state_of state) sign) }
{
    match sign {
        Sign::OpenParenthesis => shift_open(alloc, state),
        Sign::CloseParenthesis => shift_close(alloc, state),
        Sign::Comma => shift_comma(alloc, state),
        Sign::Equal => shift_equal(alloc, state),
        _ => shift_operator(alloc, state, sign),
    }
}

/// The builder's state after an opening parenthesis, if one can stand there.
pub fn shift_open(alloc: Global, state: ParseState) -> Result<ParseState, NotRead>
    ensures { Gives state_of result (shift_open (state_of state)) }
{
    match state {
        ParseState::Wanted(stack) => wanted_in(stack, ParseFrame::Parenthesis),
        ParseState::Had(stack, primary) => shift_open_after(alloc, stack, primary),
        ParseState::NameHad(role, name) => shift_open_role(alloc, role, name),
        _ => {
            let_go(state);
            Err(NotRead::Refused)
        }
    }
}

/// The builder's state after a closing parenthesis, if one can stand there.
pub fn shift_close(alloc: Global, state: ParseState) -> Result<ParseState, NotRead>
    ensures { Gives state_of result (shift_close (state_of state)) }
{
    match state {
        ParseState::Had(stack, primary) => {
            match reduced(alloc, stack, EVERY_LEVEL, expression(primary)) {
                Ok((stack, expr)) => shift_close_stack(alloc, stack, expr),
                Err(AllocError) => Err(NotRead::OutOfMemory),
            }
        }
        ParseState::SizeHad(done, name, size) => match with_item(done, name, Some(size)) {
            Ok(all) => Ok(ParseState::ItemHad(all)),
            Err(AllocError) => Err(NotRead::OutOfMemory),
        },
        _ => {
            let_go(state);
            Err(NotRead::Refused)
        }
    }
}

/// The builder's state after a comma, if one can stand there.
pub fn shift_comma(alloc: Global, state: ParseState) -> Result<ParseState, NotRead>
    ensures { Gives state_of result (shift_comma (state_of state)) }
{
    match state {
        ParseState::Had(stack, primary) => {
            match reduced(alloc, stack, EVERY_LEVEL, expression(primary)) {
                Ok((stack, expr)) => shift_comma_stack(alloc, stack, expr),
                Err(AllocError) => Err(NotRead::OutOfMemory),
            }
        }
        ParseState::NameHad(role, name) => shift_comma_role(role, name),
        ParseState::VariableHad(done) => Ok(ParseState::NameWanted(Role::Variables(done))),
        ParseState::ItemHad(done) => Ok(ParseState::NameWanted(Role::Items(done))),
        _ => {
            let_go(state);
            Err(NotRead::Refused)
        }
    }
}

/// The builder's state after `=`, if it can stand there: it assigns to the target of an assignment, and elsewhere it
/// compares.
fn shift_equal(alloc: Global, state: ParseState) -> Result<ParseState, NotRead>
    ensures { Gives state_of result (shift_equal (state_of state)) }
{
    match state {
        ParseState::Had(stack, primary) => { joined_before(alloc, stack, primary, InfixOp::Equal) }
        ParseState::NameHad(role, name) => shift_equal_role(alloc, role, name),
        ParseState::TargetHad(target) => Ok(wanted_on(alloc, Base::Assigned(target))),
        _ => {
            let_go(state);
            Err(NotRead::Refused)
        }
    }
}

/// The builder's state after a sign that is an operator wherever it stands, if it can stand there.
fn shift_operator(alloc: Global, state: ParseState, sign: Sign) -> Result<ParseState, NotRead>
    ensures { Gives state_of result (shift_operator (state_of state) sign) }
{
    match state {
        ParseState::Wanted(stack) => shift_prefix(stack, prefix_of(sign)),
        ParseState::Had(stack, primary) => shift_infix(alloc, stack, primary, infix_of(sign)),
        _ => {
            let_go(state);
            Err(NotRead::Refused)
        }
    }
}

/// The phrase that the builder's state ends as, if all of it is read.
pub fn phrase_of(alloc: Global, state: ParseState) -> Result<Phrase, NotRead>
    ensures { Gives plain_phrase result (phrase_of (state_of state)) }
{
    match state {
        ParseState::Had(stack, primary) => {
            match reduced(alloc, stack, EVERY_LEVEL, expression(primary)) {
                Ok((stack, expr)) => phrase_of_stack(stack, expr),
                Err(AllocError) => Err(NotRead::OutOfMemory),
            }
        }
        ParseState::NameHad(role, name) => phrase_of_role(alloc, role, name),
        ParseState::VariableHad(done) => Ok(Phrase::VariableList(done)),
        ParseState::CallHad(name, passed) => Ok(Phrase::CallRef(name, passed)),
        ParseState::ItemHad(done) => Ok(Phrase::DeclaredList(done)),
        ParseState::LengthHad(length) => Ok(Phrase::Length(length)),
        _ => {
            let_go(state);
            Err(NotRead::Refused)
        }
    }
}

/// Lets a state go behind which a token can't stand. A function clears the room of all its values whenever it begins,
/// and letting a state go has a value for each part that it may have, so that is done in a function of its own.
#[inline(never)]
fn let_go(state: ParseState) {
    drop(state);
}
