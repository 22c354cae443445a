//! The role of a name that stands in no expression, and what each sign behind the name does to it.

ghost use Rattle.phrase_parser.specs.NotRead.{Gives};
ghost use Rattle.phrase_parser.specs.Private.Machine.{shift_open_role, shift_open, shift_comma_role, shift_equal_role, phrase_of_role};
ghost use Rattle.phrase_parser.specs.Private.Views.{role_of, state_of};
ghost use Rattle.plcs_grammar.specs.PlainPhrase.{plain_phrase};

use crate::builder::base::{Base, wanted_on};
use crate::builder::expr::simple;
use crate::builder::lists::{with_item, with_name, with_variable};
use crate::builder::primary::expression;
use crate::builder::state::{ParseState, shift_open};
use crate::not_read::NotRead;
use plcs_base::Name;
use plcs_grammar::{Item, Phrase, VarRef};
use std::alloc::{AllocError, Global};

/// The role of a name that stands in no expression: what it is for, with what of the phrase stands before it.
#[derive(Drop)]
pub enum Role {
    /// The target of an assignment.
    Target,
    /// A variable of a list, behind these.
    Variables(Vec<VarRef>),
    /// The procedure that is called.
    Callee,
    /// A name of a declaration, behind these.
    Items(Vec<Item>),
    /// A parameter, behind these.
    Names(Vec<Name>),
    /// The variable of a loop.
    Variable,
    /// The name of a procedure where it stands.
    Procedure,
}

/// The state that a role becomes after a parenthesis that is opened after its name, if one can stand there.
pub fn shift_open_role(alloc: Global, role: Role, name: Name) -> Result<ParseState, NotRead>
    ensures { Gives state_of result (shift_open_role (role_of role) name) }
{
    match role {
        Role::Target => Ok(wanted_on(alloc, Base::TargetSubscript(name))),
        Role::Variables(done) => Ok(wanted_on(alloc, Base::VariableSubscript(done, name))),
        Role::Callee => Ok(wanted_on(alloc, Base::CallArguments(name, Vec::new(alloc)))),
        Role::Items(done) => Ok(ParseState::SizeWanted(done, name)),
        Role::Names(_) | Role::Variable | Role::Procedure => Err(NotRead::Refused),
    }
}

/// The state that a role becomes after a comma that follows its name, if one can stand there.
pub fn shift_comma_role(role: Role, name: Name) -> Result<ParseState, NotRead>
    ensures { Gives state_of result (shift_comma_role (role_of role) name) }
{
    match role {
        Role::Variables(done) => match with_variable(done, simple(name)) {
            Ok(all) => Ok(ParseState::NameWanted(Role::Variables(all))),
            Err(AllocError) => Err(NotRead::OutOfMemory),
        },
        Role::Items(done) => match with_item(done, name, None) {
            Ok(all) => Ok(ParseState::NameWanted(Role::Items(all))),
            Err(AllocError) => Err(NotRead::OutOfMemory),
        },
        Role::Names(done) => match with_name(done, name) {
            Ok(all) => Ok(ParseState::NameWanted(Role::Names(all))),
            Err(AllocError) => Err(NotRead::OutOfMemory),
        },
        Role::Target | Role::Callee | Role::Variable | Role::Procedure => Err(NotRead::Refused),
    }
}

/// The state that a role becomes after `=` that follows its name, if it can stand there.
pub fn shift_equal_role(alloc: Global, role: Role, name: Name) -> Result<ParseState, NotRead>
    ensures { Gives state_of result (shift_equal_role (role_of role) name) }
{
    match role {
        Role::Target => Ok(wanted_on(alloc, Base::Assigned(simple(name)))),
        Role::Variables(_)
        | Role::Callee
        | Role::Items(_)
        | Role::Names(_)
        | Role::Variable
        | Role::Procedure => Err(NotRead::Refused),
    }
}

/// The phrase that a role ends as behind its name, if it may end so.
pub fn phrase_of_role(alloc: Global, role: Role, name: Name) -> Result<Phrase, NotRead>
    ensures { Gives plain_phrase result (phrase_of_role (role_of role) name) }
{
    match role {
        Role::Target => Err(NotRead::Refused),
        Role::Variables(done) => match with_variable(done, simple(name)) {
            Ok(all) => Ok(Phrase::VariableList(all)),
            Err(AllocError) => Err(NotRead::OutOfMemory),
        },
        Role::Callee => Ok(Phrase::CallRef(name, Vec::new(alloc))),
        Role::Items(done) => match with_item(done, name, None) {
            Ok(all) => Ok(Phrase::DeclaredList(all)),
            Err(AllocError) => Err(NotRead::OutOfMemory),
        },
        Role::Names(done) => match with_name(done, name) {
            Ok(all) => Ok(Phrase::NameList(all)),
            Err(AllocError) => Err(NotRead::OutOfMemory),
        },
        Role::Variable => Ok(Phrase::Variable(name)),
        Role::Procedure => Ok(Phrase::ProcedureName(name)),
    }
}
