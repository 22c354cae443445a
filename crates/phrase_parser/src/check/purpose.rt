//! The purpose of a name that stands in no expression, and what each sign behind the name does to it.

ghost use Rattle.std.specs.Prelude.{◌≡◌};
ghost use Rattle.phrase_parser.specs.Private.Recognizer.{next_open_name, next_comma_name, next_equal_name, level_by_purpose};
ghost use Rattle.phrase_parser.specs.Private.Shapes.{shape_if};

use crate::check::ground::{Ground, wanted};
use crate::check::shape::Shape;
use std::alloc::Global;

/// The purpose of a name that stands in no expression: what it is for, without what stands before it.
#[derive(Clone, Copy)]
pub enum Purpose {
    /// The target of an assignment.
    Target,
    /// A variable of a list.
    ListedVariable,
    /// The procedure that is called.
    Callee,
    /// A name of a declaration.
    Item,
    /// A parameter.
    ListedName,
    /// The whole phrase.
    Single,
}

/// The shape that a purpose becomes after a parenthesis that is opened after its name, if one can stand there.
pub fn next_open_name(alloc: Global, purpose: Purpose) -> Option<Shape>
    ensures { shape_if result ≡ next_open_name purpose }
{
    match purpose {
        Purpose::Target => Some(wanted(alloc, Ground::TargetIndex, 1)),
        Purpose::ListedVariable => Some(wanted(alloc, Ground::VariableIndex, 1)),
        Purpose::Callee => Some(wanted(alloc, Ground::CallList, 1)),
        Purpose::Item => Some(Shape::SizeWanted),
        Purpose::ListedName | Purpose::Single => None,
    }
}

/// The shape that a purpose becomes after a comma that follows its name, if one can stand there.
pub fn next_comma_name(purpose: Purpose) -> Option<Shape>
    ensures { shape_if result ≡ next_comma_name purpose }
{
    match purpose {
        Purpose::ListedVariable | Purpose::Item | Purpose::ListedName => Some(Shape::NameWanted(
            purpose,
        )),
        Purpose::Target | Purpose::Callee | Purpose::Single => None,
    }
}

/// The shape that a purpose becomes after `=` that follows its name, if it can stand there.
pub fn next_equal_name(alloc: Global, purpose: Purpose) -> Option<Shape>
    ensures { shape_if result ≡ next_equal_name purpose }
{
    match purpose {
        Purpose::Target => Some(wanted(alloc, Ground::Whole, 0)),
        Purpose::ListedVariable
        | Purpose::Callee
        | Purpose::Item
        | Purpose::ListedName
        | Purpose::Single => None,
    }
}

/// The level that a parenthesis opens behind a name of this purpose, or 0: an array's size opens none.
pub fn level_by_purpose(purpose: Purpose) -> u32
    ensures { result ≡ level_by_purpose purpose }
{
    match purpose {
        Purpose::Item => 0,
        Purpose::Target
        | Purpose::ListedVariable
        | Purpose::Callee
        | Purpose::ListedName
        | Purpose::Single => 1,
    }
}
