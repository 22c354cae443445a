//! The ground of an expression that stands in no other, and what each sign behind the expression does to it.

ghost use Rattle.std.specs.Prelude.{◌≡◌, []};
ghost use Rattle.phrase_parser.specs.Private.Recognizer.{Shape as model, ground_level, next_close_ground, next_comma_ground};
ghost use Rattle.phrase_parser.specs.Private.Shapes.{shape_of, shape_if};

use crate::check::nesting::Nesting;
use crate::check::shape::Shape;
use std::alloc::Global;

/// The ground of an expression that stands in no other: where it stands.
#[derive(Clone, Copy)]
pub enum Ground {
    /// Alone: it is the whole phrase, or the value of an assignment.
    Whole,
    /// In a list of expressions that is the whole phrase.
    Listed,
    /// In the parentheses behind an assignment's target.
    TargetIndex,
    /// In the parentheses behind a variable of a list.
    VariableIndex,
    /// In the parentheses behind the name of a procedure that is called.
    CallList,
}

/// The shape on the ground alone of an expression that stands in no other: an operand is wanted, and nothing
/// else is open.
pub fn wanted(alloc: Global, place: Ground, level: u32) -> Shape
    ensures { shape_of result ≡ model.wanted place [] level }
{
    Shape::Wanted(Nesting::of(alloc, place), level)
}

/// The shape that a ground becomes after the closing parenthesis of the subscript or call in which its expression
/// stands, if it stands in one.
pub fn next_close_ground(place: Ground) -> Option<Shape>
    ensures { shape_if result ≡ next_close_ground place }
{
    match place {
        Ground::Whole | Ground::Listed => None,
        Ground::TargetIndex => Some(Shape::TargetHad),
        Ground::VariableIndex => Some(Shape::VariableHad),
        Ground::CallList => Some(Shape::CallHad),
    }
}

/// The shape that a ground becomes after a comma that follows its expression, if one can stand there.
pub fn next_comma_ground(alloc: Global, place: Ground) -> Option<Shape>
    ensures { shape_if result ≡ next_comma_ground place }
{
    match place {
        Ground::Listed => Some(Shape::Wanted(Nesting::of(alloc, place), 0)),
        Ground::CallList => Some(Shape::Wanted(Nesting::of(alloc, place), 1)),
        Ground::Whole | Ground::TargetIndex | Ground::VariableIndex => None,
    }
}

/// How many levels are open on a ground, where its expression begins.
pub fn ground_level(place: Ground) -> u32
    ensures { result ≡ ground_level place }
{
    match place {
        Ground::Whole | Ground::Listed => 0,
        Ground::TargetIndex | Ground::VariableIndex | Ground::CallList => 1,
    }
}
