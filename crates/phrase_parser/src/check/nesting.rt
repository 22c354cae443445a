//! The nesting of an operand: the open parentheses around it, and what each sign does to them.

ghost use Rattle.std.specs.Prelude.{◌≡◌, ◌≤◌, IfOk, [], reverse};
ghost use Rattle.phrase_parser.specs.Private.Recognizer.{ground_level, levels_inside, bracketed, next_close_ground, next_close_in, next_comma_ground, next_comma_in, may_end_in, Shape as model};
ghost use Rattle.phrase_parser.specs.Private.Shapes.{shape_of, shape_if, deepest_level};

use crate::check::ground::{Ground, ground_level, next_close_ground, next_comma_ground};
use crate::check::last::Last;
use crate::check::shape::Shape;
use std::alloc::{AllocError, Global};

/// The nesting of an operand: the open parentheses around it.
#[derive(Drop)]
pub struct Nesting {
    /// Where the outermost expression stands.
    pub place: Ground,
    /// The parentheses that are open in it, the innermost last.
    pub brackets: Vec<Bracket>,
}

/// An open parenthesis of a nesting.
#[derive(Clone, Copy)]
pub struct Bracket {
    /// Whether a comma may stand in the parenthesis.
    pub takes_commas: bool,
    /// The level that the parenthesis opened.
    pub level: u32,
}

impl Nesting {
    /// The nesting with no parenthesis open in the phrase's own expression.
    pub fn of(alloc: Global, place: Ground) -> Nesting
        ensures place { result.place ≡ place }
        ensures brackets { result.brackets.items ≡ [] }
    {
        let brackets = Vec::new(alloc);
        Nesting { place, brackets }
    }
}

/// The shape that a nesting becomes after a parenthesis that is opened where so many levels are open.
#[tactic(auto, using(crate::proofs::Findings::OpenBrackets::brackets_push))]
pub fn bracketed(nesting: Nesting, takes_commas: bool, level: u32) -> Result<Shape, AllocError>
    requires { level ≤ deepest_level }
    ensures { IfOk result (λ s. shape_of s
        ≡ bracketed takes_commas nesting.place (reverse nesting.brackets.items) level) }
{
    let Nesting {
        place,
        mut brackets,
    } = nesting;
    let level = level + 1;
    brackets.push(Bracket {
        takes_commas,
        level,
    })?;
    Ok(Shape::Wanted(Nesting { place, brackets }, level))
}

/// The shape that a nesting becomes after a parenthesis that closes its innermost one.
#[tactic(auto, using(crate::proofs::Findings::OpenBrackets::brackets_push))]
pub fn next_close_in(nesting: Nesting) -> Option<Shape>
    ensures { shape_if result ≡ next_close_in nesting.place (reverse nesting.brackets.items) }
{
    let Nesting {
        place,
        mut brackets,
    } = nesting;
    match brackets.pop() {
        Some(_) => Some(Shape::Had(Last::Operand, Nesting { place, brackets })),
        None => next_close_ground(place),
    }
}

/// The shape that a nesting becomes after a comma in its innermost parenthesis, if one can stand there.
#[tactic(auto, using(crate::proofs::Findings::OpenBrackets::brackets_push))]
pub fn next_comma_in(alloc: Global, nesting: Nesting) -> Result<Option<Shape>, AllocError>
    ensures { IfOk result (λ s. shape_if s ≡ next_comma_in nesting.place (reverse nesting.brackets.items)) }
{
    let Nesting {
        place,
        mut brackets,
    } = nesting;
    let Some(bracket) = brackets.pop() else {
        return Ok(next_comma_ground(alloc, place));
    };
    if !bracket.takes_commas {
        return Ok(None);
    }
    brackets.push(bracket)?;
    Ok(Some(Shape::Wanted(Nesting { place, brackets }, bracket.level)))
}

/// The shape that a nesting becomes after an infix operator, where an operand is wanted.
pub fn after_operator(nesting: Nesting) -> Shape
    ensures { shape_of result
        ≡ model.wanted nesting.place (reverse nesting.brackets.items)
        (levels_inside nesting.place (reverse nesting.brackets.items)) }
{
    let level = inside(&nesting);
    Shape::Wanted(nesting, level)
}

/// Whether a phrase may end behind an expression with this nesting.
pub fn may_end_in(nesting: &Nesting) -> bool
    ensures { result ≡ may_end_in nesting.now.place (reverse nesting.now.brackets.items) }
{
    match nesting.place {
        Ground::Whole | Ground::Listed => nesting.brackets.is_empty(),
        Ground::TargetIndex | Ground::VariableIndex | Ground::CallList => false,
    }
}

/// How many levels the open parentheses of a nesting opened.
pub fn inside(nesting: &Nesting) -> u32
    ensures { result ≡ levels_inside nesting.now.place (reverse nesting.now.brackets.items) }
{
    match nesting.brackets.last() {
        Some(bracket) => bracket.level,
        None => ground_level(nesting.place),
    }
}
