//! Findings: what the check finds in the tokens of a text.
ghost use Rattle.std.specs.Prelude.{◌≡◌};
ghost use Rattle.phrase_parser.specs.Private.Recognizer.{may_end};
ghost use Rattle.phrase_parser.specs.Private.Findings.{seen_over, finding_of, found_at_end};
ghost use Rattle.phrase_parser.specs.Private.Shapes.{shape_of};
ghost use Rattle.phrase_parser.specs.Private.FindingViews.{over_if, as_found};

use crate::check::shape::{Shape, may_end};
use crate::check::token_class::{TokenClass, is_large};
use plcs_grammar::GREATEST_NESTING;

/// What the check finds past a limit, and the place of it.
#[derive(Clone, Copy)]
pub enum Over {
    /// A number that is too large.
    NumberTooLarge(usize),
    /// A token that opens one level too many.
    TooDeep(usize),
}

/// A finding of the check: what the tokens of a text are.
#[derive(Clone, Copy)]
pub enum Finding {
    /// They are a phrase within the limits.
    Fine,
    /// They are no phrase, and this is the first place that can't be right.
    SyntaxAt(usize),
    /// They are a phrase, and this goes past a limit first.
    Over(Over),
}

/// What the check finds past a limit in the token with this place, which opens the level, if it finds anything.
pub fn seen_over(class: TokenClass, start: usize, level: u32) -> Option<Over>
    ensures { over_if result ≡ seen_over (record { class = class; start = start }) level }
{
    if is_large(class) {
        Some(Over::NumberTooLarge(start))
    } else if level > GREATEST_NESTING {
        Some(Over::TooDeep(start))
    } else {
        None
    }
}

/// The finding where the tokens are a phrase, and this goes past a limit first or nothing does.
fn finding_of(over: Option<Over>) -> Finding
    ensures { as_found result ≡ finding_of (over_if over) }
{
    match over {
        None => Finding::Fine,
        Some(over) => Finding::Over(over),
    }
}

/// What the check finds behind the last token: the text ends there, or no further token can be made.
pub fn found_at_end(stop: Option<usize>, end: usize, shape: &Shape, over: Option<Over>) -> Finding
    ensures { as_found result ≡ found_at_end stop end (shape_of shape.now) (over_if over) }
{
    match stop {
        Some(place) => Finding::SyntaxAt(place),
        None if may_end(shape) => finding_of(over),
        None => Finding::SyntaxAt(end),
    }
}
