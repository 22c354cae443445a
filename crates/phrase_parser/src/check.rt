//! The check: whether tokens are a phrase within its limits, and else what goes wrong first.
ghost use Rattle.std.specs.Prelude.{◌≡◌, ◌<◌, ◌≤◌, length, map, All, IfOk, None};
ghost use Rattle.phrase_parser.specs.Private.Findings.{findings};
ghost use Rattle.phrase_parser.specs.Private.TokenIn.{LiesIn};
ghost use Rattle.phrase_parser.specs.Private.Shapes.{shape_of, seen_in, Within};
ghost use Rattle.phrase_parser.specs.Private.FindingViews.{as_found};

mod finding;
mod ground;
mod last;
mod nesting;
mod purpose;
mod shape;
mod token_class;

pub use crate::check::finding::{Finding, Over};
use crate::check::finding::{found_at_end, seen_over};
pub use crate::check::shape::{Shape, first_shape};
use crate::check::shape::{level_of, next};
use crate::check::token_class::class_at;
use crate::token::Placed;
use std::alloc::{AllocError, Global};

/// What the check finds as it goes over the tokens of the text, which is cut up to the place, or else up to its end.
///
/// It takes time in proportion to the tokens, some bytes of memory for each parenthesis that is open, and
/// little stack.
pub fn check(
    alloc: Global,
    first: Shape,
    text: &[u8],
    tokens: &[Placed],
    stop: Option<usize>,
) -> Result<Finding, AllocError>
    requires first { Within 0 (shape_of first) }
    requires within { All (LiesIn text.now) tokens.now }
    requires few { length tokens.now ≤ 4294967295 }
    ensures { IfOk result
        (λ f. as_found f ≡ findings (map (seen_in text.now) tokens.now) stop (length text.now) (shape_of first) None) }
{
    let mut shape = first;
    let mut over = None;
    for token in tokens {
        let class = class_at(text, token);
        let level = level_of(&shape, class);
        let Some(behind) = next(alloc, shape, class)? else {
            return Ok(Finding::SyntaxAt(token.start));
        };
        shape = behind;
        over = over.or(seen_over(class, token.start, level));
    }
    Ok(found_at_end(stop, text.len(), &shape, over))
}
