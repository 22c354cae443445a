//! The parser: the phrase that a text reads as, or the fault that is answered.
ghost use Rattle.std.specs.Prelude.{◌≡◌, ◌<◌, ◌^◌, ℕ, length, map, All, Some, IfOk, IsTrue, is_some};
ghost use Rattle.plcs_grammar.specs.Canon.{IsWellFormed};
ghost use Rattle.plcs_grammar.specs.OverLimit.{OverLimit};
ghost use Rattle.plcs_grammar.specs.PlainPhrase.{PlainPhrase, category_of, plain_phrase};
ghost use Rattle.plcs_grammar.specs.Reads.{Outline, Reads, IsOver};
ghost use Rattle.plcs_grammar.specs.SyntaxOffset.{SyntaxAt};
ghost use Rattle.phrase_parser.specs.declared.fault.PhraseFault.TheVariants.{Syntax};
ghost use Rattle.phrase_parser.specs.Private.Machine.{start_state, shift_all, phrase_of_if};
ghost use Rattle.phrase_parser.specs.Private.Recognizer.{first_shape};
ghost use Rattle.phrase_parser.specs.Private.TokenIn.{IsPlacedIn, token_in};
ghost use Rattle.phrase_parser.specs.Private.Shapes.{shape_of};
ghost use Rattle.phrase_parser.specs.Private.FindingViews.{over_of, over_offset};
ghost use Rattle.phrase_parser.specs.Answers.{Answers, Only, OnlyFault, over_fault};

use crate::builder::build;
use crate::check::{Finding, Over, Shape, check, first_shape};
use crate::comment::comment;
use crate::fault::PhraseFault;
use crate::lexer::tokens;
use crate::not_read::NotRead;
use plcs_grammar::{Category, Phrase};
use std::alloc::Global;

/// What the text reads as in the category.
///
/// It takes time and memory in proportion to the text, and little stack.
pub fn parse(alloc: Global, category: Category, text: &[u8]) -> Result<Phrase, PhraseFault>
    requires { length text.now < 2 ^ 32 }
    // What each answer says of the text.
    ensures says { Answers category text.now result }
    // The phrase is well formed: its canonical text reads as it.
    ensures well_formed { IfOk result (λ phrase. IsWellFormed category (plain_phrase phrase)) }
    // What the text reads as is answered, unless memory runs out.
    ensures only { (phrase : PlainPhrase) → Reads category text.now phrase → Only result phrase }
    // So is what goes past a limit first.
    ensures over { (over : OverLimit) → IsOver category text.now over → OnlyFault result (over_fault over) }
    // And so is the place where a text without a reading goes wrong.
    ensures syntax { (place : ℕ) → ¬ (Outline category text.now) → SyntaxAt category text.now place
        → OnlyFault result (Syntax place) }
    // The phrase is of the category that was asked for.
    ensures category { IfOk result (λ phrase. category_of (plain_phrase phrase) ≡ category) }
{
    match first_shape(alloc, category) {
        Some(first) => phrase(alloc, category, first, text),
        None => comment(alloc, text),
    }
}

/// The phrase that the parser reads a text as by its tokens, which are cut, checked and built; the check begins with
/// this shape.
fn phrase(
    alloc: Global,
    category: Category,
    first: Shape,
    text: &[u8],
) -> Result<Phrase, PhraseFault>
    requires short { length text.now < 2 ^ 32 }
    requires first { first_shape category ≡ Some (shape_of first) }
    ensures { Answers category text.now result }
{
    let tokens = tokens(alloc, text)?;
    let placed = tokens.placed.as_slice();
    match check(alloc, first, text, placed, tokens.stop)? {
        Finding::Fine => match build(alloc, category, text, placed) {
            Ok(phrase) => Ok(phrase),
            Err(NotRead::OutOfMemory) => Err(PhraseFault::OutOfMemory),
            Err(NotRead::Refused) => unreachable!(),
        },
        Finding::SyntaxAt(place) => Err(PhraseFault::Syntax(place as u32)),
        Finding::Over(over) => Err(over_fault(over)),
    }
}

/// What the check finds past a limit, which the parser turns into the fault that it answers.
fn over_fault(over: Over) -> PhraseFault
    requires { over_offset (over_of over) < 2 ^ 32 }
    ensures { result ≡ over_fault (over_of over) }
{
    match over {
        Over::NumberTooLarge(place) => PhraseFault::NumberTooLarge(place as u32),
        Over::TooDeep(place) => PhraseFault::TooDeep(place as u32),
    }
}
