//! The builder: the phrase that tokens are, built of them one by one.
ghost use Rattle.std.specs.Prelude.{◌≡◌, map, All};
ghost use Rattle.phrase_parser.specs.NotRead.{Gives};
ghost use Rattle.plcs_grammar.specs.PlainPhrase.{plain_phrase};
ghost use Rattle.phrase_parser.specs.Private.Machine.{start_state, shift_all, phrase_of_if};
ghost use Rattle.phrase_parser.specs.Private.TokenIn.{IsPlacedIn, token_in};

mod base;
mod expr;
mod lists;
mod primary;
mod role;
mod stack;
mod state;
mod token_value;

use crate::builder::state::{phrase_of, shift, start_state};
use crate::not_read::NotRead;
use crate::token::Placed;
use plcs_grammar::{Category, Phrase};
use std::alloc::Global;

/// The phrase that is built of the tokens, which stand in the text.
///
/// It takes time and memory in proportion to the tokens, and little stack.
pub fn build(
    alloc: Global,
    category: Category,
    text: &[u8],
    tokens: &[Placed],
) -> Result<Phrase, NotRead>
    requires { All (IsPlacedIn text.now) tokens.now }
    ensures { Gives plain_phrase result
        (phrase_of_if (shift_all (map (token_in text.now) tokens.now) (start_state category))) }
{
    let mut state = start_state(alloc, category)?;
    for token in tokens {
        if let Err(fault) = shift(alloc, &mut state, text, *token) {
            drop(state);
            return Err(fault);
        }
    }
    phrase_of(alloc, state)
}
