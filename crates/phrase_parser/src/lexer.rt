//! A text cut into tokens.
ghost use Rattle.std.specs.Prelude.{◌≡◌, ◌+◌, ◌≤◌, drop, length, IfOk};
ghost use Rattle.plcs_grammar.specs.Cuts.{blanks};
ghost use Rattle.phrase_parser.specs.Private.PlacedToken.{AreTokens};
ghost use Rattle.phrase_parser.specs.Private.Front.{front_of, placed_at};

use crate::byte_class::{ByteClass, leading};
use crate::front::front_of;
use crate::token::Placed;
use std::alloc::{AllocError, Global};

/// The tokens into which a text is cut, with the place where it stops being tokens.
#[derive(Drop)]
pub struct TokenList {
    /// The tokens of the text, in their order.
    pub placed: Vec<Placed>,
    /// The place of the first byte, blanks aside, at which no token can be made. `None` where the whole
    /// text consists of tokens.
    pub stop: Option<usize>,
}

/// For how many tokens room is taken at first. Most phrases have fewer.
const FEW_TOKENS: usize = 16;

/// All tokens into which the text is cut, up to its end or to the byte where none can be made. The work grows with
/// the text's length alone: no byte is looked at more than a few times.
#[inline(never)]
pub fn tokens(alloc: Global, text: &[u8]) -> Result<TokenList, AllocError>
    ensures { IfOk result (λ tokens. AreTokens tokens.placed.items tokens.stop text.now) }
{
    let mut placed = Vec::with_capacity(alloc, FEW_TOKENS)?;
    let mut start = behind_blanks(text, 0);
    while start < text.len() {
        let Some(token) = token_at(text, start) else {
            let stop = Some(start);
            return Ok(TokenList { placed, stop });
        };
        placed.push(token)?;
        start = behind_blanks(text, token.end);
    }
    Ok(TokenList { placed, stop: None })
}

/// The place behind the blanks that stand at this place of the text, where its next token may begin.
fn behind_blanks(text: &[u8], at: usize) -> usize
    requires { at ≤ length text.now }
    ensures { result ≡ at + blanks (drop at text.now) }
{
    at + leading(ByteClass::Blank, &text[at..])
}

/// The longest token that begins at the place of the text, with its places. `None` where no token can be made there.
fn token_at(text: &[u8], start: usize) -> Option<Placed>
    requires { start ≤ length text.now }
    ensures { result ≡ placed_at start (front_of (drop start text.now)) }
{
    match front_of(&text[start..]) {
        Some(front) => {
            let end = start + front.length;
            Some(Placed {
                kind: front.kind,
                start,
                end,
            })
        }
        None => None,
    }
}
