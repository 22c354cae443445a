//! The classes of tokens: what the check looks at of each.

ghost use Rattle.std.specs.Prelude.{◌≡◌, ◌≤◌, length};
ghost use Rattle.phrase_parser.specs.Private.Findings.{is_large};
ghost use Rattle.phrase_parser.specs.Private.TokenIn.{bytes_in};
ghost use Rattle.phrase_parser.specs.Private.Shapes.{class_from};

use crate::token::{Placed, TokenKind};
use plcs_grammar::{Builtin, GREATEST_NUMBER, Sign};

/// The class of a token: what the check looks at of it.
#[derive(Clone, Copy)]
pub enum TokenClass {
    /// A name: whether it is a built-in function's.
    Name(bool),
    /// A keyword.
    Keyword,
    /// The number, or `GREATEST_KEPT` where it is greater.
    Number(u32),
    /// A character or bit constant.
    Constant,
    /// A sign.
    Sign(Sign),
}

/// The class of a token that stands in the text.
#[tactic(auto, unfolding(plcs_grammar::specs::Builtin::is_builtin_name))]
pub fn class_at(text: &[u8], token: &Placed) -> TokenClass
    requires ordered { token.now.start ≤ token.now.end }
    requires within { token.now.end ≤ length text.now }
    ensures { result ≡ class_from token.now.kind (bytes_in text.now token.now) }
{
    match token.kind {
        TokenKind::Name => TokenClass::Name(Builtin::read(&text[token.start..token.end]).is_some()),
        TokenKind::Keyword => TokenClass::Keyword,
        TokenKind::Number(n) => TokenClass::Number(n),
        TokenKind::Text | TokenKind::Bit(_) => TokenClass::Constant,
        TokenKind::Sign(sign) => TokenClass::Sign(sign),
    }
}

/// Whether the class of a token is that of a number that is too large.
pub fn is_large(class: TokenClass) -> bool
    ensures { result ≡ is_large class }
{
    match class {
        TokenClass::Number(n) => n > GREATEST_NUMBER,
        TokenClass::Name(_) | TokenClass::Keyword | TokenClass::Constant | TokenClass::Sign(_) =>
            false,
    }
}
