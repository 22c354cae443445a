//! Tokens where they stand in a text.
use plcs_grammar::Sign;

/// The greatest number that is kept of a token, where counting its digits ends.
pub const GREATEST_KEPT: u32 = u32::MAX;

/// The kind of a token. The bytes of names, keywords and character constants are read from the
/// text again where they are wanted.
#[derive(Clone, Copy, Debug, PartialEq, Eq)]
pub enum TokenKind {
    /// A name.
    Name,
    /// A keyword.
    Keyword,
    /// The number, or `GREATEST_KEPT` where it is greater.
    Number(u32),
    /// A character constant.
    Text,
    /// A bit constant.
    Bit(bool),
    /// A sign.
    Sign(Sign),
}

/// A token where it stands in a text: its kind and its places.
#[derive(Clone, Copy, Debug, PartialEq, Eq)]
pub struct Placed {
    /// The kind of the token.
    pub kind: TokenKind,
    /// The place of the token's first byte, counted from 0.
    pub start: usize,
    /// The place behind the token's last byte.
    pub end: usize,
}
