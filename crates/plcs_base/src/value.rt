//! Values, and their kinds.
use crate::text::TextValue;

/// What kind of value an expression has. For the layers that check and run programs.
#[derive(Clone, Copy, Debug, PartialEq, Eq)]
pub enum Kind {
    /// The kind of whole numbers.
    Fixed,
    /// The kind of truth values.
    Bit,
    /// The kind of texts.
    Text,
}

/// A value that a program computes with. For the layers that run programs.
#[derive(Debug, Drop, PartialEq, Eq)]
pub enum Value {
    /// A whole number.
    Fixed(i32),
    /// A truth value.
    Bit(bool),
    /// A text of at most 256 bytes.
    Text(TextValue),
}
