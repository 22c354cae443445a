//! Operators, and their signs.
ghost use Rattle.std.specs.Prelude.{◌≡◌, []};
ghost use Rattle.plcs_grammar.specs.Canon.{behind_sign};
ghost use Rattle.plcs_grammar.specs.Sign.{prefix_sign, infix_sign};

use crate::sign::Sign;

/// An operator before its operand.
#[derive(Clone, Copy, Debug, PartialEq, Eq)]
pub enum PrefixOp {
    /// `+`
    Plus,
    /// `-`
    Minus,
    /// `^`
    Not,
}

/// An operator between its operands.
#[derive(Clone, Copy, Debug, PartialEq, Eq)]
pub enum InfixOp {
    /// `|`
    Or,
    /// `&`
    And,
    /// `=`
    Equal,
    /// `^=`
    NotEqual,
    /// `<`
    Less,
    /// `<=`
    LessEqual,
    /// `>`
    Greater,
    /// `>=`
    GreaterEqual,
    /// `||`
    Join,
    /// `+`
    Plus,
    /// `-`
    Minus,
    /// `*`
    Times,
    /// `/`
    Divide,
}

impl PrefixOp {
    /// The sign that the prefix operator is written as.
    pub fn sign(self) -> Sign
        ensures { result ≡ prefix_sign self }
    {
        match self {
            PrefixOp::Plus => Sign::Plus,
            PrefixOp::Minus => Sign::Minus,
            PrefixOp::Not => Sign::Caret,
        }
    }
}

impl InfixOp {
    /// The sign that the infix operator is written as.
    pub fn sign(self) -> Sign
        ensures { result ≡ infix_sign self }
    {
        match self {
            InfixOp::Or => Sign::Bar,
            InfixOp::And => Sign::Ampersand,
            InfixOp::Equal => Sign::Equal,
            InfixOp::NotEqual => Sign::NotEqual,
            InfixOp::Less => Sign::Less,
            InfixOp::LessEqual => Sign::LessEqual,
            InfixOp::Greater => Sign::Greater,
            InfixOp::GreaterEqual => Sign::GreaterEqual,
            InfixOp::Join => Sign::Join,
            InfixOp::Plus => Sign::Plus,
            InfixOp::Minus => Sign::Minus,
            InfixOp::Times => Sign::Times,
            InfixOp::Divide => Sign::Divide,
        }
    }

    /// The sign of the infix operator with a blank on each side.
    pub(crate) fn spaced(self) -> &'static [u8]
        ensures { result.now ≡ behind_sign (infix_sign self) [] }
    {
        match self {
            InfixOp::Or => b" | ",
            InfixOp::And => b" & ",
            InfixOp::Equal => b" = ",
            InfixOp::NotEqual => b" ^= ",
            InfixOp::Less => b" < ",
            InfixOp::LessEqual => b" <= ",
            InfixOp::Greater => b" > ",
            InfixOp::GreaterEqual => b" >= ",
            InfixOp::Join => b" || ",
            InfixOp::Plus => b" + ",
            InfixOp::Minus => b" - ",
            InfixOp::Times => b" * ",
            InfixOp::Divide => b" / ",
        }
    }
}
