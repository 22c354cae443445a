//! The operators that signs are, and the order in which operators join their operands.

ghost use Rattle.std.specs.Prelude.{◌≡◌};
ghost use Rattle.phrase_parser.specs.Private.Machine.{prefix_of, infix_of};
ghost use Rattle.plcs_grammar.specs.Level.{priority};

use plcs_grammar::{InfixOp, PrefixOp, Sign};

/// The prefix operator that a sign is before an operand, or `None` where it is none.
pub fn prefix_of(sign: Sign) -> Option<PrefixOp>
    ensures { result ≡ prefix_of sign }
{
    match sign {
        Sign::Plus => Some(PrefixOp::Plus),
        Sign::Minus => Some(PrefixOp::Minus),
        Sign::Caret => Some(PrefixOp::Not),
        _ => None,
    }
}

/// The infix operator that a sign is behind an operand, or `None` where it is none.
pub fn infix_of(sign: Sign) -> Option<InfixOp>
    ensures { result ≡ infix_of sign }
{
    match sign {
        Sign::Bar => Some(InfixOp::Or),
        Sign::Ampersand => Some(InfixOp::And),
        Sign::Equal => Some(InfixOp::Equal),
        Sign::NotEqual => Some(InfixOp::NotEqual),
        Sign::Less => Some(InfixOp::Less),
        Sign::LessEqual => Some(InfixOp::LessEqual),
        Sign::Greater => Some(InfixOp::Greater),
        Sign::GreaterEqual => Some(InfixOp::GreaterEqual),
        Sign::Join => Some(InfixOp::Join),
        Sign::Plus => Some(InfixOp::Plus),
        Sign::Minus => Some(InfixOp::Minus),
        Sign::Times => Some(InfixOp::Times),
        Sign::Divide => Some(InfixOp::Divide),
        Sign::Caret | Sign::OpenParenthesis | Sign::CloseParenthesis | Sign::Comma => None,
    }
}

/// The level at which an infix operator joins its operands, from 1 for the one that joins last.
pub fn priority(op: InfixOp) -> u8
    ensures { result ≡ priority op }
{
    match op {
        InfixOp::Or => 1,
        InfixOp::And => 2,
        InfixOp::Equal
        | InfixOp::NotEqual
        | InfixOp::Less
        | InfixOp::LessEqual
        | InfixOp::Greater
        | InfixOp::GreaterEqual => 3,
        InfixOp::Join => 4,
        InfixOp::Plus | InfixOp::Minus => 5,
        InfixOp::Times | InfixOp::Divide => 6,
    }
}
