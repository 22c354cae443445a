//! What the last token of an expression was.

ghost use Rattle.std.specs.Prelude.{◌≡◌};
ghost use Rattle.phrase_parser.specs.Private.Recognizer.{level_after};
ghost use Rattle.phrase_parser.specs.Private.Shapes.{LastWithin, deepest_level};

/// What the last token of an expression was.
#[derive(Clone, Copy)]
pub enum Last {
    /// The end of an operand behind which no parenthesis may open.
    Operand,
    /// A name: whether it is a built-in function's, and how many levels are open at it.
    Named(bool, u32),
}

/// The level that a parenthesis opens behind the last token of an expression, or 0.
pub fn level_after(last: Last) -> u32
    requires { LastWithin deepest_level last }
    ensures { result ≡ level_after last }
{
    match last {
        Last::Operand => 0,
        Last::Named(_, level) => level + 1,
    }
}
