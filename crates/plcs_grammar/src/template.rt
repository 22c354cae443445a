//! The templates that a hole can be filled with.
/// A template: a declaration, a statement or a procedure whose parts are still to be typed.
#[derive(Clone, Copy, Debug, PartialEq, Eq)]
pub enum Template {
    /// A declaration of whole numbers.
    Fixed,
    /// A declaration of truth values.
    Bit,
    /// A declaration of texts.
    Char,
    /// A choice whether a statement is done.
    If,
    /// A choice between two statements.
    IfElse,
    /// A loop while a condition holds.
    While,
    /// A loop that counts.
    For,
    /// A loop until a condition holds, which is tested behind the statements inside.
    Until,
    /// Statements done in turn.
    Group,
    /// A read of variables.
    Get,
    /// A write of values.
    Put,
    /// A write of values on a new line.
    PutSkip,
    /// A call of a procedure.
    Call,
    /// A return to the caller.
    Return,
    /// A comment over the statements that refine it.
    Comment,
    /// A procedure without parameters.
    Proc,
    /// A procedure with parameters.
    ProcP,
}
