//! The marks of phrases: what is wrong with them.
use crate::place::PhraseAt;

/// What is wrong with a phrase that has a mark: its first offence.
///
/// A procedure's heading is effective where all its parts are filled, its name is neither a built-in
/// function's nor `main`, and no earlier effective heading has it. Which items are effective,
/// `Scope` says.
#[derive(Clone, Copy, Debug, PartialEq, Eq)]
pub enum MarkKind {
    /// A name without a type.
    Undeclared,
    /// An operand of another kind than is asked for.
    TypeMismatch,
    /// A scalar with a subscript.
    NotArray,
    /// An array without a subscript.
    NeedsSubscript,
    /// A declared name that is effective already, a parameter that its list names twice, or a procedure
    /// name that an earlier effective heading has or that is `main`.
    Duplicate,
    /// A call of a name without an effective heading.
    UnknownProcedure,
    /// Too many arguments, or too few.
    WrongCount,
    /// An argument whose kind is not the parameter's, or a parameter that has no kind.
    ArgumentType,
    /// A parameter without an effective scalar item.
    ParameterUndeclared,
    /// An item that takes its procedure past 2,000 cells.
    TooManyCells,
    /// A built-in name as a variable, declared name, parameter or procedure name.
    Reserved,
}

/// The trait of the marks of a program's phrases, for the layers that make code of them and show them.
///
/// They are a finite map from phrases to what is wrong with them.
pub trait Marked {
    ghost use Rattle.std.specs.Prelude.{◌≡◌};
    ghost use Rattle.std.specs.FinMap.{get};
    ghost use Rattle.plcs_base.specs.Mark.{MarkMap};

    ghost marks: { Self → MarkMap };

    /// What is wrong with the phrase, as the marks of phrases tell it, or `None` where nothing is.
    fn mark(&self, at: PhraseAt) -> Option<MarkKind>
        ensures { result ≡ get (marks self.now) at };
}
