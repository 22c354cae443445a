//! The categories of phrases, and what stands for a phrase of each that is not there yet.
ghost use Rattle.std.specs.Prelude.{◌≡◌};

/// The word of the placeholder that stands for a statement that is not there yet.
pub(crate) const STATEMENT_HOLE_WORD: &[u8] = b"{statement}";

/// The category of a phrase: what kind of phrase a part of a template holds.
#[derive(Clone, Copy, Debug, PartialEq, Eq)]
pub enum Category {
    /// A variable, `=` and an expression.
    Assignment,
    /// An expression that is tested.
    Condition,
    /// An expression whose value is used.
    Expression,
    /// One or more expressions, joined by commas.
    ExpressionList,
    /// One or more variables, joined by commas.
    VariableList,
    /// A name that a loop counts with.
    Variable,
    /// The name of a procedure, with its arguments if it takes some.
    CallRef,
    /// One or more names that are declared, an array's with its size.
    DeclaredList,
    /// The name of a procedure where it stands.
    ProcedureName,
    /// One or more parameters, joined by commas.
    NameList,
    /// The greatest length of a text, from 1 to 256.
    Length,
    /// The text of a comment.
    CommentText,
}

impl Category {
    ghost use Rattle.plcs_grammar.specs.Placeholder.{placeholder, placeholder_word};

    /// What is shown in an empty part of the category, braces included; for an assignment, which is never empty, the
    /// statement hole in which it is typed.
    pub fn placeholder(self) -> &'static [u8]
        ensures { result.now ≡ placeholder self }
    {
        match self {
            Category::Assignment => STATEMENT_HOLE_WORD,
            Category::Condition => b"{condition}",
            Category::Expression => b"{expression}",
            Category::ExpressionList => b"{expressions}",
            Category::VariableList => b"{variables}",
            Category::Variable => b"{variable}",
            Category::CallRef => b"{call}",
            Category::DeclaredList => b"{names}",
            Category::ProcedureName => b"{name}",
            Category::NameList => b"{parameters}",
            Category::Length => b"{length}",
            Category::CommentText => b"{comment}",
        }
    }

    /// The word of the category's placeholder, without the braces.
    pub fn placeholder_word(self) -> &'static [u8]
        ensures { result.now ≡ placeholder_word self }
    {
        let whole = self.placeholder();
        &whole[1..whole.len() - 1]
    }
}
