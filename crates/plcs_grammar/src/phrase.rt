//! Phrases: what is typed into the parts of templates.
ghost use Rattle.std.specs.Prelude.{◌≡◌};
ghost use Rattle.plcs_grammar.specs.PlainPhrase.{category_of, plain_phrase};

use crate::category::Category;
use crate::expr::{Expr, VarRef};
use crate::item::Item;
use plcs_base::Name;

/// What the user types into a part of a template, one variant for each category.
#[derive(Drop)]
pub enum Phrase {
    /// A variable and the expression that is assigned to it.
    Assignment(VarRef, Expr),
    /// An expression that is tested.
    Condition(Expr),
    /// An expression whose value is used.
    Expression(Expr),
    /// One or more expressions.
    ExpressionList(Vec<Expr>),
    /// One or more variables.
    VariableList(Vec<VarRef>),
    /// A name that a loop counts with.
    Variable(Name),
    /// The name of a procedure with its arguments, of which there may be none.
    CallRef(Name, Vec<Expr>),
    /// One or more names that are declared.
    DeclaredList(Vec<Item>),
    /// The name of a procedure where it stands.
    ProcedureName(Name),
    /// One or more parameters.
    NameList(Vec<Name>),
    /// The greatest length of a text, from 1 to 256.
    Length(u16),
    /// The text of a comment.
    CommentText(Vec<u8>),
}

impl Phrase {
    /// The category of the phrase.
    pub fn category(&self) -> Category
        ensures { result ≡ category_of (plain_phrase self.now) }
    {
        match self {
            Phrase::Assignment(_, _) => Category::Assignment,
            Phrase::Condition(_) => Category::Condition,
            Phrase::Expression(_) => Category::Expression,
            Phrase::ExpressionList(_) => Category::ExpressionList,
            Phrase::VariableList(_) => Category::VariableList,
            Phrase::Variable(_) => Category::Variable,
            Phrase::CallRef(_, _) => Category::CallRef,
            Phrase::DeclaredList(_) => Category::DeclaredList,
            Phrase::ProcedureName(_) => Category::ProcedureName,
            Phrase::NameList(_) => Category::NameList,
            Phrase::Length(_) => Category::Length,
            Phrase::CommentText(_) => Category::CommentText,
        }
    }
}
