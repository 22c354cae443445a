//! The kinds of nodes, and the sorts of places where they may stand.
use crate::template::Template;

/// The kind of a node: what the node of a program is.
#[derive(Clone, Copy, Debug, PartialEq, Eq)]
pub enum NodeKind {
    /// A declaration that is still wanted.
    DeclarationHole,
    /// A statement that is still wanted.
    StatementHole,
    /// A procedure that is still wanted.
    ProcedureHole,
    /// The main procedure.
    Main,
    /// An assignment, which is typed as it is.
    Assign,
    /// A template, with its parts.
    Filled(Template),
}

/// The sort of a node: a node may stand where one of the same sort stands.
#[derive(Clone, Copy, Debug, PartialEq, Eq)]
pub enum Sort {
    /// The main procedure.
    Main,
    /// A procedure, or a hole for one.
    Procedure,
    /// A declaration, or a hole for one.
    Declaration,
    /// A statement, or a hole for one.
    Statement,
}
