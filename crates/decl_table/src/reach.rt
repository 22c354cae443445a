//! How far an edit reaches.
ghost use Rattle.std.specs.Prelude.{◌≡◌, ◌||◌, length, nat_lt};
ghost use Rattle.std.specs.Option.{option_copied};
ghost use Rattle.decl_table.specs.Private.ReachView.{has_heading, has_items, has_lists, names_bind, reach_of};

use crate::changed_nodes::ChangedNodes;

/// How far an edit reaches beyond the phrases that it put in.
#[derive(Clone, Copy)]
pub(crate) enum Reach {
    /// A statement was changed: no further.
    Statement,
    /// A declaration was changed.
    Declaration,
    /// A part of a heading was set.
    Heading,
    /// Main or a procedure was changed as a whole, added or dropped.
    Procedure,
}

impl Reach {
    /// How far the edit reaches that changed what stands at the path.
    pub(crate) fn of(nodes: &ChangedNodes<'_>, path: &[u32]) -> Reach
        ensures { result ≡ reach_of (nat_lt 1 (length path.now))
            (names_bind (option_copied nodes.now.old) || names_bind (option_copied nodes.now.new)) nodes.now.part }
    {
        if path.len() > 1 {
            if nodes.bind_names() {
                Reach::Declaration
            } else {
                Reach::Statement
            }
        } else {
            match nodes.part {
                Some(_) => Reach::Heading,
                None => Reach::Procedure,
            }
        }
    }

    /// Whether a declaration or a heading was changed, so that the lists of names of the procedure are due for a
    /// check.
    pub(crate) fn has_lists(self) -> bool
        ensures { result ≡ has_lists self }
    {
        match self {
            Reach::Statement => false,
            Reach::Declaration => true,
            Reach::Heading => true,
            Reach::Procedure => true,
        }
    }

    /// Whether a heading was changed.
    pub(crate) fn has_heading(self) -> bool
        ensures { result ≡ has_heading self }
    {
        match self {
            Reach::Statement => false,
            Reach::Declaration => false,
            Reach::Heading => true,
            Reach::Procedure => true,
        }
    }

    /// Whether the effective items of the procedure may have changed.
    pub(crate) fn has_items(self) -> bool
        ensures { result ≡ has_items self }
    {
        match self {
            Reach::Statement => false,
            Reach::Declaration => true,
            Reach::Heading => false,
            Reach::Procedure => true,
        }
    }
}
