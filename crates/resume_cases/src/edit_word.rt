//! The words of changes of a program.

use plcs_grammar::Template;
use template_tree::Side;

/// What a change of a program does, by its word.
#[derive(Clone, Copy)]
pub(crate) enum EditWord {
    /// Fills a hole with the template of the next word.
    Fill,
    /// Enters the phrase of the next word.
    Enter,
    /// Inserts the node that was copied last.
    Insert,
    /// Deletes a node or a phrase, or drops a hole.
    Delete,
    /// Takes a node or a phrase out.
    Take,
    /// Puts a hole beside.
    Beside(Side),
    /// Copies a node, which is no edit.
    Copy,
    /// Hides what a comment heads, or shows it again, which is no edit.
    Elide,
}

/// Each word of a change of a program, with what it does.
pub(crate) static EDIT_WORDS: [(&[u8], EditWord); 9] = [
    (b"fill", EditWord::Fill),
    (b"enter", EditWord::Enter),
    (b"insert", EditWord::Insert),
    (b"delete", EditWord::Delete),
    (b"take", EditWord::Take),
    (b"before", EditWord::Beside(Side::Before)),
    (b"after", EditWord::Beside(Side::After)),
    (b"copy", EditWord::Copy),
    (b"elide", EditWord::Elide),
];
