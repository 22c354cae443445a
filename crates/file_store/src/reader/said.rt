//! What a line of a listing says, as it was read.

use plcs_grammar::NodeKind;
use std::vec::Vec;
use template_tree::PhrasePlace;

/// A line of a listing as it was read: its level, and what it says.
#[derive(Drop)]
pub(crate) struct Said {
    pub(crate) level: usize,
    pub(crate) saying: Saying,
}

/// What a line of a listing says, wherever it stands.
#[derive(Drop)]
pub(crate) enum Saying {
    /// It is the first line of a node with these parts; an IF is told as one with an ELSE.
    Head(NodeKind, Vec<PhrasePlace>),
    /// It is the line before a section.
    Lead,
    /// It is the last line of a node.
    Last,
}
