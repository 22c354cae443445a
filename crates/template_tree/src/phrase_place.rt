//! What stands in the parts of nodes.

use plcs_grammar::Phrase;

/// What stands in a part of a node: nothing, or a phrase.
#[derive(Drop)]
pub enum PhrasePlace {
    /// Nothing.
    Empty,
    /// A phrase.
    Filled(Phrase),
}
