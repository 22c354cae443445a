//! The phrases in filled parts of nodes.
ghost use Rattle.std.specs.Prelude.{◌≡◌, option_map};
ghost use Rattle.plcs_grammar.specs.PlainPhrase.{plain_phrase};
ghost use Rattle.template_tree.specs.Programs.Part.{part_at};

use crate::node::Node;
use crate::phrase_place::PhrasePlace;
use plcs_grammar::Phrase;

/// The phrase in the filled part of this number of the node, counted from 0; `None` where there is no such
/// part, or an empty one.
pub fn phrase_in(node: &Node, part: u8) -> Option<&Phrase>
    ensures { option_map (λ phrase. plain_phrase phrase.now) result ≡ part_at node.now.label.parts part }
{
    match node.part(part) {
        Some(PhrasePlace::Filled(phrase)) => Some(phrase),
        _ => None,
    }
}
