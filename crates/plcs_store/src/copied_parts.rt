//! The copied parts of a node.
ghost use Rattle.std.specs.Prelude.{◌≡◌, map};
ghost use Rattle.template_tree.specs.Programs.PlainPhrasePlace.{plain_phrase_place};

use std::marker::Model;
use template_tree::PhrasePlace;

/// The copied parts of a node, each of them a phrase or empty, which contracts see as a list.
#[derive(Drop)]
pub struct CopiedParts {
    places: Vec<PhrasePlace>,
}

impl Model for CopiedParts {
    ghost use Rattle.std.specs.Prelude.{List, Option, map};
    ghost use Rattle.plcs_grammar.specs.PlainPhrase.{PlainPhrase};
    ghost use Rattle.template_tree.specs.Programs.PlainPhrasePlace.{plain_phrase_place};
    ghost use Rattle.plcs_store.specs.Private.PartsCode.{parts_code};

    ghost Value = { List (Option PlainPhrase) };

    ghost coded = { parts_code };

    ghost view = { λ a. map plain_phrase_place a.places.items };
}

impl CopiedParts {
    /// These copied parts in order. It takes no memory.
    pub fn from_vec(places: Vec<PhrasePlace>) -> CopiedParts
        ensures { result ≡ map plain_phrase_place places.items }
    {
        CopiedParts { places }
    }

    /// Gives the copied parts back. It takes no memory.
    pub fn into_vec(self) -> Vec<PhrasePlace>
        ensures { map plain_phrase_place result.items ≡ self }
    {
        self.places
    }

    /// The copied parts in order.
    pub fn as_slice(&self) -> &[PhrasePlace]
        ensures { map plain_phrase_place result.now ≡ self.now }
    {
        self.places.as_slice()
    }
}
