//! The phrases whose texts cases on a program give.
ghost use Rattle.std.specs.Prelude.{IfSome, Some};
ghost use Rattle.plcs_grammar.specs.PlainPhrase.{plain_phrase};
ghost use Rattle.template_tree.specs.Programs.Part.{IsPhrasePlace};

use phrase_parser::parse;
use plcs_grammar::{Category, Phrase, shown_len};
use std::alloc::Global;
use template_tree::LONGEST_PHRASE;

/// The phrase of the category whose text a case on a program gives, where it may stand in a part.
pub fn phrase_of(alloc: Global, category: Category, text: &[u8]) -> Option<Phrase>
    ensures { IfSome result (λ phrase. IsPhrasePlace (Some (plain_phrase phrase))) }
{
    if text.len() > 1000 {
        return None;
    }
    match parse(alloc, category, text) {
        Ok(phrase) => {
            if shown_len(&phrase) > LONGEST_PHRASE {
                drop(phrase);
                return None;
            }
            Some(phrase)
        }
        Err(_) => None,
    }
}
