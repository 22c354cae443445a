//! The law of canonical texts that are shown, a function that does nothing and whose contract states it.
ghost use Rattle.plcs_grammar.specs.ShownText.{CanonicalTextsShow};

/// The law that the canonical text of a well-formed phrase isn't empty, has only bytes from 32 to 126, neither begins
/// nor ends with a blank, and isn't its category's placeholder.
pub fn canonical_texts_show()
    ensures { CanonicalTextsShow }
{}
