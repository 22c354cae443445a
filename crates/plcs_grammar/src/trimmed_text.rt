//! Texts without the blanks at their ends.
ghost use Rattle.std.specs.Prelude.{◌≡◌, ◌≤◌, length};
ghost use Rattle.plcs_grammar.specs.Cuts.{blanks};
ghost use Rattle.plcs_grammar.specs.TrimmedText.{trimmed};

/// The text without the blanks at both its ends.
pub fn trimmed(text: &[u8]) -> &[u8]
    ensures { result.now ≡ trimmed text.now }
{
    let mut rest = &text[leading_blanks(text)..];
    while rest.ends_with(b" ") {
        rest = &rest[..rest.len() - 1];
    }
    rest
}

/// How many blanks the text begins with, all of which are trimmed.
fn leading_blanks(text: &[u8]) -> usize
    ensures counted { result ≡ blanks text.now }
    ensures within { result ≤ length text.now }
{
    let mut count = 0;
    while count < text.len() && text[count] == b' ' {
        count += 1;
    }
    count
}
