//! A comment's text, which is no tokens.
ghost use Rattle.std.specs.Prelude.{◌≡◌, ◌<◌, ◌^◌, length, drop};
ghost use Rattle.plcs_grammar.specs.Comment.{comment_syntax, comment_offence};
ghost use Rattle.plcs_grammar.specs.declared.category.Category.TheVariants.{CommentText};
ghost use Rattle.phrase_parser.specs.Answers.{Answers};

use crate::fault::PhraseFault;
use plcs_base::is_printable;
use plcs_grammar::{Category, Phrase, trimmed};
use std::alloc::Global;

/// The phrase that the text of a comment is, without the blanks at both its ends.
pub fn comment(alloc: Global, text: &[u8]) -> Result<Phrase, PhraseFault>
    requires { length text.now < 2 ^ 32 }
    ensures says { Answers CommentText text.now result }
{
    match comment_syntax(text) {
        Some(place) => Err(PhraseFault::Syntax(place as u32)),
        None => Ok(Phrase::CommentText(trimmed(text).to_vec(alloc)?)),
    }
}

/// The place where the text is refused as a comment's, if it is: its end where it is blank, 0 for the
/// placeholder, else the first place at which a comment's end begins or a byte isn't printable.
fn comment_syntax(text: &[u8]) -> Option<usize>
    ensures { result ≡ comment_syntax text.now }
{
    let inner = trimmed(text);
    if inner.is_empty() {
        Some(text.len())
    } else if inner == Category::CommentText.placeholder() {
        Some(0)
    } else {
        comment_offence(text)
    }
}

/// The first place of a comment's text at which its end begins or a byte isn't printable.
fn comment_offence(text: &[u8]) -> Option<usize>
    ensures { result ≡ comment_offence 0 text.now }
{
    let mut place = 0;
    while place < text.len() {
        if !is_printable(text[place]) || text[place..].starts_with(b"*/") {
            return Some(place);
        }
        place += 1;
    }
    None
}
