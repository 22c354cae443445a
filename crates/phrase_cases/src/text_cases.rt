//! Cases on texts that are parsed, shown, copied and compared, and on lines that are cut.
use crate::grammar_cases::{category_of, integer_of};
use crate::parts::put_parts;
use case_script::Told;
use phrase_parser::{PhraseFault, cut_at, parse};
use plcs_base::ByteOut;
use plcs_grammar::{
    Category, Expr, Phrase, copy_phrase, put_decimal, same_phrase, show, shown_len,
};
use std::alloc::Global;

/// How many bytes the canonical text of a phrase has at most of which the answer tells the bytes.
const LONGEST_TOLD: usize = 1000;

/// Answers a case on texts: what the text reads as in the category.
pub fn put_reading(category: &[u8], text: &[u8], told: &mut Told) -> Option<()> {
    let category = category_of(category, told)?;
    match parsed(told.alloc(), category, text)? {
        Ok(phrase) => put_phrase(category, &phrase, told),
        Err(fault) => told.value(&fault),
    }
    Some(())
}

/// In a case on a text that is parsed, what the parser answers, unless the text is too long for it to be asked.
fn parsed(alloc: Global, category: Category, text: &[u8]) -> Option<Result<Phrase, PhraseFault>> {
    if text.len() < 4_000_000_000 {
        Some(parse(alloc, category, text))
    } else {
        None
    }
}

/// Answers a case on texts: the phrase, and whether its canonical text reads as it again.
fn put_phrase(category: Category, phrase: &Phrase, told: &mut Told) {
    let text = shown(told.alloc(), phrase);
    told.text("Ok ");
    put_shown(phrase, text.as_bytes(), told);
    if phrase.category() != category {
        told.text(" OF ANOTHER CATEGORY");
    }
    if !is_read_again(told.alloc(), phrase, text.as_bytes()) {
        told.text(" READ AGAIN AS ANOTHER");
    }
}

/// The canonical text of the phrase that a case on texts has.
fn shown(alloc: Global, phrase: &Phrase) -> Told {
    let mut text = Told::new(alloc);
    show(phrase, &mut text);
    text
}

/// The phrase's canonical text and its parts; or the length alone where that text is long. What is said
/// of its length and of its copy has to fit.
fn put_shown(phrase: &Phrase, text: &[u8], told: &mut Told) {
    if text.len() <= LONGEST_TOLD {
        told.word(text);
        told.put(b' ');
        put_parts(phrase, told);
    } else {
        put_decimal(shown_len(phrase), told);
        told.text(" bytes");
    }
    if shown_len(phrase) as usize != text.len() {
        told.text(" OF ANOTHER LENGTH");
    }
    if !is_copied(told.alloc(), phrase, text) {
        told.text(" COPIED AS ANOTHER");
    }
}

/// Whether a copy of the phrase is the same phrase and has the canonical text.
fn is_copied(alloc: Global, phrase: &Phrase, text: &[u8]) -> bool {
    match copy_phrase(alloc, phrase) {
        Ok(copy) => same_phrase(phrase, &copy) && shown(alloc, &copy).as_bytes() == text,
        Err(_) => false,
    }
}

/// Whether, in a case on texts that are shown, the text of a phrase is parsed as the same phrase, of which the
/// same is shown.
fn is_read_again(alloc: Global, phrase: &Phrase, text: &[u8]) -> bool {
    match parsed(alloc, phrase.category(), text) {
        Some(Ok(again)) => same_phrase(phrase, &again) && shown(alloc, &again).as_bytes() == text,
        _ => false,
    }
}

/// Answers a case on texts that are shown: an expression that is this number, also a negative one, as no text reads.
pub fn put_number_shown(word: &[u8], told: &mut Told) -> Option<()> {
    let phrase = Phrase::Expression(Expr::Number(integer_of(word)?));
    let text = shown(told.alloc(), &phrase);
    put_shown(&phrase, text.as_bytes(), told);
    Some(())
}

/// Answers a case on phrases that are compared, each given by its category and a text of it: a line for each, with
/// `+` for each that is the same as it and `-` for each that isn't.
pub fn put_comparison(words: &[Vec<u8>], told: &mut Told) -> Option<()> {
    let phrases = phrases_of(words, told)?;
    for (number, one) in phrases.iter().enumerate() {
        if number > 0 {
            told.put(b'\n');
        }
        for other in &phrases {
            told.put(if same_phrase(one, other) { b'+' } else { b'-' });
        }
    }
    Some(())
}

/// The phrases of categories and texts that are compared, which the words are in turn.
fn phrases_of(words: &[Vec<u8>], told: &Told) -> Option<Vec<Phrase>> {
    let mut phrases = Vec::new(told.alloc());
    let mut category = None;
    for word in words {
        match category {
            None => category = Some(category_of(word, told)?),
            Some(known) => {
                let phrase = parsed(told.alloc(), known, word)?.ok()?;
                phrases.push(phrase).ok()?;
                category = None;
            }
        }
    }
    if category.is_none() {
        Some(phrases)
    } else {
        None
    }
}

/// Answers a case on lines that are cut: what stands before and behind the first divider outside of quotes.
pub fn put_cut(text: &[u8], divider: &[u8], told: &mut Told) -> Option<()> {
    match cut_at(text, divider) {
        Some((before, behind)) => {
            told.word(before);
            told.put(b' ');
            told.word(behind);
        }
        None => told.text("None"),
    }
    Some(())
}
