//! What the words behind the name of a case say.
ghost use Rattle.std.specs.Prelude.{◌≤◌, IfSome};
ghost use Rattle.screen_window.specs.declared.limit.TheConstants.{FEWEST_COLS, FEWEST_ROWS, MOST_COLS, MOST_ROWS};

use case_script::number_of;
use plcs_base::{PhraseAt, Slot};
use screen_window::{FEWEST_COLS, FEWEST_ROWS, MOST_COLS, MOST_ROWS};

/// The word of this number behind the name of a case, counted from 0, or no bytes where there are fewer.
pub fn word_at(words: &[Vec<u8>], k: usize) -> &[u8] {
    match words.get(k) {
        Some(word) => word.as_slice(),
        None => &[],
    }
}

/// The number that the word of this number behind the name of a case is, if it is one.
pub fn number_at(words: &[Vec<u8>], k: usize) -> Option<u32> {
    number_of(word_at(words, k))
}

/// The slot and the part that the first two words behind the name of the case say.
pub fn phrase_at(words: &[Vec<u8>]) -> Option<PhraseAt> {
    let slot = number_at(words, 0)?;
    let part = number_at(words, 1)?;
    Some(PhraseAt {
        slot: Slot(slot),
        part: u8::try_from(part).ok()?,
    })
}

/// What the first two words behind the name of a case say as a size: rows and columns, where a screen has so many.
pub fn size_at(words: &[Vec<u8>]) -> Option<(u16, u16)>
    ensures least_rows { IfSome result (λ size. FEWEST_ROWS ≤ size.0) }
    ensures most_rows { IfSome result (λ size. size.0 ≤ MOST_ROWS) }
    ensures least_cols { IfSome result (λ size. FEWEST_COLS ≤ size.1) }
    ensures most_cols { IfSome result (λ size. size.1 ≤ MOST_COLS) }
{
    let rows = number_within(number_at(words, 0)?, FEWEST_ROWS, MOST_ROWS)?;
    let cols = number_within(number_at(words, 1)?, FEWEST_COLS, MOST_COLS)?;
    Some((rows, cols))
}

/// The number, which a word behind the name of a case says, if it is one from the least to the most.
fn number_within(number: u32, least: u16, most: u16) -> Option<u16>
    ensures least { IfSome result (λ number. least ≤ number) }
    ensures most { IfSome result (λ number. number ≤ most) }
{
    let number = u16::try_from(number).ok()?;
    if number < least || number > most {
        return None;
    }
    Some(number)
}
