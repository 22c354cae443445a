//! Listings of which one line is damaged.

use crate::listing::{Reading, reading_of};
use case_script::Told;
use file_store::FileRefusal;
use std::alloc::Global;

/// What befalls one line of a text.
#[derive(Clone, Copy)]
enum Damage {
    /// This stands in its place.
    Replaced(&'static [u8]),
    /// This stands before it, and that in place of its line end.
    Between(&'static [u8], &'static [u8]),
    /// So many of its first bytes are missing.
    WithoutFirst(usize),
    /// Its last byte is missing.
    WithoutLast,
    /// It stands there twice.
    Doubled,
    /// Its line end is missing, and all that stands behind it.
    Ended,
}

/// The word for each damage, and whether no listing has a line that is damaged so.
static DAMAGES: [(&str, Damage, bool); 20] = [
    ("dropped", Damage::Replaced(b""), false),
    ("doubled", Damage::Doubled, false),
    ("deeper", Damage::Between(b"  ", b"\n"), false),
    ("shallower", Damage::WithoutFirst(2), false),
    ("statement", Damage::Replaced(b"  {statement}\n"), false),
    (
        "statement_before",
        Damage::Between(b"  {statement}\n", b"\n"),
        false,
    ),
    ("declaration", Damage::Replaced(b"  {declaration}\n"), false),
    ("procedure", Damage::Replaced(b"{procedure}\n"), false),
    ("else", Damage::Replaced(b"  ELSE\n"), false),
    ("end", Damage::Replaced(b"END;\n"), false),
    ("blank_before", Damage::Between(b" ", b"\n"), true),
    ("blank_behind", Damage::Between(b"", b" \n"), true),
    ("tab_before", Damage::Between(b"\t", b"\n"), true),
    ("return_behind", Damage::Between(b"", b"\r\n"), true),
    ("without_first", Damage::WithoutFirst(1), true),
    ("without_last", Damage::WithoutLast, true),
    ("emptied", Damage::Replaced(b"\n"), true),
    ("points", Damage::Replaced(b"  ...\n"), true),
    ("joined", Damage::Between(b"", b""), true),
    ("ended", Damage::Ended, true),
];

/// Tells of each of these damages what the listing is read as where it befalls one line, each line in turn.
pub(crate) fn play(text: &[u8], words: &[Vec<u8>], told: &mut Told) -> Option<()> {
    let listing = str::from_utf8(text).ok()?;
    let mut damaged = Vec::new(told.alloc());
    let played = play_each(listing, words, &mut damaged, told);
    drop(damaged);
    played
}

/// Tells what the listing is read as by damaged texts that are made one after the other.
fn play_each(
    listing: &str,
    words: &[Vec<u8>],
    damaged: &mut Vec<u8>,
    told: &mut Told,
) -> Option<()> {
    for (name, damage, is_no_line) in &DAMAGES {
        if are_with(words, name.as_bytes()) {
            told.text(name);
            let lines = lines_answered(told.alloc(), listing, *damage, *is_no_line, damaged)?;
            tell_rule(lines, *is_no_line, told);
        }
    }
    Some(())
}

/// Whether the word of a damage is among these.
fn are_with(words: &[Vec<u8>], word: &[u8]) -> bool {
    for other in words {
        if other.as_slice() == word {
            return true;
        }
    }
    false
}

/// Tells behind the name of a damage how many lines it befell, if each of the texts is read as may be.
fn tell_rule(lines: Option<u32>, is_no_line: bool, told: &mut Told) {
    told.text(", ");
    told.value(&lines.unwrap_or(0));
    told.text(" lines: ");
    told.line(match (lines, is_no_line) {
        (None, _) => "a damaged text is read otherwise",
        (_, true) => "each damaged text goes wrong at that line",
        (_, false) => {
            "each damaged text is read as its own listing or goes wrong at that line or behind it"
        }
    });
}

/// How many lines the listing has, if each text in which one of them is damaged is answered as may be.
fn lines_answered(
    alloc: Global,
    listing: &str,
    damage: Damage,
    is_no_line: bool,
    damaged: &mut Vec<u8>,
) -> Option<Option<u32>> {
    let mut lines = 0u32;
    for (k, _) in listing.lines().enumerate() {
        damage_line(listing, k, damage, damaged)?;
        lines = lines.saturating_add(1);
        if !is_answer(alloc, damaged.as_slice(), lines, is_no_line) {
            return Some(None);
        }
    }
    Some(Some(lines))
}

/// Makes the text the listing with the line of this number damaged, from 0.
fn damage_line(listing: &str, number: usize, damage: Damage, text: &mut Vec<u8>) -> Option<()> {
    text.clear();
    for (k, line) in listing.lines().enumerate() {
        if k != number {
            push_line(text, line.as_bytes())?;
        } else {
            push_damaged(text, line.as_bytes(), damage)?;
            if matches!(damage, Damage::Ended) {
                break;
            }
        }
    }
    Some(())
}

/// Puts the line of a listing behind the text, damaged so.
fn push_damaged(text: &mut Vec<u8>, line: &[u8], damage: Damage) -> Option<()> {
    match damage {
        Damage::Replaced(other) => push(text, other),
        Damage::Between(before, behind) => {
            push(text, before)?;
            push(text, line)?;
            push(text, behind)
        }
        Damage::WithoutFirst(count) => push_line(text, &line[count.min(line.len())..]),
        Damage::WithoutLast => push_line(text, &line[..line.len().saturating_sub(1)]),
        Damage::Doubled => {
            push_line(text, line)?;
            push_line(text, line)
        }
        Damage::Ended => push(text, line),
    }
}

/// Puts a line of the listing of which one is damaged, with its end, behind the text.
fn push_line(text: &mut Vec<u8>, line: &[u8]) -> Option<()> {
    push(text, line)?;
    push(text, b"\n")
}

/// Puts the bytes behind the text of which one line is damaged.
fn push(text: &mut Vec<u8>, bytes: &[u8]) -> Option<()> {
    text.extend_from_slice(bytes).ok()
}

/// Whether the answer to a listing with the line of this number damaged, from 1, may be: what is read is
/// listed again to the same bytes, and what is refused goes wrong at that line or behind it; at that line,
/// where no listing has it.
fn is_answer(alloc: Global, text: &[u8], number: u32, is_no_line: bool) -> bool {
    match reading_of(alloc, text) {
        Reading::Same(_) => !is_no_line,
        Reading::Refused(FileRefusal::NotAListing(line)) => {
            line == number || line > number && !is_no_line
        }
        _ => false,
    }
}
