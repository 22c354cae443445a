//! The parts of a line that is read, each a phrase or a placeholder, and where they end.
ghost use Rattle.std.specs.Prelude.{◌≡◌, ◌≢◌, ◌&&◌, ◌∷◌, ◌++◌, ℕ, List, [], false, MatchOption, Option, bytes_eq, length, map};
ghost use Rattle.std.specs.Bool.{Decides};
ghost use Rattle.plcs_grammar.specs.Canon.{Canon};
ghost use Rattle.plcs_grammar.specs.Placeholder.{placeholder};
ghost use Rattle.plcs_grammar.specs.PlainPhrase.{PlainPhrase, plain_phrase};
ghost use Rattle.plcs_grammar.specs.Template.{PlainSegment, plain_segment};
ghost use Rattle.template_tree.specs.Programs.PlainPhrasePlace.{plain_phrase_place};
ghost use Rattle.template_tree.specs.Programs.Program.{may_be_empty};
ghost use Rattle.file_store.specs.Private.Finds.{Finds};
ghost use Rattle.file_store.specs.Private.NextSegment.{IsNext};
ghost use Rattle.file_store.specs.Private.LineReading.{AreNoSegments, AreReadAfter, IsCut, IsFrontAfter, IsNoPart, IsPartAfter, IsPartText, IsSegmentsText, left_if, taken_off};

use crate::line_laws::line_laws;
use phrase_parser::{NotRead, PhraseFault, cut_at, parse};
use plcs_base::ByteOut;
use plcs_grammar::{Category, Phrase, Segment, show};
use std::alloc::Global;
use template_tree::{LONGEST_PHRASE, PhrasePlace};

/// Reads the parts of a line with these segments behind parts that were read before, if the text is such a line.
pub(crate) fn read_segments(
    alloc: Global,
    segments: &[Segment],
    text: &[u8],
    parts: &mut Vec<PhrasePlace>,
) -> Result<(), NotRead>
    requires cut { IsCut (map plain_segment segments.now) }
    ensures { Finds (λ _. AreReadAfter (map plain_segment segments.now) text.now
        (map plain_phrase_place parts.old.items) (map plain_phrase_place parts.new.items))
        (AreNoSegments (map plain_segment segments.now) text.now) result }
{
    match next_segment(segments) {
        Next::End => nothing_more(text),
        Next::Words(words, later) => {
            let Some(rest) = behind(text, words) else {
                return Err(NotRead::Refused);
            };
            read_segments(alloc, later, rest, parts)
        }
        Next::Part(category, later) => {
            let front = read_front(alloc, category, later, text, parts)?;
            read_segments(alloc, front.later, front.rest, parts)
        }
    }
}

/// What may come first of the segments of a line, with those behind it.
#[derive(Clone, Copy)]
pub(crate) enum Next<'a> {
    /// There are none.
    End,
    /// Words.
    Words(&'static [u8], &'a [Segment]),
    /// A part of the category.
    Part(Category, &'a [Segment]),
}

/// What comes first of these segments of a line.
fn next_segment(segments: &[Segment]) -> Next
    ensures { IsNext (map plain_segment segments.now) result }
{
    let Some((first, later)) = segments.split_first() else {
        return Next::End;
    };
    match first {
        Segment::Words(words) => Next::Words(*words, later),
        Segment::Part(category) => Next::Part(*category, later),
    }
}

/// Reads nothing more of a line whose parts are read, if its text is at its end.
fn nothing_more(text: &[u8]) -> Result<(), NotRead>
    ensures { Finds (λ _. text.now ≡ []) (text.now ≢ []) result }
{
    if is_empty(text) {
        return Ok(());
    }
    Err(NotRead::Refused)
}

/// Whether nothing is left of a line whose parts are read: of its segments, or of its text.
fn is_empty<T>(items: &[T]) -> bool
    ensures { Decides result (items.now ≡ []) }
{
    matches!(items, [])
}

/// What is left of a line once a part was read at the front of its text: behind that, and behind the words that end it.
#[derive(Clone, Copy)]
struct Front<'a, 'b> {
    later: &'b [Segment],
    rest: &'a [u8],
}

/// Reads the part at the front of the text, which ends where the first of these segments begins, behind parts that were
/// read before.
fn read_front<'a, 'b>(
    alloc: Global,
    category: Category,
    segments: &'b [Segment],
    text: &'a [u8],
    parts: &mut Vec<PhrasePlace>,
) -> Result<Front<'a, 'b>, NotRead>
    requires cut { IsCut (PlainSegment.part category ∷ map plain_segment segments.now) }
    ensures { Finds
        (λ front. IsFrontAfter category (map plain_segment segments.now) text.now
        (map plain_phrase_place parts.old.items) (map plain_phrase_place parts.new.items)
        (map plain_segment front.later.now) front.rest.now)
        (AreNoSegments (PlainSegment.part category ∷ map plain_segment segments.now) text.now) result }
{
    let Next::Words(words, later) = next_segment(segments) else {
        return Err(NotRead::Refused);
    };
    if !is_empty(later) {
        return read_divided(alloc, category, words, later, text, parts);
    }
    match read_last(alloc, category, words, text, parts) {
        Ok(()) => Ok(Front { later, rest: b"" }),
        Err(fault) => Err(fault),
    }
}

/// Reads the part before the last words of a line, behind parts that were read before.
fn read_last(
    alloc: Global,
    category: Category,
    words: &[u8],
    text: &[u8],
    parts: &mut Vec<PhrasePlace>,
) -> Result<(), NotRead>
    ensures { Finds (λ _. IsFrontAfter category (PlainSegment.words words.now ∷ []) text.now
        (map plain_phrase_place parts.old.items) (map plain_phrase_place parts.new.items) [] [])
        (AreNoSegments (PlainSegment.part category ∷ (PlainSegment.words words.now ∷ [])) text.now) result }
{
    let Some(part) = before(text, words) else {
        return Err(NotRead::Refused);
    };
    read_part(alloc, category, part, parts, 1)
}

/// Reads the part before words that divide it from what stands behind them, behind parts that were read before.
fn read_divided<'a, 'b>(
    alloc: Global,
    category: Category,
    words: &[u8],
    later: &'b [Segment],
    text: &'a [u8],
    parts: &mut Vec<PhrasePlace>,
) -> Result<Front<'a, 'b>, NotRead>
    requires some { map plain_segment later.now ≢ [] }
    requires cut { IsCut (PlainSegment.part category ∷ (PlainSegment.words words.now ∷ map plain_segment later.now)) }
    ensures { Finds
        (λ front. IsFrontAfter category (PlainSegment.words words.now ∷ map plain_segment later.now) text.now
        (map plain_phrase_place parts.old.items) (map plain_phrase_place parts.new.items)
        (map plain_segment front.later.now) front.rest.now)
        (AreNoSegments (PlainSegment.part category ∷ (PlainSegment.words words.now ∷ map plain_segment later.now))
        text.now) result }
{
    line_laws();
    let Some((part, rest)) = cut_at(text, words) else {
        return Err(NotRead::Refused);
    };
    match read_part(alloc, category, part, parts, later.len() / 2 + 1) {
        Ok(()) => Ok(Front { later, rest }),
        Err(fault) => Err(fault),
    }
}

/// Reads a part of the category behind parts that were read before: its placeholder or a phrase, if the text is one. So
/// many parts, this one among them, are still to come, and the room for them is taken at once.
fn read_part(
    alloc: Global,
    category: Category,
    text: &[u8],
    parts: &mut Vec<PhrasePlace>,
    count: usize,
) -> Result<(), NotRead>
    ensures { Finds (λ _. IsPartAfter category text.now (map plain_phrase_place parts.old.items)
        (map plain_phrase_place parts.new.items)) (IsNoPart category text.now) result }
{
    match read_place(alloc, category, text) {
        Ok(place) => put_place(parts, place, count),
        Err(fault) => Err(fault),
    }
}

/// Puts what stands in a part behind the parts that were read before. The room for so many parts is taken at once.
fn put_place(parts: &mut Vec<PhrasePlace>, place: PhrasePlace, count: usize) -> Result<(), NotRead>
    ensures { Finds (λ _. map plain_phrase_place parts.new.items
        ≡ map plain_phrase_place parts.old.items ++ plain_phrase_place place ∷ []) ⊥ result }
{
    match parts.reserve_exact(count) {
        Ok(()) => match parts.push(place) {
            Ok(()) => Ok(()),
            Err(refused) => {
                drop(refused);
                Err(NotRead::OutOfMemory)
            }
        },
        Err(_) => {
            drop(place);
            Err(NotRead::OutOfMemory)
        }
    }
}

/// Reads what stands in a part of the category: its placeholder or a phrase, if the text is one.
fn read_place(alloc: Global, category: Category, text: &[u8]) -> Result<PhrasePlace, NotRead>
    ensures { Finds (λ place. IsPartText category text.now (plain_phrase_place place))
        (IsNoPart category text.now) result }
{
    if is_placeholder(category, text) {
        return Ok(PhrasePlace::Empty);
    }
    if text.len() > LONGEST_PHRASE as usize {
        return Err(NotRead::Refused);
    }
    let phrase = match parse(alloc, category, text) {
        Ok(phrase) => phrase,
        Err(PhraseFault::OutOfMemory) => return Err(NotRead::OutOfMemory),
        Err(_) => return Err(NotRead::Refused),
    };
    if !is_shown_as(&phrase, text) {
        let_go(phrase);
        return Err(NotRead::Refused);
    }
    Ok(PhrasePlace::Filled(phrase))
}

/// Lets a phrase go whose canonical text isn't that of its part. A function clears the room of all its values whenever
/// it begins, and letting a phrase go has a value for each part that it may have, so that is done in a function of its
/// own.
#[inline(never)]
fn let_go(_phrase: Phrase) {}

/// Whether the text is the placeholder of a part that may be empty.
fn is_placeholder(category: Category, text: &[u8]) -> bool
    ensures { result ≡ (may_be_empty category && bytes_eq text.now (placeholder category)) }
{
    category != Category::Assignment && text == category.placeholder()
}

/// Whether the text of a part is the canonical text of the phrase that it was read as: it is compared with each byte as
/// that is put.
fn is_shown_as(phrase: &Phrase, text: &[u8]) -> bool
    ensures { Decides result (Canon (plain_phrase phrase.now) ≡ text.now) }
{
    let mut out = Awaited {
        left: text,
        same: true,
    };
    show(phrase, &mut out);
    if out.same {
        return is_empty(out.left);
    }
    false
}

/// A sink that compares the canonical text that is put with the text of the part, of which this is left as long as they
/// are the same.
#[derive(Drop)]
struct Awaited<'a> {
    left: &'a [u8],
    same: bool,
}

impl ByteOut for Awaited<'_> {
    ghost puts = { λ before byte after. left_if after.same after.left.now ≡
        taken_off byte (left_if before.same before.left.now) };

    fn put(&mut self, byte: u8) {
        match self.left.split_first() {
            Some((first, rest)) if *first == byte => self.left = rest,
            _ => self.same = false,
        }
    }
}

/// What is left of the text of a line that is read, behind the words where a part of it ends, if it begins with
/// them.
pub(crate) fn behind<'a>(text: &'a [u8], words: &[u8]) -> Option<&'a [u8]>
    ensures { MatchOption result ((rest : List ℕ) → text.now ≢ words.now ++ rest)
        (λ rest. text.now ≡ words.now ++ rest.now) }
{
    text.strip_prefix(words)
}

/// What stands before the words that end a part in the text of a line, if it ends with them.
fn before<'a>(text: &'a [u8], words: &[u8]) -> Option<&'a [u8]>
    ensures { MatchOption result ((front : List ℕ) → text.now ≢ front ++ words.now)
        (λ front. text.now ≡ front.now ++ words.now) }
{
    text.strip_suffix(words)
}
