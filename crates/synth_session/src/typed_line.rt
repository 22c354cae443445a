//! The typed line, the keys that change it, and the phrase at the cursor, which Tab takes into it.
ghost use Rattle.std.specs.Prelude.{◌≡◌, ◌≤◌, ◌<◌, length, option_map, IfErr, IfNone, IfOk, IfSome, None};
ghost use Rattle.plcs_grammar.specs.Canon.{Canon};
ghost use Rattle.plcs_grammar.specs.PlainPhrase.{plain_phrase};
ghost use Rattle.template_tree.specs.Programs.PlainTree.{roomless_tree};
ghost use Rattle.template_tree.specs.Positions.Stop.{plain_stop};
ghost use Rattle.template_tree.specs.Programs.Tree.{IsTree};
ghost use Rattle.synth_session.specs.KeyOutcome.{acceptance_outcome, refusal_outcome};
ghost use Rattle.synth_session.specs.PlainSession.{PlainSession};
ghost use Rattle.synth_session.specs.Private.MemorylessKey.{HasOutcome};
ghost use Rattle.synth_session.specs.SessionView.{IsReadyForKey, plain_session};
ghost use Rattle.synth_session.specs.TypedLine.{char_typed, cursor_phrase, last_erased, phrase_typed, text_typed};

use crate::answer::{Answer, Refusal};
use crate::session::Session;
use arrayvec::ArrayVec;
use plcs_base::{ByteOut, Work};
use plcs_grammar::{Phrase, show, shown_len};
use screen_window::cursor_part;
use template_tree::{PhrasePlace, Stop, Tree, room_is_not_shown};

/// How many bytes the typed line holds.
pub const LINE_LIMIT: usize = 200;

impl<W: Work> Session<W> {
    /// Appends a printable byte to the typed line.
    pub(crate) fn type_char(&mut self, byte: u8) -> Answer
        requires { IsReadyForKey self.old }
        ensures { HasOutcome (char_typed (plain_session self.old) byte) self.old self.new result }
    {
        if self.typed.is_full() {
            return self.refuse(Refusal::PhraseFull);
        }
        self.typed.push(byte);
        self.accept()
    }

    /// Takes the last byte of the typed line back.
    pub(crate) fn erase(&mut self) -> Answer
        requires { IsReadyForKey self.old }
        ensures { HasOutcome (last_erased (plain_session self.old)) self.old self.new result }
    {
        if self.typed.pop().is_none() {
            return self.refuse(Refusal::NotHere);
        }
        self.accept()
    }

    /// Does what Tab asks for: takes the text of the phrase at the cursor into the empty line.
    pub(crate) fn type_phrase(&mut self) -> Answer
        requires { IsReadyForKey self.old }
        ensures { HasOutcome (phrase_typed (plain_session self.old)) self.old self.new result }
    {
        if !self.typed.is_empty() {
            return self.refuse(Refusal::NotHere);
        }
        match text_at(&self.program.tree, &self.stop) {
            Ok(text) => {
                self.typed = text;
                self.accept()
            }
            Err(why) => self.refuse(why),
        }
    }
}

/// The phrase at a stop, as Tab takes it into the typed line: the one in the part at which the stop is, or of
/// the assignment at which it is.
#[tactic(auto, unfolding(crate::specs::TypedLine::cursor_phrase))]
pub(crate) fn phrase_at<'a>(tree: &'a Tree, stop: &Stop) -> Option<&'a Phrase>
    requires { IsTree tree.now }
    ensures { option_map (λ phrase. plain_phrase phrase.now) result
        ≡ cursor_phrase (roomless_tree tree.now) (plain_stop stop.now) }
{
    room_is_not_shown();
    let node = tree.node(&stop.path)?;
    match node.part(cursor_part(node.kind(), stop.part)?) {
        Some(PhrasePlace::Filled(phrase)) => Some(phrase),
        _ => None,
    }
}

/// The text that Tab takes into the typed line for the phrase at the stop, or why there is none.
fn text_at(tree: &Tree, at: &Stop) -> Result<ArrayVec<u8, LINE_LIMIT>, Refusal>
    requires { IsTree tree.now }
    ensures text { IfOk result (λ text. (s : PlainSession)
        → text_typed s (cursor_phrase (roomless_tree tree.now) (plain_stop at.now))
        ≡ acceptance_outcome (record s { typed = text.items })) }
    ensures refused { IfErr result (λ why. (s : PlainSession)
        → text_typed s (cursor_phrase (roomless_tree tree.now) (plain_stop at.now)) ≡ refusal_outcome s why) }
{
    match phrase_at(tree, at) {
        Some(phrase) => match line_text(phrase) {
            Some(text) => Ok(text),
            None => Err(Refusal::PhraseFull),
        },
        None => Err(Refusal::NotHere),
    }
}

/// The canonical text of a phrase as a typed line, or `None` where it is too long.
fn line_text(phrase: &Phrase) -> Option<ArrayVec<u8, LINE_LIMIT>>
    ensures text { IfSome result (λ text. text.items ≡ Canon (plain_phrase phrase.now)) }
    ensures fits { IfSome result (λ _. length (Canon (plain_phrase phrase.now)) ≤ LINE_LIMIT) }
    ensures long { IfNone result (LINE_LIMIT < length (Canon (plain_phrase phrase.now))) }
{
    if shown_len(phrase) as usize > LINE_LIMIT {
        return None;
    }
    let mut text = LineText {
        bytes: ArrayVec::new(),
    };
    show(phrase, &mut text);
    Some(text.bytes)
}

/// A text that is put into a typed line, as far as that has room.
#[derive(Drop)]
pub struct LineText {
    bytes: ArrayVec<u8, LINE_LIMIT>,
}

impl ByteOut for LineText {
    ghost use Rattle.synth_session.specs.Private.LineText.{PutsInLine};

    ghost puts = { PutsInLine };

    fn put(&mut self, byte: u8) {
        if !self.bytes.is_full() {
            self.bytes.push(byte);
        }
    }
}
