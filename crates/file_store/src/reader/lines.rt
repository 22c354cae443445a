//! Whole lines of a listing: which line each is, and at which level.
ghost use Rattle.std.specs.Prelude.{◌≡◌, ◌≢◌, ◌≤◌, IfOk, length, ◌∷◌, ◌++◌, ℕ, List, MatchOption, map};
ghost use Rattle.std.specs.Bool.{Decides};
ghost use Rattle.plcs_grammar.specs.Template.{row_of};
ghost use Rattle.template_tree.specs.Programs.PlainPhrasePlace.{plain_phrase_place};
ghost use Rattle.file_store.specs.Private.Finds.{Finds};
ghost use Rattle.file_store.specs.Private.LineReading.{AreNoSegments, IsSegmentsText, OfEach, Says, SaysNothing, blank_bytes, from_byte, shapes};
ghost use Rattle.file_store.specs.Private.Reader as machine;
ghost use Rattle.file_store.specs.Private.Reader.{IsSaying, shape, text_of};
ghost use Rattle.file_store.specs.Private.Views.{said_of, saying_of};

use crate::line_laws::line_laws;
use crate::reader::filling::{LAST, LEAD};
use crate::reader::parts::{behind, read_segments};
use crate::reader::said::{Said, Saying};
use phrase_parser::NotRead;
use plcs_grammar::{NodeKind, Template};
use std::alloc::Global;
use template_tree::PhrasePlace;

/// Reads a whole line: its level, and which line it is, if some listing may have it.
pub(crate) fn read_line(alloc: Global, line: &[u8]) -> Result<Said, NotRead>
    ensures says { Finds (λ said. Says line.now (said_of said)) (SaysNothing line.now) result }
    ensures small { IfOk result (λ said. said.level ≤ length line.now) }
{
    line_laws();
    let (level, text) = unblanked(line);
    match read_saying(alloc, text) {
        Ok(saying) => Ok(Said { level, saying }),
        Err(fault) => Err(fault),
    }
}

/// The level that the blanks at the front of a listing's line tell, and what stands behind them.
#[tactic(auto, using(crate::proofs::LineTexts::next_level))]
fn unblanked(line: &[u8]) -> (usize, &[u8])
    ensures whole { line.now ≡ blank_bytes result.0 ++ result.1.now }
    ensures few { result.0 ≤ length line.now }
    ensures all { (rest : List ℕ) → result.1.now ≢ 32 ∷ (32 ∷ rest) }
{
    let mut level = 0;
    let mut rest = line;
    while let Some(more) = behind(rest, b"  ") {
        level += 1;
        rest = more;
    }
    (level, rest)
}

/// Reads which line the text behind the blanks of a whole line is.
fn read_saying(alloc: Global, text: &[u8]) -> Result<Saying, NotRead>
    ensures { Finds (λ saying. IsSaying (saying_of saying) × (text_of (saying_of saying) ≡ text.now))
        ((saying : machine.Saying) → IsSaying saying → text_of saying ≢ text.now) result }
{
    if is_same(text, LEAD) {
        return Ok(Saying::Lead);
    }
    if is_same(text, LAST) {
        return Ok(Saying::Last);
    }
    read_head(alloc, shapes_for(text), text)
}

/// Whether the text of a whole line is this one.
fn is_same(one: &[u8], other: &[u8]) -> bool
    ensures { Decides result (one.now ≡ other.now) }
{
    one == other
}

/// Reads a whole line as the first one of a node of one of these kinds, if it is such a line.
fn read_head(alloc: Global, kinds: &[NodeKind], text: &[u8]) -> Result<Saying, NotRead>
    requires shapes { OfEach (λ kind. shape kind ≡ kind) kinds.now }
    ensures { Finds (λ saying. IsSaying (saying_of saying) × (text_of (saying_of saying) ≡ text.now))
        (OfEach (λ kind. AreNoSegments (row_of kind).line text.now) kinds.now) result }
{
    let Some((kind, others)) = kinds.split_first() else {
        return Err(NotRead::Refused);
    };
    match read_parts(alloc, *kind, text) {
        Ok(parts) => Ok(Saying::Head(*kind, parts)),
        Err(NotRead::OutOfMemory) => Err(NotRead::OutOfMemory),
        Err(NotRead::Refused) => read_head(alloc, others, text),
    }
}

/// Reads a whole line of a listing as the first line of a node of the kind, if it is one: what stands in its
/// parts.
fn read_parts(alloc: Global, kind: NodeKind, text: &[u8]) -> Result<Vec<PhrasePlace>, NotRead>
    ensures { Finds (λ parts. IsSegmentsText (row_of kind).line text.now (map plain_phrase_place parts.items))
        (AreNoSegments (row_of kind).line text.now) result }
{
    let mut parts = Vec::new(alloc);
    match read_segments(alloc, kind.row().line, text, &mut parts) {
        Ok(()) => Ok(parts),
        Err(fault) => {
            drop(parts);
            Err(fault)
        }
    }
}

/// The kinds of nodes whose first line a whole line may be, as far as its first byte tells.
fn shapes_for(text: &[u8]) -> &'static [NodeKind]
    ensures shapes { OfEach (λ kind. shape kind ≡ kind) result.now }
    ensures others { OfEach (λ kind. AreNoSegments (row_of kind).line text.now) result.now
        → (kind : NodeKind) → shape kind ≡ kind → AreNoSegments (row_of kind).line text.now }
{
    match text.split_first() {
        Some((byte, _)) => shapes_from(*byte),
        None => &SHAPES,
    }
}

/// The kinds of nodes whose first line a whole line may be that begins with the byte: those whose line begins with it,
/// and then those whose line begins with a part.
fn shapes_from(byte: u8) -> &'static [NodeKind]
    ensures { result.now ≡ from_byte byte shapes }
{
    match byte {
        b'{' => &FROM_BRACE,
        b'm' => &FROM_M,
        b'D' => &FROM_D,
        b'I' => &FROM_I,
        b'G' => &FROM_G,
        b'P' => &FROM_P,
        b'C' => &FROM_C,
        b'R' => &FROM_R,
        b'/' => &FROM_SLASH,
        _ => &NAMED,
    }
}

/// The kinds of nodes as their first lines tell them, those first whose lines begin with words. What is found more
/// often comes first, so that fewer are tried.
pub(crate) const SHAPES: [NodeKind; 21] = [
    NodeKind::StatementHole,
    NodeKind::DeclarationHole,
    NodeKind::ProcedureHole,
    NodeKind::Main,
    NodeKind::Filled(Template::IfElse),
    NodeKind::Filled(Template::While),
    NodeKind::Filled(Template::Group),
    NodeKind::Filled(Template::Until),
    NodeKind::Filled(Template::For),
    NodeKind::Filled(Template::Get),
    NodeKind::Filled(Template::Put),
    NodeKind::Filled(Template::PutSkip),
    NodeKind::Filled(Template::Call),
    NodeKind::Filled(Template::Return),
    NodeKind::Filled(Template::Comment),
    NodeKind::Filled(Template::Fixed),
    NodeKind::Filled(Template::Bit),
    NodeKind::Filled(Template::Char),
    NodeKind::Assign,
    NodeKind::Filled(Template::ProcP),
    NodeKind::Filled(Template::Proc),
];

/// The kinds of nodes whose first lines begin with a part, so whatever the first byte of a line is.
const NAMED: [NodeKind; 3] = [
    NodeKind::Assign,
    NodeKind::Filled(Template::ProcP),
    NodeKind::Filled(Template::Proc),
];

/// The kinds of nodes whose first lines may begin with `{`, as those of holes do.
const FROM_BRACE: [NodeKind; 6] = [
    NodeKind::StatementHole,
    NodeKind::DeclarationHole,
    NodeKind::ProcedureHole,
    NodeKind::Assign,
    NodeKind::Filled(Template::ProcP),
    NodeKind::Filled(Template::Proc),
];

/// The kinds of nodes whose first lines may begin with `m`.
const FROM_M: [NodeKind; 4] = [
    NodeKind::Main,
    NodeKind::Assign,
    NodeKind::Filled(Template::ProcP),
    NodeKind::Filled(Template::Proc),
];

/// The kinds of nodes whose first lines may begin with `D`.
const FROM_D: [NodeKind; 10] = [
    NodeKind::Filled(Template::While),
    NodeKind::Filled(Template::Group),
    NodeKind::Filled(Template::Until),
    NodeKind::Filled(Template::For),
    NodeKind::Filled(Template::Fixed),
    NodeKind::Filled(Template::Bit),
    NodeKind::Filled(Template::Char),
    NodeKind::Assign,
    NodeKind::Filled(Template::ProcP),
    NodeKind::Filled(Template::Proc),
];

/// The kinds of nodes whose first lines may begin with `I`.
const FROM_I: [NodeKind; 4] = [
    NodeKind::Filled(Template::IfElse),
    NodeKind::Assign,
    NodeKind::Filled(Template::ProcP),
    NodeKind::Filled(Template::Proc),
];

/// The kinds of nodes whose first lines may begin with `G`.
const FROM_G: [NodeKind; 4] = [
    NodeKind::Filled(Template::Get),
    NodeKind::Assign,
    NodeKind::Filled(Template::ProcP),
    NodeKind::Filled(Template::Proc),
];

/// The kinds of nodes whose first lines may begin with `P`.
const FROM_P: [NodeKind; 5] = [
    NodeKind::Filled(Template::Put),
    NodeKind::Filled(Template::PutSkip),
    NodeKind::Assign,
    NodeKind::Filled(Template::ProcP),
    NodeKind::Filled(Template::Proc),
];

/// The kinds of nodes whose first lines may begin with `C`.
const FROM_C: [NodeKind; 4] = [
    NodeKind::Filled(Template::Call),
    NodeKind::Assign,
    NodeKind::Filled(Template::ProcP),
    NodeKind::Filled(Template::Proc),
];

/// The kinds of nodes whose first lines may begin with `R`.
const FROM_R: [NodeKind; 4] = [
    NodeKind::Filled(Template::Return),
    NodeKind::Assign,
    NodeKind::Filled(Template::ProcP),
    NodeKind::Filled(Template::Proc),
];

/// The kinds of nodes whose first lines may begin with `/`.
const FROM_SLASH: [NodeKind; 4] = [
    NodeKind::Filled(Template::Comment),
    NodeKind::Assign,
    NodeKind::Filled(Template::ProcP),
    NodeKind::Filled(Template::Proc),
];
