//! Cases of sessions pressed key by key.

use crate::asking::{Asked, ask};
use crate::scene::Scene;
use case_script::meaning;
use file_store::FileRefusal;
use phrase_parser::PhraseFault;
use std::alloc::Global;
use synth_session::{ClipRefusal, Refusal};
use template_tree::TreeFault;

/// `from KEYS`: a session over a new program after these keys. It answers what the last of them answers, and
/// how many slots are live then.
pub fn from(alloc: Global, scene: &mut Scene, keys: &[u8]) -> Option<()> {
    scene.keys.clear();
    on(alloc, scene, keys)
}

/// `on KEYS`: the answer to the last key pressed in a session, and its live slots, after the keys at hand and
/// then these.
pub fn on(alloc: Global, scene: &mut Scene, keys: &[u8]) -> Option<()> {
    scene.keys.extend_from_slice(keys).ok()?;
    ask(alloc, scene, Asked::Answer, &[])
}

/// Refusals that are shown in a session, and the words that name them.
static REFUSALS: [(&[u8], Refusal); 25] = [
    (b"UnknownCommand", Refusal::UnknownCommand),
    (b"NotHere", Refusal::NotHere),
    (b"Syntax", Refusal::Phrase(PhraseFault::Syntax(0))),
    (
        b"NumberTooLarge",
        Refusal::Phrase(PhraseFault::NumberTooLarge(199)),
    ),
    (
        b"PhraseTooDeep",
        Refusal::Phrase(PhraseFault::TooDeep(65_535)),
    ),
    (b"PhraseMemory", Refusal::Phrase(PhraseFault::OutOfMemory)),
    (b"NoClip", Refusal::Clip(ClipRefusal::NoClip)),
    (b"ClipsFull", Refusal::Clip(ClipRefusal::Full)),
    (b"NoFile", Refusal::File(FileRefusal::NoFile)),
    (b"FileFault", Refusal::File(FileRefusal::FileFault)),
    (
        b"NotAListing",
        Refusal::File(FileRefusal::NotAListing(4_294_967_295)),
    ),
    (b"FileTooDeep", Refusal::File(FileRefusal::TooDeep)),
    (b"FileTooLarge", Refusal::File(FileRefusal::TooLarge)),
    (b"FileTooLong", Refusal::File(FileRefusal::TooLong)),
    (b"TreeTooDeep", Refusal::Tree(TreeFault::TooDeep)),
    (b"TreeTooLarge", Refusal::Tree(TreeFault::TooLarge)),
    (b"SlotsUsedUp", Refusal::Tree(TreeFault::SlotsUsedUp)),
    (b"WrongArgument", Refusal::WrongArgument),
    (b"PhraseFull", Refusal::PhraseFull),
    (b"FloatNotThere", Refusal::FloatNotThere),
    (b"AtEdge", Refusal::AtEdge),
    (b"NoRun", Refusal::NoRun),
    (b"RunEnded", Refusal::RunEnded),
    (b"NoHistory", Refusal::NoHistory),
    (b"NothingToUndo", Refusal::NothingToUndo),
];

/// `tell REFUSAL`: what painting writes once a session, in which the keys at hand were pressed key by key,
/// shows this refusal.
pub fn tell(alloc: Global, scene: &mut Scene, word: &[u8]) -> Option<()> {
    ask(alloc, scene, Asked::Message(meaning(&REFUSALS, word)?), &[])
}
