//! What stops a run at a node: a phrase that is missing or marked.
ghost use Rattle.std.specs.Prelude.{◌≡◌, ◌<◌, is_none, is_some, length, option_map, take};
ghost use Rattle.std.specs.FinMap.{get};
ghost use Rattle.template_tree.specs.Checks.Mention.{phrase_at};
ghost use Rattle.template_tree.specs.Programs.PlainPhrasePlace.{plain_phrase_place};
ghost use Rattle.plcs_code.specs.Pieces.{has_empty, has_marked_part, suspension};
ghost use Rattle.plcs_code.specs.PlainInstr.{plain_instr};
ghost use Rattle.plcs_code.specs.Private.PlainHalt.{plain_halt};

use crate::instr::Instr;
use plcs_base::{Marked, PhraseAt};
use template_tree::{Node, PhrasePlace};

/// What stops a run at a node, in place of a piece of its code.
#[derive(Clone, Copy)]
pub(crate) enum Halt {
    /// A phrase isn't there yet.
    Placeholder,
    /// A phrase is marked.
    Marked,
}

impl Halt {
    /// The instruction that stops the run.
    pub(crate) fn instr(self) -> Instr
        ensures { plain_instr result ≡ plain_halt self }
    {
        match self {
            Halt::Placeholder => Instr::SuspendPlaceholder,
            Halt::Marked => Instr::SuspendMarked,
        }
    }
}

/// What stops a run that needs all parts of the node: one that is empty, or else one that is marked.
pub(crate) fn suspension<M: Marked>(node: &Node, marks: &M) -> Option<Halt>
    requires few { length node.now.label.parts < 256 }
    ensures { option_map plain_halt result ≡ suspension (M.marks marks.now) node.now.label.slot node.now.label.parts }
{
    if has_empty(node) {
        return Some(Halt::Placeholder);
    }
    if has_marked_part(node, marks) {
        return Some(Halt::Marked);
    }
    None
}

/// What stops a run that needs the first part of the node alone.
pub(crate) fn first_suspension<M: Marked>(node: &Node, marks: &M) -> Option<Halt>
    ensures { option_map plain_halt result ≡ suspension (M.marks marks.now) node.now.label.slot
        (take 1 node.now.label.parts) }
{
    let Some(place) = node.part(0) else {
        return None;
    };
    let PhrasePlace::Filled(_) = place else {
        return Some(Halt::Placeholder);
    };
    if is_marked(node, 0, marks) {
        return Some(Halt::Marked);
    }
    None
}

/// Whether one of the parts of the node is empty.
fn has_empty(node: &Node) -> bool
    requires few { length node.now.label.parts < 256 }
    ensures { result ≡ has_empty node.now.label.parts }
{
    let mut part = 0;
    while let Some(place) = node.part(part) {
        if is_empty(place) {
            return true;
        }
        part += 1;
    }
    false
}

/// Whether nothing stands in a part, so that a run stops at it.
fn is_empty(place: &PhrasePlace) -> bool
    ensures { result ≡ is_none (plain_phrase_place place.now) }
{
    match place {
        PhrasePlace::Empty => true,
        PhrasePlace::Filled(_) => false,
    }
}

/// Whether one of the parts of the node is marked.
fn has_marked_part<M: Marked>(node: &Node, marks: &M) -> bool
    requires few { length node.now.label.parts < 256 }
    ensures { result ≡ has_marked_part (M.marks marks.now) node.now.label.slot 0 node.now.label.parts }
{
    let mut part = 0;
    while let Some(_place) = node.part(part) {
        if is_marked(node, part, marks) {
            return true;
        }
        part += 1;
    }
    false
}

/// Whether what stands in the part of the node is marked.
fn is_marked<M: Marked>(node: &Node, part: u8, marks: &M) -> bool
    ensures { result ≡ is_some (get (M.marks marks.now) (phrase_at node.now.label.slot part)) }
{
    let slot = node.slot();
    marks.mark(PhraseAt { slot, part }).is_some()
}
