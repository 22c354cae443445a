//! The fragment that a clip holds: a node or a phrase.
ghost use Rattle.std.specs.Prelude.{◌≡◌, ◌<◌, ◌≤◌, IfNone, IfOk, IfSome};
ghost use Rattle.clip_store.specs.ClipLimit.{most_clip_slots};
ghost use Rattle.clip_store.specs.PlainFragment.{IsFragment, plain_fragment, roomless_fragment, slots_of, whole_fragment};

use crate::limit::MOST_CLIP_SLOTS;
use plcs_base::OutOfMemory;
use plcs_grammar::{Phrase, copy_phrase};
use std::alloc::Global;
use template_tree::Node;

/// A fragment of a program, which was cut or copied.
#[derive(Drop)]
pub enum Fragment {
    /// A node with what stands inside it.
    Node(Node),
    /// A phrase.
    Phrase(Phrase),
}

impl Fragment {
    /// An equal fragment, slots and all; nothing in it is elided.
    pub fn copy(&self, alloc: Global) -> Result<Fragment, OutOfMemory>
        ensures copied { IfOk result (λ copy. roomless_fragment (plain_fragment copy)
            ≡ whole_fragment (roomless_fragment (plain_fragment self.now))) }
        ensures sound { IfOk result (λ copy. IsFragment (plain_fragment self.now) → IsFragment (plain_fragment copy)) }
        ensures slots { IfOk result (λ copy. slots_of (plain_fragment copy) ≡ slots_of (plain_fragment self.now)) }
    {
        match self {
            Fragment::Node(node) => Ok(Fragment::Node(node.copy(alloc)?)),
            Fragment::Phrase(phrase) => Ok(Fragment::Phrase(copy_phrase(alloc, phrase)?)),
        }
    }

    /// How many slots a fragment counts as: those of its nodes, and one for a phrase. It takes no
    /// memory.
    pub fn slots(&self) -> u32
        requires few { slots_of (plain_fragment self.now) ≤ 4294967295 }
        ensures { result ≡ slots_of (plain_fragment self.now) }
    {
        match self {
            Fragment::Node(node) => node.slots(),
            Fragment::Phrase(_) => 1,
        }
    }

    /// How many slots the fragment of a clip counts as, a node or a phrase, or `None` where they are more than
    /// all clips may have.
    pub(crate) fn slots_within_limit(&self) -> Option<u32>
        ensures within { IfSome result (λ slots. slots ≡ slots_of (plain_fragment self.now)) }
        ensures over { IfNone result (most_clip_slots < slots_of (plain_fragment self.now)) }
    {
        match self {
            Fragment::Node(node) => node.slots_within(MOST_CLIP_SLOTS),
            Fragment::Phrase(_) => Some(1),
        }
    }
}
