//! The clips in the order in which their names came.
ghost use Rattle.std.specs.Prelude.{◌≡◌, ◌+◌, ◌<◌, ◌≤◌, true, false, not, [], length, is_some, option_map, IfErr, IfOk, IfSome, IsOk, OnErr, OnOk};
ghost use Rattle.clip_store.specs.PlainFragment.{IsFragment, plain_fragment, slots_of};
ghost use Rattle.clip_store.specs.PlainClips.{clip_named, slots_held, with_clip, without_name};
ghost use Rattle.clip_store.specs.ClipLimit.{AreClips, IsClip, IsClipFault, has_room, is_full, most_clip_slots};

use crate::fragment::Fragment;
use crate::limit::{MOST_CLIP_SLOTS, MOST_CLIPS};
use indexmap::IndexMap;
use plcs_base::{Name, OutOfMemory};
use std::alloc::Global;
use std::marker::Model;

/// Why a fragment isn't put under a name among the clips.
#[derive(Clone, Copy, Debug, PartialEq, Eq)]
pub enum ClipFault {
    /// There would be more than 64 names, or more than 20,000 slots in all.
    Full,
    /// Memory ran out.
    OutOfMemory,
}

/// The clips: fragments under their names, which contracts see as a list of pairs in order, with how
/// many new names they have room for.
#[derive(Drop)]
pub struct Clips {
    fragments: IndexMap<Name, Fragment>,
    slots: u32,
}

impl Model for Clips {
    ghost use Rattle.clip_store.specs.PlainClips.{PlainClips};
    ghost use Rattle.clip_store.specs.Private.ClipsCode.{clips_code};

    ghost Value = { PlainClips };

    ghost coded = { clips_code };

    ghost use Rattle.clip_store.specs.Private.ClipsView.{seen, IsKept};

    ghost view = { seen };

    ghost invariant = { IsKept };
}

impl Clips {
    /// No clips. It takes no memory yet, though its answer allows for that.
    pub fn new(alloc: Global) -> Result<Clips, OutOfMemory>
        ensures { IfOk result (λ clips. clips.pairs ≡ []) }
    {
        Ok(Clips {
            fragments: IndexMap::new(alloc),
            slots: 0,
        })
    }

    /// Puts the fragment under the name and gives back the one that was there. A new name comes last,
    /// and one that is held keeps its place. What isn't taken is given back. The next `put` of a clip
    /// that was reserved takes no memory; no other is promised that.
    ///
    /// `Full` where 64 other names are held, or where the fragments would have more than 20,000 slots,
    /// the one that is replaced not counted.
    pub fn put(
        &mut self,
        name: Name,
        fragment: Fragment,
    ) -> Result<Option<Fragment>, (ClipFault, Fragment)>
        requires fragment { IsFragment (plain_fragment fragment) }
        ensures put { OnOk result (self.new.pairs ≡ with_clip name (plain_fragment fragment) self.old.pairs) }
        ensures replaced { IfOk result (λ old. option_map plain_fragment old ≡ clip_named name self.old.pairs) }
        ensures clip { IfOk result (λ old. IfSome old (λ fragment. IsClip (plain_fragment fragment))) }
        ensures fits { OnOk result (is_full name (slots_of (plain_fragment fragment)) self.old.pairs ≡ false) }
        ensures cause { IfErr result (λ refusal. IsClipFault refusal.0 name (slots_of (plain_fragment fragment))
            self.old) }
        ensures refused { IfErr result (λ refusal. (refusal.1 ≡ fragment) × (self.new.pairs ≡ self.old.pairs)) }
        ensures succeeds { is_full name (slots_of (plain_fragment fragment)) self.old.pairs ≡ false
            → has_room name self.old ≡ true → IsOk result }
        ensures room { self.old.spare ≤ self.new.spare + 1 }
        ensures room_stays { OnErr result (self.old.spare ≤ self.new.spare) }
    {
        let Some(slots) = fragment.slots_within_limit() else {
            return Err((ClipFault::Full, fragment));
        };
        if !self.would_hold(&name, slots) {
            return Err((ClipFault::Full, fragment));
        }
        let others = self.other_slots(&name);
        match self.fragments.insert(name, fragment) {
            Ok(old) => {
                self.slots = others + slots;
                Ok(old)
            }
            Err(refused) => {
                let (_, fragment) = refused.value;
                Err((ClipFault::OutOfMemory, fragment))
            }
        }
    }

    /// The fragment that the clips have under the name, or `None` where the name isn't held. It takes no memory.
    pub fn get(&self, name: &Name) -> Option<&Fragment>
        ensures found { option_map (λ fragment. plain_fragment fragment.now) result
            ≡ clip_named name.now self.now.pairs }
        ensures clip { IfSome result (λ fragment. IsClip (plain_fragment fragment.now)) }
        ensures clips { AreClips self.now.pairs }
    {
        self.fragments.get(name)
    }
}

impl Clips {
    /// Whether the clips may take a fragment of so many slots under the name, as far as the limits go. It takes no
    /// memory.
    pub fn would_hold(&self, name: &Name, slots: u32) -> bool
        ensures { result ≡ not (is_full name.now slots self.now.pairs) }
    {
        self.other_names(name) < MOST_CLIPS && slots <= MOST_CLIP_SLOTS - self.other_slots(name)
    }

    /// Makes room for a clip, so that the next `put` under the name, and no other, takes no memory. Room for
    /// a new name is no name's own: a `put` under another new name takes it.
    pub fn reserve(&mut self, name: &Name) -> Result<(), OutOfMemory>
        ensures same { self.new.pairs ≡ self.old.pairs }
        ensures room { OnOk result (has_room name.now self.new ≡ true) }
        ensures had_room { has_room name.now self.old ≡ true → IsOk result }
        ensures kept_room { self.old.spare ≤ self.new.spare }
    {
        if self.get(name).is_some() {
            return Ok(());
        }
        self.fragments.reserve(1)?;
        Ok(())
    }

    /// How many of the clips have other names than this one.
    fn other_names(&self, name: &Name) -> usize
        ensures { result ≡ length (without_name name.now self.now.pairs) }
    {
        match self.get(name) {
            None => self.fragments.len(),
            Some(_) => self.fragments.len() - 1,
        }
    }

    /// How many slots the fragments of the clips under other names have.
    fn other_slots(&self, name: &Name) -> u32
        ensures sum { result ≡ slots_held (without_name name.now self.now.pairs) }
        ensures few { result ≤ most_clip_slots }
    {
        match self.get(name) {
            None => self.slots,
            Some(fragment) => self.slots - fragment.slots(),
        }
    }
}
