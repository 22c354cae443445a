//! The commands of clips, `.copy`, `.cut` and `.insert`.
ghost use Rattle.std.specs.Prelude.{◌≡◌, ◌≤◌, false, true, not, if◌then◌else◌, IfErr, IfOk, IfSome, OnErr, OnOk, Option, Some, None, option_map, option_and_then};
ghost use Rattle.plcs_grammar.specs.PlainPhrase.{plain_phrase};
ghost use Rattle.template_tree.specs.Programs.PlainTree.{roomless_tree};
ghost use Rattle.template_tree.specs.Positions.Stop.{IsStop, plain_stop};
ghost use Rattle.template_tree.specs.Programs.Tree.{IsTree};
ghost use Rattle.clip_store.specs.ClipLimit.{has_room, is_full};
ghost use Rattle.clip_store.specs.PlainClips.{clip_named, kept_pairs, with_clip};
ghost use Rattle.clip_store.specs.PlainFragment.{IsFragment, PlainFragment, kept_fragment, plain_fragment, roomless_fragment, slots_of, whole_fragment};
ghost use Rattle.session_edit.specs.Here.{takes_at};
ghost use Rattle.synth_session.specs.ClipCommands.{clip_inserted, copied_to_clip, cut_to_clip, fragment_there, slots_there};
ghost use Rattle.synth_session.specs.KeyOutcome.{KeyOutcome, refusal_outcome};
ghost use Rattle.synth_session.specs.PlainSession.{PlainSession};
ghost use Rattle.synth_session.specs.TypedLine.{cursor_phrase};
ghost use Rattle.synth_session.specs.SessionView.{CountsOutcome, Does, IsReadyForKey, plain_session};

use crate::answer::{Answer, ClipRefusal, Refusal};
use crate::edit_commands::edit_refusal;
use crate::session::Session;
use crate::typed_line::phrase_at;
use clip_store::{Clips, Fragment, clips_are_kept_whole, room_is_not_clipped};
use edit_undo::undone_trees_check_alike;
use phrase_parser::reading_has_category;
use plcs_base::{Name, OutOfMemory, Work};
use plcs_grammar::{Phrase, copy_phrase};
use session_edit::{Edit, takes};
use std::alloc::Global;
use template_tree::{Stop, Tree, TreeFault, room_is_not_shown};
use tree_steps::{agreement_lasts, edits_follow};

impl<W: Work> Session<W> {
    /// Copies what stands at the cursor into the clip of the name.
    pub(crate) fn copy(&mut self, alloc: Global, name: &Name) -> Result<Answer, OutOfMemory>
        requires { IsReadyForKey self.old }
        ensures { Does true (copied_to_clip (plain_session self.old) name.now) self.old self.new result }
    {
        match fits_clip(&self.program.tree, &self.stop, &self.clips, name) {
            Ok(()) => match copy_out(alloc, &self.program.tree, &self.stop, &mut self.clips, name) {
                Ok(()) => Ok(self.accept_line()),
                Err(OutOfMemory) => Err(OutOfMemory),
            },
            Err(why) => Ok(self.refuse(why)),
        }
    }

    /// Takes what stands at the cursor out into the clip of the name.
    pub(crate) fn cut(
        &mut self,
        alloc: Global,
        name: &Name,
        work: &mut W,
    ) -> Result<Answer, OutOfMemory>
        requires session { IsReadyForKey self.old }
        ensures does { Does true (cut_to_clip (plain_session self.old) name.now) self.old self.new result }
        ensures counts { CountsOutcome (cut_to_clip (plain_session self.old) name.now)
            (W.counts work.old) (W.counts work.new) result }
    {
        room_is_not_shown();
        edits_follow();
        agreement_lasts();
        undone_trees_check_alike();
        match fits_clip(&self.program.tree, &self.stop, &self.clips, name) {
            Ok(()) => match copy_ready(
                alloc,
                &self.program.tree,
                &self.stop,
                &mut self.clips,
                name,
            ) {
                Ok(copy) => match self.keep_for_run(alloc) {
                    Ok(()) => match self.program.change(alloc, &self.stop, Edit::Take, work) {
                        Ok(applied) => {
                            keep(&mut self.clips, name, copy);
                            Ok(self.accept_edit(applied))
                        }
                        Err(fault) => {
                            drop(copy);
                            match fault {
                                TreeFault::OutOfMemory => Err(OutOfMemory),
                                _ => Ok(self.refuse(edit_refusal(fault))),
                            }
                        }
                    },
                    Err(OutOfMemory) => {
                        drop(copy);
                        Err(OutOfMemory)
                    }
                },
                Err(OutOfMemory) => Err(OutOfMemory),
            },
            Err(why) => Ok(self.refuse(why)),
        }
    }

    /// Inserts a copy of the clip of the name at the cursor.
    pub(crate) fn insert(
        &mut self,
        alloc: Global,
        name: &Name,
        work: &mut W,
    ) -> Result<Answer, OutOfMemory>
        requires session { IsReadyForKey self.old }
        ensures does { Does true (clip_inserted (plain_session self.old) name.now) self.old self.new result }
        ensures counts { CountsOutcome (clip_inserted (plain_session self.old) name.now)
            (W.counts work.old) (W.counts work.new) result }
    {
        match copy_of_clip(alloc, &self.clips, name) {
            Ok(Some(copy)) => self.edit(alloc, Edit::Insert(copy), work),
            Ok(None) => Ok(self.refuse(Refusal::Clip(ClipRefusal::NoClip))),
            Err(OutOfMemory) => Err(OutOfMemory),
        }
    }
}

/// Whether what stands at the stop can be taken out, and the clips have room for it under the name, or why not.
fn fits_clip(tree: &Tree, at: &Stop, clips: &Clips, name: &Name) -> Result<(), Refusal>
    requires tree { IsTree tree.now }
    requires stop { IsStop (roomless_tree tree.now).items (plain_stop at.now) }
    ensures takes { OnOk result (takes_at (roomless_tree tree.now) (plain_stop at.now) ≡ true) }
    ensures fits { OnOk result (is_full name.now (slots_there (roomless_tree tree.now) (plain_stop at.now))
        (kept_pairs clips.now.pairs) ≡ false) }
    ensures refused { IfErr result (λ why. (s : PlainSession) (fitting : KeyOutcome) →
        (if takes_at (roomless_tree tree.now) (plain_stop at.now)
        then (if is_full name.now (slots_there (roomless_tree tree.now) (plain_stop at.now)) (kept_pairs clips.now.pairs)
        then refusal_outcome s (Refusal.Clip ClipRefusal.Full) else fitting)
        else refusal_outcome s Refusal.NotHere) ≡ refusal_outcome s why) }
{
    if !takes(tree, at) {
        return Err(Refusal::NotHere);
    }
    let slots = slots_there(tree, at);
    if would_hold(clips, name, slots) {
        Ok(())
    } else {
        Err(Refusal::Clip(ClipRefusal::Full))
    }
}

/// Copies what stands at the stop into the clip of the name: it can be taken out, and the clips have room for it.
fn copy_out(
    alloc: Global,
    tree: &Tree,
    at: &Stop,
    clips: &mut Clips,
    name: &Name,
) -> Result<(), OutOfMemory>
    requires tree { IsTree tree.now }
    requires takes { takes_at (roomless_tree tree.now) (plain_stop at.now) ≡ true }
    requires fits { is_full name.now (slots_there (roomless_tree tree.now) (plain_stop at.now))
        (kept_pairs clips.old.pairs) ≡ false }
    ensures copied { OnOk result (Some (kept_pairs clips.new.pairs)
        ≡ option_map (λ copy. with_clip name.now copy (kept_pairs clips.old.pairs))
        (option_map whole_fragment (fragment_there (roomless_tree tree.now) (plain_stop at.now) at.now.part))) }
    ensures same { OnErr result (clips.new.pairs ≡ clips.old.pairs) }
{
    match clips.reserve(name) {
        Ok(()) => match copy_there(alloc, tree, at) {
            Ok(copy) => {
                keep(clips, name, copy);
                Ok(())
            }
            Err(OutOfMemory) => Err(OutOfMemory),
        },
        Err(OutOfMemory) => Err(OutOfMemory),
    }
}

/// The copy that `.cut` makes of what stands at the stop, from which it can be taken, where the clips got room for it
/// under the name.
fn copy_ready(
    alloc: Global,
    tree: &Tree,
    at: &Stop,
    clips: &mut Clips,
    name: &Name,
) -> Result<Fragment, OutOfMemory>
    requires tree { IsTree tree.now }
    requires taken { takes_at (roomless_tree tree.now) (plain_stop at.now) ≡ true }
    ensures copy { IfOk result (λ copy. Some (kept_fragment (plain_fragment copy))
        ≡ option_map whole_fragment (fragment_there (roomless_tree tree.now) (plain_stop at.now) at.now.part)) }
    ensures slots { IfOk result (λ copy.
        slots_of (plain_fragment copy) ≡ slots_there (roomless_tree tree.now) (plain_stop at.now)) }
    ensures sound { IfOk result (λ copy. IsFragment (plain_fragment copy)) }
    ensures room { OnOk result (has_room name.now clips.new ≡ true) }
    ensures same { clips.new.pairs ≡ clips.old.pairs }
{
    match copy_there(alloc, tree, at) {
        Ok(copy) => match clips.reserve(name) {
            Ok(()) => Ok(copy),
            Err(OutOfMemory) => {
                drop(copy);
                Err(OutOfMemory)
            }
        },
        Err(OutOfMemory) => Err(OutOfMemory),
    }
}

/// A copy of the clip of the name, as it is inserted, if there is one.
fn copy_of_clip(alloc: Global, clips: &Clips, name: &Name) -> Result<Option<Fragment>, OutOfMemory>
    ensures copy { IfOk result (λ copy. option_map (λ fragment. roomless_fragment (plain_fragment fragment)) copy
        ≡ clip_named name.now (kept_pairs clips.now.pairs)) }
    ensures sound { IfOk result (λ copy. IfSome copy (λ fragment. IsFragment (plain_fragment fragment))) }
{
    clips_are_kept_whole();
    match clips.get(name) {
        Some(clip) => match clip.copy(alloc) {
            Ok(copy) => Ok(Some(copy)),
            Err(OutOfMemory) => Err(OutOfMemory),
        },
        None => Ok(None),
    }
}

/// The copy that `.copy` and `.cut` make of what stands at the stop, from which it can be taken: nothing in it is
/// elided.
fn copy_there(alloc: Global, tree: &Tree, at: &Stop) -> Result<Fragment, OutOfMemory>
    requires tree { IsTree tree.now }
    requires taken { takes_at (roomless_tree tree.now) (plain_stop at.now) ≡ true }
    ensures copy { IfOk result (λ copy. Some (kept_fragment (plain_fragment copy))
        ≡ option_map whole_fragment (fragment_there (roomless_tree tree.now) (plain_stop at.now) at.now.part)) }
    ensures slots { IfOk result (λ copy.
        slots_of (plain_fragment copy) ≡ slots_there (roomless_tree tree.now) (plain_stop at.now)) }
    ensures sound { IfOk result (λ copy. IsFragment (plain_fragment copy)) }
{
    room_is_not_shown();
    room_is_not_clipped();
    clips_are_kept_whole();
    match at.part {
        None => match tree.copy_node(alloc, &at.path) {
            Ok(node) => Ok(Fragment::Node(node)),
            Err(fault) => match fault {
                TreeFault::OutOfMemory => Err(OutOfMemory),
                _ => unreachable!(),
            },
        },
        Some(_) => match copy_phrase_at(alloc, tree, at) {
            Ok(Some(phrase)) => Ok(Fragment::Phrase(phrase)),
            Ok(None) => unreachable!(),
            Err(OutOfMemory) => Err(OutOfMemory),
        },
    }
}

/// A copy of the phrase at the stop, as a clip takes it, if there is one.
fn copy_phrase_at(alloc: Global, tree: &Tree, at: &Stop) -> Result<Option<Phrase>, OutOfMemory>
    requires { IsTree tree.now }
    ensures copy { IfOk result (λ copy. option_map plain_phrase copy
        ≡ cursor_phrase (roomless_tree tree.now) (plain_stop at.now)) }
    ensures sound { IfOk result (λ copy.
        IfSome copy (λ phrase. IsFragment (PlainFragment.phrase (plain_phrase phrase)))) }
{
    room_is_not_shown();
    reading_has_category();
    match phrase_at(tree, at) {
        Some(phrase) => match copy_phrase(alloc, phrase) {
            Ok(copy) => Ok(Some(copy)),
            Err(OutOfMemory) => Err(OutOfMemory),
        },
        None => Ok(None),
    }
}

/// How many slots the fragment at the stop has that a clip would take.
fn slots_there(tree: &Tree, at: &Stop) -> u32
    requires { IsTree tree.now }
    ensures { result ≡ slots_there (roomless_tree tree.now) (plain_stop at.now) }
{
    room_is_not_shown();
    match at.part {
        None => match tree.slots_at(&at.path) {
            Some(slots) => slots,
            None => 0,
        },
        Some(_) => match phrase_at(tree, at) {
            Some(_) => 1,
            None => 0,
        },
    }
}

/// Whether the clips would hold a fragment of so many slots under the name of a `.copy` or `.cut`.
fn would_hold(clips: &Clips, name: &Name, slots: u32) -> bool
    ensures { result ≡ not (is_full name.now slots (kept_pairs clips.now.pairs)) }
{
    clips_are_kept_whole();
    clips.would_hold(name, slots)
}

/// What the commands `.copy` and `.cut` do with a fragment: it comes under the name, for which the clips have
/// room.
fn keep(clips: &mut Clips, name: &Name, fragment: Fragment)
    requires sound { IsFragment (plain_fragment fragment) }
    requires fits { is_full name.now (slots_of (plain_fragment fragment)) (kept_pairs clips.old.pairs) ≡ false }
    requires room { has_room name.now clips.old ≡ true }
    ensures { kept_pairs clips.new.pairs
        ≡ with_clip name.now (kept_fragment (plain_fragment fragment)) (kept_pairs clips.old.pairs) }
{
    clips_are_kept_whole();
    match clips.put(name.copy(), fragment) {
        Ok(before) => drop(before),
        Err(_) => unreachable!(),
    }
}
