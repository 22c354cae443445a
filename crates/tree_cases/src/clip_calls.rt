//! Cases of clips.
ghost use Rattle.std.specs.Prelude.{◌≤◌};
ghost use Rattle.clip_store.specs.PlainFragment.{IsFragment, plain_fragment, slots_of};

use crate::held_nodes::copy_of;
use crate::tell::tell_phrase;
use crate::words::phrase_of;
use case_script::{Told, number_of};
use clip_store::{Clips, Fragment};
use plcs_base::{ByteOut, Name};
use std::alloc::Global;
use std::mem;

/// What a case of clips may do with them.
#[derive(Clone, Copy)]
pub(crate) enum ClipCall {
    /// `no_clips`: clips with nothing in them.
    New,
    /// `put NAME HELD`: a copy of a node that is held comes under the name.
    Put,
    /// `put_phrase NAME CATEGORY TEXT`: so does the phrase of the text.
    PutPhrase,
    /// `get NAME`: what is under it.
    Get,
    /// `would_hold NAME SLOTS`: whether so many slots may come under it.
    WouldHold,
    /// `reserve NAME`: makes room for it.
    Reserve,
}

/// Plays a case of clips.
pub(crate) fn play(
    alloc: Global,
    clips: &mut Clips,
    held: &Clips,
    call: ClipCall,
    words: &[Vec<u8>],
    told: &mut Told,
) -> Option<()> {
    let Some((name, rest)) = words.split_first() else {
        return make_new(alloc, clips, call, told);
    };
    match (call, rest) {
        (ClipCall::Put, [other]) => put_copy(alloc, clips, held, name, other, told),
        (ClipCall::PutPhrase, [category, text]) => {
            put_phrase(alloc, clips, name, category, text, told)
        }
        (ClipCall::Get, []) => tell_clip(clips, name, told),
        (ClipCall::WouldHold, [slots]) => tell_would_hold(clips, name, slots, told),
        (ClipCall::Reserve, []) => reserve(clips, name, told),
        _ => None,
    }
}

/// Makes clips with nothing in them, where that is the call.
fn make_new(alloc: Global, clips: &mut Clips, call: ClipCall, told: &mut Told) -> Option<()> {
    let ClipCall::New = call else {
        return None;
    };
    match Clips::new(alloc) {
        Ok(new) => {
            drop(mem::replace(clips, new));
            told.line("Done");
            Some(())
        }
        Err(_) => None,
    }
}

/// Tells what clips have under the name.
fn tell_clip(clips: &Clips, name: &[u8], told: &mut Told) -> Option<()> {
    let name = Name::read(name)?;
    match clips.get(&name) {
        Some(fragment) => tell_fragment(fragment, told),
        None => told.text("None"),
    }
    told.put(b'\n');
    Some(())
}

/// Tells whether so many slots may come under the name among clips.
fn tell_would_hold(clips: &Clips, name: &[u8], slots: &[u8], told: &mut Told) -> Option<()> {
    let slots = number_of(slots)?;
    let name = Name::read(name)?;
    told.value_line(&clips.would_hold(&name, slots));
    Some(())
}

/// Makes room for the name among clips, and tells whether there is room.
fn reserve(clips: &mut Clips, name: &[u8], told: &mut Told) -> Option<()> {
    let name = Name::read(name)?;
    told.value_line(&clips.reserve(&name).is_ok());
    Some(())
}

/// Puts a copy of the node that is held under the other name among clips, and tells what comes of it.
fn put_copy(
    alloc: Global,
    clips: &mut Clips,
    held: &Clips,
    name: &[u8],
    other: &[u8],
    told: &mut Told,
) -> Option<()> {
    let name = Name::read(name)?;
    match copy_of(alloc, held, other) {
        Some(copy) => {
            put(clips, name, copy, told);
            Some(())
        }
        None => None,
    }
}

/// Puts the phrase of the text under the name among clips, and tells what comes of it.
fn put_phrase(
    alloc: Global,
    clips: &mut Clips,
    name: &[u8],
    category: &[u8],
    text: &[u8],
    told: &mut Told,
) -> Option<()> {
    let name = Name::read(name)?;
    match phrase_of(alloc, category, text) {
        Some(phrase) => {
            put(clips, name, Fragment::Phrase(phrase), told);
            Some(())
        }
        None => None,
    }
}

/// Answers a case of clips: puts the fragment under the name among them, and tells what was there before, or
/// why it isn't taken, and what comes back.
fn put(clips: &mut Clips, name: Name, fragment: Fragment, told: &mut Told)
    requires fragment { IsFragment (plain_fragment fragment) }
    requires few { slots_of (plain_fragment fragment) ≤ 4294967295 }
{
    match clips.put(name, fragment) {
        Ok(None) => told.text("put, None before"),
        Ok(Some(old)) => {
            told.text("put, before ");
            tell_fragment(&old, told);
            drop(old);
        }
        Err((fault, own)) => {
            told.value(&fault);
            told.text(", back ");
            tell_fragment(&own, told);
            drop(own);
        }
    }
    told.put(b'\n');
}

/// Tells a fragment of clips: how many slots a node has, or the text of a phrase.
fn tell_fragment(fragment: &Fragment, told: &mut Told)
    requires { slots_of (plain_fragment fragment.now) ≤ 4294967295 }
{
    match fragment {
        Fragment::Node(node) => {
            told.value(&node.kind());
            told.text(" of ");
            told.value(&fragment.slots());
            told.text(" slots");
        }
        Fragment::Phrase(phrase) => tell_phrase(phrase, told),
    }
}
