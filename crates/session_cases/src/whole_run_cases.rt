//! Cases of whole runs: how they end, what they write, and what they leave of the keys.

use crate::pieces::{count_screens, first_pieces, tell_pieces};
use crate::playing::{Failing, NOTHING, Played, play, play_alone, play_on, push_word};
use crate::scene::Scene;
use case_script::{Told, meaning, number_of};
use std::alloc::Global;
use std::mem;
use synth_top::Status;

/// `run WORD.. keys KEYS`: a run over the files at hand. It answers the status, the pieces that were written,
/// and the keys that were not read.
pub fn run(alloc: Global, scene: &mut Scene, words: &[Vec<u8>]) -> Option<()> {
    let [words @ .., mark, keys] = words else {
        return None;
    };
    if mark.as_slice() != b"keys".as_slice() {
        return None;
    }
    take_words(alloc, scene, words)?;
    scene.given.clear();
    scene.given.extend_from_slice(keys.as_slice()).ok()?;
    play_taken(alloc, scene)?;
    tell_run(&mut scene.played, &mut scene.told);
    Some(())
}

/// Takes the words of a case of whole runs with which the editor is run, if they are texts.
fn take_words(alloc: Global, scene: &mut Scene, words: &[Vec<u8>]) -> Option<()> {
    scene.words.clear();
    for word in words {
        push_word(alloc, &mut scene.words, word.as_slice())?;
    }
    Some(())
}

/// Runs the editor for a case of whole runs on the words and the keys that were taken, over the files at hand.
fn play_taken(alloc: Global, scene: &mut Scene) -> Option<()> {
    let words = scene.words.as_slice();
    match play(
        alloc,
        words,
        scene.given.as_slice(),
        NOTHING,
        &mut scene.files,
    ) {
        Some(played) => {
            drop(mem::replace(&mut scene.played, played));
            Some(())
        }
        None => None,
    }
}

/// Tells how a whole run ended, what it wrote, and what it left of the keys.
fn tell_run(played: &mut Played, told: &mut Told) {
    told.value_line(&played.status);
    tell_pieces(played.written(), told);
    played.tell_left(told);
}

/// `fail read N`, `fail write N`: the last run once more, without files, where the N-th read of keys or write
/// of a screen fails. It answers the status, how many of that run's pieces were written, and the keys that
/// were not read.
pub fn fail(alloc: Global, scene: &mut Scene, kind: &[u8], number: &[u8]) -> Option<()> {
    let failing = failing_of(kind, number)?;
    let words = scene.words.as_slice();
    match play_alone(alloc, words, scene.given.as_slice(), failing) {
        Some(mut played) => {
            scene.told.value(&played.status);
            tell_behind(scene.played.written(), played.written(), &mut scene.told);
            played.tell_left(&mut scene.told);
            drop(played);
            Some(())
        }
        None => None,
    }
}

/// The words of what fails in a whole run.
static KINDS: [(&[u8], Kind); 2] = [(b"read", Kind::Read), (b"write", Kind::Write)];

/// What a case of whole runs has fail: a read of keys or a write of a screen.
#[derive(Clone, Copy)]
enum Kind {
    Read,
    Write,
}

/// For a case of whole runs, the read of keys or the write of a screen that is to fail, as these words say.
fn failing_of(kind: &[u8], number: &[u8]) -> Option<Failing> {
    let number = u64::from(number_of(number)?);
    match meaning(&KINDS, kind)? {
        Kind::Read => Some(Failing {
            read: number,
            write: 0,
        }),
        Kind::Write => Some(Failing {
            read: 0,
            write: number,
        }),
    }
}

/// Tells how many pieces of what a whole run writes the part is, if it is the first of them.
fn tell_behind(whole: &[u8], part: &[u8], told: &mut Told) {
    match first_pieces(whole, part) {
        Some(count) => {
            told.text(" behind ");
            told.value(&count);
            told.line(" pieces");
        }
        None => told.line(" behind other bytes"),
    }
}

/// What a case of whole runs asks of what last keys bring.
#[derive(Clone, Copy)]
enum Brought {
    /// How many screens are shown, and how many instructions fetched.
    Screens,
    /// How many instructions are emitted.
    Emitted,
    /// How many phrases are checked.
    Checked,
    /// What is written.
    Bytes,
}

/// `counted BEFORE LAST`: how many screens a whole run shows for the last keys behind those before, and how
/// many instructions it fetches, on a screen of 12 rows and 40 columns, where the keys end both times.
pub fn counted(alloc: Global, scene: &mut Scene, before: &[u8], last: &[u8]) -> Option<()> {
    tell_brought(alloc, Brought::Screens, before, last, &mut scene.told)
}

/// `emitted BEFORE LAST`: how many instructions a whole run emits for the last keys behind those before, on a screen
/// of 12 rows and 40 columns, where the keys end both times.
pub fn emitted(alloc: Global, scene: &mut Scene, before: &[u8], last: &[u8]) -> Option<()> {
    tell_brought(alloc, Brought::Emitted, before, last, &mut scene.told)
}

/// `checked BEFORE LAST`: how many phrases a whole run checks for the last keys behind those before, on a screen of 12
/// rows and 40 columns, where the keys end both times.
pub fn checked(alloc: Global, scene: &mut Scene, before: &[u8], last: &[u8]) -> Option<()> {
    tell_brought(alloc, Brought::Checked, before, last, &mut scene.told)
}

/// `bytes BEFORE LAST`: what the editor writes for the last keys behind those before, on a screen of 12 rows
/// and 40 columns, where the keys end both times.
pub fn bytes(alloc: Global, scene: &mut Scene, before: &[u8], last: &[u8]) -> Option<()> {
    tell_brought(alloc, Brought::Bytes, before, last, &mut scene.told)
}

/// Tells what the last keys bring in a whole run, after one on the keys before.
fn tell_brought(
    alloc: Global,
    asked: Brought,
    before: &[u8],
    last: &[u8],
    told: &mut Told,
) -> Option<()> {
    match play_on(alloc, b"12", b"40", before) {
        Some(first) => {
            let brought = tell_whole(alloc, asked, &first, [before, last], told);
            drop(first);
            brought
        }
        None => None,
    }
}

/// Tells what the last of these keys bring in a whole run, behind this one on the first of them.
fn tell_whole(
    alloc: Global,
    asked: Brought,
    first: &Played,
    keys: [&[u8]; 2],
    told: &mut Told,
) -> Option<()> {
    match play_both(alloc, keys) {
        Some(whole) => {
            let brought = tell_between(asked, first, &whole, told);
            drop(whole);
            brought
        }
        None => None,
    }
}

/// For a case of whole runs that tells what last keys bring, runs the editor once on the keys before and then
/// those.
fn play_both(alloc: Global, keys: [&[u8]; 2]) -> Option<Played> {
    match keys.concat(alloc) {
        Ok(keys) => {
            let played = play_on(alloc, b"12", b"40", keys.as_slice());
            drop(keys);
            played
        }
        Err(_) => None,
    }
}

/// Tells what a whole run brings more than the first one.
fn tell_between(asked: Brought, first: &Played, whole: &Played, told: &mut Told) -> Option<()> {
    match asked {
        Brought::Screens => {
            let written = written_behind(first, whole)?;
            told.value(&count_screens(written));
            told.text(" screens, ");
            tell_more(first.fetched(), whole.fetched(), " fetched", told);
        }
        Brought::Emitted => tell_more(first.emitted(), whole.emitted(), " emitted", told),
        Brought::Checked => tell_more(first.checked(), whole.checked(), " checked", told),
        Brought::Bytes => match written_behind(first, whole) {
            Some(bytes) => told.word_line(bytes),
            None => told.line("not written behind those"),
        },
    }
    Some(())
}

/// Tells how many more a whole run counts than the first one, and what it counts.
fn tell_more(first: u64, whole: u64, what: &str, told: &mut Told) {
    told.value(&whole.saturating_sub(first));
    told.line(what);
}

/// What the whole run wrote behind what the first one wrote, where both ended well.
fn written_behind<'a>(first: &Played, whole: &'a Played) -> Option<&'a [u8]> {
    if first.status != Status::Done || whole.status != Status::Done {
        return None;
    }
    whole.written().strip_prefix(first.written())
}
