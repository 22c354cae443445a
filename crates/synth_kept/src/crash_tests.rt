//! Each image that a crash may leave of a session is gone on with as the keys would be.

use crate::images::Images;
use crate::playing::{DONE, NEVER, Played, Words};
use std::alloc::Global;
use std::test::Fail;

/// How many keys the session has.
const KEY_COUNT: usize = 16;

const KEYS: &[u8; KEY_COUNT] = b".put\r7\r12\r.quit\r";

/// How many calls on an empty disk come before the first key, how many come with each key, and how many come with
/// all keys. Then the journal is cleared, by two calls more.
const CALLS_BEFORE: usize = 3;

const CALLS_EACH: usize = 4;

const CALLS_OF_KEYS: usize = KEY_COUNT * CALLS_EACH + CALLS_BEFORE;

/// What comes of going on with each image.
#[derive(Clone, Copy, Debug)]
enum Walked {
    /// So many images were gone on with, each as the keys would be.
    Images(u64),
    /// An image that a crash leaves after so many calls isn't.
    OtherImage(usize),
    /// The session whose images they are doesn't end well, or makes another count of calls.
    OtherSession(usize),
    OutOfMemory,
}

#[test]
fn each_image_shows_the_keys_that_were_acted_on(rt: HostRuntime) -> Result<(), Fail> {
    let walked = walk_new(rt.alloc());
    assert!(rt; matches!(walked, Walked::Images(501..)), "{walked:?}");
    Ok(())
}

/// A session, the one that goes on with an image of it, and what is compared.
#[derive(Drop)]
struct Walk {
    whole: Played,
    behind: Played,
    images: Images,
    /// The screens of the first keys, of none to all.
    screens: Vec<Vec<u8>>,
}

/// Goes on with each image.
fn walk_new(alloc: Global) -> Walked {
    let mut walk = Walk {
        whole: Played::none(alloc),
        behind: Played::none(alloc),
        images: Images::none(alloc),
        screens: Vec::new(alloc),
    };
    walk_all(alloc, &mut walk).unwrap_or(Walked::OutOfMemory)
}

/// Plays the session, and goes on with each image.
fn walk_all(alloc: Global, walk: &mut Walk) -> Option<Walked> {
    walk.whole.take_words(alloc, Words::Small)?;
    walk.behind.take_words(alloc, Words::Small)?;
    find_screens(alloc, &mut walk.behind, &mut walk.screens)?;
    walk.whole.play(alloc, KEYS, NEVER, NEVER)?;
    let calls = walk.whole.disk.done().len();
    if walk.whole.status != DONE || calls != CALLS_OF_KEYS + 2 {
        return Some(Walked::OtherSession(calls));
    }
    walk_moments(alloc, walk, calls)
}

/// Finds the screens of the first keys of the session, of none to all, as they would be without a crash.
fn find_screens(alloc: Global, played: &mut Played, screens: &mut Vec<Vec<u8>>) -> Option<()> {
    for count in 0..=KEY_COUNT {
        played.find_wanted(alloc, &KEYS[..count])?;
        screens.push(played.wanted().to_vec(alloc).ok()?).ok()?;
    }
    Some(())
}

/// Goes on with each image that a crash leaves after none to all of these calls.
fn walk_moments(alloc: Global, walk: &mut Walk, calls: usize) -> Option<Walked> {
    let mut seen = 0u64;
    for moment in 0..=calls {
        match images_shown(alloc, walk, moment)? {
            Some(more) => seen = seen.saturating_add(more),
            None => return Some(Walked::OtherImage(moment)),
        }
    }
    Some(Walked::Images(seen))
}

/// How many images a crash may leave after so many calls, where each is gone on with as the keys would be.
fn images_shown(alloc: Global, walk: &mut Walk, moment: usize) -> Option<Option<u64>> {
    let calls = walk.whole.disk.done();
    walk.images.find(alloc, &calls[..moment.min(calls.len())])?;
    let mut seen = 0u64;
    for image in &walk.images.all {
        go_on(alloc, &mut walk.behind, image.as_slice())?;
        if !is_shown(&walk.behind, walk.screens.as_slice(), moment) {
            return Some(None);
        }
        seen = seen.saturating_add(1);
    }
    Some(Some(seen))
}

/// Goes on with an image, without new keys.
fn go_on(alloc: Global, behind: &mut Played, image: &[u8]) -> Option<()> {
    behind.take_image(alloc, image)?;
    behind.play(alloc, b"", NEVER, NEVER)
}

/// Whether the session that goes on with an image after so many calls shows the keys that were acted on before, or
/// these and the next one; once the journal is being cleared, no key or all.
fn is_shown(behind: &Played, screens: &[Vec<u8>], moment: usize) -> bool {
    let (one, other) = key_counts(moment);
    behind.status == DONE && (is_screen(behind, screens, one) || is_screen(behind, screens, other))
}

/// The two counts of keys of which one is shown where the session goes on with an image that a crash leaves
/// after so many calls.
fn key_counts(moment: usize) -> (usize, usize) {
    if moment > CALLS_OF_KEYS {
        return (0, KEY_COUNT);
    }
    let least = moment.saturating_sub(CALLS_BEFORE) / CALLS_EACH;
    (least, least + 1)
}

/// Whether the session that goes on with an image that a crash left wrote the screens of so many keys.
fn is_screen(behind: &Played, screens: &[Vec<u8>], count: usize) -> bool {
    match screens.get(count) {
        Some(bytes) => bytes.as_slice() == behind.written(),
        None => false,
    }
}
