//! Runs of the editor over a source, a sink and files in memory.

use case_script::Told;
use plcs_base::Counts;
use std::alloc::Global;
use synth_outside::{MemFiles, MemSink, MemSource, Source};
use synth_top::{Status, synth};

/// Which read of keys and which write of a screen fail in a run of the editor, counted from 1; 0 is none.
#[derive(Clone, Copy)]
pub struct Failing {
    pub read: u64,
    pub write: u64,
}

/// No read and no write of a run of the editor fails.
pub const NOTHING: Failing = Failing { read: 0, write: 0 };

/// What a run ended with, what it left unread, what it wrote, and what it counted.
#[derive(Drop)]
pub struct Played {
    pub status: Status,
    keys: MemSource,
    screen: MemSink,
    counts: Counts,
}

impl Played {
    /// A run of the editor with no keys that wrote nothing.
    pub fn none(alloc: Global) -> Played {
        Played {
            status: Status::Done,
            keys: MemSource::new(Vec::new(alloc), Vec::new(alloc)),
            screen: MemSink::new(alloc, Vec::new(alloc)),
            counts: Counts::default(),
        }
    }

    /// How many instructions were fetched in a run of the editor that was played in memory.
    pub fn fetched(&self) -> u64 {
        self.counts.fetched
    }

    /// How many instructions were emitted in a run of the editor that was played in memory.
    pub fn emitted(&self) -> u64 {
        self.counts.emitted
    }

    /// How many phrases were checked in a run of the editor that was played in memory.
    pub fn checked(&self) -> u64 {
        self.counts.checked
    }

    /// All bytes that the sink took in a run of the editor.
    pub fn written(&self) -> &[u8] {
        self.screen.bytes()
    }

    /// After a run of the editor over a source in memory, reads from that source, and tells the first 256 keys
    /// that are left there, if there are any. The read that is to fail may be the one that is made here, and
    /// then another one is made.
    pub fn tell_left(&mut self, told: &mut Told) {
        let mut buf = [0u8; 256];
        let count = match self.keys.read(&mut buf) {
            Ok(count) => count,
            Err(_) => self.keys.read(&mut buf).unwrap_or(0),
        };
        if count > 0 {
            told.text("left ");
            told.word_line(&buf[..count.min(256)]);
        }
    }
}

/// Runs the editor on these words and keys, over these files.
pub fn play(
    alloc: Global,
    words: &[String],
    keys: &[u8],
    failing: Failing,
    files: &mut MemFiles,
) -> Option<Played> {
    match source_of(alloc, keys, failing.read) {
        Some(keys) => play_from(alloc, words, keys, failing.write, files),
        None => None,
    }
}

/// Runs the editor on these words and the keys of the source, over these files, where a write of a screen fails.
fn play_from(
    alloc: Global,
    words: &[String],
    keys: MemSource,
    failing: u64,
    files: &mut MemFiles,
) -> Option<Played> {
    match [failing].to_vec(alloc) {
        Ok(fails) => Some(play_over(alloc, words, keys, MemSink::new(alloc, fails), files)),
        Err(_) => {
            drop(keys);
            None
        }
    }
}

/// Runs the editor on these words over the source of keys, the screen and the files.
fn play_over(
    alloc: Global,
    words: &[String],
    mut keys: MemSource,
    mut screen: MemSink,
    files: &mut MemFiles,
) -> Played {
    let mut counts = Counts::default();
    let status = synth(alloc, words, &mut keys, &mut screen, files, &mut counts);
    Played {
        status,
        keys,
        screen,
        counts,
    }
}

/// A source in memory of the keys of a run of the editor, one read of which fails.
fn source_of(alloc: Global, keys: &[u8], failing: u64) -> Option<MemSource> {
    match keys.to_vec(alloc) {
        Ok(keys) => match [failing].to_vec(alloc) {
            Ok(fails) => Some(MemSource::new(keys, fails)),
            Err(_) => {
                drop(keys);
                None
            }
        },
        Err(_) => None,
    }
}

/// Runs the editor on these words and keys, without files.
pub fn play_alone(
    alloc: Global,
    words: &[String],
    keys: &[u8],
    failing: Failing,
) -> Option<Played> {
    let mut files = MemFiles::new(alloc, Vec::new(alloc));
    let played = play(alloc, words, keys, failing, &mut files);
    drop(files);
    played
}

/// Runs the editor on these keys on a screen of this size, without files.
pub fn play_on(alloc: Global, rows: &[u8], cols: &[u8], keys: &[u8]) -> Option<Played> {
    match size_words(alloc, rows, cols) {
        Some(words) => {
            let played = play_alone(alloc, words.as_slice(), keys, NOTHING);
            drop(words);
            played
        }
        None => None,
    }
}

/// The words of a run of the editor that ask for a screen of this size.
pub fn size_words(alloc: Global, rows: &[u8], cols: &[u8]) -> Option<Vec<String>> {
    let mut texts = Vec::new(alloc);
    match push_size(alloc, &mut texts, rows, cols) {
        Some(()) => Some(texts),
        None => {
            drop(texts);
            None
        }
    }
}

/// Puts the words of a run of the editor in memory that ask for a screen of this size behind the others.
fn push_size(alloc: Global, texts: &mut Vec<String>, rows: &[u8], cols: &[u8]) -> Option<()> {
    for word in [b"--rows".as_slice(), rows, b"--cols", cols] {
        push_word(alloc, texts, word)?;
    }
    Some(())
}

/// Puts a word with which a run of the editor in memory is started behind the others, if it is a text.
pub fn push_word(alloc: Global, texts: &mut Vec<String>, word: &[u8]) -> Option<()> {
    let text = String::from_str(alloc, str::from_utf8(word).ok()?).ok()?;
    texts.push(text).ok()
}
