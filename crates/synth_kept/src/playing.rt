//! Sessions over a source, a sink, files and a disk in memory.

use crate::kept::synth_kept;
use crate::status::KeptStatus;
use key_journal::{Disk, MemDisk};
use plcs_base::Counts;
use std::alloc::Global;
use std::mem;
use synth_outside::{MemFiles, MemSink, MemSource};
use synth_top::{Status, synth};

/// The words of a played session that ask for a small screen.
static SMALL: [&str; 4] = ["--rows", "12", "--cols", "40"];

/// A word that asks for a number, and none behind it.
static LACKING: [&str; 1] = ["--rows"];

/// No call of a played session has this number: they are counted from 1.
pub const NEVER: u64 = 0;

/// How a session ends that the source's end ends, or a key.
pub const DONE: KeptStatus = KeptStatus::Run(Status::Done);

/// The words of a session in memory.
#[derive(Clone, Copy)]
pub enum Words {
    /// Those that ask for a small screen.
    Small,
    /// Such as aren't of the command.
    Lacking,
}

/// What a played session ended with, what it wrote, and its disk.
#[derive(Drop)]
pub struct Played {
    words: Vec<String>,
    pub status: KeptStatus,
    pub disk: MemDisk,
    screen: MemSink,
    wanted: MemSink,
}

impl Played {
    /// No session was played yet, and the next one is played over an empty disk in memory of which no call
    /// fails.
    pub fn none(alloc: Global) -> Played {
        Played {
            words: Vec::new(alloc),
            status: DONE,
            disk: MemDisk::new(alloc, Vec::new(alloc)),
            screen: MemSink::new(alloc, Vec::new(alloc)),
            wanted: MemSink::new(alloc, Vec::new(alloc)),
        }
    }

    /// Has the next session played over an empty disk in memory, one call of which fails.
    pub fn take_disk(&mut self, alloc: Global, failing_call: u64) -> Option<()> {
        self.disk = MemDisk::new(alloc, [failing_call].to_vec(alloc).ok()?);
        Some(())
    }

    /// Has the next session played over a disk in memory that a crash left so.
    pub fn take_image(&mut self, alloc: Global, image: &[u8]) -> Option<()> {
        self.disk = disk_of(alloc, image)?;
        Some(())
    }

    /// Takes these words for the next session that is played over a disk in memory.
    pub fn take_words(&mut self, alloc: Global, words: Words) -> Option<()> {
        match words {
            Words::Small => self.take_texts(alloc, SMALL.as_slice()),
            Words::Lacking => self.take_texts(alloc, LACKING.as_slice()),
        }
    }

    /// Takes these texts as the words for the next session that is played over a disk in memory.
    fn take_texts(&mut self, alloc: Global, texts: &[&str]) -> Option<()> {
        self.words.clear();
        for text in texts {
            self.words.push(String::from_str(alloc, text).ok()?).ok()?;
        }
        Some(())
    }

    /// Plays a session of these keys on the words and over the disk at hand, with one call of the source and one of
    /// the sink that fail.
    pub fn play(&mut self, alloc: Global, keys: &[u8], read: u64, write: u64) -> Option<()> {
        self.screen = MemSink::new(alloc, [write].to_vec(alloc).ok()?);
        let keys = source_of(alloc, keys, read)?;
        self.play_source(alloc, keys);
        Some(())
    }

    /// Plays a session of the keys of this source over the sink and the disk in memory.
    fn play_source(&mut self, alloc: Global, keys: MemSource) {
        let disk = mem::replace(&mut self.disk, MemDisk::new(alloc, Vec::new(alloc)));
        let (status, _, disk) = synth_kept(
            alloc,
            self.words.as_slice(),
            keys,
            &mut self.screen,
            &mut MemFiles::new(alloc, Vec::new(alloc)),
            disk,
            &mut Counts::default(),
        );
        self.status = status;
        self.disk = disk;
    }

    /// Plays the editor without a journal over these keys, to find what a session over a disk in memory is to
    /// write on its sink where it acts on them: what that writes for them.
    pub fn find_wanted(&mut self, alloc: Global, keys: &[u8]) -> Option<()> {
        self.wanted = MemSink::new(alloc, Vec::new(alloc));
        let mut keys = source_of(alloc, keys, NEVER)?;
        let _ = synth(
            alloc,
            self.words.as_slice(),
            &mut keys,
            &mut self.wanted,
            &mut MemFiles::new(alloc, Vec::new(alloc)),
            &mut Counts::default(),
        );
        Some(())
    }

    /// What a session over a disk in memory is to write on its sink, as it was found last.
    pub fn wanted(&self) -> &[u8] {
        self.wanted.bytes()
    }

    /// All bytes that the sink of the played session took.
    pub fn written(&self) -> &[u8] {
        self.screen.bytes()
    }
}

/// A disk in memory for a session that is played, as a crash left it.
fn disk_of(alloc: Global, image: &[u8]) -> Option<MemDisk> {
    let mut disk = MemDisk::new(alloc, Vec::new(alloc));
    disk.write_at(0, image).ok()?;
    disk.sync().ok()?;
    Some(disk)
}

/// A source of these keys, one call of which fails, for a session over a disk in memory, or for one without a
/// journal.
fn source_of(alloc: Global, keys: &[u8], failing: u64) -> Option<MemSource> {
    let keys = keys.to_vec(alloc).ok()?;
    Some(MemSource::new(keys, [failing].to_vec(alloc).ok()?))
}
