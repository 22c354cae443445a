//! The keys that are recovered after a crash.

use crate::images::Images;
use crate::sessions::{empty_disk, session, source_of};
use case_script::Told;
use key_journal::{Disk, DiskCall, MemDisk};
use std::alloc::Global;
use std::mem;
use synth_outside::MemSource;

/// What cases of the journal find of a crash: the keys that are recovered after it.
#[derive(Drop)]
pub(crate) struct Crash {
    alloc: Global,
    images: Images,
    /// The disk of the session whose calls are cut off.
    whole: MemDisk,
    /// The keys that the last session gave.
    given: Vec<u8>,
    /// The keys that were recovered, each once.
    recovered: Vec<Vec<u8>>,
}

impl Crash {
    /// For cases of the journal, no keys yet that were recovered after a crash.
    pub(crate) fn new(alloc: Global) -> Self {
        Crash {
            alloc,
            images: Images::new(alloc),
            whole: empty_disk(alloc),
            given: Vec::new(alloc),
            recovered: Vec::new(alloc),
        }
    }

    /// Tells the keys that are recovered from the images that a crash may leave after these calls, each once.
    pub(crate) fn tell_recovered(&mut self, calls: &[DiskCall], told: &mut Told) -> Option<()> {
        self.recovered.clear();
        self.images.find(calls)?;
        for image in self.images.all() {
            recover(self.alloc, image.as_slice(), &mut self.given)?;
            note(self.alloc, &self.given, &mut self.recovered)?;
        }
        self.recovered.sort().ok()?;
        for keys in &self.recovered {
            told.word_line(keys.as_slice());
        }
        Some(())
    }

    /// Tells what a crash leaves at each moment of a session with these keys over an empty disk.
    pub(crate) fn walk(&mut self, keys: &[u8], told: &mut Told) -> Option<()> {
        self.take_whole(keys)?;
        let mut start = 0;
        let mut seen = 0u64;
        for given in 0..=keys.len() {
            let end = self.end_of(keys, given)?;
            match self.images_between(start, end, keys, given)? {
                Ok(more) => seen = seen.saturating_add(more),
                Err(moment) => return tell_other(moment, told),
            }
            start = end;
        }
        tell_seen(seen, told)
    }

    /// Takes the disk of a session with these keys for the one whose calls a crash cuts off.
    fn take_whole(&mut self, keys: &[u8]) -> Option<()> {
        match self.disk_behind(keys) {
            Some(disk) => {
                drop(mem::replace(&mut self.whole, disk));
                Some(())
            }
            None => None,
        }
    }

    /// The disk of a session with these keys over an empty one, from which keys are to be recovered after a
    /// crash.
    fn disk_behind(&mut self, keys: &[u8]) -> Option<MemDisk> {
        match source_of(self.alloc, keys) {
            Some(source) => session(source, empty_disk(self.alloc), &mut self.given),
            None => None,
        }
    }

    /// After how many calls of the session that a crash cuts off so many keys were given, and no more, which
    /// are those to be recovered after the crash. A session with one key more goes on behind one with fewer, so
    /// while it has done fewer calls than one with all the keys up to the next, so many were given.
    fn end_of(&mut self, keys: &[u8], given: usize) -> Option<usize> {
        let calls = self.whole.done().len();
        if given >= keys.len() {
            return Some(calls.saturating_add(1));
        }
        match self.disk_behind(&keys[..given + 1]) {
            Some(behind) => {
                let end = behind.done().len().min(calls);
                drop(behind);
                Some(end)
            }
            None => None,
        }
    }

    /// Whether after a crash at each of these moments so many of the keys or one more are recovered: from how
    /// many images, or else the first moment at which that isn't so.
    fn images_between(
        &mut self,
        start: usize,
        end: usize,
        keys: &[u8],
        given: usize,
    ) -> Option<Result<u64, usize>> {
        let mut seen = 0u64;
        for moment in start..end {
            match self.images_at(moment, keys, given)? {
                Some(more) => seen = seen.saturating_add(more),
                None => return Some(Err(moment)),
            }
        }
        Some(Ok(seen))
    }

    /// How many images a crash may leave after so many calls of the case's whole session, where the keys that
    /// are recovered from each are those that were given, or one more.
    fn images_at(&mut self, moment: usize, keys: &[u8], given: usize) -> Option<Option<u64>> {
        let calls = self.whole.done();
        self.images.find(&calls[..moment.min(calls.len())])?;
        let mut seen = 0u64;
        for image in self.images.all() {
            recover(self.alloc, image.as_slice(), &mut self.given)?;
            if !is_given(self.given.as_slice(), keys, given) {
                return Some(None);
            }
            seen = seen.saturating_add(1);
        }
        Some(Some(seen))
    }
}

/// Finds the keys that are recovered after a crash from an image.
fn recover(alloc: Global, image: &[u8], given: &mut Vec<u8>) -> Option<()> {
    match disk_of(alloc, image) {
        Some(disk) => recover_from(alloc, disk, given),
        None => None,
    }
}

/// Finds the keys that are recovered after a crash from the disk that it left.
fn recover_from(alloc: Global, disk: MemDisk, given: &mut Vec<u8>) -> Option<()> {
    let source = MemSource::new(Vec::new(alloc), Vec::new(alloc));
    match session(source, disk, given) {
        Some(disk) => {
            drop(disk);
            Some(())
        }
        None => None,
    }
}

/// The disk that a crash left in a case, from which a session recovers its keys.
fn disk_of(alloc: Global, image: &[u8]) -> Option<MemDisk> {
    let mut disk = MemDisk::new(alloc, Vec::new(alloc));
    match disk.write_at(0, image) {
        Ok(()) => Some(disk),
        Err(_) => {
            drop(disk);
            None
        }
    }
}

/// Puts the keys behind those that were recovered, unless they are among them.
fn note(alloc: Global, keys: &Vec<u8>, recovered: &mut Vec<Vec<u8>>) -> Option<()> {
    if recovered.contains(keys) {
        return Some(());
    }
    match keys.as_slice().to_vec(alloc) {
        Ok(keys) => recovered.push(keys).ok(),
        Err(_) => None,
    }
}

/// Whether the keys that are recovered after a crash are the first ones, so many or one more.
fn is_given(recovered: &[u8], keys: &[u8], given: usize) -> bool {
    keys.starts_with(recovered) && recovered.len() >= given && recovered.len() - given <= 1
}

/// Tells that other keys are recovered behind so many calls.
fn tell_other(moment: usize, told: &mut Told) -> Option<()> {
    told.text("otherwise behind ");
    told.value(&moment);
    told.line(" calls");
    Some(())
}

/// Tells that so many images all hold the keys.
fn tell_seen(seen: u64, told: &mut Told) -> Option<()> {
    told.text(if seen > 600 {
        "each of more than 600 images"
    } else {
        "each image"
    });
    told.line(" holds the keys that were given, or these and the next one");
    Some(())
}
