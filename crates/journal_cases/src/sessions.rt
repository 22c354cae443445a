//! Sessions over a journal, up to the end of their keys.

use case_script::Told;
use key_journal::{Disk, JournalKeys, MemDisk};
use std::alloc::Global;
use synth_outside::{MemSource, Source, SourceFault};

/// The most keys that are read in one go from a journal.
const MOST_KEYS: usize = 1000;

/// A source of the new keys of a session over a journal, of which no call fails.
pub(crate) fn source_of(alloc: Global, keys: &[u8]) -> Option<MemSource> {
    match keys.to_vec(alloc) {
        Ok(keys) => Some(MemSource::new(keys, Vec::new(alloc))),
        Err(_) => None,
    }
}

/// An empty disk for a session over a journal, of which no call fails.
pub(crate) fn empty_disk(alloc: Global) -> MemDisk {
    MemDisk::new(alloc, Vec::new(alloc))
}

/// Plays a session over a journal on the disk, up to the end of this source of new keys: finds the keys that it
/// gives, and hands back the disk.
pub(crate) fn session(source: MemSource, disk: MemDisk, given: &mut Vec<u8>) -> Option<MemDisk> {
    given.clear();
    match JournalKeys::open(source, disk) {
        Ok(mut journal) => {
            let _ = read_all(&mut journal, given);
            let (source, disk) = journal.parts();
            drop(source);
            Some(disk)
        }
        Err(left) => {
            drop(left);
            None
        }
    }
}

/// Tells the answer behind all keys that the journal gives, and these keys.
pub(crate) fn tell_all<S: Source, D: Disk>(journal: &mut JournalKeys<S, D>, told: &mut Told) {
    let mut given = Vec::new(told.alloc());
    let answer = read_all(journal, &mut given);
    told.value(&answer);
    told.text(" ");
    told.word(given.as_slice());
    drop(given);
}

/// Reads the keys of a session up to an answer that isn't one.
fn read_all<S: Source, D: Disk>(
    journal: &mut JournalKeys<S, D>,
    given: &mut Vec<u8>,
) -> Result<usize, SourceFault> {
    for _ in 0..MOST_KEYS {
        let mut buf = [b' '; 3];
        if journal.read(&mut buf)? == 0 {
            break;
        }
        if given.push(buf[0]).is_err() {
            return Err(SourceFault::OutOfMemory);
        }
    }
    Ok(0)
}
