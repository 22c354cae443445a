//! The disk or the journal that a script holds from line to line.

use crate::call::HeldCall;
use crate::crash::Crash;
use crate::sessions::{empty_disk, tell_all};
use case_script::{Told, number_of, numbers_of};
use key_journal::{Disk, DiskFault, JournalKeys, MemDisk};
use std::alloc::Global;
use std::mem;
use synth_outside::{MemSource, Source};

/// The journal in memory that may be held.
type Journal = JournalKeys<MemSource, MemDisk>;

/// The disk or the journal that is held.
#[derive(Drop)]
pub(crate) enum Held {
    Disk(MemDisk),
    Journal(Journal),
}

impl Held {
    /// An empty disk of which no call fails, to be held.
    pub(crate) fn new(alloc: Global) -> Self {
        Held::Disk(empty_disk(alloc))
    }

    /// Makes the call with these words behind its name, if it is one of the disk or the journal that is held.
    pub(crate) fn play(
        &mut self,
        call: HeldCall,
        words: &[Vec<u8>],
        crash: &mut Crash,
        told: &mut Told,
    ) -> Option<()> {
        match (call, words) {
            (HeldCall::Disk, fails) => self.take_disk(fails, told),
            (HeldCall::Open, [keys, fails @ ..]) => self.open(keys, fails, told),
            (HeldCall::Parts, []) => self.part(told),
            (HeldCall::Clear, []) => self.clear(told),
            _ => self.ask(call, words, crash, told),
        }
    }

    /// Makes a call that leaves what is held a disk or a journal.
    fn ask(
        &mut self,
        call: HeldCall,
        words: &[Vec<u8>],
        crash: &mut Crash,
        told: &mut Told,
    ) -> Option<()> {
        match self {
            Held::Disk(disk) => ask_disk(disk, call, words, crash, told),
            Held::Journal(journal) => ask_journal(journal, call, words, told),
        }
    }

    /// Takes an empty disk, of which these calls fail.
    fn take_disk(&mut self, fails: &[Vec<u8>], told: &mut Told) -> Option<()> {
        let alloc = told.alloc();
        match numbers_of(alloc, fails) {
            Some(fails) => {
                self.take(Held::Disk(MemDisk::new(alloc, fails)));
                told.line("Ok");
                Some(())
            }
            None => None,
        }
    }

    /// Holds this in place of what is held.
    fn take(&mut self, held: Held) {
        drop(mem::replace(self, held));
    }

    /// Opens a journal over the disk that is held, with these new keys, of whose source these calls fail.
    fn open(&mut self, keys: &[u8], fails: &[Vec<u8>], told: &mut Told) -> Option<()> {
        match source_failing(told.alloc(), keys, fails) {
            Some(source) => self.open_from(source, told),
            None => None,
        }
    }

    /// Opens a journal over the disk that is held, with the new keys of this source.
    fn open_from(&mut self, source: MemSource, told: &mut Told) -> Option<()> {
        match mem::replace(self, Held::new(told.alloc())) {
            Held::Disk(disk) => {
                let (held, opened) = opened(source, disk);
                self.take(held);
                tell_done(opened, told)
            }
            Held::Journal(journal) => {
                drop(journal);
                drop(source);
                None
            }
        }
    }

    /// Takes the journal apart into its source and its disk, which is held then.
    fn part(&mut self, told: &mut Told) -> Option<()> {
        match mem::replace(self, Held::new(told.alloc())) {
            Held::Journal(journal) => {
                let (source, disk) = journal.parts();
                drop(source);
                self.take(Held::Disk(disk));
                tell_done(Ok(()), told)
            }
            Held::Disk(disk) => {
                drop(disk);
                None
            }
        }
    }

    /// Clears the journal, if it gave a key; its disk is held then.
    fn clear(&mut self, told: &mut Told) -> Option<()> {
        match mem::replace(self, Held::new(told.alloc())) {
            Held::Journal(journal) => match cleared(journal) {
                Some((disk, done)) => {
                    self.take(Held::Disk(disk));
                    tell_done(done, told)
                }
                None => None,
            },
            Held::Disk(disk) => {
                drop(disk);
                None
            }
        }
    }
}

/// A source of these keys for a journal that is to be held, of which these calls fail.
fn source_failing(alloc: Global, keys: &[u8], fails: &[Vec<u8>]) -> Option<MemSource> {
    match keys.to_vec(alloc) {
        Ok(keys) => match numbers_of(alloc, fails) {
            Some(fails) => Some(MemSource::new(keys, fails)),
            None => {
                drop(keys);
                None
            }
        },
        Err(_) => None,
    }
}

/// What is held once a journal was to be opened over the disk.
fn opened(source: MemSource, disk: MemDisk) -> (Held, Result<(), DiskFault>) {
    match JournalKeys::open(source, disk) {
        Ok(journal) => (Held::Journal(journal), Ok(())),
        Err((fault, source, disk)) => {
            drop(source);
            (Held::Disk(disk), Err(fault))
        }
    }
}

/// The disk of the journal that the script held, once that was to be cleared, if it gave a key.
fn cleared(journal: Journal) -> Option<(MemDisk, Result<(), DiskFault>)> {
    if journal.given() == 0 {
        drop(journal);
        return None;
    }
    match journal.clear() {
        Ok((source, disk)) => {
            drop(source);
            Some((disk, Ok(())))
        }
        Err((fault, source, disk)) => {
            drop(source);
            Some((disk, Err(fault)))
        }
    }
}

/// Tells whether a call on what is held was done.
fn tell_done(done: Result<(), DiskFault>, told: &mut Told) -> Option<()> {
    match done {
        Ok(()) => told.line("Ok"),
        Err(_) => told.value_line(&done),
    }
    Some(())
}

/// Makes the call on the disk that is held.
fn ask_disk(
    disk: &mut MemDisk,
    call: HeldCall,
    words: &[Vec<u8>],
    crash: &mut Crash,
    told: &mut Told,
) -> Option<()> {
    match (call, words) {
        (HeldCall::WriteAt, [at, piece]) => write_at(disk, at, piece, told),
        (HeldCall::ReadAt, [at, size]) => read_at(disk, at, size, told),
        (HeldCall::Sync, []) => {
            told.value_line(&disk.sync());
            Some(())
        }
        (HeldCall::Bytes, []) => {
            told.word_line(disk.bytes());
            Some(())
        }
        (HeldCall::Crash, []) => crash.tell_recovered(disk.done(), told),
        _ => None,
    }
}

/// Writes to the disk that is held, at a place within it or at its end.
fn write_at(disk: &mut MemDisk, at: &[u8], piece: &[u8], told: &mut Told) -> Option<()> {
    let at = number_of(at)?;
    if at as usize > disk.bytes().len() {
        return None;
    }
    told.value_line(&disk.write_at(at as u64, piece));
    Some(())
}

/// Reads from the disk that is held into a buffer of the size, of blanks.
fn read_at(disk: &mut MemDisk, at: &[u8], size: &[u8], told: &mut Told) -> Option<()> {
    let at = number_of(at)?;
    let size = number_of(size)?;
    match vec![in told.alloc(); b' '; size as usize] {
        Ok(mut buf) => {
            told.value(&disk.read_at(at as u64, buf.as_mut_slice()));
            told.text(" ");
            told.word_line(buf.as_slice());
            drop(buf);
            Some(())
        }
        Err(_) => None,
    }
}

/// Makes the call on the journal that is held.
fn ask_journal(
    journal: &mut Journal,
    call: HeldCall,
    words: &[Vec<u8>],
    told: &mut Told,
) -> Option<()> {
    match (call, words) {
        (HeldCall::Read, []) => read(journal, told),
        (HeldCall::ReadAll, []) => {
            tell_all(journal, told);
            told.line("");
        }
        (HeldCall::Given, []) => told.value_line(&journal.given()),
        (HeldCall::Ended, []) => told.value_line(&journal.ended()),
        _ => return None,
    }
    Some(())
}

/// Reads from the journal that is held into a buffer of three blanks.
fn read(journal: &mut Journal, told: &mut Told) {
    let mut buf = [b' '; 3];
    told.value(&journal.read(&mut buf));
    told.text(" ");
    told.word_line(&buf);
}
