//! A journal over a file of which each call fails in turn.

use crate::sessions::{source_of, tell_all};
use case_script::{Told, number_of};
use key_journal::{DISK_END, Disk, DiskFault, DiskFile, FileDisk, JournalKeys, MemDisk};
use std::alloc::Global;
use std::io;
use std::io::{Error, ErrorKind};
use synth_outside::MemSource;

/// The most calls of a session that fail in turn.
const MOST_CALLS: u32 = 100;

/// Tells how a session over a file with these bytes ends, which gives so many bytes a read: where its first
/// call alone fails, and so on, up to the number at which none does.
pub(crate) fn play(bytes: &[u8], most: &[u8], keys: &[u8], told: &mut Told) -> Option<()> {
    let Some(most @ 1..) = number_of(most) else {
        return None;
    };
    for failing in 1..=MOST_CALLS {
        told.value(&failing);
        told.text(": ");
        if !is_cut(bytes, most as usize, failing, keys, told)? {
            break;
        }
    }
    Some(())
}

/// Tells how a session ends over a file whose call of this number alone fails, and what it leaves. Whether that call
/// was made.
fn is_cut(bytes: &[u8], most: usize, failing: u32, keys: &[u8], told: &mut Told) -> Option<bool> {
    match source_of(told.alloc(), keys) {
        Some(source) => match Stumbling::new(told.alloc(), bytes, most, failing) {
            Some(file) => Some(is_cut_over(source, file, told)),
            None => {
                drop(source);
                None
            }
        },
        None => None,
    }
}

/// Tells how a session ends over this file of which one call fails, and what it leaves. Whether that call was made.
fn is_cut_over(source: MemSource, file: Stumbling, told: &mut Told) -> bool {
    let disk = tell_session(source, file, told);
    told.text(" leaves ");
    told.word_line(disk.file().bytes());
    let has_failed = disk.file().has_failed();
    drop(disk);
    has_failed
}

/// Plays a session of a journal over the file of which one call fails, if it is made, with the new keys of this
/// source, up to an answer that isn't one: tells that answer and the keys that it gave, and hands back the disk
/// as it stands.
fn tell_session(source: MemSource, file: Stumbling, told: &mut Told) -> FileDisk<Stumbling> {
    match JournalKeys::open(source, FileDisk::new(file)) {
        Ok(mut journal) => {
            tell_all(&mut journal, told);
            let (source, disk) = journal.parts();
            drop(source);
            disk
        }
        Err((fault, source, disk)) => {
            drop(source);
            tell_fault(fault, told);
            disk
        }
    }
}

/// Tells that a journal wasn't opened over a file of which a call failed, for this fault.
fn tell_fault(fault: DiskFault, told: &mut Told) {
    told.text("Err(");
    told.value(&fault);
    told.text(")");
}

/// A file in memory of which one call alone fails, so that whoever tries again succeeds.
#[derive(Drop)]
struct Stumbling {
    disk: MemDisk,
    /// The most bytes that a read gives.
    most: usize,
    calls: u32,
    failing: u32,
}

impl Stumbling {
    /// A file for a journal, with these bytes, which gives so many a read, and whose call of this number, from
    /// 1, fails.
    fn new(alloc: Global, bytes: &[u8], most: usize, failing: u32) -> Option<Self> {
        let mut disk = MemDisk::new(alloc, Vec::new(alloc));
        match disk.write_at(0, bytes) {
            Ok(()) => Some(Stumbling {
                disk,
                most,
                calls: 0,
                failing,
            }),
            Err(_) => {
                drop(disk);
                None
            }
        }
    }

    /// The bytes of the file of which one call fails.
    fn bytes(&self) -> &[u8] {
        self.disk.bytes()
    }

    /// Whether the call of the journal's file that is to fail was made.
    fn has_failed(&self) -> bool {
        self.calls >= self.failing
    }

    /// Counts one more call of the file that a journal stands on, which fails where its turn has come.
    fn step(&mut self) -> io::Result<()> {
        self.calls = self.calls.saturating_add(1);
        if self.calls == self.failing {
            return Err(Error::from(ErrorKind::Other));
        }
        Ok(())
    }
}

impl DiskFile for Stumbling {
    ghost use Rattle.std.specs.Prelude.{[]};

    ghost past = { λ _. [] };

    ghost reads_as_image = { λ _. tt };

    fn read_some(&mut self, at: u64, buf: &mut [u8]) -> io::Result<usize> {
        self.step()?;
        let most = self.most.min(buf.len());
        match self.disk.read_at(at, &mut buf[..most]) {
            Ok(count) => Ok(count),
            Err(_) => Err(Error::from(ErrorKind::Other)),
        }
    }

    fn write_whole(&mut self, at: u64, piece: &[u8]) -> io::Result<()> {
        self.step()?;
        if at as usize > self.disk.bytes().len() {
            return Err(Error::from(ErrorKind::InvalidInput));
        }
        done(self.disk.write_at(at, piece))
    }

    fn sync_whole(&mut self) -> io::Result<()> {
        self.step()?;
        done(self.disk.sync())
    }
}

/// The answer of a call on the disk of a file that fails, as one of the system.
fn done<T>(answer: Result<T, DiskFault>) -> io::Result<T> {
    answer.map_err(|_| Error::from(ErrorKind::Other))
}
