//! A disk over a file.

ghost use Rattle.std.specs.Prelude.{◌≡◌, ◌+◌, ◌<◌, ◌≤◌, length, take, Ok, IfOk, IsErrOf, is_ok};
ghost use Rattle.key_journal.specs.Disk.{Newest, ReadsRange};
ghost use Rattle.synth_outside.specs.Cause.{HasCause};

use super::disk_file::DiskFile;
use super::{DISK_END, Disk, DiskFault};
use std::fs::{File, OpenOptions};
use std::io;
use std::marker::Model;
use std::rt::Files;

/// The name of the file over which the disk of a journal stands.
pub const JOURNAL: &str = "JOURNAL";

/// A disk over a file of the system. It tells nothing: what the system keeps in a crash isn't claimed.
pub type StdDisk = FileDisk<File>;

/// A disk over a file, which tells what the file tells. Each failed call of the file is a fault.
///
/// It is seen as the file with the count of faults. It never wants memory.
#[derive(Debug, Drop)]
pub struct FileDisk<F> {
    file: F,
    faults: u64,
}

impl<F> Model for FileDisk<F> {
    ghost use Rattle.key_journal.specs.DiskFile.{PlainFileDisk};

    ghost Value = { PlainFileDisk F };

    ghost view = { λ disk. record { file = disk.file; faults = disk.faults } };
}

impl FileDisk<File> {
    /// The disk over the file `JOURNAL` of the current folder, which is made where there is none.
    pub fn open<R: Files<File = File>>(rt: &R) -> io::Result<Self> {
        let file = OpenOptions::new()
            .read(true)
            .write(true)
            .create(true)
            .open(rt, JOURNAL)?;
        Ok(FileDisk::new(file))
    }
}

impl<F> FileDisk<F> {
    /// A disk over the file, with no fault so far.
    pub fn new(file: F) -> Self
        ensures { result ≡ record { file = file; faults = 0 } }
    {
        FileDisk { file, faults: 0 }
    }

    /// The file that this disk is over.
    pub fn file(&self) -> &F
        ensures { result.now ≡ self.now.file }
    {
        &self.file
    }
}

impl<F: DiskFile> Disk for FileDisk<F> {
    ghost past = { λ disk. F.past disk.file };

    ghost reads_as_image = { λ disk. F.reads_as_image disk.file };

    ghost faults = { λ disk. disk.faults };

    fn read_at(&mut self, at: u64, buf: &mut [u8]) -> Result<usize, DiskFault> {
        let answer = fill_at(&mut self.file, at, buf);
        counted(&mut self.faults, answer)
    }

    fn write_at(&mut self, at: u64, piece: &[u8]) -> Result<(), DiskFault> {
        if at > DISK_END || piece.len() as u64 > DISK_END - at {
            self.faults = self.faults.saturating_add(1);
            return Err(DiskFault::Failed);
        }
        let answer = self.file.write_whole(at, piece);
        counted(&mut self.faults, answer)
    }

    fn sync(&mut self) -> Result<(), DiskFault> {
        let answer = self.file.sync_whole();
        counted(&mut self.faults, answer)
    }
}

// Raises the disk's count of faults where a call on its file failed.
fn counted<T: Drop>(faults: &mut u64, answer: io::Result<T>) -> Result<T, DiskFault>
    ensures cause { HasCause DiskFault.Failed faults.old faults.new result }
    ensures value { IfOk result (λ value. answer ≡ Ok value) }
    ensures same { is_ok result ≡ is_ok answer }
    ensures memory { IsErrOf result DiskFault.OutOfMemory → ⊥ }
{
    match answer {
        Ok(value) => Ok(value),
        Err(_) => {
            *faults = faults.saturating_add(1);
            Err(DiskFault::Failed)
        }
    }
}

// Reads the disk's file from `at` on until the buffer is full or the file ends, and answers how many bytes.
fn fill_at<F: DiskFile>(file: &mut F, at: u64, buf: &mut [u8]) -> io::Result<usize>
    ensures count { IfOk result (λ count. count ≤ length buf.new) }
    ensures bytes { IfOk result (λ count.
        Newest (ReadsRange at (length buf.new) count (take count buf.new)) (F.past file.old)) }
    ensures inside { IfOk result (λ count. 0 < count → at + count ≤ DISK_END) }
    ensures same { F.past file.new ≡ F.past file.old }
{
    let mut count = 0;
    while count < buf.len() {
        let more = file.read_some(at + count as u64, &mut buf[count..])?;
        if more == 0 {
            break;
        }
        count += more;
    }
    Ok(count)
}
