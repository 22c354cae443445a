//! Regular files of the system, in the current folder.

ghost use Rattle.std.specs.Prelude.{◌≡◌, ◌<◌, ◌≤◌, None, IfErr, is_some, length};
ghost use Rattle.plcs_base.specs.Count.{raised};
ghost use Rattle.regular_files.specs.RegularFiles.{untold_begun};
ghost use Rattle.synth_outside.specs.Cause.{HasCause};
ghost use Rattle.synth_outside.specs.Sink.{TakesBytes};
ghost use Rattle.synth_outside.specs.Source.{GivesBytes};

use crate::beside::{Beside, text_of};
use std::alloc::Global;
use std::fs::{self, File};
use std::io::{self, ErrorKind, Read, Write};
use std::rt;
use synth_outside::{Files, FilesFault};

/// Regular files of the current folder, which are named as they are there.
///
/// A symbolic link stands for the file that it leads to. What is no regular file, as a folder, a pipe or a device, is
/// neither read nor replaced: calls with its name fail at once.
///
/// A new content is written beside the file, to one whose name has ` new` behind the name, with the mode of the
/// file, and takes its place in the commit, so that a crash leaves the old content or the new one whole. Where a call
/// failed, what was written beside may stay until the next content is begun.
///
/// They tell nothing of what is stored. A name that isn't UTF-8 reaches no file: calls with it fail.
#[derive(Debug, Drop)]
pub struct RegularFiles<'a, R> {
    rt: &'a R,
    alloc: Global,
    reading: Option<File>,
    begun: Option<Beside>,
    faults: u64,
    wants: u64,
}

impl<'a, R: rt::Files<File = File>> RegularFiles<'a, R> {
    /// Regular files of the current folder, of which none is open and none is begun.
    pub fn new(rt: &'a R, alloc: Global) -> Self {
        RegularFiles {
            rt,
            alloc,
            reading: None,
            begun: None,
            faults: 0,
            wants: 0,
        }
    }
}

impl<'a, R: rt::Files<File = File>> Files for RegularFiles<'a, R> {
    ghost told = { λ files. record { stored = None; faults = files.faults; wants = files.wants } };

    ghost is_open = { λ files. is_some files.reading };

    ghost left = { λ _. None };

    ghost begun = { λ files. untold_begun files.begun };

    fn open_read(&mut self, name: &[u8]) -> Result<(), FilesFault> {
        match file_of(self.rt, name) {
            Ok(file) => {
                self.reading = Some(file);
                Ok(())
            }
            Err(error) if error.kind() == ErrorKind::NotFound => Err(FilesFault::NoFile),
            Err(_) => Err(counted_fault(&mut self.faults)),
        }
    }

    fn read(&mut self, buf: &mut [u8]) -> Result<usize, FilesFault> {
        let Some(file) = &mut self.reading else {
            unreachable!();
        };
        read_once(file, &mut self.faults, buf)
    }

    fn begin(&mut self, name: &[u8]) -> Result<(), FilesFault> {
        if let Some(dropped) = self.begun.take() {
            dropped.remove(self.rt);
        }
        match Beside::create(self.rt, self.alloc, name) {
            Ok(beside) => {
                self.begun = Some(beside);
                Ok(())
            }
            Err(error) if error.kind() == ErrorKind::OutOfMemory => {
                Err(counted_want(&mut self.wants))
            }
            Err(_) => Err(counted_fault(&mut self.faults)),
        }
    }

    /// Writes to the regular file that was begun in the current folder. A write that takes no byte fails.
    fn write(&mut self, piece: &[u8]) -> Result<usize, FilesFault> {
        match &mut self.begun {
            Some(beside) => write_once(&mut beside.file, &mut self.faults, piece),
            None => unreachable!(),
        }
    }

    fn commit(&mut self) -> Result<(), FilesFault> {
        let Some(beside) = &self.begun else {
            unreachable!();
        };
        match beside.put_in_place(self.rt) {
            Ok(()) => {
                self.begun = None;
                Ok(())
            }
            Err(_) => Err(counted_fault(&mut self.faults)),
        }
    }
}

/// Reads once from a regular file, whose fault is counted and never taken for its end.
fn read_once<R: Read>(reader: &mut R, faults: &mut u64, buf: &mut [u8]) -> Result<usize, FilesFault>
    requires { 0 < length buf.old }
    ensures bytes { GivesBytes (R.remaining reader.old) (R.remaining reader.new) buf.new result }
    ensures fault { IfErr result (λ fault. fault ≡ FilesFault.Failed) }
    ensures cause { HasCause FilesFault.Failed faults.old faults.new result }
{
    match reader.read(buf) {
        Ok(count) => Ok(count),
        Err(_) => Err(counted_fault(faults)),
    }
}

/// Writes once to one of the regular files of the current folder, and counts a fault; that no byte is taken is one.
fn write_once<W: Write>(writer: &mut W, faults: &mut u64, piece: &[u8]) -> Result<usize, FilesFault>
    requires { 0 < length piece.now }
    ensures bytes { TakesBytes (W.contents writer.old) (W.contents writer.new) piece.now result }
    ensures fault { IfErr result (λ fault. fault ≡ FilesFault.Failed) }
    ensures cause { HasCause FilesFault.Failed faults.old faults.new result }
{
    match writer.write(piece) {
        Ok(count) if count > 0 => Ok(count),
        _ => Err(counted_fault(faults)),
    }
}

/// The regular file of the name in the current folder, for reading. To open another one could wait for ever.
fn file_of<R: rt::Files<File = File>>(rt: &R, name: &[u8]) -> io::Result<File> {
    let path = text_of(name)?;
    if fs::metadata(rt, path)?.is_file() {
        File::open(rt, path)
    } else {
        Err(io::Error::from(ErrorKind::InvalidInput))
    }
}

/// Counts one more fault of regular files, and answers it.
fn counted_fault(faults: &mut u64) -> FilesFault
    ensures answer { result ≡ FilesFault.Failed }
    ensures counted { faults.new ≡ raised faults.old }
    ensures later { faults.old ≤ faults.new }
{
    *faults = faults.saturating_add(1);
    FilesFault::Failed
}

/// Counts one more want of memory of regular files, and answers it.
fn counted_want(wants: &mut u64) -> FilesFault
    ensures answer { result ≡ FilesFault.OutOfMemory }
    ensures counted { wants.new ≡ raised wants.old }
    ensures later { wants.old ≤ wants.new }
{
    *wants = wants.saturating_add(1);
    FilesFault::OutOfMemory
}
