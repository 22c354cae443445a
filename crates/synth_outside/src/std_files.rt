//! Files of the system, in the current folder.

ghost use Rattle.std.specs.Prelude.{◌≡◌, ◌<◌, ◌≤◌, None, IfErr, IfOk, is_some, length};
ghost use Rattle.plcs_base.specs.Count.{raised};
ghost use Rattle.synth_outside.specs.Cause.{HasCause};
ghost use Rattle.synth_outside.specs.Sink.{TakesBytes};
ghost use Rattle.synth_outside.specs.Source.{GivesBytes};
ghost use Rattle.synth_outside.specs.StdFiles.{untold_content};

use super::mem_files::counted_want;
use super::{Files, FilesFault};
use std::alloc::Global;
use std::fs::{self, File};
use std::io::{self, ErrorKind, Read, Write};
use std::rt;

/// Files of the current folder, which are named as they are there.
///
/// A new content is written beside the file, to one whose name has ` new` behind the name, and takes
/// the file's place in the commit, so that a crash leaves the old content or the new one whole. Where
/// a call failed, what was written beside may stay until the next content is begun.
///
/// They tell nothing of what is stored. A name that isn't UTF-8 reaches no file: calls with it fail.
#[derive(Debug, Drop)]
pub struct StdFiles<'a, R> {
    rt: &'a R,
    alloc: Global,
    reading: Option<File>,
    begun: Option<Beside>,
    faults: u64,
    wants: u64,
}

impl<'a, R: rt::Files<File = File>> StdFiles<'a, R> {
    /// Files of the current folder, of which none is open and none is begun.
    pub fn new(rt: &'a R, alloc: Global) -> Self {
        StdFiles {
            rt,
            alloc,
            reading: None,
            begun: None,
            faults: 0,
            wants: 0,
        }
    }
}

impl<'a, R: rt::Files<File = File>> Files for StdFiles<'a, R> {
    ghost told = { λ files. record { stored = None; faults = files.faults; wants = files.wants } };

    ghost is_open = { λ files. is_some files.reading };

    ghost left = { λ _. None };

    ghost begun = { λ files. untold_content files.begun };

    fn open_read(&mut self, name: &[u8]) -> Result<(), FilesFault> {
        match file_of(self.rt, name) {
            Ok(file) => {
                self.reading = Some(file);
                Ok(())
            }
            Err(error) if error.kind() == ErrorKind::NotFound => Err(FilesFault::NoFile),
            Err(_) => Err(counted_fault(&mut self.faults)),
        }
    }

    fn read(&mut self, buf: &mut [u8]) -> Result<usize, FilesFault> {
        let Some(file) = &mut self.reading else {
            unreachable!();
        };
        read_once(file, &mut self.faults, buf)
    }

    fn begin(&mut self, name: &[u8]) -> Result<(), FilesFault> {
        if let Some(dropped) = self.begun.take() {
            dropped.remove(self.rt);
        }
        match Beside::create(self.rt, self.alloc, name) {
            Ok(beside) => {
                self.begun = Some(beside);
                Ok(())
            }
            Err(FilesFault::OutOfMemory) => Err(counted_want(&mut self.wants)),
            Err(_) => Err(counted_fault(&mut self.faults)),
        }
    }

    /// Writes to the file of the system that was begun in the current folder. A write that takes no byte fails.
    fn write(&mut self, piece: &[u8]) -> Result<usize, FilesFault> {
        match &mut self.begun {
            Some(beside) => write_once(&mut beside.file, &mut self.faults, piece),
            None => unreachable!(),
        }
    }

    fn commit(&mut self) -> Result<(), FilesFault> {
        let Some(beside) = &self.begun else {
            unreachable!();
        };
        match beside.put_in_place(self.rt) {
            Ok(()) => {
                self.begun = None;
                Ok(())
            }
            Err(_) => Err(counted_fault(&mut self.faults)),
        }
    }
}

/// The file of the system with a new content, which is written beside the one of the name.
#[derive(Debug, Drop)]
struct Beside {
    name: Vec<u8>,
    path: String,
    file: File,
}

impl Beside {
    /// The file of a new content without bytes. There is none beside a folder.
    fn create<R: rt::Files<File = File>>(
        rt: &R,
        alloc: Global,
        name: &[u8],
    ) -> Result<Self, FilesFault>
        ensures { IfOk result (λ beside. beside.name.items ≡ name.now) }
    {
        let Ok(text) = text_of(name) else {
            return Err(FilesFault::Failed);
        };
        let Ok(path) = format!(in alloc; "{text} new") else {
            return Err(FilesFault::OutOfMemory);
        };
        let Ok(name) = Vec::from_slice(alloc, name) else {
            return Err(FilesFault::OutOfMemory);
        };
        if is_folder(rt, text) {
            return Err(FilesFault::Failed);
        }
        match File::create(rt, path.as_str()) {
            Ok(file) => Ok(Beside { name, path, file }),
            Err(_) => Err(FilesFault::Failed),
        }
    }

    /// The file of the system with a new content takes the place of the file of the name, once all of its bytes are
    /// on the disk.
    fn put_in_place<R: rt::Files>(&self, rt: &R) -> io::Result<()> {
        self.file.sync_all()?;
        fs::rename(rt, self.path.as_str(), text_of(self.name.as_slice())?)
    }

    /// Removes the file of the system with a new content, if that can be done.
    fn remove<R: rt::Files>(self, rt: &R) {
        // Where it can't be removed it stays until the next content is begun.
        let _ = fs::remove_file(rt, self.path.as_str());
    }
}

/// Reads once from a file of the system, whose fault is counted and never taken for its end.
fn read_once<R: Read>(reader: &mut R, faults: &mut u64, buf: &mut [u8]) -> Result<usize, FilesFault>
    requires { 0 < length buf.old }
    ensures bytes { GivesBytes (R.remaining reader.old) (R.remaining reader.new) buf.new result }
    ensures fault { IfErr result (λ fault. fault ≡ FilesFault.Failed) }
    ensures cause { HasCause FilesFault.Failed faults.old faults.new result }
{
    match reader.read(buf) {
        Ok(count) => Ok(count),
        Err(_) => Err(counted_fault(faults)),
    }
}

/// Writes once to a file of the system, whose fault is counted; that it takes no byte is one.
fn write_once<W: Write>(writer: &mut W, faults: &mut u64, piece: &[u8]) -> Result<usize, FilesFault>
    requires { 0 < length piece.now }
    ensures bytes { TakesBytes (W.contents writer.old) (W.contents writer.new) piece.now result }
    ensures fault { IfErr result (λ fault. fault ≡ FilesFault.Failed) }
    ensures cause { HasCause FilesFault.Failed faults.old faults.new result }
{
    match writer.write(piece) {
        Ok(count) if count > 0 => Ok(count),
        _ => Err(counted_fault(faults)),
    }
}

/// The file of the name in the current folder, for reading.
fn file_of<R: rt::Files<File = File>>(rt: &R, name: &[u8]) -> io::Result<File> {
    File::open(rt, text_of(name)?)
}

/// Whether a folder of the system has the name.
fn is_folder<R: rt::Files>(rt: &R, name: &str) -> bool {
    match fs::metadata(rt, name) {
        Ok(metadata) => metadata.is_dir(),
        Err(_) => false,
    }
}

/// The name of a file as the text that a path of the system is.
fn text_of(name: &[u8]) -> io::Result<&str> {
    match str::from_utf8(name) {
        Ok(text) => Ok(text),
        Err(_) => Err(io::Error::from(ErrorKind::InvalidInput)),
    }
}

/// Counts one more fault of files of the system, and answers it.
fn counted_fault(faults: &mut u64) -> FilesFault
    ensures answer { result ≡ FilesFault.Failed }
    ensures counted { faults.new ≡ raised faults.old }
    ensures later { faults.old ≤ faults.new }
{
    *faults = faults.saturating_add(1);
    FilesFault::Failed
}
