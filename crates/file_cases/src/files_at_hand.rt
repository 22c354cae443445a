//! The files that a script makes its calls on, and what else lies where the program runs.

use crate::call::{Change, FilesCall};
use crate::desk::{Desk, tell, tell_bytes};
use case_script::{Told, numbers_of};
use std::alloc::Global;
use std::fs::File;
use std::os::unix::fs::symlink;
use std::{fs, io, mem, rt};
use synth_outside::{MemFiles, StdFiles};

/// The files at hand: in memory, or of the system.
#[derive(Drop)]
pub(crate) struct FilesAtHand<'a, R: rt::Files<File = File>> {
    memory: Desk<MemFiles>,
    system: Desk<StdFiles<'a, R>>,
    is_system: bool,
}

impl<'a, R: rt::Files<File = File> + AllocGlobal> FilesAtHand<'a, R> {
    /// Files at hand in memory, of which there is none.
    pub(crate) fn new(rt: &'a R, alloc: Global) -> Self {
        FilesAtHand {
            memory: Desk::new(MemFiles::new(alloc, Vec::new(alloc))),
            system: Desk::new(StdFiles::new(rt, alloc)),
            is_system: false,
        }
    }

    /// Takes files in memory to hand, of which there is none; the calls of these numbers are to fail.
    pub(crate) fn take_memory(&mut self, fails: &[Vec<u8>], told: &mut Told) -> Option<()> {
        let alloc = told.alloc();
        match numbers_of(alloc, fails) {
            Some(fails) => {
                let memory = Desk::new(MemFiles::new(alloc, fails));
                drop(mem::replace(&mut self.memory, memory));
                self.is_system = false;
                told.line("Ok");
                Some(())
            }
            None => None,
        }
    }

    /// Takes the files of the system to hand.
    pub(crate) fn take_system(&mut self, rt: &'a R, told: &mut Told) -> Option<()> {
        let system = Desk::new(StdFiles::new(rt, told.alloc()));
        drop(mem::replace(&mut self.system, system));
        self.is_system = true;
        told.line("Ok");
        Some(())
    }

    /// Makes a call on the files at hand.
    pub(crate) fn play(
        &mut self,
        call: FilesCall,
        words: &[Vec<u8>],
        told: &mut Told,
    ) -> Option<()> {
        if self.is_system {
            self.system.play(call, words, told)
        } else {
            self.memory.play(call, words, told)
        }
    }

    /// Saves the program whose listing the text is in the files at hand.
    pub(crate) fn save(&mut self, text: &[u8], name: &[u8], told: &mut Told) -> Option<()> {
        let alloc = told.alloc();
        let saved = if self.is_system {
            self.system.save(alloc, text, name)
        } else {
            self.memory.save(alloc, text, name)
        };
        tell(&saved, told)
    }

    /// Tells the bytes that the name has among the files at hand.
    pub(crate) fn tell_content(&self, rt: &R, name: &[u8], told: &mut Told) -> Option<()> {
        if self.is_system {
            return tell_file(rt, name, told);
        }
        match self.memory.files.content(name) {
            Some(bytes) => tell_bytes(bytes, told),
            None => told.line("no file"),
        }
        Some(())
    }
}

/// Tells the bytes of a file of the system, where the files at hand are those of the system.
fn tell_file<R: rt::Files + AllocGlobal>(rt: &R, name: &[u8], told: &mut Told) -> Option<()> {
    let name = str::from_utf8(name).ok()?;
    match fs::read(rt, name) {
        Ok(bytes) => {
            tell_bytes(bytes.as_slice(), told);
            drop(bytes);
        }
        Err(_) => told.line("no file"),
    }
    Some(())
}

/// Changes what lies where the program runs, beside the files at hand. A link leads to `/dev/full`, which takes no
/// byte.
pub(crate) fn change<R: rt::Files>(
    rt: &R,
    change: Change,
    name: &[u8],
    told: &mut Told,
) -> Option<()> {
    let name = str::from_utf8(name).ok()?;
    match change {
        Change::MakeFolder => tell_outcome(fs::create_dir(rt, name), told),
        Change::RemoveFolder => tell_outcome(fs::remove_dir(rt, name), told),
        Change::RemoveFile => tell_outcome(fs::remove_file(rt, name), told),
        Change::Link => tell_outcome(symlink(rt, "/dev/full", name), told),
    }
    Some(())
}

/// Tells whether the system did what was asked of it where the program runs.
fn tell_outcome(answer: io::Result<()>, told: &mut Told) {
    match answer {
        Ok(()) => told.line("Ok"),
        Err(_) => told.line("refused by the system"),
    }
}
