//! A desk of files: the calls on them, and what of them is open or begun for the next calls.

use crate::call::FilesCall;
use crate::streams::buffer;
use case_script::Told;
use file_store::{FileRefusal, load, load_input, read_listing, rescue, save};
use plcs_base::ByteOut;
use std::alloc::Global;
use std::fmt::Debug;
use std::marker::Model;
use synth_outside::{Files, FilesFault};

/// Files, and whether it is told that one is open for reading and that a new content is begun.
#[derive(Drop)]
pub(crate) struct Desk<F: Files> {
    pub(crate) files: F,
    is_open: bool,
    is_begun: bool,
}

impl<F: Files> Model for Desk<F> {
    ghost use Rattle.std.specs.Prelude.{◌≡◌, true, IsSome};

    ghost Value = { F };

    ghost view = { λ desk. desk.files };

    ghost invariant = { λ desk. (desk.is_open ≡ true → F.is_open desk.files ≡ true)
        × (desk.is_begun ≡ true → IsSome (F.begun desk.files)) };
}

impl<F: Files> Desk<F> {
    /// A desk of these files, of which nothing is told.
    pub(crate) fn new(files: F) -> Self {
        Desk {
            files,
            is_open: false,
            is_begun: false,
        }
    }

    /// Makes the call on the files of the desk with these words behind its name, if it may be made.
    pub(crate) fn play(
        &mut self,
        call: FilesCall,
        words: &[Vec<u8>],
        told: &mut Told,
    ) -> Option<()> {
        let alloc = told.alloc();
        match (call, words) {
            (FilesCall::OpenRead, [name]) => tell(&self.open_read(name), told),
            (FilesCall::Begin, [name]) => tell(&self.begin(name), told),
            (FilesCall::Commit, []) => tell(&self.commit()?, told),
            (FilesCall::Read, [size]) => self.read(size, told),
            (FilesCall::Write, [piece]) => tell(&self.write(piece)?, told),
            (FilesCall::Load, [name]) => tell_slots(self.load(alloc, name), told),
            (FilesCall::LoadInput, [name]) => self.load_input(name, told),
            (FilesCall::LoadAndSave, [name, other]) => {
                tell(&self.load_and_save(alloc, name, other), told)
            }
            (FilesCall::LoadAndRescue, [name]) => tell(&self.load_and_rescue(alloc, name), told),
            _ => None,
        }
    }

    /// Opens the file of the name on the desk.
    fn open_read(&mut self, name: &[u8]) -> Result<(), FilesFault> {
        self.is_open = false;
        self.files.open_read(name)?;
        self.is_open = true;
        Ok(())
    }

    /// Begins a new content for the name on the desk.
    fn begin(&mut self, name: &[u8]) -> Result<(), FilesFault> {
        self.is_begun = false;
        self.files.begin(name)?;
        self.is_begun = true;
        Ok(())
    }

    /// Commits the new content, if one is begun on the desk.
    fn commit(&mut self) -> Option<Result<(), FilesFault>> {
        if !self.is_begun {
            return None;
        }
        match self.files.commit() {
            Ok(()) => {
                self.is_begun = false;
                Some(Ok(()))
            }
            Err(fault) => Some(Err(fault)),
        }
    }

    /// Reads into a buffer of the size, of blanks, if a file is open on the desk, and tells what the buffer has.
    fn read(&mut self, size: &[u8], told: &mut Told) -> Option<()> {
        if !self.is_open {
            return None;
        }
        match buffer(told.alloc(), size) {
            Some(mut buf) => {
                told.value(&self.files.read(buf.as_mut_slice()));
                told.put(b' ');
                told.word_line(buf.as_slice());
                drop(buf);
                Some(())
            }
            None => None,
        }
    }

    /// Writes the piece, if a new content is begun on the desk.
    fn write(&mut self, piece: &[u8]) -> Option<Result<usize, FilesFault>> {
        if piece.is_empty() || !self.is_begun {
            return None;
        }
        Some(self.files.write(piece))
    }

    /// Loads the file of the name from the desk's files as a program: how many slots that has.
    fn load(&mut self, alloc: Global, name: &[u8]) -> Result<u32, FileRefusal> {
        self.is_open = false;
        match load(alloc, name, &mut self.files) {
            Ok(tree) => {
                let slots = tree.slots();
                drop(tree);
                Ok(slots)
            }
            Err(refusal) => Err(refusal),
        }
    }

    /// Loads the file of the name from the desk's files as the input of a program, and tells its bytes.
    fn load_input(&mut self, name: &[u8], told: &mut Told) -> Option<()> {
        self.is_open = false;
        match load_input(told.alloc(), name, &mut self.files) {
            Ok(bytes) => {
                tell_bytes(bytes.as_slice(), told);
                drop(bytes);
            }
            Err(refusal) => told.value_line(&refusal),
        }
        Some(())
    }

    /// Saves the program whose listing the text is in the desk's files.
    pub(crate) fn save(
        &mut self,
        alloc: Global,
        text: &[u8],
        name: &[u8],
    ) -> Result<(), FileRefusal> {
        match read_listing(alloc, text) {
            Ok(tree) => {
                self.is_begun = false;
                self.is_open = false;
                let saved = save(&tree, name, &mut self.files);
                drop(tree);
                saved
            }
            Err(refusal) => Err(refusal),
        }
    }

    /// Loads a program from the desk's files, and saves it under another name.
    fn load_and_save(
        &mut self,
        alloc: Global,
        name: &[u8],
        other: &[u8],
    ) -> Result<(), FileRefusal> {
        self.is_begun = false;
        self.is_open = false;
        match load(alloc, name, &mut self.files) {
            Ok(tree) => {
                let saved = save(&tree, other, &mut self.files);
                drop(tree);
                saved
            }
            Err(refusal) => Err(refusal),
        }
    }

    /// Loads a program from the desk's files, and rescues it.
    fn load_and_rescue(&mut self, alloc: Global, name: &[u8]) -> Result<(), FileRefusal> {
        self.is_begun = false;
        self.is_open = false;
        match load(alloc, name, &mut self.files) {
            Ok(tree) => {
                let rescued = rescue(&tree, &mut self.files);
                drop(tree);
                rescued
            }
            Err(refusal) => Err(refusal),
        }
    }
}

/// Tells what a call on the desk's files answered.
pub(crate) fn tell<T: Debug>(answer: &T, told: &mut Told) -> Option<()> {
    told.value_line(answer);
    Some(())
}

/// Tells how many slots the program has that was loaded from the desk's files, or why none was.
fn tell_slots(loaded: Result<u32, FileRefusal>, told: &mut Told) -> Option<()> {
    match loaded {
        Ok(slots) => {
            told.value(&slots);
            told.line(" slots");
        }
        Err(refusal) => told.value_line(&refusal),
    }
    Some(())
}

/// Tells the bytes that one of the desk's files holds, or of more than 200 how many they are.
pub(crate) fn tell_bytes(bytes: &[u8], told: &mut Told) {
    match bytes.len() {
        0..=200 => told.word_line(bytes),
        count => {
            told.value(&count);
            told.line(" bytes");
        }
    }
}
