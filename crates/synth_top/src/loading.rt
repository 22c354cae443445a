//! The files that are loaded before the first screen: the program, and then its input.

ghost use Rattle.std.specs.Prelude.{◌≡◌, IfErr, IfOk, option_map};
ghost use Rattle.synth_top.specs.Loads.{first_refusal, loaded_input};
ghost use Rattle.synth_top.specs.Private.Loading.{BothLoad, InputLoads, IsInputIfLoaded, IsTreeIfLoaded, LoadsNothing, ProgramLoads, load_content, load_refusal};
ghost use Rattle.synth_top.specs.Private.PlainForms.{input_reply, plain_first_loads, plain_options, program_reply};

use crate::options::Options;
use file_store::{FileRefusal, load, load_input, loading_ignores_room};
use plcs_base::OutOfMemory;
use std::alloc::Global;
use synth_outside::Files;
use template_tree::{Tree, room_is_not_shown};

/// What came of a file that may be loaded before the first screen.
#[derive(Drop)]
pub enum FileLoad<T> {
    /// No file is named.
    NotAsked,
    /// Its content was loaded.
    Loaded(T),
    /// It was refused for this; want of memory is no refusal.
    Refused(FileRefusal),
}

impl<T: Drop> FileLoad<T> {
    /// The content of the file that was loaded, if one was.
    pub fn loaded(self) -> Option<T>
        ensures { result ≡ load_content self }
    {
        match self {
            FileLoad::Loaded(content) => Some(content),
            _ => None,
        }
    }

    /// Why a file that is loaded before the first screen was refused, if it was.
    fn refusal(&self) -> Option<FileRefusal>
        ensures { result ≡ load_refusal self.now }
    {
        match self {
            FileLoad::Refused(refusal) => Some(*refusal),
            _ => None,
        }
    }
}

impl FileLoad<Vec<u8>> {
    /// The bytes with which an editor is opened: those that were loaded, and else none.
    pub fn bytes(self, alloc: Global) -> Vec<u8>
        ensures { result.items ≡ loaded_input (input_reply self) }
    {
        match self {
            FileLoad::Loaded(bytes) => bytes,
            load => {
                drop(load);
                Vec::new(alloc)
            }
        }
    }
}

/// What came of the first loads, of the program and of its input.
#[derive(Drop)]
pub struct FirstLoads {
    /// The program.
    pub program: FileLoad<Tree>,
    /// The bytes of the program's input, 1,048,576 at most.
    pub input: FileLoad<Vec<u8>>,
}

impl FirstLoads {
    /// The first refusal of the two, that of the program before that of its input.
    pub fn first_refusal(&self) -> Option<FileRefusal>
        ensures { result ≡ first_refusal (plain_first_loads self.now) }
    {
        match self.program.refusal() {
            Some(refusal) => Some(refusal),
            None => self.input.refusal(),
        }
    }
}

/// Loads the program and then its input, as far as the options name files for them. The input is loaded
/// also where the program was refused.
pub fn load_first<F: Files>(
    alloc: Global,
    options: &Options<'_>,
    files: &mut F,
) -> Result<FirstLoads, OutOfMemory>
    ensures loads { IfOk result (λ loads. BothLoad (plain_options options.now) (plain_first_loads loads)
        (F.told files.old) (F.told files.new)) }
    ensures tree { IfOk result (λ loads. IsTreeIfLoaded loads.program) }
    ensures within { IfOk result (λ loads. IsInputIfLoaded loads.input) }
    ensures wanted { IfErr result (λ _. LoadsNothing (F.told files.old) (F.told files.new)) }
{
    let Ok(program) = load_program(alloc, options.program, files) else {
        return Err(OutOfMemory);
    };
    match load_program_input(alloc, options.input, files) {
        Ok(input) => Ok(FirstLoads { program, input }),
        Err(OutOfMemory) => {
            drop(program);
            Err(OutOfMemory)
        }
    }
}

/// Loads the program before the first screen, from the file of the name, if one is named.
fn load_program<F: Files>(
    alloc: Global,
    name: Option<&str>,
    files: &mut F,
) -> Result<FileLoad<Tree>, OutOfMemory>
    ensures loads { IfOk result (λ load. ProgramLoads (option_map (λ name. name.now) name.entry) (program_reply load)
        (F.told files.old) (F.told files.new)) }
    ensures tree { IfOk result IsTreeIfLoaded }
    ensures wanted { IfErr result (λ _. LoadsNothing (F.told files.old) (F.told files.new)) }
{
    room_is_not_shown();
    loading_ignores_room();
    let Some(name) = name else {
        return Ok(FileLoad::NotAsked);
    };
    match load(alloc, name.as_bytes(), files) {
        Ok(tree) => Ok(FileLoad::Loaded(tree)),
        Err(refusal) => match refusal {
            FileRefusal::OutOfMemory => Err(OutOfMemory),
            _ => Ok(FileLoad::Refused(refusal)),
        },
    }
}

/// Loads the program's input before the first screen, from the file of the name, if one is named.
fn load_program_input<F: Files>(
    alloc: Global,
    name: Option<&str>,
    files: &mut F,
) -> Result<FileLoad<Vec<u8>>, OutOfMemory>
    ensures loads { IfOk result (λ load. InputLoads (option_map (λ name. name.now) name.entry) (input_reply load)
        (F.told files.old) (F.told files.new)) }
    ensures within { IfOk result IsInputIfLoaded }
    ensures wanted { IfErr result (λ _. LoadsNothing (F.told files.old) (F.told files.new)) }
{
    let Some(name) = name else {
        return Ok(FileLoad::NotAsked);
    };
    match load_input(alloc, name.as_bytes(), files) {
        Ok(bytes) => Ok(FileLoad::Loaded(bytes)),
        Err(refusal) => match refusal {
            FileRefusal::OutOfMemory => Err(OutOfMemory),
            _ => Ok(FileLoad::Refused(refusal)),
        },
    }
}
