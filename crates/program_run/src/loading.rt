//! The files that are loaded for the run of a saved program: the program, and then its input.
ghost use Rattle.std.specs.Prelude.{◌≡◌, IfErr, IfOk, IsErrAnd, IsErrOf, option_map, Ok};
ghost use Rattle.template_tree.specs.Programs.Tree.{IsTree};
ghost use Rattle.file_store.specs.FileReading.{LoadingSays};
ghost use Rattle.file_store.specs.Limit.{longest_input};
ghost use Rattle.file_store.specs.declared.refusal.FileRefusal.{FileRefusal};
ghost use Rattle.program_run.specs.RunFiles.{AreLoaded, IsFileFault, IsInputOf, IsInputRefused, IsProgramRefused, OnlyLoads};
ghost use Rattle.program_run.specs.Private.LoadedFiles.{AreRefused, InputNotLoaded, ProgramNotLoaded, ending_of_input, ending_of_program};
ghost use Rattle.program_run.specs.Private.PlainForms.{plain_asked_run};

use crate::asked_run::AskedRun;
use crate::ending::Ending;
use file_store::{FileRefusal, load, load_input};
use std::alloc::Global;
use synth_outside::Files;
use template_tree::Tree;

/// What was loaded for a run.
#[derive(Drop)]
pub(crate) struct LoadedRun {
    /// The program.
    pub(crate) tree: Tree,
    /// The bytes of its input, 1,048,576 at most.
    pub(crate) input: Vec<u8>,
}

/// Loads the program and then the input of the run that is asked for; without the program no input is loaded.
pub(crate) fn load_both<F: Files>(
    alloc: Global,
    asked: &AskedRun<'_>,
    files: &mut F,
) -> Result<LoadedRun, Ending>
    ensures loaded { IfOk result (λ loaded.
        AreLoaded (plain_asked_run asked.now) (F.told files.old).stored loaded.tree loaded.input.items) }
    ensures refused { IfErr result (AreRefused (plain_asked_run asked.now) (F.told files.old).stored) }
    ensures files { OnlyLoads (IsErrAnd result IsFileFault) (IsErrOf result Ending.NoMemory)
        (F.told files.old) (F.told files.new) (F.begun files.old) (F.begun files.new) }
{
    let tree = load_program(alloc, asked.program.as_bytes(), files)?;
    let input = load_input_of(alloc, asked.input, files)?;
    Ok(LoadedRun { tree, input })
}

/// Loads the program of a run from the file of the name.
fn load_program<F: Files>(alloc: Global, name: &[u8], files: &mut F) -> Result<Tree, Ending>
    ensures loaded { IfOk result (λ tree. LoadingSays (F.told files.old).stored name.now (Ok tree)) }
    ensures tree { IfOk result IsTree }
    ensures refused { IfErr result (ProgramNotLoaded (F.told files.old).stored name.now) }
    ensures files { OnlyLoads (IsErrOf result (Ending.ProgramRefused FileRefusal.FileFault))
        (IsErrOf result Ending.NoMemory) (F.told files.old) (F.told files.new) (F.begun files.old) (F.begun files.new) }
{
    match load(alloc, name, files) {
        Ok(tree) => Ok(tree),
        Err(refusal) => Err(ending_of_program(refusal)),
    }
}

/// Loads the input of a run from the file of the name, if one is named; else it is empty.
fn load_input_of<F: Files>(
    alloc: Global,
    name: Option<&str>,
    files: &mut F,
) -> Result<Vec<u8>, Ending>
    ensures loaded { IfOk result (λ input.
        IsInputOf (F.told files.old).stored (option_map (λ name. name.now) name.entry) input.items) }
    ensures refused { IfErr result
        (InputNotLoaded (F.told files.old).stored (option_map (λ name. name.now) name.entry)) }
    ensures files { OnlyLoads (IsErrOf result (Ending.InputRefused FileRefusal.FileFault))
        (IsErrOf result Ending.NoMemory) (F.told files.old) (F.told files.new) (F.begun files.old) (F.begun files.new) }
{
    let Some(name) = name else {
        return Ok(Vec::new(alloc));
    };
    match load_input(alloc, name.as_bytes(), files) {
        Ok(input) => Ok(input),
        Err(refusal) => Err(ending_of_input(refusal)),
    }
}

/// How the run ends whose program isn't loaded, for this reason.
fn ending_of_program(refusal: FileRefusal) -> Ending
    ensures { result ≡ ending_of_program refusal }
{
    match refusal {
        FileRefusal::OutOfMemory => Ending::NoMemory,
        _ => Ending::ProgramRefused(refusal),
    }
}

/// How the run ends whose input isn't loaded, for this reason.
fn ending_of_input(refusal: FileRefusal) -> Ending
    ensures { result ≡ ending_of_input refusal }
{
    match refusal {
        FileRefusal::OutOfMemory => Ending::NoMemory,
        _ => Ending::InputRefused(refusal),
    }
}
