//! A saved program that is run at once: words come in, and what the program writes goes out.
#![tactic(auto)]

ghost use Rattle.std.specs.Prelude.{◌≡◌, ◌⊎◌, ◌≤◌, None, length, map, IfSome, string_bytes};
ghost use Rattle.synth_outside.specs.Cause.{RisesWith};
ghost use Rattle.template_tree.specs.Programs.Tree.{IsTree};
ghost use Rattle.file_store.specs.Limit.{longest_input};
ghost use Rattle.file_store.specs.Want.{MayRiseWith};
ghost use Rattle.program_run.specs.AskedRun.{asked_run_of};
ghost use Rattle.program_run.specs.RunOutcome.{ComesTo, RunsTo, told_run};
ghost use Rattle.program_run.specs.RunFiles.{IsFileFault, OnlyLoads};
ghost use Rattle.program_run.specs.Private.PlainForms.{plain_asked_run};

mod asked_run;
mod command;
mod ending;
mod line_cut;
mod line_search;
mod loading;
mod report;
mod running;
mod stopped_line;
mod writing;

use asked_run::{AskedRun, asked_run_of};
pub use ending::Ending;
use loading::{LoadedRun, load_both};
use plcs_base::{OutOfMemory, Work};
pub use report::{Report, put_report};
use running::run_tree;
use std::alloc::Global;
use stopped_line::line_told;
pub use stopped_line::{LONGEST_SHOWN, StoppedLine};
use synth_outside::{Files, Sink};
use writing::write_output;

/// Runs a saved program: reads the words that follow the command's name, loads the file with the program and the
/// one with its input, runs the program from its start, and then writes what the program wrote to the output.
///
/// The words are `--steps N`, `PROGRAM` and `INPUT`; the first and the last may be left out. N is from 1 to
/// 1,000,000,000, and 100,000,000 where it is left out; a value stands in the next word, or in the same behind `=`,
/// and behind `--` no word is an option. Without INPUT the input is empty. A file name is one of the editor's.
///
/// The run goes on until a step can't be made, the run is over, or as many steps were made as may be. What the
/// program wrote before memory ran out in a step is written out too. Where output or files tell nothing of their
/// bytes, what is claimed of the others stands all the same.
pub fn run_program<K: Sink, F: Files, W: Work>(
    alloc: Global,
    words: &[String],
    output: &mut K,
    files: &mut F,
    work: &mut W,
) -> Report
    // Words that aren't of the command are refused before anything is read or written, unless memory runs out.
    ensures bad_words { asked_run_of (map string_bytes words.now) ≡ None →
        ((result.ending ≡ Ending.BadWords) ⊎ (result.ending ≡ Ending.NoMemory)) × (result.line ≡ None)
        × (output.new ≡ output.old) × (files.new ≡ files.old) × (work.new ≡ work.old) }

    // With words of the command the run that they ask for came to what its ending says: the bytes that were
    // written are the output of the configuration that so many steps lead to from the program's first, and just
    // what these steps fetch was counted.
    ensures comes_to { IfSome (asked_run_of (map string_bytes words.now)) (λ asked.
        ComesTo asked (F.told files.old).stored result.ending result.line
        (told_run (K.taken output.old) (K.wants output.old) (W.counts work.old))
        (told_run (K.taken output.new) (K.wants output.new) (W.counts work.new))) }

    // A failed write is answered exactly where the output's count of faults rose, and its count of wants rises
    // with want of memory alone.
    ensures write { RisesWith (result.ending ≡ Ending.WriteFault) (K.faults output.old) (K.faults output.new) }
    ensures want { MayRiseWith (result.ending ≡ Ending.NoMemory) (K.wants output.old) (K.wants output.new) }

    // The files are only read, and a fault of theirs is answered exactly where their count of faults rose.
    ensures files { OnlyLoads (IsFileFault result.ending) (result.ending ≡ Ending.NoMemory)
        (F.told files.old) (F.told files.new) (F.begun files.old) (F.begun files.new) }
{
    match asked_run_of(alloc, words) {
        Ok(asked) => run_asked(alloc, &asked, output, files, work),
        Err(ending) => Report::without_line(ending),
    }
}

/// Runs the saved program that the words ask for.
fn run_asked<K: Sink, F: Files, W: Work>(
    alloc: Global,
    asked: &AskedRun<'_>,
    output: &mut K,
    files: &mut F,
    work: &mut W,
) -> Report
    ensures comes_to { ComesTo (plain_asked_run asked.now) (F.told files.old).stored result.ending result.line
        (told_run (K.taken output.old) (K.wants output.old) (W.counts work.old))
        (told_run (K.taken output.new) (K.wants output.new) (W.counts work.new)) }
    ensures write { RisesWith (result.ending ≡ Ending.WriteFault) (K.faults output.old) (K.faults output.new) }
    ensures want { MayRiseWith (result.ending ≡ Ending.NoMemory) (K.wants output.old) (K.wants output.new) }
    ensures files { OnlyLoads (IsFileFault result.ending) (result.ending ≡ Ending.NoMemory)
        (F.told files.old) (F.told files.new) (F.begun files.old) (F.begun files.new) }
{
    let loaded = match load_both(alloc, asked, files) {
        Ok(loaded) => loaded,
        Err(ending) => return Report::without_line(ending),
    };
    run_loaded(alloc, &loaded, asked.steps, output, work)
}

/// Runs the program that was loaded over its input, for so many steps at most, and writes its output.
fn run_loaded<K: Sink, W: Work>(
    alloc: Global,
    loaded: &LoadedRun,
    steps: u32,
    output: &mut K,
    work: &mut W,
) -> Report
    requires tree { IsTree loaded.now.tree }
    requires short { length loaded.now.input.items ≤ longest_input }
    ensures runs { RunsTo loaded.now.tree.items loaded.now.input.items steps result.ending result.line
        (told_run (K.taken output.old) (K.wants output.old) (W.counts work.old))
        (told_run (K.taken output.new) (K.wants output.new) (W.counts work.new)) }
    ensures write { RisesWith (result.ending ≡ Ending.WriteFault) (K.faults output.old) (K.faults output.new) }
    ensures want { MayRiseWith (result.ending ≡ Ending.NoMemory) (K.wants output.old) (K.wants output.new) }
{
    let made = match run_tree(alloc, &loaded.tree, loaded.input.as_slice(), steps, work) {
        Ok(made) => made,
        Err(OutOfMemory) => return Report::without_line(Ending::NoMemory),
    };
    let ending = write_output(made.ending, made.state.output.as_slice(), output);
    let line = line_told(&loaded.tree, ending, &made.state);
    Report { ending, line }
}
