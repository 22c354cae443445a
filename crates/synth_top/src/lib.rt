//! The editor as a whole: words and key bytes come in, screens go out.
#![tactic(auto)]

ghost use Rattle.std.specs.Prelude.{◌≡◌, ◌⊎◌, None, map, IfSome, string_bytes};
ghost use Rattle.synth_outside.specs.Cause.{RisesWith};
ghost use Rattle.synth_top.specs.Private.PlainForms.{plain_options};
ghost use Rattle.synth_top.specs.WholeRun.{Ended, TaskEnded};
ghost use Rattle.synth_top.specs.Status.{LeftAs};
ghost use Rattle.synth_top.specs.Task.{IsMaking, task_of};

mod command;
mod editor;
mod key;
mod loading;
mod maker;
mod making;
mod number;
mod options;
mod status;
mod summary;
mod task;
mod words;

use editor::{Editor, run};
pub use key::{KeyReader, Keys};
use loading::load_first;
use maker::make;
use options::Options;
use plcs_base::{OutOfMemory, Work};
pub use status::Status;
use std::alloc::Global;
use synth_outside::{Files, Sink, Source};
pub use synth_session::Key;
use task::{Task, task_of};
pub use words::words_of;

/// The editor as a whole: reads the words that follow the program's name, loads the files that they name, and
/// then writes the opening screen of the program that is edited and one screen after each key to the screen's
/// sink, until a key ends the session or the source of keys ends. Key bytes are taken one a read, and no read
/// is made after the source's end, the limit or a quit. Where a key wants memory, it does nothing, and the
/// editor ends.
///
/// The words are `--rows N`, `--cols N`, `--keys N`, `--input FILE` and `PROGRAM`, each once at most and in any
/// order; a value stands in the next word, or in the same behind `=`, and behind `--` no word is an option.
/// Without them the screen has 24 rows and 80 columns, 1,000,000,000 bytes of keys are taken at most, the
/// program is a new one, and its input is empty. Where a file is refused, the opening screen says so, and the
/// session begins as without it.
///
/// The words may be `--make N` instead, and nothing else. Then a program of N statements more is made, run and
/// summarized: keys for it are pressed on a session of 24 rows and 80 columns without a screen, and four lines of a
/// summary are written. No key is read, no file is touched, and nothing is saved where memory runs out.
///
/// Where memory runs out while a session is open, its program is saved under the name `RESCUE`, as far as the
/// files allow. Where source, sink or files tell nothing of their bytes, what is claimed of the others stands all
/// the same.
pub fn synth<S: Source, K: Sink, F: Files, W: Work>(
    alloc: Global,
    words: &[String],
    keys: &mut S,
    screen: &mut K,
    files: &mut F,
    work: &mut W,
) -> Status
    // Words that aren't of the command are refused before anything is read or written, unless memory runs out.
    ensures bad_words { task_of (map string_bytes words.now) ≡ None →
        ((result ≡ Status.BadWords) ⊎ (result ≡ Status.NoMemory))
        × (keys.new ≡ keys.old) × (screen.new ≡ screen.old) × (files.new ≡ files.old) × (work.new ≡ work.old) }

    // Where a program is made, neither keys nor files are touched.
    ensures untouched { IsMaking (task_of (map string_bytes words.now)) →
        (keys.new ≡ keys.old) × (files.new ≡ files.old) }

    // With words of the command the task that they ask for was done as its record says, and ended as the status says.
    ensures ended { IfSome (task_of (map string_bytes words.now)) (λ task.
        TaskEnded task result
        (record {
          streams = record {
            left = S.left keys.old;
            reads = S.reads keys.old;
            taken = K.taken screen.old;
            wants = K.wants screen.old;
          };
          files = F.told files.old;
          counts = W.counts work.old;
        })
        (record {
          streams = record {
            left = S.left keys.new;
            reads = S.reads keys.new;
            taken = K.taken screen.new;
            wants = K.wants screen.new;
          };
          files = F.told files.new;
          counts = W.counts work.new;
        })
        (S.leads_to keys.old keys.new) (S.breaks_at keys.old keys.new)) }

    // A fault is answered exactly where the count of its own cause rose.
    ensures read { RisesWith (result ≡ Status.ReadFault) (S.faults keys.old) (S.faults keys.new) }
    ensures write { RisesWith (result ≡ Status.WriteFault)
        (K.faults screen.old) (K.faults screen.new) }

    // Of what the source keeps besides its bytes, its own relations hold.
    ensures source { LeftAs result (S.leads_to keys.old keys.new) (S.breaks_at keys.old keys.new) }
{
    match task_of(alloc, words) {
        Ok(Task::Edit(options)) => edit(alloc, &options, keys, screen, files, work),
        Ok(Task::Make(number)) => make(alloc, number, screen, work),
        Err(status) => status,
    }
}

/// The editor as a whole, as the options ask for it: it loads files, runs the session to its end, and saves
/// where memory ran out.
fn edit<S: Source, K: Sink, F: Files, W: Work>(
    alloc: Global,
    options: &Options<'_>,
    keys: &mut S,
    screen: &mut K,
    files: &mut F,
    work: &mut W,
) -> Status
    ensures ended { Ended result (plain_options options.now)
        (record {
          streams = record {
            left = S.left keys.old;
            reads = S.reads keys.old;
            taken = K.taken screen.old;
            wants = K.wants screen.old;
          };
          files = F.told files.old;
          counts = W.counts work.old;
        })
        (record {
          streams = record {
            left = S.left keys.new;
            reads = S.reads keys.new;
            taken = K.taken screen.new;
            wants = K.wants screen.new;
          };
          files = F.told files.new;
          counts = W.counts work.new;
        })
        (S.leads_to keys.old keys.new) (S.breaks_at keys.old keys.new) }
    ensures read { RisesWith (result ≡ Status.ReadFault) (S.faults keys.old) (S.faults keys.new) }
    ensures write { RisesWith (result ≡ Status.WriteFault)
        (K.faults screen.old) (K.faults screen.new) }
    ensures source { LeftAs result (S.leads_to keys.old keys.new) (S.breaks_at keys.old keys.new) }
{
    let loads = match load_first(alloc, options, files) {
        Ok(loads) => loads,
        Err(OutOfMemory) => return Status::NoMemory,
    };
    let mut editor = match Editor::open(alloc, options, loads, work) {
        Ok(editor) => editor,
        Err(OutOfMemory) => return Status::NoMemory,
    };
    let status = run(alloc, options, &mut editor, keys, screen, files, work);
    editor.rescue(status, files);
    editor.session.close();
    status
}
