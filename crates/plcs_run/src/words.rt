//! The words that the system hands to the command that runs saved programs.

ghost use Rattle.std.specs.Prelude.{◌≡◌, drop, IfErr, IfOk, IsOkAnd};
ghost use Rattle.std.specs.Vec.Iter.{into_iter_items};

use program_run::Ending;
use std::alloc::Global;
use std::env::Args;
use std::io;
use std::io::{Error, ErrorKind};

/// The words that follow the name of the command that runs saved programs, of all that the system gave: each as
/// it is, and in order. It is `NoMemory` where memory ran out. Where one isn't text the system gave none, and
/// it is `BadWords`.
pub fn words_of(alloc: Global, given: io::Result<Args>) -> Result<Vec<String>, Ending>
    ensures { IfOk result (λ words. IsOkAnd given (λ all. words.items ≡ drop 1 (into_iter_items all))) }
{
    match given {
        Ok(all) => words_after_first(alloc, all),
        Err(error) => Err(ending_of(&error)),
    }
}

/// The words that the command for saved programs is handed, without the first, its name; it is `NoMemory` where
/// memory runs out over them.
fn words_after_first(alloc: Global, mut all: Args) -> Result<Vec<String>, Ending>
    ensures all { IfOk result (λ words. words.items ≡ drop 1 (into_iter_items all)) }
    ensures wanted { IfErr result (λ ending. ending ≡ Ending.NoMemory) }
{
    let _ = all.next();
    let mut words = Vec::new(alloc);
    for word in all {
        words.push(word).map_err(|_| Ending::NoMemory)?;
    }
    Ok(words)
}

/// How the command ends where the system hands it no words, for this error.
fn ending_of(error: &Error) -> Ending {
    match error.kind() {
        ErrorKind::OutOfMemory => Ending::NoMemory,
        _ => Ending::BadWords,
    }
}
