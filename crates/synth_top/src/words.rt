//! The words that the system hands to a program of the editor.

ghost use Rattle.std.specs.Prelude.{◌≡◌, ◌≢◌, ◌⊎◌, drop, IfErr, IfOk, IsErrAnd, IsOkAnd};
ghost use Rattle.std.specs.IoError.{error_kind};
ghost use Rattle.std.specs.Vec.Iter.{into_iter_items};

use crate::status::Status;
use std::alloc::Global;
use std::env::Args;
use std::io;
use std::io::{Error, ErrorKind};

/// The words that follow the name of a program of the editor, of all that the system gave: each as it is, and
/// in order. It is `NoMemory` where memory ran out, and then none is handed over. Where one isn't text the
/// system gave none, and it is `BadWords`, since such a word is none of the command.
pub fn words_of(alloc: Global, given: io::Result<Args>) -> Result<Vec<String>, Status>
    ensures all { IfOk result (λ words. IsOkAnd given (λ all. words.items ≡ drop 1 (into_iter_items all))) }
    ensures none { IfErr result (λ status. (status ≡ Status.NoMemory)
        ⊎ ((status ≡ Status.BadWords) × IsErrAnd given (λ error. error_kind error ≢ ErrorKind.OutOfMemory))) }
{
    match given {
        Ok(all) => words_after_first(alloc, all),
        Err(error) => Err(status_of(&error)),
    }
}

/// The words after the first, which is the name of the editor's program; it is `NoMemory` where memory runs out
/// over them.
fn words_after_first(alloc: Global, mut all: Args) -> Result<Vec<String>, Status>
    ensures all { IfOk result (λ words. words.items ≡ drop 1 (into_iter_items all)) }
    ensures wanted { IfErr result (λ status. status ≡ Status.NoMemory) }
{
    // The first word is the program's name.
    let _ = all.next();
    let mut words = Vec::new(alloc);
    for word in all {
        let Ok(()) = words.push(word) else {
            return Err(Status::NoMemory);
        };
    }
    Ok(words)
}

/// How a program of the editor ends to which the system hands no words.
fn status_of(error: &Error) -> Status
    ensures { ((result ≡ Status.NoMemory) × (error_kind error.now ≡ ErrorKind.OutOfMemory))
        ⊎ ((result ≡ Status.BadWords) × (error_kind error.now ≢ ErrorKind.OutOfMemory)) }
{
    match error.kind() {
        ErrorKind::OutOfMemory => Status::NoMemory,
        _ => Status::BadWords,
    }
}
