//! A journal in a file of the system, in the folder that the script is run in.

use crate::call::FileCall;
use crate::sessions::{source_of, tell_all};
use case_script::Told;
use key_journal::{JOURNAL, JournalKeys, StdDisk};
use std::{fs, io};
use synth_outside::MemSource;

/// Makes the call on the journal's file with these words behind its name.
pub(crate) fn play(
    rt: &HostRuntime,
    call: FileCall,
    words: &[Vec<u8>],
    told: &mut Told,
) -> Option<()> {
    match (call, words) {
        (FileCall::Session, [keys]) => tell_session(rt, keys, told),
        (FileCall::Bytes, []) => tell_bytes(fs::read(rt, JOURNAL), told),
        (FileCall::Put, [bytes]) => tell_outcome(fs::write(rt, JOURNAL, bytes.as_slice()), told),
        (FileCall::Remove, []) => tell_outcome(fs::remove_file(rt, JOURNAL), told),
        (FileCall::MakeFolder, []) => tell_outcome(fs::create_dir(rt, JOURNAL), told),
        (FileCall::RemoveFolder, []) => tell_outcome(fs::remove_dir(rt, JOURNAL), told),
        _ => None,
    }
}

/// Tells how a session goes over the journal in its file of the system, with these new keys, up to their end.
fn tell_session(rt: &HostRuntime, keys: &[u8], told: &mut Told) -> Option<()> {
    match source_of(told.alloc(), keys) {
        Some(source) => {
            tell_from(rt, source, told);
            Some(())
        }
        None => None,
    }
}

/// Tells how a session goes over the journal in its file of the system, with the new keys of this source.
fn tell_from(rt: &HostRuntime, source: MemSource, told: &mut Told) {
    match StdDisk::open(rt) {
        Ok(disk) => tell_keys(source, disk, told),
        Err(_) => {
            drop(source);
            told.line("not opened");
        }
    }
}

/// Tells the last answer of a session over the journal in its file of the system, and the keys that it gave.
fn tell_keys(source: MemSource, disk: StdDisk, told: &mut Told) {
    match JournalKeys::open(source, disk) {
        Ok(mut journal) => {
            tell_all(&mut journal, told);
            told.line("");
            drop(journal);
        }
        Err(left) => {
            drop(left);
            told.line("not synced");
        }
    }
}

/// Tells the bytes of the journal's file.
fn tell_bytes(bytes: io::Result<Vec<u8>>, told: &mut Told) -> Option<()> {
    match bytes {
        Ok(bytes) => {
            told.word_line(bytes.as_slice());
            drop(bytes);
        }
        Err(_) => told.line("no file"),
    }
    Some(())
}

/// Tells whether a call of the system on the journal's file succeeded.
fn tell_outcome(answer: io::Result<()>, told: &mut Told) -> Option<()> {
    match answer {
        Ok(()) => told.line("Ok"),
        Err(_) => told.line("refused by the system"),
    }
    Some(())
}
