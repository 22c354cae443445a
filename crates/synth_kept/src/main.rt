//! The program: key bytes on standard input, each kept in the file `JOURNAL` before it is acted on, and
//! screens on standard output.
#![tactic(auto)]

mod kept;
mod status;

use kept::synth_kept;
use key_journal::StdDisk;
use plcs_base::Counts;
use regular_files::RegularFiles;
use status::KeptStatus;
use std::io::ErrorKind;
use std::process::ExitCode;
use std::{env, io};
use synth_outside::{StdSink, StdSource};
use synth_top::{Status, words_of};

/// How the program ends where the file `JOURNAL` can't be opened.
fn status_of(error: &io::Error) -> KeptStatus {
    match error.kind() {
        ErrorKind::OutOfMemory => KeptStatus::Run(Status::NoMemory),
        _ => KeptStatus::JournalFault,
    }
}

/// Runs the editor that keeps its keys, over the system's streams, with the journal in the current
/// folder.
fn run(rt: &HostRuntime) -> KeptStatus {
    let alloc = rt.alloc();
    let words = match words_of(alloc, env::args(rt)) {
        Ok(words) => words,
        Err(status) => return KeptStatus::Run(status),
    };
    let disk = match StdDisk::open(rt) {
        Ok(disk) => disk,
        Err(error) => return status_of(&error),
    };
    let mut screen = StdSink::new(rt.stdout());
    let mut files = RegularFiles::new(rt, alloc);
    let mut work = Counts::default();
    let (status, _, _) = synth_kept(
        alloc,
        words.as_slice(),
        StdSource::new(rt.stdin()),
        &mut screen,
        &mut files,
        disk,
        &mut work,
    );
    status
}

fn main(rt: HostRuntime) -> ExitCode {
    let status = run(&rt);
    if status == KeptStatus::Run(Status::BadWords) {
        let _ = eprintln!(&rt;
            "usage: synth [--kept] [--rows N] [--cols N] [--keys N] [--input FILE] [--make N] [PROGRAM]"
        );
    }
    ExitCode::from(status.code())
}

#[cfg(test)]
mod crash_tests;
#[cfg(test)]
mod images;
#[cfg(test)]
mod playing;
#[cfg(test)]
mod row_tests;
