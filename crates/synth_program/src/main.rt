//! The program: key bytes on standard input, screens on standard output, files in the current folder.
#![tactic(auto)]

use plcs_base::Counts;
use regular_files::RegularFiles;
use std::env;
use std::process::ExitCode;
use synth_outside::{StdSink, StdSource};
use synth_top::{Status, synth, words_of};

/// Runs the editor over the system's streams and the files of the current folder, without a journal.
fn run(rt: &HostRuntime) -> Status {
    let alloc = rt.alloc();
    let words = match words_of(alloc, env::args(rt)) {
        Ok(words) => words,
        Err(status) => return status,
    };
    let mut keys = StdSource::new(rt.stdin());
    let mut screen = StdSink::new(rt.stdout());
    let mut files = RegularFiles::new(rt, alloc);
    let mut work = Counts::default();
    synth(
        alloc,
        words.as_slice(),
        &mut keys,
        &mut screen,
        &mut files,
        &mut work,
    )
}

fn main(rt: HostRuntime) -> ExitCode {
    let status = run(&rt);
    if status == Status::BadWords {
        // The status tells it too, where nothing can be written.
        let _ = eprintln!(&rt;
            "usage: synth [--kept] [--rows N] [--cols N] [--keys N] [--input FILE] [--make N] [PROGRAM]"
        );
    }
    ExitCode::from(status.code())
}
