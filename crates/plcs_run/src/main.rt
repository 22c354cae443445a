//! The command that runs a saved program: files in the current folder, the program's output on standard output, and one
//! line on standard error where the run didn't end by itself.
#![tactic(auto)]

mod error_line;
mod words;

use error_line::ErrorLine;
use plcs_base::Counts;
use program_run::{Ending, Report, put_report, run_program};
use std::env;
use std::process::ExitCode;
use synth_outside::{StdFiles, StdSink};
use words::words_of;

/// Runs the saved program that the words of the command name, over the system's files.
fn run(rt: &HostRuntime) -> Report {
    let alloc = rt.alloc();
    let words = match words_of(alloc, env::args(rt)) {
        Ok(words) => words,
        Err(ending) => return Report::without_line(ending),
    };
    let mut output = StdSink::new(rt.stdout());
    let mut files = StdFiles::new(rt, alloc);
    let mut work = Counts::default();
    run_program(alloc, words.as_slice(), &mut output, &mut files, &mut work)
}

/// Tells on standard error, in one line, how the run of the saved program ended, where it didn't end by itself.
fn tell(rt: &HostRuntime, report: &Report) {
    if report.ending == Ending::Ended {
        return;
    }
    let mut line = ErrorLine::new();
    put_report(report, &mut line);
    // The status tells it too, where nothing can be written.
    let _ = eprintln!(rt; "{}", line.as_str());
}

fn main(rt: HostRuntime) -> ExitCode {
    let report = run(&rt);
    tell(&rt, &report);
    ExitCode::from(report.ending.status())
}
