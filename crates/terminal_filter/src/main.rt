//! The program: a terminal's bytes on standard input, those that the editor knows on standard output, and a bell on
//! standard error for what is dropped.
#![tactic(auto)]

use std::process::ExitCode;
use synth_outside::{StdSink, StdSource};
use terminal_keys::pass_keys;

fn main(rt: HostRuntime) -> ExitCode {
    let mut keys = StdSource::new(rt.stdin());
    let mut editor = StdSink::new(rt.stdout());
    let mut bells = StdSink::new(rt.stderr());
    ExitCode::from(pass_keys(&mut keys, &mut editor, &mut bells).code())
}
