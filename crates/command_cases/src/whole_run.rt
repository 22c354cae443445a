//! Runs of saved programs, and what is told of them.

use crate::saved_files::SavedFiles;
use case_script::Told;
use plcs_base::{ByteOut, Counts};
use program_run::{Report, put_report, run_program};
use std::alloc::Global;
use synth_outside::MemSink;

/// How many bytes of an output are shown.
const MOST_SHOWN: usize = 200;

/// Runs the command with these words over the files, and tells the status, what is reported, and what was written.
pub(crate) fn play(files: &mut SavedFiles, words: &[Vec<u8>], told: &mut Told) -> Option<()> {
    let alloc = told.alloc();
    let words = texts_of(alloc, words)?;
    let mut output = files.sink(alloc)?;
    let mut work = Counts::default();
    let report = run_program(
        alloc,
        words.as_slice(),
        &mut output,
        &mut files.files,
        &mut work,
    );
    tell_report(&report, told);
    tell_output(&output, told);
    Some(())
}

/// The words with which a saved program is run, as texts, if they are texts.
fn texts_of(alloc: Global, words: &[Vec<u8>]) -> Option<Vec<String>> {
    let mut texts = Vec::new(alloc);
    for word in words {
        texts.push(text_of(alloc, word.as_slice())?).ok()?;
    }
    Some(texts)
}

/// A word with which a saved program is run, as a text, if it is one.
fn text_of(alloc: Global, word: &[u8]) -> Option<String> {
    let text = std::str::from_utf8(word).ok()?;
    String::from_str(alloc, text).ok()
}

/// Tells the status of a run, and what is reported of it.
fn tell_report(report: &Report, told: &mut Told) {
    told.value(&report.ending.status());
    told.put(b' ');
    put_report(report, told);
    told.put(b'\n');
}

/// Tells what the run of a saved program wrote, or of more than 200 bytes how many.
fn tell_output(output: &MemSink, told: &mut Told) {
    let bytes = output.bytes();
    if bytes.len() > MOST_SHOWN {
        told.value(&bytes.len());
        told.line(" bytes");
    } else {
        told.word_line(bytes);
    }
}
