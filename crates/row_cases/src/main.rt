//! Plays a script of cases on rows of cells and on texts, by which the kernels are asked.
//! It prints each line of the script, and after a case what the calls answered.
#![tactic(auto)]

mod call;
mod rows;
mod texts;

use crate::call::{CALLS, play};
use case_script::{Told, meaning, print_told, words_of};
use std::alloc::Global;
use std::io;
use std::io::{BufRead, BufReader};

fn main(rt: HostRuntime) -> io::Result<()> {
    let alloc = rt.alloc();
    let mut told = Told::new(alloc);
    for line in BufReader::new(alloc, rt.reader())?.lines(alloc) {
        let line = line?;
        println!(&rt; "{line}")?;
        play_line(alloc, line.as_bytes(), &mut told);
        print_told(&rt, &told)?;
    }
    Ok(())
}

/// Plays a line of the script on rows and texts, which is a case unless it is empty or a heading, and tells its answer.
fn play_line(alloc: Global, line: &[u8], told: &mut Told) {
    told.clear();
    if matches!(line, [] | [b'#', ..]) {
        return;
    }
    if play_case(alloc, line, told).is_none() {
        told.clear();
        told.line("NOT A CASE");
    }
}

/// Plays a case on rows and texts, if it is one.
fn play_case(alloc: Global, case: &[u8], told: &mut Told) -> Option<()> {
    match words_of(alloc, case) {
        Ok(Some(words)) => play_words(words.as_slice(), told),
        _ => None,
    }
}

/// Makes the call on rows or texts that a case asks for by these words, if it is one, and tells its answer.
fn play_words(words: &[Vec<u8>], told: &mut Told) -> Option<()> {
    let (word, arguments) = words.split_first()?;
    play(meaning(&CALLS, word.as_slice())?, arguments, told)
}
