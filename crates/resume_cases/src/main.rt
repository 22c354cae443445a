//! A script of cases on runs that stand still: stepped and stepped back, their programs edited under them, and resumed
//! where that may be. Each line of the script is printed as it is, and after a case its answer, in lines that begin
//! with
//! `= `.
#![tactic(auto)]

ghost use Rattle.resume_cases.specs.Private.BenchRun.{IsBench};

mod bench;
mod call;
mod code;
mod edit_word;
mod edits;
mod held;
mod program;
mod resumption;
mod scene;
mod steps;
mod stop;
mod suspended;
mod telling;

use bench::Bench;
use call::{CALLS, Call};
use case_script::{Told, meaning, print_told, words_of};
use held::Held;
use std::alloc::Global;
use std::io::{BufRead, BufReader, ErrorKind};
use std::{io, mem};

fn main(rt: HostRuntime) -> io::Result<()> {
    match Held::new(rt.alloc()) {
        Some(mut held) => {
            let played = play_script(&rt, &mut held);
            drop(held);
            played
        }
        None => Err(io::Error::from(ErrorKind::OutOfMemory)),
    }
}

/// Plays the script of cases on suspended runs that standard input has.
fn play_script(rt: &HostRuntime, held: &mut Held) -> io::Result<()>
    requires { IsBench held.old.bench }
{
    let mut told = Told::new(rt.alloc());
    let played = play_lines(rt, held, &mut told);
    drop(told);
    played
}

/// Plays the lines of the script on suspended runs that standard input has.
fn play_lines(rt: &HostRuntime, held: &mut Held, told: &mut Told) -> io::Result<()>
    requires { IsBench held.old.bench }
{
    let alloc = rt.alloc();
    for line in BufReader::new(alloc, rt.reader())?.lines(alloc) {
        play_read(rt, held, line, told)?;
    }
    Ok(())
}

/// Plays a line of the script on suspended runs, once it was read.
fn play_read(
    rt: &HostRuntime,
    held: &mut Held,
    line: io::Result<String>,
    told: &mut Told,
) -> io::Result<()>
    requires { IsBench held.old.bench }
    ensures { IsBench held.new.bench }
{
    match line {
        Ok(line) => {
            let played = play_shown(rt, held, line.as_str(), told);
            drop(line);
            played
        }
        Err(error) => Err(error),
    }
}

/// Prints a line of the script on suspended runs, plays it, and prints what is told.
fn play_shown(rt: &HostRuntime, held: &mut Held, line: &str, told: &mut Told) -> io::Result<()>
    requires { IsBench held.old.bench }
    ensures { IsBench held.new.bench }
{
    println!(rt; "{line}")?;
    play_line(held, line.as_bytes(), told)?;
    print_told(rt, told)
}

/// Plays a line of the script on suspended runs: a heading, a line of text, or a case, whose answer is told.
fn play_line(held: &mut Held, line: &[u8], told: &mut Told) -> io::Result<()>
    requires { IsBench held.old.bench }
    ensures { IsBench held.new.bench }
{
    told.clear();
    match line {
        [] | [b'#', ..] => Ok(()),
        [b'|', b' ', text @ ..] => keep_text(&mut held.text, told.alloc(), text),
        case => {
            answer_case(held, case, told);
            Ok(())
        }
    }
}

/// Keeps a line of text for the next case on suspended runs.
fn keep_text(lines: &mut Vec<Vec<u8>>, alloc: Global, line: &[u8]) -> io::Result<()> {
    lines.push(line.to_vec(alloc)?)?;
    Ok(())
}

/// Plays a case on suspended runs, or tells that it isn't one, and lets go of the lines of text before it.
fn answer_case(held: &mut Held, case: &[u8], told: &mut Told)
    requires { IsBench held.old.bench }
    ensures { IsBench held.new.bench }
{
    if play_case(held, case, told).is_none() {
        told.clear();
        told.line("NOT A CASE");
    }
    held.text.clear();
}

/// Plays a case on suspended runs, if it is one.
fn play_case(held: &mut Held, case: &[u8], told: &mut Told) -> Option<()>
    requires { IsBench held.old.bench }
    ensures { IsBench held.new.bench }
{
    match words_of(told.alloc(), case) {
        Ok(Some(words)) => {
            let played = play_words(held, words.as_slice(), told);
            drop(words);
            played
        }
        _ => None,
    }
}

/// Plays the case on suspended runs that the first word names, with the words after it.
fn play_words(held: &mut Held, words: &[Vec<u8>], told: &mut Told) -> Option<()>
    requires { IsBench held.old.bench }
    ensures { IsBench held.new.bench }
{
    let (word, words) = words.split_first()?;
    play(held, meaning(&CALLS, word.as_slice())?, words, told)
}

/// Plays one of the script's cases on suspended runs, if it is one that takes these words; most change the
/// program, the run or the scene.
fn play(held: &mut Held, call: Call, words: &[Vec<u8>], told: &mut Told) -> Option<()>
    requires { IsBench held.old.bench }
    ensures { IsBench held.new.bench }
{
    match (call, words) {
        (Call::New, []) => program::begin(&mut held.bench, told),
        (Call::Program, []) => program::read(&mut held.bench, held.text.as_slice(), told),
        (Call::Edit, words) => edits::tell_edit(&mut held.bench, &mut held.clips, words, told),
        (Call::Run, []) => steps::run(&mut held.bench, told),
        (Call::Step, [most]) => {
            steps::step_on(&mut held.bench, held.input.as_slice(), most, told)
        }
        (Call::Back, [most]) => steps::step_back(&mut held.bench, most, told),
        (Call::Resume, []) => resumption::resume(&mut held.bench, told),
        (Call::Scene, [steps]) => scene::keep_scene(held, steps, told),
        (Call::After, words) => scene::after(held, words, told),
        (Call::Input, [input]) => keep_input(held, input, told),
        (call, words) => ask(&held.bench, held.input.as_slice(), call, words, told),
    }
}

/// Plays one of the script's cases on suspended runs, if it is one that leaves all as it is and takes these
/// words.
fn ask(bench: &Bench, input: &[u8], call: Call, words: &[Vec<u8>], told: &mut Told) -> Option<()>
    requires { IsBench bench.now }
{
    match (call, words) {
        (Call::Ask, []) => resumption::ask(bench, told),
        (Call::Frames, []) => telling::tell_frames(bench, told),
        (Call::Cells, [frame, name]) => telling::tell_cells(bench, frame, name, told),
        (Call::Output, []) => telling::tell_output(bench, told),
        (Call::Left, []) => telling::tell_left(bench, input, told),
        _ => None,
    }
}

/// In a script of cases on runs that stand still, makes the bytes of a word the input of the runs, and tells
/// how many there are.
fn keep_input(held: &mut Held, input: &[u8], told: &mut Told) -> Option<()>
    requires { IsBench held.old.bench }
    ensures { IsBench held.new.bench }
{
    match input.to_vec(told.alloc()) {
        Ok(input) => {
            drop(mem::replace(&mut held.input, input));
            told.value(&held.input.len());
            told.line(" bytes");
            Some(())
        }
        Err(_) => None,
    }
}
