//! A script of cases on runs: the items of the input and of the output, what variables keep, the code of programs, and
//! its steps. Each line of the script is printed as it is, and after a case its answer, in lines that begin with `= `.
#![tactic(auto)]

ghost use Rattle.template_tree.specs.Programs.Tree.{IsTree};

mod call;
mod code;
mod held;
mod input;
mod keeping;
mod output;
mod program;
mod run;
mod state;
mod value;

use call::{CALLS, Call};
use case_script::{Told, meaning, print_told, words_of};
use held::Held;
use output::put;
use std::io;
use std::io::{BufRead, BufReader};

fn main(rt: HostRuntime) -> io::Result<()> {
    let mut held = Held::new(rt.alloc())?;
    play_script(&rt, &mut held)
}

/// Plays the script of cases on runs that standard input has.
fn play_script(rt: &HostRuntime, held: &mut Held) -> io::Result<()>
    requires { IsTree held.old.tree }
{
    let alloc = rt.alloc();
    let mut told = Told::new(alloc);
    for line in BufReader::new(alloc, rt.reader())?.lines(alloc) {
        let line = line?;
        println!(rt; "{line}")?;
        play_line(held, line.as_bytes(), &mut told)?;
        print_told(rt, &told)?;
    }
    Ok(())
}

/// Plays a line of the script on runs: a heading, a line of text, or a case, whose answer is told.
fn play_line(held: &mut Held, line: &[u8], told: &mut Told) -> io::Result<()>
    requires { IsTree held.old.tree }
    ensures { IsTree held.new.tree }
{
    told.clear();
    match line {
        [] | [b'#', ..] => {}
        [b'|', b' ', text @ ..] => held.text.push(text.to_vec(told.alloc())?)?,
        case => {
            if play_case(held, case, told).is_none() {
                told.clear();
                told.line("NOT A CASE");
            }
            held.text.clear();
        }
    }
    Ok(())
}

/// Plays a case on runs, if it is one.
fn play_case(held: &mut Held, case: &[u8], told: &mut Told) -> Option<()>
    requires { IsTree held.old.tree }
    ensures { IsTree held.new.tree }
{
    match words_of(told.alloc(), case) {
        Ok(Some(words)) => play_words(held, words.as_slice(), told),
        _ => None,
    }
}

/// Makes the call of a case on runs, which the first word names, with the words behind it.
fn play_words(held: &mut Held, words: &[Vec<u8>], told: &mut Told) -> Option<()>
    requires { IsTree held.old.tree }
    ensures { IsTree held.new.tree }
{
    let (name, words) = words.split_first()?;
    match (meaning(&CALLS, name.as_slice())?, words) {
        (Call::ReadItem, [ty, input]) => input::read(ty, input, told),
        (Call::KeptValue, [ty, value]) => keeping::keep(ty, value, told),
        (Call::Begin, []) => output::begin(&mut held.state, told),
        (Call::Put, values) => put(&mut held.state, false, values, told),
        (Call::PutSkip, values) => put(&mut held.state, true, values, told),
        (Call::Output, []) => Some(told.word_line(held.state.output.as_slice())),
        (Call::Program, []) => program::read(&mut held.tree, held.text.as_slice(), told),
        (Call::Elide, [slot]) => program::elide(&mut held.tree, slot, told),
        (Call::About(question), words) => code::ask(&held.tree, question, words, told),
        _ => None,
    }
}
