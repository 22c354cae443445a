//! The program of cases on what is derived from a program, which are its declarations, marks, layout and
//! screens, on sums of numbers, and on where nodes are said to stand. It plays a script, and prints what each case answers.
#![tactic(auto)]

ghost use Rattle.template_tree.specs.Programs.Tree.{IsTree};

mod case;
mod cells;
mod declarations;
mod held;
mod homes;
mod lines;
mod marks;
mod mending;
mod node_edit;
mod one_mark;
mod paintings;
mod phrase_edit;
mod phrase_text;
mod program;
mod random;
mod rechecking;
mod same_checks;
mod screens;
mod sums;
mod terminals;
mod view_words;
mod words;

use crate::case::{CASES, Case};
use crate::declarations::declarations;
use crate::held::Held;
use crate::homes::homes;
use crate::lines::{lines, stops};
use crate::marks::{check, marks};
use crate::mending::mend;
use crate::paintings::paintings;
use crate::program::{elide, read_program, take};
use crate::rechecking::recheck;
use crate::screens::{grid, paint_grid};
use crate::sums::sums;
use crate::terminals::terminal;
use case_script::{Told, meaning, print_told, words_of};
use std::alloc::Global;
use std::io;
use std::io::{BufRead, BufReader};

fn main(rt: HostRuntime) -> io::Result<()> {
    let alloc = rt.alloc();
    let mut held = Held::new(alloc)?;
    let played = play_script(&rt, &mut held);
    drop(held);
    played
}

/// Plays the script of cases on a program that standard input has.
fn play_script(rt: &HostRuntime, held: &mut Held) -> io::Result<()>
    requires { IsTree held.old.tree }
{
    let mut told = Told::new(rt.alloc());
    let played = play_lines(rt, held, &mut told);
    drop(told);
    played
}

/// Plays each line of the script that standard input has on a program.
fn play_lines(rt: &HostRuntime, held: &mut Held, told: &mut Told) -> io::Result<()>
    requires { IsTree held.old.tree }
{
    let alloc = rt.alloc();
    for line in BufReader::new(alloc, rt.reader())?.lines(alloc) {
        play_read(rt, held, line?, told)?;
    }
    Ok(())
}

/// Plays a line of the script that was read on a program.
fn play_read(rt: &HostRuntime, held: &mut Held, line: String, told: &mut Told) -> io::Result<()>
    requires { IsTree held.old.tree }
    ensures { IsTree held.new.tree }
{
    let played = print_played(rt, held, line.as_str(), told);
    drop(line);
    played
}

/// Plays a line of the script on a program, and prints it and what is told of it.
fn print_played(rt: &HostRuntime, held: &mut Held, line: &str, told: &mut Told) -> io::Result<()>
    requires { IsTree held.old.tree }
    ensures { IsTree held.new.tree }
{
    println!(rt; "{line}")?;
    play_line(rt.alloc(), held, line.as_bytes(), told)?;
    print_told(rt, told)
}

/// Plays a line of the script on a program: a heading, a line of text, or a case, whose answer is told.
fn play_line(alloc: Global, held: &mut Held, line: &[u8], told: &mut Told) -> io::Result<()>
    requires { IsTree held.old.tree }
    ensures { IsTree held.new.tree }
{
    told.clear();
    match line {
        [] | [b'#', ..] => {}
        [b'|', b' ', text @ ..] => held.text.push(text.to_vec(alloc)?)?,
        case => {
            if play_case(alloc, held, case, told).is_none() {
                told.clear();
                told.line("NOT A CASE");
            }
            held.text.clear();
        }
    }
    Ok(())
}

/// Plays a case on what is derived from a program, if it is one.
fn play_case(alloc: Global, held: &mut Held, case: &[u8], told: &mut Told) -> Option<()>
    requires { IsTree held.old.tree }
    ensures { IsTree held.new.tree }
{
    match words_of(alloc, case) {
        Ok(Some(words)) => play_words(alloc, held, words.as_slice(), told),
        _ => None,
    }
}

/// Plays the case on a program that the first word names, with the words behind it.
fn play_words(alloc: Global, held: &mut Held, words: &[Vec<u8>], told: &mut Told) -> Option<()>
    requires { IsTree held.old.tree }
    ensures { IsTree held.new.tree }
{
    let (name, words) = words.split_first()?;
    play(alloc, held, meaning(&CASES, name.as_slice())?, words, told)
}

/// Plays this one of the script's cases, on what is derived from a program or on no program, with these words behind
/// its name, if it takes them.
fn play(
    alloc: Global,
    held: &mut Held,
    case: Case,
    words: &[Vec<u8>],
    told: &mut Told,
) -> Option<()>
    requires { IsTree held.old.tree }
    ensures { IsTree held.new.tree }
{
    match case {
        Case::Program => read_program(alloc, &mut held.tree, held.text.as_slice(), told),
        Case::Take => take(alloc, &mut held.tree, words, told),
        Case::Elide => elide(alloc, &mut held.tree, words, told),
        Case::Mend => mend(alloc, &mut held.tree, words, told),
        Case::Recheck => recheck(alloc, &mut held.tree, held.text.as_slice(), words, told),
        Case::Check => check(alloc, &mut held.tree, words, told),
        _ => ask(alloc, held, case, words, told),
    }
}

/// Plays a case on what is derived from a program, which it leaves as it is, if it takes these words.
fn ask(alloc: Global, held: &mut Held, case: Case, words: &[Vec<u8>], told: &mut Told) -> Option<()>
    requires { IsTree held.old.tree }
    ensures { IsTree held.new.tree }
{
    let tree = &held.tree;
    match case {
        Case::Mark => held.mark(words, told),
        Case::About(question) => declarations(alloc, tree, question, words, told),
        Case::Marks => marks(alloc, tree, None, told),
        Case::Lines => lines(alloc, tree, held.marked, words, told),
        Case::Stops => stops(alloc, tree, told),
        Case::Grid => grid(
            alloc,
            tree,
            held.marked,
            held.text.as_slice(),
            words,
            &mut held.screens,
            told,
        ),
        Case::Paint => paint_grid(alloc, &held.screens, words, told),
        Case::Paintings => paintings(alloc, tree, words, told),
        Case::Terminal => terminal(alloc, words, told),
        Case::Sums => sums(alloc, words, told),
        Case::Homes => homes(alloc, words, told),
        _ => None,
    }
}
