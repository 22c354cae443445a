//! Plays a script of cases over trees, moves of the cursor, edits at its stop, and clips: each line of the script
//! is written as it is, and after a case what the calls answered.
#![tactic(auto)]

ghost use Rattle.template_tree.specs.Programs.Tree.{IsTree};

mod case;
mod clip_calls;
mod edit;
mod edit_calls;
mod held_nodes;
mod lent_nodes;
mod node_calls;
mod stop_calls;
mod stop_edits;
mod tell;
mod tree_calls;
mod undo_calls;
mod walk;
mod words;

use crate::case::{CASES, Case};
use crate::tree_calls::Trees;
use case_script::{Told, meaning, print_told, words_of};
use clip_store::Clips;
use std::alloc::Global;
use std::io;
use std::io::{BufRead, BufReader, ErrorKind};
use template_tree::Tree;

fn main(rt: HostRuntime) -> io::Result<()> {
    let alloc = rt.alloc();
    match Cases::new(alloc) {
        Some(mut cases) => {
            let played = play_script(&rt, &mut cases);
            drop(cases);
            played
        }
        None => Err(io::Error::from(ErrorKind::OutOfMemory)),
    }
}

/// Plays the script of cases on trees that standard input has.
fn play_script(rt: &HostRuntime, cases: &mut Cases) -> io::Result<()>
    requires { IsTree cases.old.trees.tree }
{
    let mut told = Told::new(rt.alloc());
    let played = play_lines(rt, cases, &mut told);
    drop(told);
    played
}

/// Plays the lines of the script of cases on trees one after the other, with room for what each answers.
fn play_lines(rt: &HostRuntime, cases: &mut Cases, told: &mut Told) -> io::Result<()>
    requires { IsTree cases.old.trees.tree }
{
    let alloc = rt.alloc();
    for line in BufReader::new(alloc, rt.reader())?.lines(alloc) {
        let line = line?;
        let played = print_played(rt, cases, line.as_str(), told);
        drop(line);
        played?;
    }
    Ok(())
}

/// Writes a line of the script on trees as it is, plays it, and writes what is told.
fn print_played(rt: &HostRuntime, cases: &mut Cases, line: &str, told: &mut Told) -> io::Result<()>
    requires { IsTree cases.old.trees.tree }
    ensures { IsTree cases.new.trees.tree }
{
    println!(rt; "{line}")?;
    play_line(rt.alloc(), cases, line.as_bytes(), told)?;
    print_told(rt, told)
}

/// What cases on trees are played on, and the lines of text for the next of them.
#[derive(Drop)]
struct Cases {
    trees: Trees,
    clips: Clips,
    text: Vec<u8>,
}

impl Cases {
    ghost use Rattle.std.specs.Prelude.{IfSome};

    /// What cases on trees are played on first: a new tree, with nothing held beside it.
    fn new(alloc: Global) -> Option<Cases>
        ensures { IfSome result (λ cases. IsTree cases.trees.tree) }
    {
        match Clips::new(alloc) {
            Ok(clips) => match Trees::new(alloc) {
                Some(trees) => Some(Cases {
                    trees,
                    clips,
                    text: Vec::new(alloc),
                }),
                None => {
                    drop(clips);
                    None
                }
            },
            Err(_) => None,
        }
    }
}

/// Plays a line of the script on trees: a heading, a line of text, or a case, whose answer is told.
fn play_line(alloc: Global, cases: &mut Cases, line: &[u8], told: &mut Told) -> io::Result<()>
    requires { IsTree cases.old.trees.tree }
    ensures { IsTree cases.new.trees.tree }
{
    told.clear();
    match line {
        [] | [b'#', ..] => {}
        [b'|', b' ', text @ ..] => {
            cases.text.extend_from_slice(text)?;
            cases.text.push(b'\n')?;
        }
        case => {
            if play_case(alloc, cases, case, told).is_none() {
                told.clear();
                told.line("NOT A CASE");
            }
            cases.text.clear();
        }
    }
    Ok(())
}

/// Plays a case on trees, if it is one.
fn play_case(alloc: Global, cases: &mut Cases, case: &[u8], told: &mut Told) -> Option<()>
    requires { IsTree cases.old.trees.tree }
    ensures { IsTree cases.new.trees.tree }
{
    match words_of(alloc, case) {
        Ok(Some(words)) => {
            let answer = play_words(alloc, cases, words.as_slice(), told);
            drop(words);
            answer
        }
        _ => None,
    }
}

/// Plays the case on trees that the first word names, with the words behind it.
fn play_words(alloc: Global, cases: &mut Cases, words: &[Vec<u8>], told: &mut Told) -> Option<()>
    requires { IsTree cases.old.trees.tree }
    ensures { IsTree cases.new.trees.tree }
{
    let (word, rest) = words.split_first()?;
    match meaning(&CASES, word.as_slice()) {
        Some(case) => play(alloc, cases, case, rest, told),
        None => None,
    }
}

/// Plays the case on trees with these words behind its first one, if it takes them.
fn play(
    alloc: Global,
    cases: &mut Cases,
    case: Case,
    words: &[Vec<u8>],
    told: &mut Told,
) -> Option<()>
    requires { IsTree cases.old.trees.tree }
    ensures { IsTree cases.new.trees.tree }
{
    let trees = &mut cases.trees;
    match case {
        Case::Edit(edit) => edit_calls::edit(alloc, &mut trees.tree, edit, words, told),
        Case::Edits(edits) => {
            edit_calls::play(
                alloc,
                &mut trees.tree,
                edits,
                words,
                cases.text.as_slice(),
                told,
            )
        }
        Case::AtStop(call) => stop_edits::play(alloc, &mut trees.tree, call, words, told),
        Case::Tree(call) => tree_calls::play(
            alloc,
            trees,
            call,
            words,
            cases.text.as_slice(),
            told,
        ),
        Case::Held(call) => held_nodes::play(alloc, trees, call, words, told),
        _ => ask(alloc, cases, case, words, told),
    }
}

/// Plays one of a script's cases over trees, if it is one that leaves the tree as it is and takes these words.
fn ask(
    alloc: Global,
    cases: &mut Cases,
    case: Case,
    words: &[Vec<u8>],
    told: &mut Told,
) -> Option<()>
    requires { IsTree cases.old.trees.tree }
    ensures { IsTree cases.new.trees.tree }
{
    let tree = &cases.trees.tree;
    match case {
        Case::PutPart => lent_nodes::play(alloc, tree, words, told),
        Case::Node(reader) => node_calls::play(tree, reader, words, told),
        Case::Stops(call) => stop_calls::play(tree, call, told),
        Case::Clips(call) => {
            clip_calls::play(
                alloc,
                &mut cases.clips,
                &cases.trees.held,
                call,
                words,
                told,
            )
        }
        _ => None,
    }
}
