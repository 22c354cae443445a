//! A script of cases on saved programs that are run from the command line, over files in memory. Each line of the
//! script is printed as it is, and after a case its answer, in lines that begin with `= `.
#![tactic(auto)]

mod call;
mod saved_files;
mod whole_run;

use call::{CALLS, Call};
use case_script::{Told, meaning, print_told, words_of};
use saved_files::SavedFiles;
use std::alloc::Global;
use std::io;
use std::io::{BufRead, BufReader};

fn main(rt: HostRuntime) -> io::Result<()> {
    let mut scene = Scene::new(rt.alloc());
    play_script(&rt, &mut scene)
}

/// What the script of saved programs holds from line to line.
#[derive(Drop)]
struct Scene {
    /// The files that runs find.
    files: SavedFiles,
    /// The lines of text for the next file.
    text: Vec<u8>,
    /// The answer to the case at hand.
    told: Told,
}

impl Scene {
    /// The scene at the beginning of a script of saved programs: no files, and no text.
    fn new(alloc: Global) -> Scene {
        Scene {
            files: SavedFiles::new(alloc),
            text: Vec::new(alloc),
            told: Told::new(alloc),
        }
    }
}

/// Plays the script of saved programs that standard input has.
fn play_script(rt: &HostRuntime, scene: &mut Scene) -> io::Result<()> {
    let alloc = rt.alloc();
    for line in BufReader::new(alloc, rt.reader())?.lines(alloc) {
        let line = line?;
        println!(rt; "{line}")?;
        play_line(scene, line.as_bytes())?;
        print_told(rt, &scene.told)?;
    }
    Ok(())
}

/// Plays a line of the script of saved programs: a heading, a line of text, or a case, whose answer is told.
fn play_line(scene: &mut Scene, line: &[u8]) -> io::Result<()> {
    scene.told.clear();
    match line {
        [] | [b'#', ..] => {}
        [b'|', b' ', text @ ..] => {
            scene.text.extend_from_slice(text)?;
            scene.text.push(b'\n')?;
        }
        case => {
            if play_case(scene, case).is_none() {
                scene.told.clear();
                scene.told.line("NOT A CASE");
            }
        }
    }
    Ok(())
}

/// Plays a case of the script of saved programs, if it is one.
fn play_case(scene: &mut Scene, case: &[u8]) -> Option<()> {
    match words_of(scene.told.alloc(), case) {
        Ok(Some(words)) => play_words(scene, words.as_slice()),
        _ => None,
    }
}

/// Makes the call of a case of saved programs that the words are, if they are one.
fn play_words(scene: &mut Scene, words: &[Vec<u8>]) -> Option<()> {
    let (word, arguments) = words.split_first()?;
    let told = &mut scene.told;
    match (meaning(&CALLS, word.as_slice())?, arguments) {
        (Call::Files, fails) => scene.files.renew(fails, told),
        (Call::Writes, fails) => scene.files.set_failing_writes(fails, told),
        (Call::File, [name]) => {
            scene.files.put(name, scene.text.as_slice(), told);
            scene.text.clear();
            Some(())
        }
        (Call::File, [name, content]) => {
            scene.files.put(name, content, told);
            Some(())
        }
        (Call::Run, words) => whole_run::play(&mut scene.files, words, told),
        _ => None,
    }
}
