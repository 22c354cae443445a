//! A script of cases of the journal of keys: disks, journals over them, and what a crash leaves. Each line
//! of the script is printed as it is, and after a case its answer, in lines that begin with `= `.
#![tactic(auto)]

mod call;
mod crash;
mod disk_file;
mod held;
mod images;
mod sessions;
mod stumbling;

use call::{CALLS, Call};
use case_script::{Told, meaning, print_told, words_of};
use crash::Crash;
use held::Held;
use std::alloc::Global;
use std::io;
use std::io::{BufRead, BufReader};

fn main(rt: HostRuntime) -> io::Result<()> {
    let mut scene = Scene::new(rt.alloc());
    let played = play_script(&rt, &mut scene);
    drop(scene);
    played
}

/// All that a script of cases of the journal of keys is played with: the disk or journal that is held, what is
/// found of crashes, and the answer to the case at hand.
#[derive(Drop)]
struct Scene {
    held: Held,
    crash: Crash,
    told: Told,
}

impl Scene {
    /// What the script of cases of the journal of keys begins with: an empty disk, nothing found of crashes,
    /// and no answer.
    fn new(alloc: Global) -> Self {
        Scene {
            held: Held::new(alloc),
            crash: Crash::new(alloc),
            told: Told::new(alloc),
        }
    }
}

/// Plays the script of cases of the journal that standard input has.
fn play_script(rt: &HostRuntime, scene: &mut Scene) -> io::Result<()> {
    let alloc = rt.alloc();
    for line in BufReader::new(alloc, rt.reader())?.lines(alloc) {
        play_read(rt, scene, line?)?;
    }
    Ok(())
}

/// Plays a line of the script of the journal that was read.
fn play_read(rt: &HostRuntime, scene: &mut Scene, line: String) -> io::Result<()> {
    let played = print_played(rt, scene, line.as_str());
    drop(line);
    played
}

/// Plays a line of the script of the journal, and prints it and what is told of it.
fn print_played(rt: &HostRuntime, scene: &mut Scene, line: &str) -> io::Result<()> {
    println!(rt; "{line}")?;
    play_line(rt, scene, line.as_bytes());
    print_told(rt, &scene.told)
}

/// Plays a line of the script of the journal, which is a case unless it is empty or a heading, and tells its answer.
fn play_line(rt: &HostRuntime, scene: &mut Scene, line: &[u8]) {
    scene.told.clear();
    if matches!(line, [] | [b'#', ..]) {
        return;
    }
    if play_case(rt, scene, line).is_none() {
        scene.told.clear();
        scene.told.line("NOT A CASE");
    }
}

/// Plays a case of the journal, if it is one.
fn play_case(rt: &HostRuntime, scene: &mut Scene, case: &[u8]) -> Option<()> {
    match words_of(rt.alloc(), case) {
        Ok(Some(words)) => {
            let played = play_words(rt, scene, words.as_slice());
            drop(words);
            played
        }
        Ok(None) | Err(_) => None,
    }
}

/// Makes the call of a case of the journal that the words are, if they are one.
fn play_words(rt: &HostRuntime, scene: &mut Scene, words: &[Vec<u8>]) -> Option<()> {
    let (word, arguments) = words.split_first()?;
    play(rt, scene, meaning(&CALLS, word.as_slice())?, arguments)
}

/// Makes the call of a case of the journal with these words behind its name, if it takes them.
fn play(rt: &HostRuntime, scene: &mut Scene, call: Call, words: &[Vec<u8>]) -> Option<()> {
    match (call, words) {
        (Call::Held(call), words) => {
            scene
                .held
                .play(call, words, &mut scene.crash, &mut scene.told)
        }
        (Call::Walk, [keys]) => scene.crash.walk(keys, &mut scene.told),
        (Call::Stumble, [bytes, most, keys]) => {
            stumbling::play(bytes, most, keys, &mut scene.told)
        }
        (Call::File(call), words) => disk_file::play(rt, call, words, &mut scene.told),
        _ => None,
    }
}
