//! A script of cases of files: listings read and damaged, programs saved and loaded, sources and sinks. Each
//! line of the script is printed as it is, and after a case its answer, in lines that begin with `= `.
#![tactic(auto)]

mod call;
mod damage;
mod desk;
mod files_at_hand;
mod listing;
mod streams;
mod stumbling;

use call::{CALLS, Call, TextCall};
use case_script::{Told, meaning, print_told, words_of};
use files_at_hand::FilesAtHand;
use std::alloc::Global;
use std::fs::File;
use std::io;
use std::rt::Files;

fn main(rt: HostRuntime) -> io::Result<()> {
    play_all(&rt)
}

/// Plays the script of cases of files that standard input has.
fn play_all<R: Files<File = File> + Input + Print + AllocGlobal>(rt: &R) -> io::Result<()> {
    let mut scene = Scene::new(rt, rt.alloc());
    let played = play_script(rt, &mut scene);
    drop(scene);
    played
}

/// What a script of files holds from line to line: the files at hand, the lines of text for the next case on a text,
/// and the answer to the case at hand.
#[derive(Drop)]
struct Scene<'a, R: Files<File = File>> {
    files: FilesAtHand<'a, R>,
    text: Vec<u8>,
    told: Told,
}

impl<'a, R: Files<File = File> + AllocGlobal> Scene<'a, R> {
    /// The scene at the beginning of a script of files: files in memory, of which there is none, and no text.
    fn new(rt: &'a R, alloc: Global) -> Self {
        Scene {
            files: FilesAtHand::new(rt, alloc),
            text: Vec::new(alloc),
            told: Told::new(alloc),
        }
    }
}

/// Plays the lines of the script of files on this scene.
fn play_script<'a, R: Files<File = File> + Input + Print + AllocGlobal>(
    rt: &'a R,
    scene: &mut Scene<'a, R>,
) -> io::Result<()> {
    let alloc = rt.alloc();
    for line in rt.lines(alloc) {
        play_read(rt, scene, line?)?;
    }
    Ok(())
}

/// Plays a line of the script of files that was read.
fn play_read<'a, R: Files<File = File> + Print + AllocGlobal>(
    rt: &'a R,
    scene: &mut Scene<'a, R>,
    line: String,
) -> io::Result<()> {
    let played = print_played(rt, scene, line.as_str());
    drop(line);
    played
}

/// Plays a line of the script of files, and prints it and what is told of it.
fn print_played<'a, R: Files<File = File> + Print + AllocGlobal>(
    rt: &'a R,
    scene: &mut Scene<'a, R>,
    line: &str,
) -> io::Result<()> {
    println!(rt; "{line}")?;
    play_line(rt, scene, line.as_bytes())?;
    print_told(rt, &scene.told)
}

/// Plays a line of the script of files: a heading, a line of text, or a case, whose answer is told.
fn play_line<'a, R: Files<File = File> + AllocGlobal>(
    rt: &'a R,
    scene: &mut Scene<'a, R>,
    line: &[u8],
) -> io::Result<()> {
    scene.told.clear();
    match line {
        [] | [b'#', ..] => {}
        [b'|', b' ', text @ ..] => {
            scene.text.extend_from_slice(text)?;
            scene.text.push(b'\n')?;
        }
        case => {
            if play_case(rt, scene, case).is_none() {
                scene.told.clear();
                scene.told.line("NOT A CASE");
            }
        }
    }
    Ok(())
}

/// Plays a case of the script of files, if it is one.
fn play_case<'a, R: Files<File = File> + AllocGlobal>(
    rt: &'a R,
    scene: &mut Scene<'a, R>,
    case: &[u8],
) -> Option<()> {
    match words_of(rt.alloc(), case) {
        Ok(Some(words)) => {
            let played = play_words(rt, scene, words.as_slice());
            drop(words);
            played
        }
        Ok(None) | Err(_) => None,
    }
}

/// Makes the call of a case of files that the words are, if they are one.
fn play_words<'a, R: Files<File = File> + AllocGlobal>(
    rt: &'a R,
    scene: &mut Scene<'a, R>,
    words: &[Vec<u8>],
) -> Option<()> {
    let (word, arguments) = words.split_first()?;
    play(rt, scene, meaning(&CALLS, word.as_slice())?, arguments)
}

/// Plays a case of the script of files by the call that it names, with these words behind the name, if that
/// takes them.
fn play<'a, R: Files<File = File> + AllocGlobal>(
    rt: &'a R,
    scene: &mut Scene<'a, R>,
    call: Call,
    words: &[Vec<u8>],
) -> Option<()> {
    match (call, words) {
        (Call::Stream(call), [first, rest @ ..]) => {
            streams::play(rt, call, first, rest, &mut scene.told)
        }
        (Call::Memory, fails) => scene.files.take_memory(fails, &mut scene.told),
        (Call::System, []) => scene.files.take_system(rt, &mut scene.told),
        (Call::Content, [name]) => scene.files.tell_content(rt, name, &mut scene.told),
        (Call::Change(change), [name]) => {
            files_at_hand::change(rt, change, name, &mut scene.told)
        }
        (Call::Files(call), words) => scene.files.play(call, words, &mut scene.told),
        (Call::Longer(way), [times, line]) => {
            listing::lengthen(&mut scene.text, way, times, line, &mut scene.told)
        }
        (Call::Text(call), words) => play_text(scene, call, words),
        _ => None,
    }
}

/// Plays a case of the script of files that takes its lines of text: a listing read or damaged, or a program
/// saved.
fn play_text<R: Files<File = File> + AllocGlobal>(
    scene: &mut Scene<'_, R>,
    call: TextCall,
    words: &[Vec<u8>],
) -> Option<()> {
    let text = scene.text.as_slice();
    let told = &mut scene.told;
    let played = match (call, words) {
        (TextCall::ReadListing, pieces) => listing::read(text, pieces, told),
        (TextCall::Damage, kinds) => damage::play(text, kinds, told),
        (TextCall::Save, [name]) => scene.files.save(text, name, told),
        _ => None,
    };
    scene.text.clear();
    played
}
