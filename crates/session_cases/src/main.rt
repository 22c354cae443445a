//! Whole sessions by cases: runs of the editor over keys, screens and files in memory, and sessions pressed
//! key by key. Each line of standard input is printed, and after a case its answer.
#![tactic(auto)]

mod asking;
mod file_cases;
mod key_cases;
mod pieces;
mod playing;
mod repainting;
mod scene;
mod screen_cases;
mod session_cases;
mod sitting;
mod whole_run_cases;

use asking::{Asked, ask};
use case_script::{meaning, print_told, words_of};
use scene::Scene;
use std::alloc::Global;
use std::io;
use std::io::{BufRead, BufReader};

fn main(rt: HostRuntime) -> io::Result<()> {
    let mut scene = Scene::new(rt.alloc());
    let played = play_script(&rt, &mut scene);
    drop(scene);
    played
}

/// Plays the script of whole sessions that standard input has.
fn play_script(rt: &HostRuntime, scene: &mut Scene) -> io::Result<()> {
    let alloc = rt.alloc();
    for line in BufReader::new(alloc, rt.reader())?.lines(alloc) {
        play_read(rt, scene, line?)?;
    }
    Ok(())
}

/// Plays a line of the script of whole sessions that was read.
fn play_read(rt: &HostRuntime, scene: &mut Scene, line: String) -> io::Result<()> {
    let played = print_played(rt, scene, line.as_str());
    drop(line);
    played
}

/// Plays a line of the script of whole sessions, and prints it and what is told of it.
fn print_played(rt: &HostRuntime, scene: &mut Scene, line: &str) -> io::Result<()> {
    println!(rt; "{line}")?;
    play_line(rt.alloc(), scene, line.as_bytes())?;
    print_told(rt, &scene.told)
}

/// Plays a line of the script of whole sessions: a heading, a line of text, or a case, whose answer is told.
fn play_line(alloc: Global, scene: &mut Scene, line: &[u8]) -> io::Result<()> {
    scene.told.clear();
    match line {
        [] | [b'#', ..] => {}
        [b'|', b' ', text @ ..] => {
            scene.text.extend_from_slice(text)?;
            scene.text.push(b'\n')?;
        }
        case => {
            if play_case(alloc, scene, case).is_none() {
                scene.told.clear();
                scene.told.line("NOT A CASE");
            }
        }
    }
    Ok(())
}

/// Plays one of the script's cases on whole sessions, if the line is one.
fn play_case(alloc: Global, scene: &mut Scene, case: &[u8]) -> Option<()> {
    match words_of(alloc, case) {
        Ok(Some(words)) => {
            let played = play_words(alloc, scene, words.as_slice());
            drop(words);
            played
        }
        Ok(None) | Err(_) => None,
    }
}

/// Plays the case on whole sessions that these words are, if they are one.
fn play_words(alloc: Global, scene: &mut Scene, words: &[Vec<u8>]) -> Option<()> {
    let (word, arguments) = words.split_first()?;
    play(alloc, scene, meaning(&CASES, word.as_slice())?, arguments)
}

/// The cases on whole sessions.
#[derive(Clone, Copy)]
enum Case {
    From,
    On,
    Listing,
    Tell,
    Rescue,
    Repaint,
    Screen,
    Run,
    Fail,
    Bytes,
    Files,
    File,
    Content,
    Told,
    Counted,
    Emitted,
    Checked,
    Feed,
    Status,
}

/// The first words of the cases on whole sessions.
static CASES: [(&[u8], Case); 19] = [
    (b"from", Case::From),
    (b"on", Case::On),
    (b"listing", Case::Listing),
    (b"tell", Case::Tell),
    (b"rescue", Case::Rescue),
    (b"repaint", Case::Repaint),
    (b"screen", Case::Screen),
    (b"run", Case::Run),
    (b"fail", Case::Fail),
    (b"bytes", Case::Bytes),
    (b"files", Case::Files),
    (b"file", Case::File),
    (b"content", Case::Content),
    (b"told", Case::Told),
    (b"counted", Case::Counted),
    (b"emitted", Case::Emitted),
    (b"checked", Case::Checked),
    (b"feed", Case::Feed),
    (b"status", Case::Status),
];

/// Plays this one of the script's cases, on a run of the editor or a session pressed key by key, with these
/// arguments, if it takes them.
fn play(alloc: Global, scene: &mut Scene, case: Case, arguments: &[Vec<u8>]) -> Option<()> {
    match (case, arguments) {
        (Case::From, [keys]) => session_cases::from(alloc, scene, keys),
        (Case::On, [keys]) => session_cases::on(alloc, scene, keys),
        (Case::Listing, []) => ask(alloc, scene, Asked::Listing, &[]),
        (Case::Tell, [word]) => session_cases::tell(alloc, scene, word),
        (Case::Rescue, fails) => ask(alloc, scene, Asked::Rescue, fails),
        (Case::Repaint, []) => repainting::repaint(alloc, scene),
        (Case::Screen, []) => screen_cases::screen(alloc, scene, b"12", b"40"),
        (Case::Screen, [rows, cols]) => screen_cases::screen(alloc, scene, rows, cols),
        (Case::Run, words) => whole_run_cases::run(alloc, scene, words),
        (Case::Fail, [kind, number]) => whole_run_cases::fail(alloc, scene, kind, number),
        (Case::Bytes, [before, last]) => whole_run_cases::bytes(alloc, scene, before, last),
        (Case::Files, fails) => file_cases::files(alloc, scene, fails),
        (Case::File, [name]) => file_cases::file_of_text(alloc, scene, name),
        (Case::File, [name, content]) => file_cases::file(scene, name, content),
        (Case::Content, [name]) => file_cases::content(scene, name),
        (Case::Told, [keys]) => file_cases::told(alloc, scene, keys),
        (Case::Counted, [before, last]) => whole_run_cases::counted(alloc, scene, before, last),
        (Case::Emitted, [before, last]) => whole_run_cases::emitted(alloc, scene, before, last),
        (Case::Checked, [before, last]) => whole_run_cases::checked(alloc, scene, before, last),
        (Case::Feed, words) => key_cases::feed(words, &mut scene.told),
        (Case::Status, []) => key_cases::status(&mut scene.told),
        _ => None,
    }
}
