//! Cases of files: those that runs of the editor find, what they hold, and what sessions tell of them.

use crate::playing::{NOTHING, Played, play, size_words};
use crate::scene::Scene;
use case_script::{Told, numbers_of};
use std::alloc::Global;
use std::mem;
use synth_outside::{Files, FilesFault, MemFiles};

/// `files N..`: there are no files; the N-th call of them fails, for each of these numbers, from 1.
pub fn files(alloc: Global, scene: &mut Scene, fails: &[Vec<u8>]) -> Option<()> {
    match failing_files(alloc, fails) {
        Some(files) => {
            drop(mem::replace(&mut scene.files, files));
            scene.told.line("none");
            Some(())
        }
        None => None,
    }
}

/// For a case of files: files that runs find, none yet, of which the calls of these numbers fail.
pub fn failing_files(alloc: Global, fails: &[Vec<u8>]) -> Option<MemFiles> {
    Some(MemFiles::new(alloc, numbers_of(alloc, fails)?))
}

/// `file NAME` behind lines of text: puts a file that holds them.
pub fn file_of_text(alloc: Global, scene: &mut Scene, name: &[u8]) -> Option<()> {
    let text = mem::replace(&mut scene.text, Vec::new(alloc));
    let put = file(scene, name, text.as_slice());
    drop(text);
    put
}

/// `file NAME CONTENT`: puts a file that holds this among those that runs of the editor find.
pub fn file(scene: &mut Scene, name: &[u8], content: &[u8]) -> Option<()> {
    let put = put_file(&mut scene.files, name, content);
    scene.told.value_line(&put);
    Some(())
}

/// For a case of files, puts one of these bytes among those that a run of the editor finds.
fn put_file(files: &mut MemFiles, name: &[u8], bytes: &[u8]) -> Result<(), FilesFault> {
    files.begin(name)?;
    if !bytes.is_empty() {
        files.write(bytes)?;
    }
    files.commit()
}

/// `content NAME`: what the file holds, as a run of the editor finds or leaves it.
pub fn content(scene: &mut Scene, name: &[u8]) -> Option<()> {
    tell_content(&scene.files, name, &mut scene.told);
    Some(())
}

/// For a case of files, tells what the file of this name holds, as a run of the editor finds or leaves it.
pub fn tell_content(files: &MemFiles, name: &[u8], told: &mut Told) {
    match files.content(name) {
        Some(bytes) => told.word_line(bytes),
        None => told.line("no file"),
    }
}

/// `told KEYS`: a run on a screen of 12 rows and 40 columns over the files at hand. It answers the status, and
/// the messages that were shown in turn.
pub fn told(alloc: Global, scene: &mut Scene, keys: &[u8]) -> Option<()> {
    match play_with_files(alloc, keys, &mut scene.files) {
        Some(played) => {
            scene.told.value_line(&played.status);
            tell_messages(played.written(), &mut scene.told);
            drop(played);
            Some(())
        }
        None => None,
    }
}

/// For a case of files, a run of the editor on these keys over the files, on a screen of 12 rows and 40 columns.
fn play_with_files(alloc: Global, keys: &[u8], files: &mut MemFiles) -> Option<Played> {
    match size_words(alloc, b"12", b"40") {
        Some(words) => {
            let played = play(alloc, words.as_slice(), keys, NOTHING, files);
            drop(words);
            played
        }
        None => None,
    }
}

/// Where the row of messages, which a case of files tells, begins on a screen of 12 rows.
const MESSAGE_ROW: &[u8] = b"\x1b[11;1H";

/// Tells what a session with files says of them: the messages that were shown in turn by what was written, each
/// on a line.
fn tell_messages(written: &[u8], told: &mut Told) {
    for at in 0..written.len() {
        if let Some(behind) = written[at..].strip_prefix(MESSAGE_ROW) {
            let text = behind.split(|byte| *byte == 27).next().unwrap_or(b"");
            if !text.is_empty() {
                told.word_line(text);
            }
        }
    }
}
