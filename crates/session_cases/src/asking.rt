//! What is asked of sessions over a new program, a new one each time.

ghost use Rattle.synth_session.specs.SessionView.{IsReadyForKey};

use crate::file_cases::{failing_files, tell_content};
use crate::repainting::{compare_screen, keep_screens};
use crate::scene::Scene;
use crate::sitting::Sitting;
use case_script::Told;
use plcs_base::Counts;
use std::alloc::Global;
use synth_outside::MemFiles;
use synth_session::{Refusal, Session};

/// What a case asks of a session.
#[derive(Clone, Copy)]
pub enum Asked {
    /// What the last of the keys at hand answers, and how many slots are live then.
    Answer,
    /// The listing of its program after the keys.
    Listing,
    /// What painting writes once this refusal is shown after the keys.
    Message(Refusal),
    /// What comes of a rescue after the keys.
    Rescue,
    /// The screens after each byte of the keys, painted one over the other.
    Screens,
    /// Whether the screen after so many bytes of the keys is the one of these.
    Screen(usize),
}

/// Asks a session over a new program. The words are those behind the case's name.
pub fn ask(alloc: Global, scene: &mut Scene, asked: Asked, words: &[Vec<u8>]) -> Option<()> {
    match Sitting::new(alloc) {
        Some(mut sitting) => {
            let answered = answer(alloc, &mut sitting, scene, asked, words);
            sitting.close();
            answered
        }
        None => None,
    }
}

/// Asks this session over a new program.
fn answer(
    alloc: Global,
    sitting: &mut Sitting,
    scene: &mut Scene,
    asked: Asked,
    words: &[Vec<u8>],
) -> Option<()>
    requires { IsReadyForKey sitting.old.session }
{
    match asked {
        Asked::Answer => tell_answer(alloc, sitting, scene),
        Asked::Listing => listing(alloc, sitting, scene),
        Asked::Message(refusal) => tell_message(alloc, sitting, scene, refusal),
        Asked::Rescue => rescue(alloc, sitting, scene, words),
        Asked::Screens => keep_screens(alloc, sitting, scene),
        Asked::Screen(count) => compare_screen(alloc, sitting, scene, count),
    }
}

/// Tells what the session that is asked answers to its last key, and how many slots are live then.
fn tell_answer(alloc: Global, sitting: &mut Sitting, scene: &mut Scene) -> Option<()>
    requires { IsReadyForKey sitting.old.session }
{
    sitting.press_all(alloc, scene.keys.as_slice())?;
    if let Some(answer) = sitting.answer {
        scene.told.value(&answer);
        scene.told.text(", ");
    }
    scene.told.value(&sitting.session.slots());
    scene.told.line(" slots");
    Some(())
}

/// Tells the listing of the program of a session that is asked for it after the keys.
fn listing(alloc: Global, sitting: &mut Sitting, scene: &mut Scene) -> Option<()>
    requires { IsReadyForKey sitting.old.session }
{
    sitting.press_all(alloc, scene.keys.as_slice())?;
    tell_listing(alloc, &sitting.session, &mut scene.told);
    Some(())
}

/// Tells what a session over a new program is asked for: the listing of its program.
fn tell_listing(alloc: Global, session: &Session<Counts>, told: &mut Told)
    requires { IsReadyForKey session.now }
{
    let mut listing = Told::new(alloc);
    session.listing(&mut listing);
    told.word_line(listing.as_bytes());
    drop(listing);
}

/// Tells what painting writes for a session that is asked once this refusal is shown after the keys.
fn tell_message(
    alloc: Global,
    sitting: &mut Sitting,
    scene: &mut Scene,
    refusal: Refusal,
) -> Option<()>
    requires { IsReadyForKey sitting.old.session }
{
    sitting.press_all(alloc, scene.keys.as_slice())?;
    sitting.paint();
    let before = sitting.screen.bytes().len();
    show(&mut sitting.session, refusal);
    sitting.paint();
    let painted = sitting.screen.bytes();
    scene.told.word_line(&painted[before.min(painted.len())..]);
    Some(())
}

/// Shows the refusal in the session of which its message is asked.
fn show(session: &mut Session<Counts>, refusal: Refusal)
    requires { IsReadyForKey session.old }
    ensures { IsReadyForKey session.new }
{
    session.show_message(refusal);
}

/// Asks a session over a new program to rescue it after the keys, where the calls of the files of these numbers
/// fail. Tells the save, and what the file of rescued programs holds.
fn rescue(alloc: Global, sitting: &mut Sitting, scene: &mut Scene, fails: &[Vec<u8>]) -> Option<()>
    requires { IsReadyForKey sitting.old.session }
{
    sitting.press_all(alloc, scene.keys.as_slice())?;
    match failing_files(alloc, fails) {
        Some(mut files) => {
            tell_rescue(&sitting.session, &mut files, &mut scene.told);
            tell_content(&files, b"RESCUE", &mut scene.told);
            drop(files);
            Some(())
        }
        None => None,
    }
}

/// Tells what comes of the rescue for which a session is asked.
fn tell_rescue(session: &Session<Counts>, files: &mut MemFiles, told: &mut Told)
    requires { IsReadyForKey session.now }
{
    told.value_line(&session.rescue(files));
}
