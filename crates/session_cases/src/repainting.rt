//! Cases that compare screens painted over one another with screens painted anew.

ghost use Rattle.std.specs.Prelude.{◌≡◌};
ghost use Rattle.synth_session.specs.SessionView.{IsReadyForKey};

use crate::asking::{Asked, ask};
use crate::scene::Scene;
use crate::screen_cases::terminal_of;
use crate::sitting::Sitting;
use screen_window::Terminal;
use std::alloc::Global;

/// `repaint`: paints the screen of the session after each byte of the keys at hand over the one before. It
/// answers whether a terminal shows each time what it shows where that screen is painted anew.
pub fn repaint(alloc: Global, scene: &mut Scene) -> Option<()> {
    scene.painted.clear();
    scene.ends.clear();
    ask(alloc, scene, Asked::Screens, &[])?;
    for count in 1..=scene.keys.len() {
        ask(alloc, scene, Asked::Screen(count), &[])?;
        if !scene.same {
            scene.told.text("another screen behind ");
            scene.told.value(&count);
            scene.told.line(" bytes");
            return Some(());
        }
    }
    scene.told.line("each screen is as painted anew");
    Some(())
}

/// Paints the screen after each byte of the keys at hand over the one before, and keeps what was painted.
pub fn keep_screens(alloc: Global, sitting: &mut Sitting, scene: &mut Scene) -> Option<()>
    requires { IsReadyForKey sitting.old.session }
{
    sitting.paint();
    let keys = scene.keys.as_slice();
    for count in 0..keys.len() {
        sitting.press_bytes(alloc, &keys[count..count + 1])?;
        sitting.paint();
        scene.ends.push(sitting.screen.bytes().len()).ok()?;
    }
    scene.painted.extend_from_slice(sitting.screen.bytes()).ok()
}

/// Keeps whether a terminal shows what it shows on which the screen after so many bytes of the keys is painted anew.
pub fn compare_screen(
    alloc: Global,
    sitting: &mut Sitting,
    scene: &mut Scene,
    count: usize,
) -> Option<()>
    requires { IsReadyForKey sitting.old.session }
{
    let keys = scene.keys.as_slice();
    sitting.press_bytes(alloc, &keys[..count.min(keys.len())])?;
    sitting.paint();
    let end = *scene.ends.get(count.saturating_sub(1))?;
    let painted = scene.painted.as_slice();
    let painted = &painted[..end.min(painted.len())];
    scene.same = show_the_same(alloc, painted, sitting.screen.bytes())?;
    Some(())
}

/// Whether a terminal shows the same of screens that are painted over one another, by the first bytes, as of
/// screens that are painted anew, by the others.
fn show_the_same(alloc: Global, bytes: &[u8], others: &[u8]) -> Option<bool> {
    match terminal_of(alloc, (12, 40), bytes) {
        Some(terminal) => {
            let same = shows_the_same(alloc, &terminal, others);
            drop(terminal);
            same
        }
        None => None,
    }
}

/// Whether a terminal on which screens were painted over one another shows the same as one on which these bytes paint
/// anew.
fn shows_the_same(alloc: Global, terminal: &Terminal, others: &[u8]) -> Option<bool>
    requires { terminal.now.rows ≡ 12 }
{
    match terminal_of(alloc, (12, 40), others) {
        Some(other) => {
            let same = terminal.cursor() == other.cursor() && have_the_same_rows(terminal, &other);
            drop(other);
            Some(same)
        }
        None => None,
    }
}

/// Whether two terminals of 12 rows, painted over or anew, have the same cells.
fn have_the_same_rows(terminal: &Terminal, other: &Terminal) -> bool
    requires terminal { terminal.now.rows ≡ 12 }
    requires other { other.now.rows ≡ 12 }
{
    for above in 0..12 {
        if terminal.cells(above + 1) != other.cells(above + 1) {
            return false;
        }
    }
    true
}
