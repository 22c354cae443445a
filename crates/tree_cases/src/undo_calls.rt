//! Cases of edits at the stop of the cursor that are noted, and undone one after the other.
ghost use Rattle.edit_undo.specs.EarlierTree.{RingFits};
ghost use Rattle.template_tree.specs.Programs.PlainTree.{roomless_tree};
ghost use Rattle.template_tree.specs.Programs.Tree.{IsTree};

use crate::edit_calls::lines_of;
use crate::node_calls::tell_tree;
use crate::stop_edits::{edit_of, stop_at, tell_applied, tell_refused};
use crate::tell::{tell_change, tell_stop};
use crate::walk::{looks_like, picture_of};
use crate::words::path;
use case_script::{Told, meaning};
use edit_undo::{EditRecord, EditRing, UndoFault, edits_are_noted, toggles_leave_earlier};
use plcs_base::ByteOut;
use session_edit::apply;
use std::alloc::Global;
use template_tree::{Tree, room_is_not_shown};

/// A step of a case of edits that are noted.
#[derive(Clone, Copy)]
enum NotedStep {
    /// `note AT EDIT`: the edit at the visible stop, which is noted.
    Note,
    /// `undo`: the newest edit is undone.
    Undo,
    /// `there_and_back`: the newest edit is undone, and put back.
    ThereAndBack,
    /// `elide AT`: the comment at the path is turned.
    Elide,
    /// `held`: how many edits can be undone.
    Held,
}

/// Each word of a step of a case of edits that are noted, with what it names.
static NOTED_STEPS: [(&[u8], NotedStep); 5] = [
    (b"note", NotedStep::Note),
    (b"undo", NotedStep::Undo),
    (b"there_and_back", NotedStep::ThereAndBack),
    (b"elide", NotedStep::Elide),
    (b"held", NotedStep::Held),
];

/// Plays a case of edits that are noted, the steps that its lines of text say, and tells what each answers.
pub(crate) fn noted(alloc: Global, tree: &mut Tree, text: &[u8], told: &mut Told) -> Option<()>
    requires { IsTree tree.old }
    ensures { IsTree tree.new }
{
    match lines_of(alloc, text) {
        Some(lines) => {
            let played = play_lines(alloc, tree, lines.as_slice(), told);
            drop(lines);
            played
        }
        None => None,
    }
}

/// Plays the steps of a case of edits that are noted, with none noted before.
fn play_lines(alloc: Global, tree: &mut Tree, lines: &[Vec<Vec<u8>>], told: &mut Told) -> Option<()>
    requires { IsTree tree.old }
    ensures { IsTree tree.new }
{
    match EditRing::new(alloc) {
        Ok(mut ring) => {
            let played = play_steps(alloc, tree, &mut ring, lines, told);
            drop(ring);
            played
        }
        Err(_) => None,
    }
}

/// Plays the steps of a case of edits that are noted one after the other, as far as they are steps.
fn play_steps(
    alloc: Global,
    tree: &mut Tree,
    ring: &mut EditRing,
    lines: &[Vec<Vec<u8>>],
    told: &mut Told,
) -> Option<()>
    requires tree { IsTree tree.old }
    requires fits { RingFits ring.old (roomless_tree tree.old) }
    ensures { IsTree tree.new }
{
    for words in lines {
        step(alloc, tree, ring, words.as_slice(), told)?;
    }
    Some(())
}

/// Plays a step of a case of edits that are noted.
fn step(
    alloc: Global,
    tree: &mut Tree,
    ring: &mut EditRing,
    words: &[Vec<u8>],
    told: &mut Told,
) -> Option<()>
    requires tree { IsTree tree.old }
    requires fits { RingFits ring.old (roomless_tree tree.old) }
    ensures tree { IsTree tree.new }
    ensures fits { RingFits ring.new (roomless_tree tree.new) }
{
    let (word, rest) = words.split_first()?;
    let noted = meaning(&NOTED_STEPS, word.as_slice())?;
    match rest {
        [] => match noted {
            NotedStep::Undo => undo_newest(tree, ring, told),
            NotedStep::ThereAndBack => there_and_back(alloc, tree, ring, told),
            NotedStep::Held => tell_held(ring, told),
            _ => None,
        },
        [at, edit @ ..] => match noted {
            NotedStep::Note => note_at(alloc, tree, ring, at, edit, told),
            NotedStep::Elide if edit.is_empty() => turn_comment(tree, ring, at),
            _ => None,
        },
    }
}

/// Makes the edit at the stop, notes it, and tells its answer.
fn note_at(
    alloc: Global,
    tree: &mut Tree,
    ring: &mut EditRing,
    at: &[u8],
    edit: &[Vec<u8>],
    told: &mut Told,
) -> Option<()>
    requires tree { IsTree tree.old }
    requires fits { RingFits ring.old (roomless_tree tree.old) }
    ensures tree { IsTree tree.new }
    ensures fits { RingFits ring.new (roomless_tree tree.new) }
{
    room_is_not_shown();
    edits_are_noted();
    let at = stop_at(tree, at)?;
    let edit = edit_of(alloc, tree, edit)?;
    match apply(alloc, tree, &at, edit) {
        Ok(applied) => {
            tell_applied(tree, &applied, told);
            ring.note(EditRecord {
                receipt: applied.receipt,
                back: applied.taken,
                stop: at,
            });
        }
        Err(fault) => tell_refused(tree, fault, told),
    }
    Some(())
}

/// Undoes the newest edit that was noted, and tells what that changed, where the cursor stood, and the tree.
fn undo_newest(tree: &mut Tree, ring: &mut EditRing, told: &mut Told) -> Option<()>
    requires tree { IsTree tree.old }
    requires fits { RingFits ring.old (roomless_tree tree.old) }
    ensures tree { IsTree tree.new }
    ensures fits { RingFits ring.new (roomless_tree tree.new) }
{
    match ring.undo(tree) {
        Ok(undone) => {
            tell_change(undone.change, told);
            told.text(", from ");
            tell_stop(&undone.stop, told);
            told.put(b'\n');
            tell_tree(tree, told);
            told.put(b'\n');
            drop(undone);
        }
        Err(fault) => tell_fault(fault, told),
    }
    Some(())
}

/// Undoes the newest edit that was noted and puts it back, and tells whether the tree looks as before.
fn there_and_back(
    alloc: Global,
    tree: &mut Tree,
    ring: &mut EditRing,
    told: &mut Told,
) -> Option<()>
    requires tree { IsTree tree.old }
    requires fits { RingFits ring.old (roomless_tree tree.old) }
    ensures tree { IsTree tree.new }
    ensures fits { RingFits ring.new (roomless_tree tree.new) }
{
    let before = picture_of(alloc, tree);
    match ring.undo(tree) {
        Ok(undone) => {
            ring.put_back(tree, undone);
            told.line(if looks_like(alloc, tree, &before) {
                "there and back"
            } else {
                "THERE AND NOT BACK"
            });
        }
        Err(fault) => tell_fault(fault, told),
    }
    drop(before);
    Some(())
}

/// Turns the comment at the path, if one is there; the edits that were noted can still be undone.
fn turn_comment(tree: &mut Tree, ring: &mut EditRing, at: &[u8]) -> Option<()>
    requires tree { IsTree tree.old }
    requires fits { RingFits ring.old (roomless_tree tree.old) }
    ensures tree { IsTree tree.new }
    ensures fits { RingFits ring.new (roomless_tree tree.new) }
{
    room_is_not_shown();
    toggles_leave_earlier();
    let at = path(at)?;
    // Whether it is hidden now, the tree shows.
    let _ = tree.elide(&at);
    Some(())
}

/// Tells why no edit that was noted is undone.
fn tell_fault(fault: UndoFault, told: &mut Told) {
    told.value(&fault);
    told.put(b'\n');
}

/// Tells how many of the edits that were noted can be undone.
fn tell_held(ring: &EditRing, told: &mut Told) -> Option<()> {
    told.value(&ring.held());
    told.put(b'\n');
    Some(())
}
