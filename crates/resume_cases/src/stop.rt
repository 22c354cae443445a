//! The stops of a program, by slots and parts.
ghost use Rattle.std.specs.Prelude.{IfSome};
ghost use Rattle.template_tree.specs.Positions.Stop.{IsStop, plain_stop};
ghost use Rattle.template_tree.specs.Programs.PlainTree.{roomless_tree};
ghost use Rattle.template_tree.specs.Programs.Tree.{IsTree};

use case_script::number_of;
use cursor_moves::{Move, right};
use plcs_base::Slot;
use session_edit::shown_stop;
use std::mem;
use template_tree::{Path, Stop, Tree, copy_path};

/// The most parts that a node has.
const MOST_PARTS: u32 = 4;

/// The visible stop of the program that a word says by a slot, for the node in it, or by a slot and after a
/// colon a part of that node.
pub(crate) fn stop_of(tree: &Tree, word: &[u8]) -> Option<Stop>
    requires { IsTree tree.now }
    ensures { IfSome result (λ stop. IsStop (roomless_tree tree.now).items (plain_stop stop)) }
{
    let mut halves = word.split(|byte| *byte == b':');
    let slot = Slot(number_of(halves.next()?)?);
    match halves.next() {
        Some(part) => part_stop_in(tree, slot, u8::try_from(number_of(part)?).ok()?),
        None => node_stop(tree, slot),
    }
}

/// The stop of the program at this part of the node in a slot, or `None` where that isn't visible or has no such part.
fn part_stop_in(tree: &Tree, slot: Slot, part: u8) -> Option<Stop>
    requires { IsTree tree.now }
    ensures { IfSome result (λ stop. IsStop (roomless_tree tree.now).items (plain_stop stop)) }
{
    match node_stop(tree, slot) {
        Some(node) => part_stop(tree, node, part),
        None => None,
    }
}

/// The stop of the program by a slot alone, at the node in it, or `None` where that isn't visible.
fn node_stop(tree: &Tree, slot: Slot) -> Option<Stop>
    requires { IsTree tree.now }
    ensures { IfSome result (λ stop. IsStop (roomless_tree tree.now).items (plain_stop stop)) }
{
    match shown_stop(tree, slot) {
        Some(shown) => {
            if is_path_of(tree, slot, &shown.path) {
                Some(shown)
            } else {
                drop(shown);
                None
            }
        }
        None => None,
    }
}

/// Whether the path is that of the node in the slot.
fn is_path_of(tree: &Tree, slot: Slot, path: &Path) -> bool
    requires { IsTree tree.now }
{
    match tree.path_of(slot) {
        Some(own) => {
            let is_own = own == *path;
            drop(own);
            is_own
        }
        None => false,
    }
}

/// The stop of the program at this part of the node in a slot, by that node's own stop; `None` where it has no
/// such part.
fn part_stop(tree: &Tree, node: Stop, part: u8) -> Option<Stop>
    requires tree { IsTree tree.now }
    requires stop { IsStop (roomless_tree tree.now).items (plain_stop node) }
    ensures { IfSome result (λ stop. IsStop (roomless_tree tree.now).items (plain_stop stop)) }
{
    let said = Stop {
        path: copy_path(&node.path),
        part: Some(part),
    };
    let mut at = node;
    let is_there = comes_to(tree, &mut at, &said);
    drop(said);
    if is_there {
        Some(at)
    } else {
        drop(at);
        None
    }
}

/// Moves the stop to the right until it is the one that was said, past as many as a node has parts. Whether it came
/// there.
fn comes_to(tree: &Tree, at: &mut Stop, said: &Stop) -> bool
    requires tree { IsTree tree.now }
    requires stop { IsStop (roomless_tree tree.now).items (plain_stop at.old) }
    ensures { IsStop (roomless_tree tree.now).items (plain_stop at.new) }
{
    'parts: for _ in 0..MOST_PARTS {
        match right(tree, at) {
            Move::Moved(next) => drop(mem::replace(at, next)),
            Move::AtEdge => return false,
        }
        if *at == *said {
            return true;
        }
    }
    false
}
