//! Cases that read a tree.
ghost use Rattle.template_tree.specs.Programs.Tree.{IsTree};

use crate::tell::{tell_node, tell_path};
use crate::words::find;
use case_script::{Told, number_of};
use plcs_base::{ByteOut, Slot};
use template_tree::{Path, Tree};

/// What a case reads of a tree: its lines, its nodes and where they stand, or how many there are.
#[derive(Clone, Copy)]
pub(crate) enum Reader {
    /// `listing`: its lines.
    Listing,
    /// `nodes`: each node, in listing order.
    Nodes,
    /// `slots`: how many are live.
    Slots,
    /// `procedures`: how many items the list of procedures has.
    Procedures,
    /// `node AT`: the node there.
    Node,
    /// `slots_at AT`: how many slots it has.
    SlotsAt,
    /// `path_of SLOT`: the path of the node in the slot.
    PathOf,
    /// `paths_below SLOT`: how many of the slots below are live.
    PathsBelow,
}

/// Plays a case that reads a tree.
pub(crate) fn play(tree: &Tree, reader: Reader, words: &[Vec<u8>], told: &mut Told) -> Option<()>
    requires { IsTree tree.now }
{
    match words {
        [] => tell_whole(tree, reader, told),
        [word] => match reader {
            Reader::Node | Reader::SlotsAt => tell_there(tree, reader, word, told),
            _ => tell_slot(tree, reader, word, told),
        },
        _ => None,
    }
}

/// Tells what a case reads of a tree as a whole, if it is that.
fn tell_whole(tree: &Tree, reader: Reader, told: &mut Told) -> Option<()>
    requires { IsTree tree.now }
{
    match reader {
        Reader::Listing => tree.put_listing(told),
        Reader::Nodes => tell_nodes(tree, told),
        Reader::Slots => told.value_line(&tree.slots()),
        Reader::Procedures => told.value_line(&tree.procedures()),
        _ => return None,
    }
    Some(())
}

/// Tells what a case reads of a tree at a path, the node there or else how many slots it has, if a path is meant.
fn tell_there(tree: &Tree, reader: Reader, at: &[u8], told: &mut Told) -> Option<()>
    requires { IsTree tree.now }
{
    match find(tree, at) {
        Some(at) => {
            match reader {
                Reader::Node => tell_node_at(tree, &at, told),
                _ => told.value_line(&tree.slots_at(&at)),
            }
            Some(())
        }
        None => None,
    }
}

/// Tells what a case reads of a tree by the number of a slot, if it is that.
fn tell_slot(tree: &Tree, reader: Reader, slot: &[u8], told: &mut Told) -> Option<()>
    requires { IsTree tree.now }
{
    let slot = number_of(slot)?;
    match reader {
        Reader::PathOf => tell_path_of(tree, slot, told),
        Reader::PathsBelow => told.value_line(&live_below(tree, slot)),
        _ => return None,
    }
    Some(())
}

/// Tells the path of the node in the slot of the tree that is read.
fn tell_path_of(tree: &Tree, slot: u32, told: &mut Told)
    requires { IsTree tree.now }
{
    match tree.path_of(Slot(slot)) {
        Some(path) => tell_path(path.as_slice(), told),
        None => told.text("None"),
    }
    told.put(b'\n');
}

/// Tells all that a case reads of a tree: its listing, each node in its slot with its path, and how many slots
/// are live.
pub(crate) fn tell_tree(tree: &Tree, told: &mut Told)
    requires { IsTree tree.now }
{
    tree.put_listing(told);
    tell_nodes(tree, told);
    told.value(&tree.slots());
}

/// Tells the nodes of the tree that is read in listing order, each on a line.
fn tell_nodes(tree: &Tree, told: &mut Told)
    requires { IsTree tree.now }
{
    let mut at = Path::new();
    for _ in 0..=20_000 {
        if !goes_on(tree, &mut at) {
            return;
        }
        tell_node_at(tree, &at, told);
    }
}

/// In a case that reads a tree, goes on to the next node in listing order: the first one inside, or the next
/// one behind. Says whether there is one.
fn goes_on(tree: &Tree, at: &mut Path) -> bool
    requires { IsTree tree.now }
{
    if at.try_push(0).is_ok() {
        if tree.node(at).is_some() {
            return true;
        }
        // No node stands inside.
        let _ = at.pop();
    }
    for _ in 0..=64 {
        let Some(last) = at.pop() else {
            return false;
        };
        if at.try_push(last.saturating_add(1)).is_ok() && tree.node(at).is_some() {
            return true;
        }
        // No node stands behind: it goes on from the one around.
        let _ = at.pop();
    }
    false
}

/// Tells the node at the path of the tree that is read: its slot and its path, what it is, how many slots it has, and
/// how many nodes stand inside.
fn tell_node_at(tree: &Tree, at: &Path, told: &mut Told)
    requires { IsTree tree.now }
{
    let Some(node) = tree.node(at) else {
        told.line("None");
        return;
    };
    told.value(&node.slot().0);
    told.text(" at ");
    tell_path(at.as_slice(), told);
    told.text(": ");
    tell_node(node, told);
    told.text(", ");
    told.value(&node.slots());
    told.text(" slots, ");
    told.value(&node.children());
    told.line(" inside");
}

/// How many of the slots below the number are live in the tree that is read, or `None` where a path leads to another
/// slot.
fn live_below(tree: &Tree, drawn: u32) -> Option<u32>
    requires { IsTree tree.now }
{
    let mut live: u32 = 0;
    for slot in 0..drawn {
        if let Some(at) = tree.path_of(Slot(slot)) {
            if tree.node(&at)?.slot() != Slot(slot) {
                return None;
            }
            live = live.saturating_add(1);
        }
    }
    Some(live)
}
