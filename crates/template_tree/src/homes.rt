//! Where the nodes of a tree stand, noted as advice for whoever looks for a slot.
ghost use Rattle.std.specs.Prelude.{◌≡◌};

use crate::node::Node;
use crate::path::Path;
use crate::tree::Tree;
use plcs_base::{OutOfMemory, Slot};
use slot_homes::{Home, Homes, MOST_SHIFTS, WayStep};
use std::alloc::Global;

impl Tree {
    /// Notes where all nodes stand, unless there are places already in which to note it for so many. Where there is no
    /// memory for such places, what was noted stays, and `path_of` goes over the nodes for the others.
    pub fn enter_slots(&mut self, alloc: Global) -> Result<(), OutOfMemory>
        ensures { self.new ≡ self.old }
    {
        if self.homes.has_room(self.live) {
            return Ok(());
        }
        if let Err(OutOfMemory) = self.homes.grow(alloc, self.live) {
            return Err(OutOfMemory);
        }
        self.enter_all();
        Ok(())
    }
}

impl Tree {
    /// Notes where the nodes on the way of the path stand now, and their neighbours, and what is inside the last, or
    /// all nodes, where what was noted is stale.
    pub(crate) fn note(&mut self, path: &Path)
        ensures { self.new ≡ self.old }
    {
        enter_way(
            &mut self.homes,
            None,
            self.items.as_slice(),
            path.as_slice(),
        );
        if self.homes.are_stale() {
            self.enter_all();
        }
    }

    /// Notes that the list changed in which the path ends, and then as `note`.
    pub(crate) fn note_list(&mut self, path: &Path)
        ensures { self.new ≡ self.old }
    {
        self.homes.shift();
        self.note(path);
    }

    /// Notes where all nodes stand, in place of what was noted.
    fn enter_all(&mut self)
        ensures { self.new ≡ self.old }
    {
        self.homes.forget();
        enter_nodes(&mut self.homes, None, self.items.as_slice());
    }
}

/// The path that a node in the slot would have where it is said to stand, or near there.
pub(crate) fn way_down(items: &[Node], homes: &Homes, slot: Slot) -> Option<Path> {
    let Some(way) = homes.way_to(slot) else {
        return None;
    };
    let mut path = Path::new();
    let mut nodes = items;
    for step in way.as_slice() {
        let Some(number) = number_near(nodes, step) else {
            return None;
        };
        if path.is_full() {
            return None;
        }
        path.push(number);
        let Some(node) = nodes.get(number as usize) else {
            return None;
        };
        nodes = node.inner.as_slice();
    }
    Some(path)
}

/// The number of the node of the step in a list, looked for from where it is said to stand outward.
fn number_near(nodes: &[Node], step: &WayStep) -> Option<u32> {
    for off in 0..MOST_SHIFTS + 1 {
        let after = step.number.saturating_add(off);
        if is_at(nodes, after, step.slot) {
            return Some(after);
        }
        let before = step.number.saturating_sub(off);
        if is_at(nodes, before, step.slot) {
            return Some(before);
        }
    }
    None
}

/// Whether the node of this number in a list has the slot.
fn is_at(nodes: &[Node], number: u32, slot: u32) -> bool {
    match nodes.get(number as usize) {
        Some(node) => node.slot.0 == slot,
        None => false,
    }
}

/// Says where the nodes on a way stand, from this list inside a node on, with their neighbours, and what is inside
/// the last.
fn enter_way(homes: &mut Homes, parent: Option<Slot>, nodes: &[Node], path: &[u32]) {
    let Some((number, rest)) = path.split_first() else {
        return;
    };
    enter_node(homes, parent, nodes, number.saturating_sub(1));
    enter_node(homes, parent, nodes, number.saturating_add(1));
    enter_node(homes, parent, nodes, *number);
    let Some(node) = nodes.get(*number as usize) else {
        return;
    };
    if rest.len() == 0 {
        enter_inside(homes, node);
        return;
    }
    enter_way(homes, Some(node.slot), node.inner.as_slice(), rest);
}

/// Says where the nodes of this list inside a node stand, and all that is inside them.
#[cycle(enter)]
fn enter_nodes(homes: &mut Homes, parent: Option<Slot>, nodes: &[Node]) {
    let mut number: u32 = 0;
    for node in nodes {
        homes.put(node.slot, Home { parent, number });
        enter_inside(homes, node);
        number = number.saturating_add(1);
    }
}

/// Says where all stands that is inside the node.
#[cycle(enter)]
fn enter_inside(homes: &mut Homes, node: &Node) {
    enter_nodes(homes, Some(node.slot), node.inner.as_slice());
}

/// Says where the node of this number in a list inside a node stands, if there is one.
fn enter_node(homes: &mut Homes, parent: Option<Slot>, nodes: &[Node], number: u32) {
    if let Some(node) = nodes.get(number as usize) {
        homes.put(node.slot, Home { parent, number });
    }
}
