//! Where kept nodes stand, noted as advice for whoever looks for a slot.
ghost use Rattle.std.specs.Prelude.{◌≡◌};

use crate::code_node::CodeNode;
use crate::code_tree::CodeTree;
use plcs_base::{OutOfMemory, Slot};
use slot_homes::{Home, Homes, MOST_SHIFTS, WayStep};
use std::alloc::Global;
use template_tree::{Path, What};

/// Where a prepared edit gives nodes other places.
#[derive(Drop)]
pub(crate) struct Moved {
    /// The path to what was edited.
    way: Path,
    /// Whether an item came into its list there or went.
    is_listed: bool,
    /// Whether a node came there, with what is inside it.
    is_filled: bool,
}

impl Moved {
    /// Where an edit that did this at the end of the way moves nodes.
    pub(crate) fn by(what: What, numbers: &[u32]) -> Moved {
        let mut way = Path::new();
        if let Err(_) = way.try_extend_from_slice(numbers) {}
        let (is_listed, is_filled) = match what {
            What::Node => (false, true),
            What::Part(_) => (false, false),
            What::Added => (true, true),
            What::Dropped => (true, false),
        };
        Moved {
            way,
            is_listed,
            is_filled,
        }
    }
}

impl<W> CodeTree<W> {
    /// Makes room to note where so many nodes stand, and notes it where there was none. Where there is no memory for
    /// it, each search for a slot goes over all nodes.
    pub(crate) fn reserve_homes(&mut self, alloc: Global, slots: u32)
        ensures { self.new ≡ self.old }
    {
        if self.homes.has_room(slots) {
            return;
        }
        if let Err(OutOfMemory) = self.homes.grow(alloc, slots) {
            return;
        }
        enter_inside(&mut self.homes, None, &self.root);
    }
}

/// Where the nodes stand that are kept inside the root, as far as there is memory to note it.
pub(crate) fn homes_of<W>(alloc: Global, root: &CodeNode<W>, slots: u32) -> Homes {
    let mut homes = Homes::new(alloc);
    if let Err(OutOfMemory) = homes.grow(alloc, slots) {
        return homes;
    }
    enter_inside(&mut homes, None, root);
    homes
}

/// Notes where the nodes inside the root stand now that some were moved.
pub(crate) fn note<W>(homes: &mut Homes, root: &CodeNode<W>, moved: &Moved) {
    if moved.is_listed {
        homes.shift();
    }
    enter_way(homes, None, root, moved.way.as_slice(), moved.is_filled);
    if homes.are_stale() {
        homes.forget();
        enter_inside(homes, None, root);
    }
}

/// Says where the nodes on a way stand, from those inside this node on, with their neighbours, and what is inside the
/// last, if it is filled anew. The slot is the node's, unless it is the root.
fn enter_way<W>(
    homes: &mut Homes,
    slot: Option<Slot>,
    node: &CodeNode<W>,
    way: &[u32],
    is_filled: bool,
) {
    let Some((number, rest)) = way.split_first() else {
        return;
    };
    enter_child(homes, slot, node, number.saturating_sub(1));
    enter_child(homes, slot, node, number.saturating_add(1));
    enter_child(homes, slot, node, *number);
    let Some(child) = node.child(*number as usize) else {
        return;
    };
    if rest.len() == 0 {
        if is_filled {
            enter_inside(homes, Some(child.slot()), child);
        }
        return;
    }
    enter_way(homes, Some(child.slot()), child, rest, is_filled);
}

/// Says where all stands that is inside the node. The slot is the node's, unless it is the root.
fn enter_inside<W>(homes: &mut Homes, slot: Option<Slot>, node: &CodeNode<W>) {
    let mut k: u32 = 0;
    while let Some(child) = node.child(k as usize) {
        enter_child(homes, slot, node, k);
        enter_inside(homes, Some(child.slot()), child);
        if k == u32::MAX {
            return;
        }
        k += 1;
    }
}

/// Says where the node of this number stands that is inside a node, if there is one.
fn enter_child<W>(homes: &mut Homes, slot: Option<Slot>, node: &CodeNode<W>, number: u32) {
    if let Some(child) = node.child(number as usize) {
        homes.put(
            child.slot(),
            Home {
                parent: slot,
                number,
            },
        );
    }
}

impl<W> CodeNode<W> {
    /// The path that a node in the slot would have, from this node on, where it is said to stand, or near there.
    pub(crate) fn way_down(&self, homes: &Homes, slot: Slot) -> Option<Path> {
        let way = homes.way_to(slot)?;
        let mut path = Path::new();
        let mut node = self;
        for step in way.as_slice() {
            let number = node.number_near(step)?;
            let Ok(place) = u32::try_from(number) else {
                return None;
            };
            if path.try_push(place).is_err() {
                return None;
            }
            node = node.child(number)?;
        }
        Some(path)
    }

    /// The number of the node of the step inside this node, looked for from where it is said to stand outward.
    pub(crate) fn number_near(&self, step: &WayStep) -> Option<usize> {
        for off in 0..MOST_SHIFTS + 1 {
            let after = step.number.saturating_add(off) as usize;
            if self.is_at(after, step.slot) {
                return Some(after);
            }
            let before = step.number.saturating_sub(off) as usize;
            if self.is_at(before, step.slot) {
                return Some(before);
            }
        }
        None
    }

    /// Whether the node of this number inside this node has the slot.
    fn is_at(&self, number: usize, slot: u32) -> bool {
        match self.child(number) {
            Some(child) => child.slot().0 == slot,
            None => false,
        }
    }
}
