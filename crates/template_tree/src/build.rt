//! Nodes and trees built from their leaves, nodes that come into a tree, and the slots that are drawn for them.
ghost use Rattle.std.specs.Prelude.{◌≡◌, ◌+◌, ◌≤◌, IfErr, IfOk, map};
ghost use Rattle.template_tree.specs.Programs.Build.{IsOverBuildLimit, built_label, built_tree};
ghost use Rattle.template_tree.specs.Edits.Edit.{node_in_slot, whole};
ghost use Rattle.template_tree.specs.Programs.Limit.{deepest_path, most_slots};
ghost use Rattle.template_tree.specs.Programs.PlainPhrasePlace.{plain_phrase_place};
ghost use Rattle.template_tree.specs.Programs.PlainTree.{nodes, forest};
ghost use Rattle.template_tree.specs.Programs.Program.{AreNodes, IsNode, IsProgram, IsSubtree, sorts};
ghost use Rattle.template_tree.specs.Programs.Slots.{count, depth, with_slots_from};
ghost use Rattle.template_tree.specs.Programs.Tree.{IsTree};

use crate::limit::{DEEPEST_PATH, MOST_SLOTS};
use crate::limit_reached::{is_within_depth, slots_left};
use crate::node::{Node, Nodes};
use crate::phrase_place::PhrasePlace;
use crate::tree::Tree;
use plcs_base::Slot;
use plcs_grammar::NodeKind;
use slot_homes::Homes;

/// The limit that the items are over of which a tree was to be built.
#[derive(Clone, Copy, Debug, PartialEq, Eq)]
pub enum BuildLimit {
    /// A path to one of the items, or to a node inside, would have more than 64 numbers.
    TooDeep,
    /// The items, with the nodes inside, are more than 20,000.
    TooLarge,
}

impl Node {
    /// A node of the kind with these parts and with these nodes inside. Nothing is elided, and its slot
    /// is 0 until a tree is built with it. It takes no memory.
    pub fn built(kind: NodeKind, parts: Vec<PhrasePlace>, inner: Nodes) -> Node
        ensures built { result ≡ record {
          label = built_label kind (map plain_phrase_place parts.items) inner.spare;
          inner = forest inner.items;
        } }
        ensures subtree { IsNode (built_label kind (map plain_phrase_place parts.items) inner.spare)
            (sorts (forest inner.items)) → AreNodes (forest inner.items) → IsSubtree result }
    {
        Node {
            slot: Slot(0),
            kind,
            elided: false,
            parts,
            inner,
        }
    }
}

impl Tree {
    /// The tree with these items, main and the procedures, whose slots are drawn from 0 in listing
    /// order. Where they are over both limits, it is the depth that is told. It takes no memory.
    pub fn built(items: Nodes) -> Result<Tree, BuildLimit>
        requires program { IsProgram (forest items.items) }
        ensures built { IfOk result (λ tree. tree ≡ built_tree items) }
        ensures within { IfOk result (λ _. (depth (forest items.items) ≤ deepest_path)
            × (count (forest items.items) ≤ most_slots)) }
        ensures over { IfErr result (IsOverBuildLimit (forest items.items)) }
        ensures tree { IfOk result IsTree }
    {
        if !is_within_depth(items.as_slice(), DEEPEST_PATH as u32) {
            drop(items);
            return Err(BuildLimit::TooDeep);
        }
        let Some(left) = slots_left(items.as_slice(), MOST_SLOTS) else {
            drop(items);
            return Err(BuildLimit::TooLarge);
        };
        let homes = Homes::new(items.allocator());
        let mut items = items;
        draw_slots(&mut items, 0);
        Ok(Tree {
            items,
            drawn: MOST_SLOTS - left,
            live: MOST_SLOTS - left,
            homes,
        })
    }
}

impl Node {
    /// Makes the node one that comes into the slot: the nodes inside take the slots from this number on,
    /// and nothing in it is elided. Says which number is next.
    pub(crate) fn settle(&mut self, slot: Slot, first: u32) -> u32
        requires few { first + count self.old.inner ≤ 4294967295 }
        ensures settled { self.new ≡ node_in_slot slot.0 first self.old }
        ensures next { result ≡ first + count self.old.inner }
    {
        self.slot = slot;
        self.elided = false;
        reveal(&mut self.inner);
        draw_slots(&mut self.inner, first)
    }
}

/// Draws the slots of the nodes, from this number on in listing order, and says which number is next.
pub(crate) fn draw_slots(list: &mut Nodes, first: u32) -> u32
    requires few { first + count (forest list.old.items) ≤ 4294967295 }
    ensures drawn { list.new ≡ record list.old { items = nodes (with_slots_from first (forest list.old.items)) } }
    ensures next { result ≡ first + count (forest list.old.items) }
{
    let mut next = first;
    for k in 0..list.len() {
        let Some(node) = list.get_mut(k) else {
            unreachable!()
        };
        node.slot = Slot(next);
        next = draw_slots(&mut node.inner, next + 1);
    }
    next
}

/// Shows each refinement again in nodes that come into a tree.
fn reveal(list: &mut Nodes)
    ensures { list.new ≡ record list.old { items = nodes (whole (forest list.old.items)) } }
{
    for k in 0..list.len() {
        let Some(node) = list.get_mut(k) else {
            unreachable!()
        };
        node.elided = false;
        reveal(&mut node.inner);
    }
}
