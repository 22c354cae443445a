//! Nodes, and the lists in which they stand.
ghost use Rattle.std.specs.Prelude.{◌≡◌, ℕ, ◌+◌, ◌-◌, ◌^◌, ◌<◌, ◌≤◌, ◌∷◌, ◌++◌, [], IfErr, IfOk, IsOk, OnOk, length, option_map, slice_get, map, Some};
ghost use Rattle.std.specs.Borrow.{LendsIf, sem};
ghost use Rattle.template_tree.specs.contracts.node.Node as node_row;
ghost use Rattle.template_tree.specs.contracts.node.Nodes as list_row;
ghost use Rattle.template_tree.specs.Edits.Lend.{with_node_set, with_node_inserted, with_node_removed};
ghost use Rattle.template_tree.specs.Programs.NewTree.{bare_label};
ghost use Rattle.template_tree.specs.Programs.PlainTree.{nodes, forest, with_spare};
ghost use Rattle.template_tree.specs.Programs.PlainPhrasePlace.{plain_phrase_place};

use crate::phrase_place::PhrasePlace;
use plcs_base::{OutOfMemory, Slot};
use plcs_grammar::NodeKind;
use std::alloc::Global;
use std::marker::Model;

/// A node: main, a procedure, a declaration or a statement with its parts and with what stands inside it, or a hole.
/// Contracts see it as plain data.
#[cycle(node)]
#[derive(Drop)]
pub struct Node {
    pub(crate) slot: Slot,
    pub(crate) kind: NodeKind,
    pub(crate) elided: bool,
    pub(crate) parts: Vec<PhrasePlace>,
    pub(crate) inner: Nodes,
}

/// Nodes in order, which contracts see as a list with spare room.
#[cycle(node)]
#[derive(Drop)]
pub struct Nodes {
    list: Vec<Node>,
}

impl Model for Node {
    ghost use Rattle.std.proofs.Common.{arith};
    ghost use Rattle.template_tree.specs.Programs.PlainTree.{PlainNode};
    ghost use Rattle.template_tree.specs.Private.NodeCode.{node_code};
    ghost use Rattle.template_tree.specs.Private.Weight.{weight};

    ghost Value = { PlainNode };

    ghost coded = { node_code };

    ghost use Rattle.template_tree.specs.Private.NodeView.{seen};

    ghost view = { seen };

    ghost size = { weight };

    ghost size_decreases = { λ a h. omega arith };
}

impl Model for Nodes {
    ghost use Rattle.std.proofs.Common.{arith};
    ghost use Rattle.std.specs.Prelude.{◌-◌, vec_len, vec_capacity};
    ghost use Rattle.template_tree.specs.Programs.PlainTree.{PlainNodes};
    ghost use Rattle.template_tree.specs.Private.NodeCode.{nodes_code};
    ghost use Rattle.template_tree.specs.Private.Weight.{nodes_weight, most_le_weight};

    ghost Value = { PlainNodes };

    ghost coded = { nodes_code };

    ghost view = { λ a. record { items = a.list.items; spare = vec_capacity a.list - vec_len a.list } };

    ghost size = { nodes_weight };

    ghost size_decreases = { λ a h. omega (arith, most_le_weight a.list.items) };
}

impl Node {
    /// A single node, with no parts and with no list of nodes inside: a hole, or main before its lists are
    /// there. It takes no memory.
    pub(crate) fn bare(alloc: Global, slot: Slot, kind: NodeKind) -> Node
        ensures { with_spare 0 result ≡ record { label = bare_label slot.0 kind; inner = forest [] } }
    {
        Node {
            slot,
            kind,
            elided: false,
            parts: Vec::new(alloc),
            inner: Nodes::new(alloc),
        }
    }

    /// The slot of the node.
    pub fn slot(&self) -> Slot
        ensures { result.0 ≡ self.now.label.slot }
    {
        self.slot
    }

    /// The kind of the node.
    pub fn kind(&self) -> NodeKind
        ensures { result ≡ self.now.label.kind }
    {
        self.kind
    }
}

impl Node {
    /// What the node holds in its part of this number, or `None` where the node has no such part.
    pub fn part(&self, part: u8) -> Option<&PhrasePlace>
        ensures { option_map (λ place. plain_phrase_place place.now) result ≡ slice_get self.now.label.parts part }
    {
        self.parts.get(part as usize)
    }

    /// Whether the node is a comment whose refinement is hidden; a node has this beside its parts.
    pub fn is_elided(&self) -> bool
        ensures { result ≡ self.now.label.elided }
    {
        self.elided
    }

    /// How many nodes stand inside the node, those inside them not counted.
    #[tactic(auto, using(crate::specs::Programs::PlainTree::nodes_forest))]
    pub fn children(&self) -> u32
        requires few { length (nodes self.now.inner) < 2 ^ 32 }
        ensures { result ≡ length (nodes self.now.inner) }
    {
        self.inner.len() as u32
    }

    /// The node of this number inside the node, counted from 0 in listing order, or `None` where there
    /// is none.
    #[tactic(auto, using(crate::specs::Programs::PlainTree::nodes_forest))]
    pub fn child(&self, k: u32) -> Option<&Node>
        ensures { option_map (λ node. node.now) result ≡ slice_get (nodes self.now.inner) k }
    {
        self.inner.get(k as usize)
    }
}

impl Nodes {
    /// A list of no nodes, which takes no memory.
    pub fn new(alloc: Global) -> Nodes
        ensures { result.items ≡ [] }
    {
        Nodes {
            list: Vec::new(alloc),
        }
    }

    /// By which memory is taken for the list.
    pub(crate) fn allocator(&self) -> Global {
        *self.list.allocator()
    }

    /// How many nodes the list has.
    pub(crate) fn len(&self) -> usize
        ensures { result ≡ length self.now.items }
    {
        self.list.len()
    }

    /// All the nodes of the list.
    pub(crate) fn as_slice(&self) -> &[Node]
        ensures { result.now ≡ self.now.items }
    {
        self.list.as_slice()
    }

    /// The node of this number in the list, or `None` where there is none.
    pub(crate) fn get(&self, k: usize) -> Option<&Node>
        ensures { option_map (λ node. node.now) result ≡ slice_get self.now.items k }
    {
        self.list.get(k)
    }
}

impl Nodes {
    /// Lends the node of this number in the list for writing, or `None` where there is none.
    pub(crate) fn get_mut(&mut self, k: usize) -> Option<&mut Node>
        ensures* writes_back { sem 𝓛 (LendsIf list_row.the_row node_row.the_row self.entry result
            (with_node_set self.old k) self.old) }
        ensures found { option_map (λ node. node.now) result ≡ slice_get self.old.items k }
    {
        self.list.get_mut(k)
    }

    /// Takes the node of this number out of the list; those behind it close up, and its room stays.
    pub(crate) fn remove(&mut self, k: usize) -> Node
        requires there { k < length self.old.items }
        ensures taken { Some result ≡ slice_get self.old.items k }
        ensures others { self.new ≡ with_node_removed self.old k }
    {
        self.list.remove(k)
    }

    /// Puts a node into the list before the one of this number, into the room that is there.
    pub(crate) fn insert_within(&mut self, k: usize, node: Node)
        requires there { k ≤ length self.old.items }
        requires room { 0 < self.old.spare }
        ensures { self.new ≡ with_node_inserted self.old k node }
    {
        if let Err(_) = self.list.insert(k, node) {}
    }
}

impl Nodes {
    /// A list in which these two nodes stand.
    pub(crate) fn two(alloc: Global, first: Node, second: Node) -> Result<Nodes, OutOfMemory>
        ensures { IfOk result (λ list. list.items ≡ first ∷ (second ∷ [])) }
    {
        let mut list = Nodes::new(alloc);
        if let Err(OutOfMemory) = list.put_last(first) {
            drop(list);
            drop(second);
            return Err(OutOfMemory);
        }
        match list.put_last(second) {
            Ok(()) => Ok(list),
            Err(OutOfMemory) => {
                drop(list);
                Err(OutOfMemory)
            }
        }
    }

    /// Takes memory for one node more in the list.
    pub(crate) fn reserve_one(&mut self) -> Result<(), OutOfMemory>
        ensures room { OnOk result (0 < self.new.spare) }
        ensures had_room { 0 < self.old.spare → IsOk result }
        ensures items { self.new.items ≡ self.old.items }
        ensures refused { IfErr result (λ _. self.new ≡ self.old) }
    {
        if let Err(_) = self.list.reserve(1) {
            return Err(OutOfMemory);
        }
        Ok(())
    }

    /// Puts a node at the end of the list, or lets go of it where there is no memory for it.
    pub(crate) fn put_last(&mut self, node: Node) -> Result<(), OutOfMemory>
        ensures { OnOk result (self.new.items ≡ self.old.items ++ node ∷ []) }
    {
        if let Err(_) = self.list.reserve(1) {
            drop(node);
            return Err(OutOfMemory);
        }
        self.list.push_reserved(node);
        Ok(())
    }

    /// Puts a node at the end of the list, or gives it back where there is no memory for it.
    pub fn push(&mut self, node: Node) -> Result<(), Node>
        ensures put { OnOk result (self.new.items ≡ self.old.items ++ node ∷ []) }
        ensures refused { IfErr result (λ back. (back ≡ node) × (self.new ≡ self.old)) }
    {
        if let Err(_) = self.list.reserve(1) {
            return Err(node);
        }
        self.list.push_reserved(node);
        Ok(())
    }
}
