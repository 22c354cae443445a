//! The tree: main and the procedures, with the slots that were drawn.
ghost use Rattle.std.specs.Prelude.{◌≡◌, ◌+◌, IfOk, length};
ghost use Rattle.template_tree.specs.Programs.PlainTree.{nodes, roomless};
ghost use Rattle.template_tree.specs.Programs.NewTree.{new_items};
ghost use Rattle.template_tree.specs.Programs.Slots.{count};
ghost use Rattle.template_tree.specs.Programs.Tree.{IsTree};

use crate::node::{Node, Nodes};
use plcs_base::{OutOfMemory, Slot};
use plcs_grammar::NodeKind;
use slot_homes::Homes;
use std::alloc::Global;
use std::marker::Model;

/// A tree: a program whose nodes have slots, which contracts see as plain data.
///
/// Each call that takes one asks that it is a tree, and those that change it give that back. The type
/// does not keep it, since `node_mut` lends a node for writing.
#[derive(Drop)]
pub struct Tree {
    pub(crate) items: Nodes,
    pub(crate) drawn: u32,
    pub(crate) live: u32,
    pub(crate) homes: Homes,
}

impl Model for Tree {
    ghost use Rattle.template_tree.specs.Programs.PlainTree.{PlainTree, forest};
    ghost use Rattle.template_tree.specs.Private.NodeCode.{tree_code};

    ghost Value = { PlainTree };

    ghost coded = { tree_code };

    ghost view = { λ a.
        record { items = forest a.items.items; spare = a.items.spare; drawn = a.drawn; live = a.live } };
}

impl Tree {
    /// The new program: main with a declaration hole and a statement hole, and a procedure hole. They
    /// have the slots 0 to 3.
    pub fn new(alloc: Global) -> Result<Tree, OutOfMemory>
        ensures program { IfOk result (λ tree. roomless tree.items ≡ new_items) }
        ensures drawn { IfOk result (λ tree. tree.drawn ≡ 4) }
        ensures tree { IfOk result IsTree }
    {
        let declaration = Node::bare(alloc, Slot(1), NodeKind::DeclarationHole);
        let statement = Node::bare(alloc, Slot(2), NodeKind::StatementHole);
        let Ok(inner) = Nodes::two(alloc, declaration, statement) else {
            return Err(OutOfMemory);
        };
        let main = Node {
            slot: Slot(0),
            kind: NodeKind::Main,
            elided: false,
            parts: Vec::new(alloc),
            inner,
        };
        let procedure = Node::bare(alloc, Slot(3), NodeKind::ProcedureHole);
        let Ok(items) = Nodes::two(alloc, main, procedure) else {
            return Err(OutOfMemory);
        };
        Ok(Tree {
            items,
            drawn: 4,
            live: 4,
            homes: Homes::new(alloc),
        })
    }

    /// How many slots of the tree are live.
    pub fn slots(&self) -> u32
        requires tree { IsTree self.now }
        ensures { result ≡ count self.now.items }
    {
        self.live
    }

    /// How many items the list of procedures in the tree has.
    pub fn procedures(&self) -> u32
        requires tree { IsTree self.now }
        ensures { result + 1 ≡ length (nodes self.now.items) }
    {
        self.items.len() as u32 - 1
    }
}
