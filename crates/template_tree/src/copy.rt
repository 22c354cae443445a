//! Copies of nodes.
ghost use Rattle.std.specs.Prelude.{◌≡◌, IfErr, IfOk, IsSomeAnd, map};
ghost use Rattle.template_tree.specs.Edits.Copy.{CopyRefused, IsCopy};
ghost use Rattle.template_tree.specs.Edits.EditAnswer.{MayTake};
ghost use Rattle.template_tree.specs.Positions.Path.{node_at};
ghost use Rattle.template_tree.specs.Programs.PlainPhrasePlace.{plain_phrase_place};
ghost use Rattle.template_tree.specs.Programs.Program.{IsSubtree};
ghost use Rattle.template_tree.specs.Programs.Slots.{count, depth};
ghost use Rattle.template_tree.specs.Programs.Tree.{IsTree};

use crate::hole::hole_left;
use crate::node::{Node, Nodes};
use crate::path::Path;
use crate::phrase_place::PhrasePlace;
use crate::tree::Tree;
use crate::tree_fault::TreeFault;
use plcs_base::OutOfMemory;
use plcs_grammar::copy_phrase;
use std::alloc::Global;

impl Tree {
    /// A copy of the node at the path, with what stands inside it; nothing in it is elided. `NotHere`
    /// where no node stands there, and at main and at a hole; else `OutOfMemory` may come.
    pub fn copy_node(&self, alloc: Global, path: &Path) -> Result<Node, TreeFault>
        requires tree { IsTree self.now }
        ensures copied { IfOk result (λ copy. IsSomeAnd (node_at self.now.items path.now.items)
            (λ node. IsCopy node copy)) }
        ensures may_take { IfOk result (λ copy. IsSomeAnd (node_at self.now.items path.now.items) MayTake) }
        ensures refused { IfErr result (CopyRefused (node_at self.now.items path.now.items)) }
        ensures subtree { IfOk result IsSubtree }
        ensures slots { IfOk result (λ copy. IsSomeAnd (node_at self.now.items path.now.items)
            (λ node. count copy.inner ≡ count node.inner)) }
    {
        let Some(node) = self.node(path) else {
            return Err(TreeFault::NotHere);
        };
        if hole_left(node.kind).is_none() {
            return Err(TreeFault::NotHere);
        }
        match node.copy(alloc) {
            Ok(copy) => Ok(copy),
            Err(OutOfMemory) => Err(TreeFault::OutOfMemory),
        }
    }
}

impl Node {
    /// A copy of the node, with what stands inside it; nothing in it is elided.
    pub fn copy(&self, alloc: Global) -> Result<Node, OutOfMemory>
        ensures copied { IfOk result (λ copy. IsCopy self.now copy) }
        ensures subtree { IfOk result (λ copy. IsSubtree self.now → IsSubtree copy) }
        ensures slots { IfOk result (λ copy. count copy.inner ≡ count self.now.inner) }
        ensures depth { IfOk result (λ copy. depth copy.inner ≡ depth self.now.inner) }
    {
        let Ok(parts) = copy_phrase_places(alloc, self.parts.as_slice()) else {
            return Err(OutOfMemory);
        };
        let mut inner = Nodes::new(alloc);
        for node in self.inner.as_slice() {
            let Ok(copy) = node.copy(alloc) else {
                drop(inner);
                drop(parts);
                return Err(OutOfMemory);
            };
            if let Err(OutOfMemory) = inner.put_last(copy) {
                drop(inner);
                drop(parts);
                return Err(OutOfMemory);
            }
        }
        Ok(Node {
            slot: self.slot,
            kind: self.kind,
            elided: false,
            parts,
            inner,
        })
    }
}

/// What stands in the parts of the copy of a node: copies of what stands in the node's.
fn copy_phrase_places(
    alloc: Global,
    places: &[PhrasePlace],
) -> Result<Vec<PhrasePlace>, OutOfMemory>
    ensures { IfOk result (λ copies. map plain_phrase_place copies.items ≡ map plain_phrase_place places.now) }
{
    let mut copies = Vec::new(alloc);
    for place in places {
        let Ok(copy) = copy_phrase_place(alloc, place) else {
            drop(copies);
            return Err(OutOfMemory);
        };
        if let Err(_) = copies.reserve(1) {
            drop(copies);
            drop(copy);
            return Err(OutOfMemory);
        }
        copies.push_reserved(copy);
    }
    Ok(copies)
}

/// What stands in a part of the copy of a node: a copy of what stands in the node's.
fn copy_phrase_place(alloc: Global, place: &PhrasePlace) -> Result<PhrasePlace, OutOfMemory>
    ensures { IfOk result (λ copy. plain_phrase_place copy ≡ plain_phrase_place place.now) }
{
    match place {
        PhrasePlace::Empty => Ok(PhrasePlace::Empty),
        PhrasePlace::Filled(phrase) => match copy_phrase(alloc, phrase) {
            Ok(copy) => Ok(PhrasePlace::Filled(copy)),
            Err(OutOfMemory) => Err(OutOfMemory),
        },
    }
}
