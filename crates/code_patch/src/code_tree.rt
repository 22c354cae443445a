//! The code of a program, kept node by node.
ghost use Rattle.std.specs.Prelude.{◌≡◌, IfOk, OnOk, length};
ghost use Rattle.template_tree.specs.Programs.Tree.{IsTree};
ghost use Rattle.plcs_code.specs.Counts.{Emits, EmitsAtMost};
ghost use Rattle.plcs_code.specs.Gen.{Gen};
ghost use Rattle.code_patch.specs.CodeEdit.{roomless_code};
ghost use Rattle.code_patch.specs.CodeForest.{kept_code, told_code};

use crate::code_node::CodeNode;
use crate::homes::homes_of;
use crate::names::Names;
use crate::outer::Outer;
use plcs_base::{Marked, Name, OutOfMemory, Place, Scope, Slot, Work};
use plcs_code::{CodeView, Emitted, lengths_are_told, own_codes_stay_in_slots};
use slot_homes::Homes;
use std::alloc::Global;
use std::marker::Model;
use template_tree::Tree;

/// The code of a program, kept node by node, so that an edit mends it where it changed.
///
/// Main and the procedures stand inside a node of its own without own code, so that they have a list like every
/// other.
#[derive(Drop)]
pub struct CodeTree<W> {
    pub(crate) root: CodeNode<W>,
    pub(crate) names: Names,
    pub(crate) homes: Homes,
}

impl<W> Model for CodeTree<W> {
    ghost use Rattle.code_patch.specs.CodeEdit.{PlainCodeTree};
    ghost use Rattle.code_patch.specs.Private.CodeForestCode.{code_tree_code};

    ghost Value = { PlainCodeTree };

    ghost coded = { code_tree_code };

    ghost use Rattle.code_patch.specs.Private.CodeTreeView.{IsCodeTreeRight, code_tree_seen};

    ghost view = { code_tree_seen };

    ghost invariant = { IsCodeTreeRight };
}

impl<W: Work> CodeTree<W> {
    /// The code of the tree, by these marks and these effective items, kept node by node. Each instruction is emitted
    /// once, and counted as work of `W`; so are those that were emitted before memory ran out.
    ///
    /// Code of more than 2,147,483,642 instructions, which no program within the limits has, is refused as if memory
    /// had run out.
    pub fn new<M: Marked, D: Scope>(
        alloc: Global,
        tree: &Tree,
        marks: &M,
        scope: &D,
        work: &mut W,
    ) -> Result<CodeTree<W>, OutOfMemory>
        requires tree { IsTree tree.now }
        ensures kept { IfOk result (λ code.
            roomless_code code.items ≡ kept_code (M.marks marks.now) (D.items scope.now) tree.now.items) }
        ensures code { IfOk result (λ code.
            told_code code.items ≡ Gen (M.marks marks.now) (D.items scope.now) tree.now.items) }
        ensures counted { OnOk result (Emits
            (length (Gen (M.marks marks.now) (D.items scope.now) tree.now.items).instrs)
            (W.counts work.old) (W.counts work.new)) }
        ensures counts { EmitsAtMost (length (Gen (M.marks marks.now) (D.items scope.now) tree.now.items).instrs)
            (W.counts work.old) (W.counts work.new) }
    {
        lengths_are_told();
        own_codes_stay_in_slots();
        let root = CodeNode::inside(alloc, &Outer::Program(tree), marks, scope, work)?;
        match Names::of(alloc, tree) {
            Ok(names) => {
                let homes = homes_of(alloc, &root, tree.slots());
                Ok(CodeTree { root, names, homes })
            }
            Err(OutOfMemory) => {
                drop(root);
                Err(OutOfMemory)
            }
        }
    }
}

impl<W: Work> CodeView<W> for CodeTree<W> {
    ghost use Rattle.code_patch.specs.CodeForest.{told_code};

    ghost code = { λ tree. told_code tree.items };

    fn length(&self) -> u32 {
        self.root.length_inside()
    }

    fn fetch(&self, address: u32, work: &mut W) -> &Emitted<W> {
        work.fetched();
        self.root.instr_inside(address)
    }

    fn address(&self, place: Place) -> Option<u32> {
        match self.located(place.slot) {
            Some(located) => located.address(place.point),
            None => None,
        }
    }

    fn entry(&self, name: &Name) -> Option<u32> {
        match self.names.number(name) {
            Some(number) => Some(self.root.length_to(number as usize)),
            None => None,
        }
    }

    fn procedure(&self, name: &Name) -> Option<Slot> {
        let Some(number) = self.names.number(name) else {
            return None;
        };
        match self.root.child(number as usize) {
            Some(item) => Some(item.slot()),
            None => None,
        }
    }

    fn span(&self, slot: Slot) -> Option<(u32, u32)> {
        match self.located(slot) {
            Some(located) => located.span(),
            None => None,
        }
    }
}
