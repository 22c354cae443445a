//! Holes and assignments that become assignments.
ghost use Rattle.std.specs.Prelude.{◌≡◌, ◌↔◌, ◌⊎◌, IfErr, IfOk, IsTrue, Some};
ghost use Rattle.plcs_grammar.specs.declared.category.Category.{Category};
ghost use Rattle.plcs_grammar.specs.declared.node_kind.NodeKind.{NodeKind};
ghost use Rattle.plcs_grammar.specs.PlainPhrase.{category_of};
ghost use Rattle.plcs_grammar.specs.PlainPhrase.{plain_phrase};
ghost use Rattle.template_tree.specs.Edits.EditAnswer.{Edits, Refuses, TakesAssignment};
ghost use Rattle.template_tree.specs.Edits.FreshNode.{assignment_node};
ghost use Rattle.template_tree.specs.Programs.Part.{IsPhrasePlace};
ghost use Rattle.template_tree.specs.Positions.Path.{node_at};
ghost use Rattle.template_tree.specs.Programs.PlainTree.{roomless_node};
ghost use Rattle.template_tree.specs.Edits.Receipt.{NeedsNoRoom};
ghost use Rattle.template_tree.specs.Programs.Tree.{IsTree};
ghost use Rattle.template_tree.specs.Edits.TreeEdit.{TreeEdit};

use crate::node::{Node, Nodes};
use crate::path::Path;
use crate::phrase_place::PhrasePlace;
use crate::receipt::Receipt;
use crate::tree::Tree;
use crate::tree_fault::TreeFault;
use plcs_base::Slot;
use plcs_grammar::{Category, NodeKind, Phrase};
use std::alloc::Global;

impl Tree {
    /// The statement hole or the assignment at the path becomes this assignment. `NotHere` where neither
    /// is there, and where the phrase is no assignment. The phrase is given back where it is refused.
    pub fn fill_assign(
        &mut self,
        alloc: Global,
        path: &Path,
        phrase: Phrase,
    ) -> Result<Receipt, (TreeFault, Phrase)>
        requires tree { IsTree self.old }
        requires phrase { IsPhrasePlace (Some (plain_phrase phrase)) }
        ensures edited { IfOk result (Edits (TreeEdit.put (assignment_node (plain_phrase phrase)))
            (node_at self.old.items path.now.items) (TakesAssignment (plain_phrase phrase)) self.old self.new) }
        ensures no_room { IfOk result NeedsNoRoom }
        ensures refused { IfErr result (λ back. Refuses (TreeEdit.put (assignment_node (plain_phrase phrase)))
            (node_at self.old.items path.now.items) (TakesAssignment (plain_phrase phrase)) self.old back.0) }
        ensures tree { IsTree self.new }
        ensures unchanged { IfErr result (λ back. (back.1 ≡ phrase) × (self.new ≡ self.old)) }
    {
        let Some(there) = self.node(path) else {
            return Err((TreeFault::NotHere, phrase));
        };
        if !takes_assignments(there.kind) || !is_assignment_phrase(&phrase) {
            return Err((TreeFault::NotHere, phrase));
        }
        match Node::assignment(alloc, phrase) {
            Ok(node) => Ok(self.put(path, node)),
            Err(back) => Err((TreeFault::OutOfMemory, back)),
        }
    }
}

/// Whether nodes of the kind are the holes and assignments that become assignments: holes for statements, and
/// assignments.
fn takes_assignments(kind: NodeKind) -> bool
    ensures { IsTrue result ↔ ((kind ≡ NodeKind.StatementHole) ⊎ (kind ≡ NodeKind.Assign)) }
{
    kind == NodeKind::StatementHole || kind == NodeKind::Assign
}

/// Whether the phrase that is to be filled in is an assignment.
fn is_assignment_phrase(phrase: &Phrase) -> bool
    ensures { IsTrue result ↔ (category_of (plain_phrase phrase.now) ≡ Category.Assignment) }
{
    phrase.category() == Category::Assignment
}

impl Node {
    /// The node of the assignment that a hole or an assignment becomes, or the phrase back where there is no
    /// memory for it.
    fn assignment(alloc: Global, phrase: Phrase) -> Result<Node, Phrase>
        ensures assignment { IfOk result (λ node. roomless_node node ≡ assignment_node (plain_phrase phrase)) }
        ensures refused { IfErr result (λ back. back ≡ phrase) }
    {
        let mut parts = Vec::new(alloc);
        if let Err(_) = parts.reserve(1) {
            return Err(phrase);
        }
        parts.push_reserved(PhrasePlace::Filled(phrase));
        Ok(Node {
            slot: Slot(0),
            kind: NodeKind::Assign,
            elided: false,
            parts,
            inner: Nodes::new(alloc),
        })
    }
}
