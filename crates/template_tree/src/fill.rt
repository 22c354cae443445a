//! Holes filled with templates, and the fresh nodes that fill them.
ghost use Rattle.std.specs.Prelude.{◌≡◌, ◌+◌, IfErr, IfOk, None, OnOk, length, map, min};
ghost use Rattle.plcs_grammar.specs.Template.{plain_section, plain_segment};
ghost use Rattle.plcs_grammar.specs.declared.node_kind.NodeKind.{NodeKind};
ghost use Rattle.template_tree.specs.Edits.Hole.{hole_list, hole_of};
ghost use Rattle.template_tree.specs.Edits.EditAnswer.{Edits, IsHoleFor, Refuses};
ghost use Rattle.template_tree.specs.Edits.FreshNode.{fresh_node, section_holes};
ghost use Rattle.template_tree.specs.Positions.Path.{node_at};
ghost use Rattle.template_tree.specs.Programs.PlainPhrasePlace.{plain_phrase_place};
ghost use Rattle.template_tree.specs.Programs.PlainTree.{forest, join, roomless, roomless_node};
ghost use Rattle.template_tree.specs.Programs.Program.{parts_of};
ghost use Rattle.template_tree.specs.Programs.Slots.{count};
ghost use Rattle.template_tree.specs.Edits.Receipt.{NeedsNoRoom};
ghost use Rattle.template_tree.specs.Programs.Tree.{IsTree};
ghost use Rattle.template_tree.specs.Edits.TreeEdit.{TreeEdit};

use crate::hole::{hole_of, is_hole_for};
use crate::limit_reached::depth_allows;
use crate::node::{Node, Nodes};
use crate::path::Path;
use crate::phrase_place::PhrasePlace;
use crate::receipt::Receipt;
use crate::tree::Tree;
use crate::tree_fault::TreeFault;
use plcs_base::{OutOfMemory, Slot};
use plcs_grammar::{NodeKind, Section, Segment, Template};
use std::alloc::Global;

impl Tree {
    /// The hole at the path becomes the template, with its parts empty and with a hole for each list or
    /// body, which take the next slots. `NotHere` where no hole of its sort is at the path.
    pub fn fill(
        &mut self,
        alloc: Global,
        path: &Path,
        template: Template,
    ) -> Result<Receipt, TreeFault>
        requires tree { IsTree self.old }
        ensures edited { IfOk result (Edits (TreeEdit.put (fresh_node (NodeKind.Filled template)))
            (node_at self.old.items path.now.items) (IsHoleFor (NodeKind.Filled template)) self.old self.new) }
        ensures no_room { IfOk result NeedsNoRoom }
        ensures refused { IfErr result (Refuses (TreeEdit.put (fresh_node (NodeKind.Filled template)))
            (node_at self.old.items path.now.items) (IsHoleFor (NodeKind.Filled template)) self.old) }
        ensures tree { IsTree self.new }
        ensures unchanged { IfErr result (λ _. self.new ≡ self.old) }
    {
        let kind = NodeKind::Filled(template);
        let Some(there) = self.node(path) else {
            return Err(TreeFault::NotHere);
        };
        if !is_hole_for(kind, there.kind) {
            return Err(TreeFault::NotHere);
        }
        let slots = hole_count(kind.row().sections);
        if let Some(fault) = self.limit_reached(depth_allows(path, slots), slots) {
            return Err(fault);
        }
        let Ok(node) = Node::fresh(alloc, kind) else {
            return Err(TreeFault::OutOfMemory);
        };
        Ok(self.put_fresh(alloc, path, node))
    }
}

impl Node {
    /// A fresh node of the kind, to fill a hole: its parts are empty, and a hole stands in each section
    /// of its row.
    fn fresh(alloc: Global, kind: NodeKind) -> Result<Node, OutOfMemory>
        ensures { IfOk result (λ node. roomless_node node ≡ fresh_node kind) }
    {
        let row = kind.row();
        let Ok(parts) = empty_parts(alloc, row.line) else {
            return Err(OutOfMemory);
        };
        let Ok(inner) = holes(alloc, row.sections) else {
            drop(parts);
            return Err(OutOfMemory);
        };
        Ok(Node {
            slot: Slot(0),
            kind,
            elided: false,
            parts,
            inner,
        })
    }
}

/// The parts of a fresh node: nothing in each part of its line.
fn empty_parts(alloc: Global, line: &[Segment]) -> Result<Vec<PhrasePlace>, OutOfMemory>
    ensures { IfOk result (λ parts. map plain_phrase_place parts.items
        ≡ map (λ _. None) (parts_of (map plain_segment line.now))) }
{
    let mut parts = Vec::new(alloc);
    for segment in line {
        if let Segment::Part(_) = segment {
            if let Err(_) = parts.reserve(1) {
                drop(parts);
                return Err(OutOfMemory);
            }
            parts.push_reserved(PhrasePlace::Empty);
        }
    }
    Ok(parts)
}

/// The holes inside a fresh node: one in each of the sections.
fn holes(alloc: Global, sections: &[Section]) -> Result<Nodes, OutOfMemory>
    ensures { IfOk result (λ list. roomless (forest list.items) ≡ section_holes (map plain_section sections.now)) }
{
    let mut list = Nodes::new(alloc);
    match push_holes(&mut list, alloc, sections) {
        Ok(()) => Ok(list),
        Err(OutOfMemory) => {
            drop(list);
            Err(OutOfMemory)
        }
    }
}

/// Puts a fresh node's hole for each of the sections at the end of its list.
fn push_holes(list: &mut Nodes, alloc: Global, sections: &[Section]) -> Result<(), OutOfMemory>
    ensures { OnOk result (roomless (forest list.new.items) ≡ join (roomless (forest list.old.items))
        (section_holes (map plain_section sections.now))) }
{
    let Some((section, others)) = sections.split_first() else {
        return Ok(());
    };
    if let Err(OutOfMemory) = push_hole(list, alloc, section) {
        return Err(OutOfMemory);
    }
    push_holes(list, alloc, others)
}

/// Puts a fresh node's hole of the section's sort, if there is one, at the end of its list.
fn push_hole(list: &mut Nodes, alloc: Global, section: &Section) -> Result<(), OutOfMemory>
    ensures { OnOk result (roomless (forest list.new.items) ≡ join (roomless (forest list.old.items))
        (forest (hole_list 0 (hole_of section.now.sort)))) }
{
    let Some(kind) = hole_of(section.sort) else {
        return Ok(());
    };
    list.put_last(Node::bare(alloc, Slot(0), kind))
}

/// How many holes stand inside a fresh node with these sections, as far as the type goes.
fn hole_count(sections: &[Section]) -> u32
    ensures { result ≡ min (count (section_holes (map plain_section sections.now))) 4294967295 }
{
    let Some((section, others)) = sections.split_first() else {
        return 0;
    };
    let rest = hole_count(others);
    match hole_of(section.sort) {
        Some(_) => rest.saturating_add(1),
        None => rest,
    }
}
