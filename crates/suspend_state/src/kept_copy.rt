//! What is kept of the program for the frames of a run, copied from it.
ghost use Rattle.std.specs.Prelude.{◌≡◌, ◌≤◌, IfOk, IfSome, IsSome, Some, map, option_map};
ghost use Rattle.template_tree.specs.Checks.Environment.{procedure_at};
ghost use Rattle.template_tree.specs.Checks.ProgramMaps.{items_in};
ghost use Rattle.template_tree.specs.Programs.PlainPhrasePlace.{plain_phrase_place};
ghost use Rattle.template_tree.specs.Programs.Program.{IsSubtree};
ghost use Rattle.template_tree.specs.Programs.Slots.{times};
ghost use Rattle.template_tree.specs.Programs.Tree.{IsTree};
ghost use Rattle.decl_table.specs.Agreement.{IsDeclsOf};
ghost use Rattle.plcs_store.specs.Configuration.{plain_configuration};
ghost use Rattle.plcs_store.specs.Fits.{Fits};
ghost use Rattle.plcs_store.specs.Resume.{IsKeptOf, heading_parts, template_held};
ghost use Rattle.suspend_state.specs.Private.FoundFrames.{HasProcedures, HasSlots};

use decl_table::Decls;
use plcs_base::{Declared, OutOfMemory, Scope, Slot};
use plcs_grammar::copy_phrase;
use plcs_store::{
    CopiedParts, DeclaredList, DeclaredLists, Frame, Headings, HeldTemplate, HeldTemplates, Kept,
    RunState,
};
use std::alloc::Global;
use template_tree::{Node, PhrasePlace, Tree, items_are_nodes, path_of_item};
use tree_steps::slots_stand;

/// What is kept of the program for the frames of a state that fits it.
pub(crate) fn kept_of(
    alloc: Global,
    tree: &Tree,
    decls: &Decls,
    state: &RunState,
) -> Result<Kept, OutOfMemory>
    requires tree { IsTree tree.now }
    requires decls { IsDeclsOf decls.now tree.now.items }
    requires fits { Fits tree.now.items (plain_configuration state.now) }
    ensures { IfOk result (λ kept. IsKeptOf tree.now.items (plain_configuration state.now) kept) }
{
    slots_stand();
    let frames = state.frames.as_slice();
    let headings = copied_headings(alloc, tree, frames)?;
    let declared = copied_items(alloc, decls, frames)?;
    let held = copied_templates(alloc, tree, frames)?;
    Ok(Kept {
        headings,
        declared,
        held,
    })
}

/// The copied headings of the procedures of the frames.
fn copied_headings(alloc: Global, tree: &Tree, frames: &[Frame]) -> Result<Headings, OutOfMemory>
    requires tree { IsTree tree.now }
    requires there { HasProcedures tree.now.items frames.now }
    ensures { IfOk result (λ headings. map (λ frame. heading_parts tree.now.items frame.procedure.0) frames.now
        ≡ map Some headings) }
{
    let mut headings = Vec::new(alloc);
    for frame in frames {
        headings.push(copied_heading(alloc, tree, frame.procedure)?)?;
    }
    Ok(Headings::from_vec(headings))
}

/// The parts of the heading of the procedure in the slot, copied from the program.
fn copied_heading(alloc: Global, tree: &Tree, procedure: Slot) -> Result<CopiedParts, OutOfMemory>
    requires tree { IsTree tree.now }
    requires there { IsSome (procedure_at tree.now.items procedure.0) }
    ensures { IfOk result (λ parts. heading_parts tree.now.items procedure.0 ≡ Some parts) }
{
    let Some(node) = procedure_node(tree, procedure) else {
        unreachable!()
    };
    copied_parts(alloc, node)
}

/// Main or the procedure in the slot, whose heading is kept for a frame, or `None` where none has the slot.
fn procedure_node(tree: &Tree, procedure: Slot) -> Option<&Node>
    requires tree { IsTree tree.now }
    ensures found { option_map (λ node. node.now) result ≡ procedure_at tree.now.items procedure.0 }
    ensures subtree { IfSome result (λ node. IsSubtree node.now) }
{
    items_are_nodes();
    let mut k = 0;
    while let Some(node) = tree.node(&path_of_item(k)) {
        if node.slot() == procedure {
            return Some(node);
        }
        k += 1;
    }
    None
}

/// The parts of the node, copied to be kept for the frames of a run.
fn copied_parts(alloc: Global, node: &Node) -> Result<CopiedParts, OutOfMemory>
    requires subtree { IsSubtree node.now }
    ensures { IfOk result (λ parts. parts ≡ node.now.label.parts) }
{
    let mut places = Vec::new(alloc);
    let mut part = 0;
    while let Some(place) = node.part(part) {
        places.push(copied_part(alloc, place)?)?;
        part += 1;
    }
    Ok(CopiedParts::from_vec(places))
}

/// A copy of what stands in a part.
fn copied_part(alloc: Global, place: &PhrasePlace) -> Result<PhrasePlace, OutOfMemory>
    ensures { IfOk result (λ copy. plain_phrase_place copy ≡ plain_phrase_place place.now) }
{
    match place {
        PhrasePlace::Empty => Ok(PhrasePlace::Empty),
        PhrasePlace::Filled(phrase) => Ok(PhrasePlace::Filled(copy_phrase(alloc, phrase)?)),
    }
}

/// The copied effective items of the procedures of the frames.
fn copied_items(
    alloc: Global,
    decls: &Decls,
    frames: &[Frame],
) -> Result<DeclaredLists, OutOfMemory>
    ensures { IfOk result (λ lists. map (λ frame. items_in decls.now.items frame.procedure.0) frames.now ≡ lists) }
{
    let mut lists = Vec::new(alloc);
    for frame in frames {
        lists.push(items_of(alloc, decls, frame.procedure)?)?;
    }
    Ok(DeclaredLists::from_vec(lists))
}

/// A copy of the effective items of the procedure in the slot, in listing order, as it is kept for a frame.
fn items_of(alloc: Global, decls: &Decls, procedure: Slot) -> Result<DeclaredList, OutOfMemory>
    ensures { IfOk result (λ items. items ≡ items_in decls.now.items procedure.0) }
{
    let mut items: Vec<Declared> = Vec::new(alloc);
    let mut k = 0;
    while let Some(item) = decls.declared(procedure, k) {
        items.push(item)?;
        if k == u32::MAX {
            return Err(OutOfMemory);
        }
        k += 1;
    }
    Ok(DeclaredList::from_vec(items))
}

/// Copies of what stands in the slots of the frames' places.
fn copied_templates(
    alloc: Global,
    tree: &Tree,
    frames: &[Frame],
) -> Result<HeldTemplates, OutOfMemory>
    requires tree { IsTree tree.now }
    requires there { HasSlots tree.now.items frames.now }
    ensures { IfOk result (λ held. map (λ frame. template_held tree.now.items frame.place.slot.0) frames.now
        ≡ map Some held) }
{
    let mut held = Vec::new(alloc);
    for frame in frames {
        held.push(copied_template(alloc, tree, frame.place.slot)?)?;
    }
    Ok(HeldTemplates::from_vec(held))
}

/// A copy of what stands in the slot.
fn copied_template(alloc: Global, tree: &Tree, slot: Slot) -> Result<HeldTemplate, OutOfMemory>
    requires tree { IsTree tree.now }
    requires there { 1 ≤ times slot.0 tree.now.items }
    ensures { IfOk result (λ held. template_held tree.now.items slot.0 ≡ Some held) }
{
    let Some(path) = tree.path_of(slot) else {
        unreachable!()
    };
    let Some(node) = tree.node(&path) else {
        unreachable!()
    };
    Ok(HeldTemplate {
        kind: node.kind(),
        parts: copied_parts(alloc, node)?,
    })
}
