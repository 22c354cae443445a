//! Offences of declared lists: which of their items aren't effective, and why.
ghost use Rattle.std.specs.Prelude.{◌≡◌, ◌++◌, ◌<◌, [], map};
ghost use Rattle.plcs_base.specs.declared.declared.ItemType.{ItemType};
ghost use Rattle.template_tree.specs.Checks.Environment.{cells_of, declared_as, declares, effective, with_type};
ghost use Rattle.template_tree.specs.Programs.Limit.{most_slots};
ghost use Rattle.template_tree.specs.Checks.Marks.{declared_before, type_in};
ghost use Rattle.template_tree.specs.Programs.Slots.{count};
ghost use Rattle.template_tree.specs.Checks.Verdict.{declared_offence};
ghost use Rattle.type_marks.specs.Private.DeclaredItems.{AreDeclaredIn, KnowsListed, has_such, is_such, judged_item};

use crate::procedures::stands_in;
use decl_table::Decls;
use plcs_base::{Declared, ItemType, MarkKind, Name, Slot};
use plcs_grammar::{Builtin, Item};
use template_tree::{Node, cells_of, items_are_nodes, list_items, type_given};

/// The first offence of a declared list, that of the declaration in the slot, if the procedure has one
/// there.
pub(crate) fn declared_offence(
    items: &[Item],
    procedure: &Node,
    slot: Slot,
    decls: &Decls,
) -> Option<MarkKind>
    requires few { count procedure.now.inner < most_slots }
    requires listed { AreDeclaredIn procedure.now.inner slot.0 items.now }
    requires known { KnowsListed decls.now procedure.now items.now }
    ensures { result ≡ declared_offence (effective [] (declared_before procedure.now.inner slot.0))
        (with_type (type_in procedure.now.inner slot.0) items.now) }
{
    if type_in(procedure, slot).is_none() {
        return None;
    }
    for i in 0..items.len() {
        let item = &items[i];
        let effective = decls.type_of(procedure.slot(), &item.name);
        if let Some(offence) = item_offence(item, &items[..i], effective, procedure, slot) {
            return Some(offence);
        }
    }
    None
}

/// The type that a declared list has from the declaration in the slot, if the procedure has one there.
fn type_in(procedure: &Node, slot: Slot) -> Option<ItemType>
    requires few { count procedure.now.inner < most_slots }
    ensures { result ≡ type_in procedure.now.inner slot.0 }
{
    items_are_nodes();
    let mut k = 0;
    while let Some(node) = procedure.child(k) {
        if stands_in(node, slot) {
            return type_given(node);
        }
        k += 1;
    }
    None
}

/// What is wrong with an item of a declared list behind earlier ones of the list and the declarations
/// before it, where this is the effective item of its name.
///
/// The effective one is the first of the name that takes as many cells: an earlier one would have been
/// effective too, since no more cells were taken before it.
#[tactic(auto, unfolding(plcs_grammar::specs::Builtin::is_builtin_name))]
fn item_offence(
    item: &Item,
    earlier: &[Item],
    effective: Option<Declared>,
    procedure: &Node,
    slot: Slot,
) -> Option<MarkKind>
    requires few { count procedure.now.inner < most_slots }
    ensures { (ty : ItemType) → result ≡ judged_item
        (declared_before procedure.now.inner slot.0 ++ map (declared_as ty) earlier.now)
        (declared_as ty item.now) effective }
{
    if Builtin::read(item.name.as_bytes()).is_some() {
        return Some(MarkKind::Reserved);
    }
    let Some(effective) = effective else {
        return Some(MarkKind::TooManyCells);
    };
    let cells = cells_of(effective.size);
    if has_such_before(procedure, slot, &item.name, cells) || has_such(earlier, &item.name, cells) {
        return Some(MarkKind::Duplicate);
    }
    if cells_of_item(item) == cells {
        None
    } else {
        Some(MarkKind::TooManyCells)
    }
}

/// Whether the procedure declares an item of this name with so many cells before the node in the slot, so
/// that one that is declared there isn't effective.
fn has_such_before(procedure: &Node, slot: Slot, name: &Name, cells: u32) -> bool
    requires few { count procedure.now.inner < most_slots }
    ensures { result ≡ has_such name.now cells (declared_before procedure.now.inner slot.0) }
{
    items_are_nodes();
    let mut k = 0;
    while let Some(node) = procedure.child(k) {
        if stands_in(node, slot) {
            return false;
        }
        if declares_such(node, name, cells) {
            return true;
        }
        k += 1;
    }
    false
}

/// Whether a node declares an item of this name with so many cells, so that a later one isn't effective.
fn declares_such(node: &Node, name: &Name, cells: u32) -> bool
    ensures { result ≡ has_such name.now cells (declares node.now.label) }
{
    if type_given(node).is_none() {
        return false;
    }
    has_such(list_items(node), name, cells)
}

/// Whether one of the items of a declared list has the name and so many cells.
fn has_such(items: &[Item], name: &Name, cells: u32) -> bool
    ensures { (ty : ItemType) → result ≡ has_such name.now cells (map (declared_as ty) items.now) }
{
    items.iter().any(|item| is_such(item, name, cells))
}

/// Whether this item of a declared list has the name and so many cells.
fn is_such(item: &Item, name: &Name, cells: u32) -> bool
    ensures { result ≡ is_such name.now cells (declared_as ItemType.Fixed item.now) }
{
    name == &item.name && cells_of_item(item) == cells
}

/// How many cells an item of a declared list has: one as a scalar, and as an array its size.
fn cells_of_item(item: &Item) -> u32
    ensures { result ≡ cells_of (declared_as ItemType.Fixed item.now) }
{
    match item.size {
        Some(size) => cells_of(size),
        None => 1,
    }
}
