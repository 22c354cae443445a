//! Whether what is kept is as what there is now.
ghost use Rattle.std.specs.Prelude.{◌≡◌, ◌↔◌, ◌<◌, ◌≤◌, IsTrue, None, Some, length, option_map, slice_get};
ghost use Rattle.template_tree.specs.Checks.ProgramMaps.{items_in};
ghost use Rattle.template_tree.specs.Programs.Limit.{most_cells};
ghost use Rattle.template_tree.specs.Programs.PlainPhrasePlace.{plain_phrase_place};

use decl_table::Decls;
use plcs_base::{Declared, Scope, Slot};
use plcs_grammar::{NodeKind, same_phrase};
use plcs_store::{CopiedParts, DeclaredList};
use template_tree::{Node, PhrasePlace};

/// Whether the node is of the kept kind.
pub(crate) fn has_kind(node: &Node, kept: NodeKind) -> bool
    ensures { IsTrue result ↔ (node.now.label.kind ≡ kept) }
{
    node.kind() == kept
}

/// Whether the node has the kept parts.
pub(crate) fn has_parts(node: &Node, kept: &CopiedParts) -> bool
    requires few { length node.now.label.parts < 256 }
    ensures { IsTrue result ↔ (node.now.label.parts ≡ kept.now) }
{
    let mut part: u8 = 0;
    while let Some(place) = node.part(part) {
        if !is_copied(place, kept, part) {
            return false;
        }
        part += 1;
    }
    is_last_part(kept, part)
}

/// What is kept of the part of this number, counted from 0, to be compared with the part as it is now, or
/// `None` where there is no such part.
fn copied_part(kept: &CopiedParts, part: u8) -> Option<&PhrasePlace>
    ensures { option_map (λ place. plain_phrase_place place.now) result ≡ slice_get kept.now part }
{
    kept.as_slice().get(part as usize)
}

/// Whether the parts that are kept end before this number, so that none is left to compare with what there is
/// now.
fn is_last_part(kept: &CopiedParts, part: u8) -> bool
    ensures { IsTrue result ↔ (slice_get kept.now part ≡ None) }
{
    match copied_part(kept, part) {
        None => true,
        Some(_) => false,
    }
}

/// Whether what stands in a part is the copied part of this number.
fn is_copied(place: &PhrasePlace, kept: &CopiedParts, part: u8) -> bool
    ensures { IsTrue result ↔ (slice_get kept.now part ≡ Some (plain_phrase_place place.now)) }
{
    match copied_part(kept, part) {
        None => false,
        Some(copy) => is_same_place(place, copy),
    }
}

/// Whether what is kept of a part is as what stands in it now: the same phrase, or nothing.
fn is_same_place(one: &PhrasePlace, other: &PhrasePlace) -> bool
    ensures { IsTrue result ↔ (plain_phrase_place one.now ≡ plain_phrase_place other.now) }
{
    match (one, other) {
        (PhrasePlace::Empty, PhrasePlace::Empty) => true,
        (PhrasePlace::Filled(phrase), PhrasePlace::Filled(copy)) => same_phrase(phrase, copy),
        _ => false,
    }
}

/// Whether the procedure has the kept effective items.
pub(crate) fn has_items(decls: &Decls, procedure: Slot, kept: &DeclaredList) -> bool
    requires few { length (items_in decls.now.items procedure.0) ≤ most_cells }
    ensures { IsTrue result ↔ (items_in decls.now.items procedure.0 ≡ kept.now) }
{
    let mut k: u32 = 0;
    while let Some(item) = item_of(decls, procedure, k) {
        if !is_kept(&item, kept, k) {
            return false;
        }
        k += 1;
    }
    is_last_item(kept, k)
}

/// The effective item of this number that there is now, counted from 0, beside that which is kept; `None` where
/// the procedure has no such item.
#[tactic(auto, using(crate::proofs::FewItems::item_told))]
fn item_of(decls: &Decls, procedure: Slot, k: u32) -> Option<Declared>
    ensures { result ≡ slice_get (items_in decls.now.items procedure.0) k }
{
    decls.declared(procedure, k)
}

/// The kept item of this number, counted from 0, which is compared with what there is now, or `None` where
/// there is no such item.
fn kept_item(kept: &DeclaredList, k: u32) -> Option<&Declared>
    ensures { option_map (λ item. item.now) result ≡ slice_get kept.now k }
{
    kept.as_slice().get(k as usize)
}

/// Whether the kept items end before the one of this number.
fn is_last_item(kept: &DeclaredList, k: u32) -> bool
    ensures { IsTrue result ↔ (slice_get kept.now k ≡ None) }
{
    match kept_item(kept, k) {
        None => true,
        Some(_) => false,
    }
}

/// Whether an item that there is now is as the kept one of this number.
fn is_kept(item: &Declared, kept: &DeclaredList, k: u32) -> bool
    ensures { IsTrue result ↔ (slice_get kept.now k ≡ Some item.now) }
{
    match kept_item(kept, k) {
        None => false,
        Some(copy) => copy == item,
    }
}
