//! The kinds of names where variables are used, as scalars and as arrays.
ghost use Rattle.std.specs.Prelude.{◌≡◌, option_and_then};
ghost use Rattle.template_tree.specs.Checks.ProgramMaps.{items_in};
ghost use Rattle.template_tree.specs.Checks.Environment.{item_named, scalar_kind};
ghost use Rattle.template_tree.specs.Checks.Verdict.{array_kind, cell_found, item_found, name_kind, scalar_found};

use decl_table::{Decls, kind_of_type};
use plcs_base::{Declared, Kind, MarkKind, Name, Slot};
use plcs_grammar::Builtin;

/// The kind of a name without a subscript, or what is wrong with it.
pub(crate) fn name_kind(decls: &Decls, procedure: Slot, name: &Name) -> Result<Kind, MarkKind>
    ensures { result ≡ name_kind (items_in decls.now.items procedure.0) name.now }
{
    match item_found(decls, procedure, name) {
        Ok(item) => scalar_found(&item),
        Err(offence) => Err(offence),
    }
}

/// The kind of a name with a subscript, or what is wrong with it.
pub(crate) fn array_kind(decls: &Decls, procedure: Slot, name: &Name) -> Result<Kind, MarkKind>
    ensures { result ≡ array_kind (items_in decls.now.items procedure.0) name.now }
{
    match item_found(decls, procedure, name) {
        Ok(item) => cell_found(&item),
        Err(offence) => Err(offence),
    }
}

/// The effective item of a name where a variable is used, or what is wrong with the name: a reserved
/// name comes before one that isn't declared.
#[tactic(auto, unfolding(plcs_grammar::specs::Builtin::is_builtin_name))]
fn item_found(decls: &Decls, procedure: Slot, name: &Name) -> Result<Declared, MarkKind>
    ensures { result ≡ item_found (items_in decls.now.items procedure.0) name.now }
{
    if Builtin::read(name.as_bytes()).is_some() {
        return Err(MarkKind::Reserved);
    }
    match decls.type_of(procedure, name) {
        Some(item) => Ok(item),
        None => Err(MarkKind::Undeclared),
    }
}

/// The kind of a name whose item stands without a subscript, or that an array needs one.
fn scalar_found(item: &Declared) -> Result<Kind, MarkKind>
    ensures { result ≡ scalar_found item.now }
{
    if item.size == 0 {
        Ok(kind_of_type(item.ty))
    } else {
        Err(MarkKind::NeedsSubscript)
    }
}

/// The kind of a name whose item stands with a subscript, or that the item is no array.
fn cell_found(item: &Declared) -> Result<Kind, MarkKind>
    ensures { result ≡ cell_found item.now }
{
    if item.size == 0 {
        Err(MarkKind::NotArray)
    } else {
        Ok(kind_of_type(item.ty))
    }
}

/// The kind of a name as a scalar, or `None` where no effective item of the name is one.
pub(crate) fn scalar_named(name: &Name, decls: &Decls, procedure: Slot) -> Option<Kind>
    ensures { result ≡ option_and_then scalar_kind (item_named name.now (items_in decls.now.items procedure.0)) }
{
    match decls.type_of(procedure, name) {
        Some(item) => scalar_kind(&item),
        None => None,
    }
}

/// The kind of a name whose item is a scalar, or `None` where the item is an array.
fn scalar_kind(item: &Declared) -> Option<Kind>
    ensures { result ≡ scalar_kind item.now }
{
    if item.size == 0 {
        Some(kind_of_type(item.ty))
    } else {
        None
    }
}
