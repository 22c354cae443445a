//! Offences of phrases in statements, but for calls, and of lists of parameters.
ghost use Rattle.std.specs.Prelude.{◌≡◌, count_by, map, bytes_eq};
ghost use Rattle.plcs_base.specs.declared.value.Kind.{Kind};
ghost use Rattle.plcs_grammar.specs.PlainPhrase.{plain_expr, plain_exprs, plain_var_ref};
ghost use Rattle.template_tree.specs.Checks.ProgramMaps.{items_in};
ghost use Rattle.template_tree.specs.Checks.Verdict.{both_found, kind_of, kinds_of, name_kind, offence_in, parameter_offence, parameters_offence, reference_kind, references_offence, then_found, of_kind};

use crate::kinds::{found_wanted, kind_of, reference_kind};
use crate::names::{name_kind, scalar_named};
use decl_table::Decls;
use plcs_base::{Kind, MarkKind, Name, Slot};
use plcs_grammar::{Builtin, Expr, VarRef};

/// The first offence of an assignment.
pub(crate) fn assignment_offence(
    target: &VarRef,
    value: &Expr,
    decls: &Decls,
    procedure: Slot,
) -> Option<MarkKind>
    ensures { result ≡ offence_in (both_found
        (reference_kind (items_in decls.now.items procedure.0) (plain_var_ref target.now))
        (kind_of (items_in decls.now.items procedure.0) (plain_expr value.now)) of_kind) }
{
    match reference_kind(target, decls, procedure) {
        Ok(kind) => offence_in(found_wanted(kind, kind_of(value, decls, procedure))),
        Err(offence) => Some(offence),
    }
}

/// The first offence of an expression in a statement, which has to be of the kind.
pub(crate) fn expr_offence(
    expr: &Expr,
    kind: Kind,
    decls: &Decls,
    procedure: Slot,
) -> Option<MarkKind>
    ensures { result ≡ offence_in (then_found (kind_of (items_in decls.now.items procedure.0) (plain_expr expr.now))
        (of_kind kind)) }
{
    offence_in(found_wanted(kind, kind_of(expr, decls, procedure)))
}

/// The first offence in a list of expressions in a statement, whose kinds are found one after the other.
pub(crate) fn exprs_offence(exprs: &[Expr], decls: &Decls, procedure: Slot) -> Option<MarkKind>
    ensures { result ≡ offence_in (kinds_of (items_in decls.now.items procedure.0) (plain_exprs exprs.now)) }
{
    for expr in exprs {
        if let Err(offence) = kind_of(expr, decls, procedure) {
            return Some(offence);
        }
    }
    None
}

/// The first offence of a name that a loop statement counts with.
pub(crate) fn counter_offence(name: &Name, decls: &Decls, procedure: Slot) -> Option<MarkKind>
    ensures { result ≡ offence_in (then_found (name_kind (items_in decls.now.items procedure.0) name.now)
        (of_kind Kind.Fixed)) }
{
    offence_in(found_wanted(Kind::Fixed, name_kind(decls, procedure, name)))
}

/// The first offence in a list of variables in a statement.
pub(crate) fn references_offence(
    references: &[VarRef],
    decls: &Decls,
    procedure: Slot,
) -> Option<MarkKind>
    ensures { result ≡ references_offence (items_in decls.now.items procedure.0) (map plain_var_ref references.now) }
{
    for reference in references {
        if let Err(offence) = reference_kind(reference, decls, procedure) {
            return Some(offence);
        }
    }
    None
}

/// The first offence in a list of parameters.
pub(crate) fn parameters_offence(names: &[Name], decls: &Decls, procedure: Slot) -> Option<MarkKind>
    ensures { result ≡ parameters_offence (items_in decls.now.items procedure.0) names.now names.now }
{
    for name in names {
        if let Some(offence) = parameter_offence(name, names, decls, procedure) {
            return Some(offence);
        }
    }
    None
}

/// What is wrong with one parameter of the list, if something is.
#[tactic(auto, unfolding(plcs_grammar::specs::Builtin::is_builtin_name))]
fn parameter_offence(
    name: &Name,
    names: &[Name],
    decls: &Decls,
    procedure: Slot,
) -> Option<MarkKind>
    ensures { result ≡ parameter_offence (items_in decls.now.items procedure.0) names.now name.now }
{
    if Builtin::read(name.as_bytes()).is_some() {
        return Some(MarkKind::Reserved);
    }
    if times_named(name, names) > 1 {
        return Some(MarkKind::Duplicate);
    }
    if scalar_named(name, decls, procedure).is_none() {
        return Some(MarkKind::ParameterUndeclared);
    }
    None
}

/// How often the name stands in a list of parameters, where more than once is an offence.
fn times_named(name: &Name, names: &[Name]) -> usize
    ensures { result ≡ count_by (bytes_eq name.now) names.now }
{
    names.iter().filter(|other| name == *other).count()
}

/// The offence that was found in a part of a phrase in a statement, if one was.
fn offence_in(found: Result<Kind, MarkKind>) -> Option<MarkKind>
    ensures { result ≡ offence_in found }
{
    match found {
        Ok(_) => None,
        Err(offence) => Some(offence),
    }
}
