//! Offences of calls, whose arguments are held against parameters, and of the names of procedures.
ghost use Rattle.std.specs.Prelude.{◌≡◌, [], None, length};
ghost use Rattle.plcs_grammar.specs.PlainPhrase.{plain_exprs};
ghost use Rattle.template_tree.specs.Checks.ProgramMaps.{items_in};
ghost use Rattle.template_tree.specs.Checks.Environment.{Sig, parameter_kind, parameter_kinds};
ghost use Rattle.template_tree.specs.Checks.Marks.{procedures_before};
ghost use Rattle.template_tree.specs.Programs.Tree.{IsTree};
ghost use Rattle.template_tree.specs.Checks.Verdict.{call_offence, kinds_of, offence_in, procedure_offence};
ghost use Rattle.decl_table.specs.Knowledge.{KnowsHeading, KnowsParameters};
ghost use Rattle.type_marks.specs.Private.CallArguments.{arguments_judged, is_taken};

use crate::kind_table::same_kind;
use crate::kinds::kind_of;
use crate::procedures::{called_parameters, is_named_before, procedure_in};
use crate::statements::exprs_offence;
use decl_table::{Decls, kind_of_type};
use plcs_base::{Kind, MarkKind, Name, Slot};
use plcs_grammar::{Builtin, Expr};
use template_tree::Tree;

/// The first offence of a call: the arguments come before the name, and that before their number.
pub(crate) fn call_offence(
    tree: &Tree,
    name: &Name,
    arguments: &[Expr],
    decls: &Decls,
    procedure: Slot,
) -> Option<MarkKind>
    requires tree { IsTree tree.now }
    requires heading { KnowsHeading decls.now tree.now.items name.now }
    requires parameters { KnowsParameters decls.now tree.now.items name.now }
    ensures { result ≡ call_offence (Sig tree.now.items name.now)
        (kinds_of (items_in decls.now.items procedure.0) (plain_exprs arguments.now)) }
{
    if let Some(offence) = exprs_offence(arguments, decls, procedure) {
        return Some(offence);
    }
    let Some(slot) = decls.signature(name) else {
        return Some(MarkKind::UnknownProcedure);
    };
    let Some(called) = procedure_in(tree, slot) else {
        unreachable!()
    };
    let parameters = called_parameters(called);
    if arguments.len() != parameters.len() {
        return Some(MarkKind::WrongCount);
    }
    arguments_offence(arguments, parameters, slot, decls, procedure)
}

/// The first argument of a call that its parameter doesn't take, where no argument has an offence of
/// its own and there are as many of both.
fn arguments_offence(
    arguments: &[Expr],
    parameters: &[Name],
    called: Slot,
    decls: &Decls,
    procedure: Slot,
) -> Option<MarkKind>
    requires as_many { length arguments.now ≡ length parameters.now }
    requires fine { offence_in (kinds_of (items_in decls.now.items procedure.0) (plain_exprs arguments.now)) ≡ None }
    ensures { result ≡ arguments_judged (parameter_kinds (items_in decls.now.items called.0) [] parameters.now)
        (kinds_of (items_in decls.now.items procedure.0) (plain_exprs arguments.now)) }
{
    for i in 0..arguments.len() {
        let taken = parameter_kind(&parameters[i], &parameters[..i], called, decls);
        if !is_taken(taken, kind_of(&arguments[i], decls, procedure)) {
            return Some(MarkKind::ArgumentType);
        }
    }
    None
}

/// The kind of a parameter of the procedure that is called, which the call's argument has to have: that
/// of its scalar there, and none where it has no scalar or an earlier parameter has its name.
fn parameter_kind(name: &Name, earlier: &[Name], called: Slot, decls: &Decls) -> Option<Kind>
    ensures { result ≡ parameter_kind (items_in decls.now.items called.0) earlier.now name.now }
{
    match decls.parameter_item(called, earlier, name) {
        Some(item) => Some(kind_of_type(item.ty)),
        None => None,
    }
}

/// Whether what is found in an argument of a call is the kind that its parameter takes.
fn is_taken(taken: Option<Kind>, found: Result<Kind, MarkKind>) -> bool
    ensures { result ≡ is_taken taken found }
{
    match (taken, found) {
        (Some(taken), Ok(kind)) => same_kind(taken, kind),
        _ => false,
    }
}

/// What is wrong with the name of a procedure in its heading, if something is: it is reserved, or that
/// of main or of an earlier effective heading.
#[tactic(auto, unfolding(plcs_grammar::specs::Builtin::is_builtin_name))]
pub(crate) fn procedure_offence(tree: &Tree, slot: Slot, name: &Name) -> Option<MarkKind>
    requires tree { IsTree tree.now }
    ensures { result ≡ procedure_offence (Sig (procedures_before tree.now.items slot.0) name.now) name.now }
{
    if Builtin::read(name.as_bytes()).is_some() {
        return Some(MarkKind::Reserved);
    }
    if name.as_bytes() == b"main".as_slice() || is_named_before(tree, slot, name) {
        return Some(MarkKind::Duplicate);
    }
    None
}
