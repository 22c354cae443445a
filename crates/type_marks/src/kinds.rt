//! The kinds of expressions: of variables, operators and calls of built-in functions.
ghost use Rattle.std.specs.Prelude.{◌≡◌, Ok, length, option_to_list, ◌++◌};
ghost use Rattle.plcs_grammar.specs.PlainPhrase.{plain_expr, plain_exprs, plain_var_ref};
ghost use Rattle.template_tree.specs.Checks.ProgramMaps.{items_in};
ghost use Rattle.template_tree.specs.Checks.Verdict.{kind_of, kinds_of, reference_kind, then_found, of_kind};
ghost use Rattle.type_marks.specs.Private.Arguments.{fit_found, judged, takes_kind, taken_of};

use crate::chain::Chain;
use crate::kind_table::{BuiltinRow, builtin_row, prefix_kind, same_kind};
use crate::names::{array_kind, name_kind};
use decl_table::Decls;
use plcs_base::{Kind, MarkKind, Slot};
use plcs_grammar::{Expr, VarRef};

/// The kind of an expression, or its first offence. A chain of operators is gone through in a loop, from
/// its last operator on.
#[cycle(kind_of)]
pub(crate) fn kind_of(expr: &Expr, decls: &Decls, procedure: Slot) -> Result<Kind, MarkKind>
    ensures { result ≡ kind_of (items_in decls.now.items procedure.0) (plain_expr expr.now) }
{
    let mut at = expr;
    let mut chain = Chain::new();
    loop {
        match at {
            Expr::Infix(op, left, right) => {
                let found = kind_of(right, decls, procedure);
                chain = chain.before(*op, found);
                at = left;
            }
            Expr::Number(_) => return chain.end(Ok(Kind::Fixed)),
            Expr::Text(_) => return chain.end(Ok(Kind::Text)),
            Expr::Bit(_) => return chain.end(Ok(Kind::Bit)),
            Expr::Var(variable) => {
                let found = reference_kind(variable, decls, procedure);
                return chain.end(found);
            }
            Expr::Prefix(op, operand) => {
                let found = kind_of(operand, decls, procedure);
                return chain.end(found_wanted(prefix_kind(*op), found));
            }
            Expr::Builtin(function, arguments) => {
                let row = builtin_row(*function);
                let found = fit_arguments(arguments, row, decls, procedure);
                return chain.end(judged(row, arguments.len(), found));
            }
            Expr::Paren(inside) => {
                let found = kind_of(inside, decls, procedure);
                return chain.end(found);
            }
        }
    }
}

/// The kind of a variable, or its first offence: a subscript comes before the name.
#[cycle(kind_of)]
pub(crate) fn reference_kind(
    variable: &VarRef,
    decls: &Decls,
    procedure: Slot,
) -> Result<Kind, MarkKind>
    ensures { result ≡ reference_kind (items_in decls.now.items procedure.0) (plain_var_ref variable.now) }
{
    match &variable.index {
        None => name_kind(decls, procedure, &variable.name),
        Some(index) => {
            let found = kind_of(index, decls, procedure);
            match found_wanted(Kind::Fixed, found) {
                Ok(_) => array_kind(decls, procedure, &variable.name),
                Err(offence) => Err(offence),
            }
        }
    }
}

/// Whether the kinds of the arguments of a built-in function are those that it takes, as far as there
/// are both, or the first offence in them.
#[cycle(kind_of)]
fn fit_arguments(
    arguments: &[Expr],
    row: BuiltinRow,
    decls: &Decls,
    procedure: Slot,
) -> Result<bool, MarkKind>
    ensures { result ≡ fit_found (taken_of row)
        (kinds_of (items_in decls.now.items procedure.0) (plain_exprs arguments.now)) }
{
    let mut fits = true;
    for i in 0..arguments.len() {
        match kind_of(&arguments[i], decls, procedure) {
            Ok(kind) => fits = fits && takes_kind(row.taken(i), kind),
            Err(offence) => return Err(offence),
        }
    }
    Ok(fits)
}

/// What is found in an expression where this kind is wanted: the kind, or else the offence.
pub(crate) fn found_wanted(kind: Kind, found: Result<Kind, MarkKind>) -> Result<Kind, MarkKind>
    ensures { result ≡ then_found found (of_kind kind) }
{
    match found {
        Ok(other) => {
            if same_kind(kind, other) {
                Ok(other)
            } else {
                Err(MarkKind::TypeMismatch)
            }
        }
        Err(offence) => Err(offence),
    }
}

/// Whether an argument in the call of a built-in function may be of the kind that was found for it, where this
/// kind is taken there, or none is.
fn takes_kind(taken: Option<Kind>, kind: Kind) -> bool
    ensures { result ≡ takes_kind taken kind }
{
    match taken {
        Some(wanted) => same_kind(wanted, kind),
        None => true,
    }
}

/// The kind of the call of a built-in function with so many arguments, where their kinds fit or not, or
/// its first offence.
fn judged(row: BuiltinRow, count: usize, found: Result<bool, MarkKind>) -> Result<Kind, MarkKind>
    ensures { result ≡ judged row count found }
{
    match found {
        Ok(fits) => {
            if !row.is_count(count) {
                Err(MarkKind::WrongCount)
            } else if fits {
                Ok(row.gives)
            } else {
                Err(MarkKind::TypeMismatch)
            }
        }
        Err(offence) => Err(offence),
    }
}
