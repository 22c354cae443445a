//! The lists of a phrase, which grow by one.
ghost use Rattle.std.specs.Prelude.{◌≡◌, [], ◌∷◌, ◌++◌, map, IfOk};
ghost use Rattle.plcs_grammar.specs.PlainPhrase.{plain_expr, plain_exprs, plain_var_ref};
ghost use Rattle.phrase_parser.specs.Private.Machine.{expr_push};

use plcs_base::Name;
use plcs_grammar::{Expr, Item, VarRef};
use std::alloc::AllocError;

/// A phrase's list of expressions with one more at its end.
#[tactic(auto, using(crate::proofs::Frames::FrameStacks::exprs_of_push))]
pub fn with_expr(done: Vec<Expr>, expr: Expr) -> Result<Vec<Expr>, AllocError>
    ensures { IfOk result (λ all. plain_exprs all.items ≡ expr_push (plain_exprs done.items) (plain_expr expr)) }
{
    let mut all = done;
    match all.push(expr) {
        Ok(()) => Ok(all),
        Err(refused) => {
            drop(refused);
            drop(all);
            Err(AllocError)
        }
    }
}

/// A phrase's list of variables with one more at its end.
#[tactic(auto, using(crate::proofs::Frames::FrameStacks::references_of_push))]
pub fn with_variable(done: Vec<VarRef>, variable: VarRef) -> Result<Vec<VarRef>, AllocError>
    ensures { IfOk result
        (λ all. map plain_var_ref all.items ≡ map plain_var_ref done.items ++ (plain_var_ref variable ∷ [])) }
{
    let mut all = done;
    match all.push(variable) {
        Ok(()) => Ok(all),
        Err(refused) => {
            drop(refused);
            drop(all);
            Err(AllocError)
        }
    }
}

/// A phrase's list of declared items with one more at its end.
pub fn with_item(done: Vec<Item>, name: Name, size: Option<u32>) -> Result<Vec<Item>, AllocError>
    ensures { IfOk result (λ all. all.items ≡ done.items ++ (record { name = name; size = size } ∷ [])) }
{
    let mut all = done;
    all.push(Item { name, size })?;
    Ok(all)
}

/// A phrase's list of names with one more at its end.
pub fn with_name(done: Vec<Name>, name: Name) -> Result<Vec<Name>, AllocError>
    ensures { IfOk result (λ all. all.items ≡ done.items ++ (name ∷ [])) }
{
    let mut all = done;
    all.push(name)?;
    Ok(all)
}
