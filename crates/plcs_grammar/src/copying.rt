//! Copies of phrases.
ghost use Rattle.std.specs.Prelude.{◌≡◌, IfOk, map};
ghost use Rattle.plcs_grammar.specs.PlainPhrase.{plain_phrase, plain_var_ref};

use crate::expr::VarRef;
use crate::expr_copy::{copy_expr, copy_exprs, copy_name, copy_variable};
use crate::item::Item;
use crate::phrase::Phrase;
use plcs_base::{Name, OutOfMemory};
use std::alloc::Global;

/// A copy of the phrase, whose plain form is the same.
///
/// It takes memory in proportion to the phrase, and little stack also where a chain of operators is
/// long.
pub fn copy_phrase(alloc: Global, phrase: &Phrase) -> Result<Phrase, OutOfMemory>
    ensures { IfOk result (λ copy. plain_phrase copy ≡ plain_phrase phrase.now) }
{
    match phrase {
        Phrase::Assignment(target, value) => {
            let Ok(target) = copy_variable(alloc, target) else {
                return Err(OutOfMemory);
            };
            let Ok(value) = copy_expr(alloc, value) else {
                drop(target);
                return Err(OutOfMemory);
            };
            Ok(Phrase::Assignment(target, value))
        }
        Phrase::Condition(expr) => match copy_expr(alloc, expr) {
            Ok(copy) => Ok(Phrase::Condition(copy)),
            Err(OutOfMemory) => Err(OutOfMemory),
        },
        Phrase::Expression(expr) => match copy_expr(alloc, expr) {
            Ok(copy) => Ok(Phrase::Expression(copy)),
            Err(OutOfMemory) => Err(OutOfMemory),
        },
        Phrase::ExpressionList(exprs) => match copy_exprs(alloc, exprs) {
            Ok(copy) => Ok(Phrase::ExpressionList(copy)),
            Err(OutOfMemory) => Err(OutOfMemory),
        },
        Phrase::VariableList(targets) => match copy_variables(alloc, targets) {
            Ok(copy) => Ok(Phrase::VariableList(copy)),
            Err(OutOfMemory) => Err(OutOfMemory),
        },
        Phrase::Variable(name) => match copy_name(name) {
            Ok(copy) => Ok(Phrase::Variable(copy)),
            Err(OutOfMemory) => Err(OutOfMemory),
        },
        Phrase::CallRef(name, arguments) => {
            let Ok(name) = copy_name(name) else {
                return Err(OutOfMemory);
            };
            let Ok(arguments) = copy_exprs(alloc, arguments) else {
                drop(name);
                return Err(OutOfMemory);
            };
            Ok(Phrase::CallRef(name, arguments))
        }
        Phrase::DeclaredList(items) => match copy_items(alloc, items) {
            Ok(copy) => Ok(Phrase::DeclaredList(copy)),
            Err(OutOfMemory) => Err(OutOfMemory),
        },
        Phrase::ProcedureName(name) => match copy_name(name) {
            Ok(copy) => Ok(Phrase::ProcedureName(copy)),
            Err(OutOfMemory) => Err(OutOfMemory),
        },
        Phrase::NameList(names) => match copy_names(alloc, names) {
            Ok(copy) => Ok(Phrase::NameList(copy)),
            Err(OutOfMemory) => Err(OutOfMemory),
        },
        Phrase::Length(length) => Ok(Phrase::Length(*length)),
        Phrase::CommentText(text) => match text.clone() {
            Ok(copy) => Ok(Phrase::CommentText(copy)),
            Err(_) => Err(OutOfMemory),
        },
    }
}

/// Copies of a phrase's variables, in order.
fn copy_variables(alloc: Global, variables: &[VarRef]) -> Result<Vec<VarRef>, OutOfMemory>
    ensures { IfOk result (λ copies. map plain_var_ref copies.items ≡ map plain_var_ref variables.now) }
{
    let mut copies = Vec::new(alloc);
    for variable in variables {
        let Ok(copy) = copy_variable(alloc, variable) else {
            drop(copies);
            return Err(OutOfMemory);
        };
        if let Err(_) = copies.reserve(1) {
            drop(copies);
            drop(copy);
            return Err(OutOfMemory);
        }
        copies.push_reserved(copy);
    }
    Ok(copies)
}

/// A copy of a declared item of a phrase.
fn copy_item(item: &Item) -> Result<Item, OutOfMemory>
    ensures { IfOk result (λ copy. copy ≡ item.now) }
{
    match copy_name(&item.name) {
        Ok(name) => Ok(Item {
            name,
            size: item.size,
        }),
        Err(OutOfMemory) => Err(OutOfMemory),
    }
}

/// Copies of a phrase's declared items, in order.
fn copy_items(alloc: Global, items: &[Item]) -> Result<Vec<Item>, OutOfMemory>
    ensures { IfOk result (λ copies. copies.items ≡ items.now) }
{
    let mut copies = Vec::new(alloc);
    for item in items {
        let Ok(copy) = copy_item(item) else {
            drop(copies);
            return Err(OutOfMemory);
        };
        if let Err(_) = copies.reserve(1) {
            drop(copies);
            drop(copy);
            return Err(OutOfMemory);
        }
        copies.push_reserved(copy);
    }
    Ok(copies)
}

/// Copies of a phrase's names, in order.
fn copy_names(alloc: Global, names: &[Name]) -> Result<Vec<Name>, OutOfMemory>
    ensures { IfOk result (λ copies. copies.items ≡ names.now) }
{
    let mut copies = Vec::new(alloc);
    for name in names {
        let Ok(copy) = copy_name(name) else {
            drop(copies);
            return Err(OutOfMemory);
        };
        if let Err(_) = copies.reserve(1) {
            drop(copies);
            drop(copy);
            return Err(OutOfMemory);
        }
        copies.push_reserved(copy);
    }
    Ok(copies)
}
