//! Equality of phrases.
ghost use Rattle.std.specs.Prelude.{◌≡◌, ◌↔◌, IsTrue, map};
ghost use Rattle.plcs_grammar.specs.PlainPhrase.{plain_phrase, plain_var_ref};

use crate::expr::VarRef;
use crate::expr_equality::{same_expr, same_exprs, same_variable};
use crate::phrase::Phrase;

/// Whether two phrases have one plain form, so that they are the same phrase.
///
/// It takes no memory, and little stack also where chains of operators are long.
pub fn same_phrase(one: &Phrase, other: &Phrase) -> bool
    ensures { IsTrue result ↔ (plain_phrase one.now ≡ plain_phrase other.now) }
{
    match (one, other) {
        (Phrase::Assignment(target, value), Phrase::Assignment(known, wanted)) => {
            same_variable(target, known) && same_expr(value, wanted)
        }
        (Phrase::Condition(a), Phrase::Condition(b)) => same_expr(a, b),
        (Phrase::Expression(a), Phrase::Expression(b)) => same_expr(a, b),
        (Phrase::ExpressionList(all), Phrase::ExpressionList(others)) => same_exprs(all, others),
        (Phrase::VariableList(all), Phrase::VariableList(others)) => same_variables(all, others),
        (Phrase::Variable(a), Phrase::Variable(b)) => a.as_bytes() == b.as_bytes(),
        (Phrase::CallRef(a, all), Phrase::CallRef(b, others)) => {
            a.as_bytes() == b.as_bytes() && same_exprs(all, others)
        }
        (Phrase::DeclaredList(all), Phrase::DeclaredList(others)) => all == others,
        (Phrase::ProcedureName(a), Phrase::ProcedureName(b)) => a.as_bytes() == b.as_bytes(),
        (Phrase::NameList(all), Phrase::NameList(others)) => all == others,
        (Phrase::Length(a), Phrase::Length(b)) => a == b,
        (Phrase::CommentText(a), Phrase::CommentText(b)) => a == b,
        _ => false,
    }
}

/// Whether the lists of variables of two phrases have the same plain forms, one by one.
fn same_variables(all: &[VarRef], others: &[VarRef]) -> bool
    ensures { IsTrue result ↔ (map plain_var_ref all.now ≡ map plain_var_ref others.now) }
{
    if all.len() != others.len() {
        return false;
    }
    for i in 0..all.len() {
        if !same_variable(&all[i], &others[i]) {
            return false;
        }
    }
    true
}
