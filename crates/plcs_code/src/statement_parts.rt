//! What the parts of statements hold, read for their code.
ghost use Rattle.std.specs.Prelude.{◌≡◌, Some, map, option_map};
ghost use Rattle.plcs_grammar.specs.PlainPhrase.{plain_exprs, plain_phrase, plain_var_ref};
ghost use Rattle.template_tree.specs.Programs.Part.{part_at};
ghost use Rattle.plcs_code.specs.ExprCode.{counter_name, get_targets, listed_exprs};

use plcs_base::Name;
use plcs_grammar::{Expr, Phrase, VarRef};
use template_tree::{Node, phrase_in};

/// The expressions in the first part of a PUT: none where no list stands there.
pub(crate) fn listed_exprs(node: &Node) -> &[Expr]
    ensures { plain_exprs result.now ≡ listed_exprs (part_at node.now.label.parts 0) }
{
    let Some(phrase) = phrase_in(node, 0) else {
        return &[];
    };
    exprs_in(phrase)
}

/// The expressions in the phrase of a statement, if it is a list of them, and else none.
fn exprs_in(phrase: &Phrase) -> &[Expr]
    ensures { plain_exprs result.now ≡ listed_exprs (Some (plain_phrase phrase.now)) }
{
    match phrase {
        Phrase::ExpressionList(exprs) => exprs,
        _ => &[],
    }
}

/// The variables in the first part of a GET: none where no list stands there.
pub(crate) fn get_targets(node: &Node) -> &[VarRef]
    ensures { map plain_var_ref result.now ≡ get_targets (part_at node.now.label.parts 0) }
{
    let Some(phrase) = phrase_in(node, 0) else {
        return &[];
    };
    targets_in(phrase)
}

/// The variables in the phrase of a statement, if it is a list of them, and else none.
fn targets_in(phrase: &Phrase) -> &[VarRef]
    ensures { map plain_var_ref result.now ≡ get_targets (Some (plain_phrase phrase.now)) }
{
    match phrase {
        Phrase::VariableList(targets) => targets,
        _ => &[],
    }
}

/// The variable in the first part of a loop, with which it counts, or `None` where it isn't there.
pub(crate) fn counter_name(node: &Node) -> Option<&Name>
    ensures { option_map (λ name. name.now) result ≡ counter_name (part_at node.now.label.parts 0) }
{
    let Some(phrase) = phrase_in(node, 0) else {
        return None;
    };
    counter_in(phrase)
}

/// The variable of the phrase of a statement, if it is one with which a loop counts.
fn counter_in(phrase: &Phrase) -> Option<&Name>
    ensures { option_map (λ name. name.now) result ≡ counter_name (Some (plain_phrase phrase.now)) }
{
    match phrase {
        Phrase::Variable(name) => Some(name),
        _ => None,
    }
}
