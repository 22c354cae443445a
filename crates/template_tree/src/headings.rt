//! What the headings of procedures say, read from the parts of their nodes, and which names may be called.
ghost use Rattle.std.specs.Prelude.{◌≡◌, [], Some, option_map};
ghost use Rattle.plcs_grammar.specs.PlainPhrase.{plain_phrase};
ghost use Rattle.template_tree.specs.Checks.Environment.{heading_of, heading_with, may_be_called, name_given, name_of_procedure, names_of_list, parameters_given, template_heading};

use crate::filled_part::phrase_in;
use crate::node::Node;
use plcs_base::Name;
use plcs_grammar::{Builtin, NodeKind, Phrase, Template};

/// The name in the heading of a procedure, or `None` where a part of it is empty or the node is no
/// procedure.
pub fn heading_name(node: &Node) -> Option<&Name>
    ensures { option_map (λ name. name.now) result ≡ option_map (λ heading. heading.name)
        (heading_of node.now.label.kind node.now.label.parts) }
{
    match node.kind() {
        NodeKind::Filled(template) => template_heading_name(template, node),
        _ => None,
    }
}

/// The name in the heading of a procedure by the template, if all parts of it are filled.
fn template_heading_name(template: Template, node: &Node) -> Option<&Name>
    ensures { option_map (λ name. name.now) result ≡ option_map (λ heading. heading.name)
        (template_heading template node.now.label.parts) }
{
    match template {
        Template::Proc => name_given(node),
        Template::ProcP => long_heading_name(node),
        _ => None,
    }
}

/// The name in a heading with parameters, if both parts of it are filled.
fn long_heading_name(node: &Node) -> Option<&Name>
    ensures { option_map (λ name. name.now) result ≡ option_map (λ heading. heading.name)
        (heading_with (name_given node.now.label.parts) (parameters_given node.now.label.parts)) }
{
    if parameters_given(node).is_none() {
        return None;
    }
    name_given(node)
}

/// The parameters in the heading of a procedure, of which it may have none, or `None` where a part of it
/// is empty or the node is no procedure.
pub fn heading_parameters(node: &Node) -> Option<&[Name]>
    ensures { option_map (λ names. names.now) result ≡ option_map (λ heading. heading.parameters)
        (heading_of node.now.label.kind node.now.label.parts) }
{
    match node.kind() {
        NodeKind::Filled(template) => template_heading_parameters(template, node),
        _ => None,
    }
}

/// The parameters in the heading of a procedure by the template, if all parts of it are filled.
fn template_heading_parameters(template: Template, node: &Node) -> Option<&[Name]>
    ensures { option_map (λ names. names.now) result ≡ option_map (λ heading. heading.parameters)
        (template_heading template node.now.label.parts) }
{
    match template {
        Template::Proc => short_heading_parameters(node),
        Template::ProcP => long_heading_parameters(node),
        _ => None,
    }
}

/// The parameters in a heading that can have none, if its name is filled: no names.
fn short_heading_parameters(node: &Node) -> Option<&[Name]>
    ensures { option_map (λ names. names.now) result ≡ option_map (λ heading. heading.parameters)
        (heading_with (name_given node.now.label.parts) (Some [])) }
{
    if name_given(node).is_none() {
        return None;
    }
    let none: &[Name] = &[];
    Some(none)
}

/// The parameters in a heading with parameters, if both parts of it are filled.
fn long_heading_parameters(node: &Node) -> Option<&[Name]>
    ensures { option_map (λ names. names.now) result ≡ option_map (λ heading. heading.parameters)
        (heading_with (name_given node.now.label.parts) (parameters_given node.now.label.parts)) }
{
    if name_given(node).is_none() {
        return None;
    }
    parameters_given(node)
}

/// The name of a procedure in the first part of its heading, if it is there.
fn name_given(node: &Node) -> Option<&Name>
    ensures { option_map (λ name. name.now) result ≡ name_given node.now.label.parts }
{
    let Some(phrase) = phrase_in(node, 0) else {
        return None;
    };
    name_of_procedure(phrase)
}

/// The name that the phrase in a heading gives to the procedure, if it is a name for one.
fn name_of_procedure(phrase: &Phrase) -> Option<&Name>
    ensures { option_map (λ name. name.now) result ≡ name_of_procedure (plain_phrase phrase.now) }
{
    match phrase {
        Phrase::ProcedureName(name) => Some(name),
        _ => None,
    }
}

/// The parameters in the second part of a heading, or `None` where no list of them stands there.
pub fn parameters_given(node: &Node) -> Option<&[Name]>
    ensures { option_map (λ names. names.now) result ≡ parameters_given node.now.label.parts }
{
    let Some(phrase) = phrase_in(node, 1) else {
        return None;
    };
    names_of_list(phrase)
}

/// The parameters that the phrase in a heading lists, if it is a list of parameters.
fn names_of_list(phrase: &Phrase) -> Option<&[Name]>
    ensures { option_map (λ names. names.now) result ≡ names_of_list (plain_phrase phrase.now) }
{
    match phrase {
        Phrase::NameList(names) => Some(names),
        _ => None,
    }
}

/// Whether a procedure may be called by the name that its heading says: the name is neither a built-in
/// function's nor that of main.
#[tactic(auto, unfolding(plcs_grammar::specs::Builtin::is_builtin_name))]
pub fn may_be_called(name: &Name) -> bool
    ensures { result ≡ may_be_called name.now }
{
    Builtin::read(name.as_bytes()).is_none() && name.as_bytes() != b"main".as_slice()
}
