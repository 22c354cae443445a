//! What declarations say, read from the parts of their nodes.
ghost use Rattle.std.specs.Prelude.{◌≡◌, option_map};
ghost use Rattle.plcs_base.specs.declared.declared.ItemType.{ItemType};
ghost use Rattle.plcs_grammar.specs.PlainPhrase.{plain_phrase};
ghost use Rattle.template_tree.specs.Checks.Environment.{cells_in, items_of_list, length_given, list_items, number_of_length, template_type, type_given};

use crate::filled_part::phrase_in;
use crate::node::Node;
use plcs_base::ItemType;
use plcs_grammar::{Item, NodeKind, Phrase, Template};

/// The type that the node gives to the names that it declares, or `None` where it is no declaration, or
/// one of texts without their length.
pub fn type_given(node: &Node) -> Option<ItemType>
    ensures { result ≡ type_given node.now.label.kind node.now.label.parts }
{
    match node.kind() {
        NodeKind::Filled(template) => template_type(template, node),
        _ => None,
    }
}

/// The type that a declaration by the template gives to its names, if it gives one.
fn template_type(template: Template, node: &Node) -> Option<ItemType>
    ensures { result ≡ template_type template node.now.label.parts }
{
    match template {
        Template::Fixed => Some(ItemType::Fixed),
        Template::Bit => Some(ItemType::Bit),
        Template::Char => text_type(length_given(node)),
        _ => None,
    }
}

/// The type that a declaration of texts gives by their greatest length, if that is there.
fn text_type(length: Option<u16>) -> Option<ItemType>
    ensures { result ≡ option_map ItemType.Text length }
{
    match length {
        Some(length) => Some(ItemType::Text(length)),
        None => None,
    }
}

/// The greatest length of texts in the second part of a declaration, if it is there.
fn length_given(node: &Node) -> Option<u16>
    ensures { result ≡ length_given node.now.label.parts }
{
    let Some(phrase) = phrase_in(node, 1) else {
        return None;
    };
    number_of_length(phrase)
}

/// The number that the phrase in a declaration says, if it is a length.
fn number_of_length(phrase: &Phrase) -> Option<u16>
    ensures { result ≡ number_of_length (plain_phrase phrase.now) }
{
    match phrase {
        Phrase::Length(number) => Some(*number),
        _ => None,
    }
}

/// The items in the first part of a declaration: none where no declared list stands there.
pub fn list_items(node: &Node) -> &[Item]
    ensures { result.now ≡ list_items node.now.label.parts }
{
    let Some(phrase) = phrase_in(node, 0) else {
        return &[];
    };
    items_of_list(phrase)
}

/// The items of the phrase in a declaration, if it is a declared list, and else none.
fn items_of_list(phrase: &Phrase) -> &[Item]
    ensures { result.now ≡ items_of_list (plain_phrase phrase.now) }
{
    match phrase {
        Phrase::DeclaredList(items) => items,
        _ => &[],
    }
}

/// How many cells an item has whose declaration says this size: one where it is 0, which stands for a scalar.
pub fn cells_of(size: u32) -> u32
    ensures { result ≡ cells_in size }
{
    if size == 0 { 1 } else { size }
}
