//! The phrases of an edited tree that are due for a check, beside those that were put in.
ghost use Rattle.std.specs.Prelude.{◌≡◌, ◌<◌, ◌++◌, OnOk, flat_map, length};
ghost use Rattle.plcs_grammar.specs.PlainPhrase.{plain_phrase};
ghost use Rattle.template_tree.specs.Programs.Limit.{most_slots};
ghost use Rattle.template_tree.specs.Programs.PlainPhrasePlace.{plain_phrase_place};
ghost use Rattle.template_tree.specs.Programs.Program.{IsSubtree};
ghost use Rattle.template_tree.specs.Programs.Slots.{count};
ghost use Rattle.decl_table.specs.Due.{all_list_places, is_name_list, list_place, list_places};
ghost use Rattle.decl_table.specs.Private.DuePlaces.{is_list_there, uses_now};

use crate::mention_list::MentionList;
use crate::name_set::NameSet;
use crate::uses::Uses;
use plcs_base::{Name, OutOfMemory, PhraseAt};
use plcs_grammar::Phrase;
use template_tree::{Node, PhrasePlace, items_are_nodes};

/// Adds the places of the declared lists and of the list of parameters of the procedure.
pub(crate) fn add_lists(procedure: &Node, places: &mut MentionList) -> Result<(), OutOfMemory>
    requires subtree { IsSubtree procedure.now }
    requires few { count procedure.now.inner < most_slots }
    ensures { OnOk result (places.new ≡ places.old
        ++ (list_places procedure.now.label.slot 0 procedure.now.label.parts ++ all_list_places procedure.now.inner)) }
{
    items_are_nodes();
    add_lists_of(procedure, places)?;
    let mut k = 0;
    while let Some(node) = procedure.child(k) {
        add_lists_of(node, places)?;
        k += 1;
    }
    Ok(())
}

/// Adds the places of the lists of names in the parts of the node.
fn add_lists_of(node: &Node, places: &mut MentionList) -> Result<(), OutOfMemory>
    requires few { length node.now.label.parts < 256 }
    ensures { OnOk result (places.new ≡ places.old ++ list_places node.now.label.slot 0 node.now.label.parts) }
{
    let mut part = 0;
    while let Some(place) = node.part(part) {
        let at = PhraseAt {
            slot: node.slot(),
            part,
        };
        add_list(place, at, places)?;
        part += 1;
    }
    Ok(())
}

/// Adds the place if a declared list or a list of parameters stands there.
fn add_list(place: &PhrasePlace, at: PhraseAt, places: &mut MentionList) -> Result<(), OutOfMemory>
    ensures { OnOk result (places.new ≡ places.old ++ list_place at (plain_phrase_place place.now)) }
{
    if is_list_there(place) {
        places.push(at)?;
    }
    Ok(())
}

/// Whether a declared list or a list of parameters stands there.
fn is_list_there(place: &PhrasePlace) -> bool
    ensures { result ≡ is_list_there (plain_phrase_place place.now) }
{
    match place {
        PhrasePlace::Empty => false,
        PhrasePlace::Filled(phrase) => is_name_list(phrase),
    }
}

/// Whether the phrase is a declared list or a list of parameters.
fn is_name_list(phrase: &Phrase) -> bool
    ensures { result ≡ is_name_list (plain_phrase phrase.now) }
{
    match phrase {
        Phrase::Assignment(_, _) => false,
        Phrase::Condition(_) => false,
        Phrase::Expression(_) => false,
        Phrase::ExpressionList(_) => false,
        Phrase::VariableList(_) => false,
        Phrase::Variable(_) => false,
        Phrase::CallRef(_, _) => false,
        Phrase::DeclaredList(_) => true,
        Phrase::ProcedureName(_) => false,
        Phrase::NameList(_) => true,
        Phrase::Length(_) => false,
        Phrase::CommentText(_) => false,
    }
}

/// Adds the places of the phrases that mention one of the names after the edit.
pub(crate) fn add_uses(
    names: &[Name],
    before: &Uses,
    changed: &Uses,
    places: &mut MentionList,
) -> Result<(), OutOfMemory>
    ensures { OnOk result (places.new
        ≡ places.old ++ flat_map (uses_now before.now.uses changed.now.uses) names.now) }
{
    for name in names {
        add_uses_of(name, before, changed, places)?;
    }
    Ok(())
}

/// Adds the places of the phrases that mention the name after the edit: those that are noted as changed, or else those
/// that were.
fn add_uses_of(
    name: &Name,
    before: &Uses,
    changed: &Uses,
    places: &mut MentionList,
) -> Result<(), OutOfMemory>
    ensures { OnOk result (places.new ≡ places.old ++ uses_now before.now.uses changed.now.uses name.now) }
{
    if changed.has(name) {
        places.add_all(changed.under(name))
    } else {
        places.add_all(before.under(name))
    }
}
