//! What stood and what stands where an edit changed a tree, with the names of its phrases.
ghost use Rattle.std.specs.Prelude.{◌≡◌, ◌||◌, ◌<◌, ◌++◌, ℕ, IfOk, IfSome, List, None, OnOk, length, slice_get};
ghost use Rattle.std.specs.Option.{option_copied, option_flatten};
ghost use Rattle.decl_table.specs.Due.{binds_names};
ghost use Rattle.decl_table.specs.PlainDecls.{mentions_of};
ghost use Rattle.decl_table.specs.Private.NameTests.{AddsNames, bound_has, bound_of};
ghost use Rattle.decl_table.specs.Private.ReachView.{names_bind};
ghost use Rattle.decl_table.specs.Private.ChangeBefore.{places_of, spots_of};
ghost use Rattle.decl_table.specs.Private.UsesMended.{AreUsesMended};
ghost use Rattle.decl_table.specs.Private.UsesView.{AreOrdered, IsSettled};
ghost use Rattle.template_tree.specs.Checks.Mention.{phrase_at};
ghost use Rattle.decl_table.specs.Private.PlainNameNode.{HaveFewParts, kept_place, kept_places, name_forest, name_places, node_names};

use crate::mention_list::MentionList;
use crate::name_node::NameNode;
use crate::name_set::NameSet;
use crate::uses::Uses;
use plcs_base::{OutOfMemory, PhraseAt};
use plcs_grammar::Sort;
use std::alloc::Global;

/// What stood and what stands in the slot of a change, and which part alone was set, if one was.
#[derive(Clone, Copy)]
pub(crate) struct ChangedNodes<'a> {
    pub(crate) old: Option<&'a NameNode>,
    pub(crate) new: Option<&'a NameNode>,
    pub(crate) part: Option<u8>,
}

impl ChangedNodes<'_> {
    /// The places of the phrases that went, under the names that they mention, in order.
    pub(crate) fn went(&self, alloc: Global) -> Result<Uses, OutOfMemory>
        requires few { self.now.part ≡ None → IfSome self.now.old (λ node. HaveFewParts (node_names node.now)) }
        ensures { IfOk result (λ uses. (name : List ℕ)
            → IsSettled (places_of self.now.part (option_copied self.now.old) name) (mentions_of name uses.uses)) }
    {
        uses_in(alloc, self.part, self.old)
    }

    /// The places of the phrases that came, under the names that they mention, in order.
    pub(crate) fn came(&self, alloc: Global) -> Result<Uses, OutOfMemory>
        requires few { self.now.part ≡ None → IfSome self.now.new (λ node. HaveFewParts (node_names node.now)) }
        ensures { IfOk result (λ uses. (name : List ℕ)
            → IsSettled (places_of self.now.part (option_copied self.now.new) name) (mentions_of name uses.uses)) }
    {
        uses_in(alloc, self.part, self.new)
    }

    /// The uses of names after the edit, of each name that phrases mention that went or came, by those before it.
    pub(crate) fn mended(&self, alloc: Global, before: &Uses) -> Result<Uses, OutOfMemory>
        requires ordered { AreOrdered before.now.uses }
        requires old { self.now.part ≡ None → IfSome self.now.old (λ node. HaveFewParts (node_names node.now)) }
        requires new { self.now.part ≡ None → IfSome self.now.new (λ node. HaveFewParts (node_names node.now)) }
        ensures { IfOk result (λ mended. AreUsesMended self.now.part (option_copied self.now.old)
            (option_copied self.now.new) before.now.uses mended.uses) }
    {
        let Ok(went) = self.went(alloc) else {
            return Err(OutOfMemory);
        };
        let uses = self.mended_without(alloc, before, &went);
        drop(went);
        uses
    }

    /// The same, where these are the places of the phrases that went.
    fn mended_without(&self, alloc: Global, before: &Uses, went: &Uses) -> Result<Uses, OutOfMemory>
        requires ordered { AreOrdered before.now.uses }
        requires went { (name : List ℕ)
            → IsSettled (places_of self.now.part (option_copied self.now.old) name) (mentions_of name went.now.uses) }
        requires new { self.now.part ≡ None → IfSome self.now.new (λ node. HaveFewParts (node_names node.now)) }
        ensures { IfOk result (λ mended. AreUsesMended self.now.part (option_copied self.now.old)
            (option_copied self.now.new) before.now.uses mended.uses) }
    {
        let Ok(came) = self.came(alloc) else {
            return Err(OutOfMemory);
        };
        let uses = before.mended(alloc, went, &came);
        drop(came);
        uses
    }

    /// The places of the phrases that went, in order.
    pub(crate) fn gone(&self, alloc: Global) -> Result<MentionList, OutOfMemory>
        requires few { self.now.part ≡ None → IfSome self.now.old (λ node. HaveFewParts (node_names node.now)) }
        ensures { IfOk result (IsSettled (spots_of self.now.part (option_copied self.now.old))) }
    {
        let mut places = MentionList::new(alloc);
        match add_places(self.part, self.old, &mut places) {
            Ok(()) => {
                places.settle();
                Ok(places)
            }
            Err(OutOfMemory) => {
                drop(places);
                Err(OutOfMemory)
            }
        }
    }

    /// Adds the places of the phrases that came.
    pub(crate) fn add_put_in(&self, places: &mut MentionList) -> Result<(), OutOfMemory>
        requires few { self.now.part ≡ None → IfSome self.now.new (λ node. HaveFewParts (node_names node.now)) }
        ensures { OnOk result (places.new ≡ places.old ++ spots_of self.now.part (option_copied self.now.new)) }
    {
        add_places(self.part, self.new, places)
    }

    /// Whether what stood or stands there binds names, so that a declaration or a heading was changed.
    pub(crate) fn bind_names(&self) -> bool
        ensures { result ≡ (names_bind (option_copied self.now.old) || names_bind (option_copied self.now.new)) }
    {
        binds_names(self.old) || binds_names(self.new)
    }

    /// Adds the names that stood or stand in the declaration or the heading that was changed.
    pub(crate) fn add_bound(&self, names: &mut NameSet) -> Result<(), OutOfMemory>
        ensures { OnOk result (AddsNames (λ name. bound_of self.now.part (option_copied self.now.old) name
            || bound_of self.now.part (option_copied self.now.new) name) names.old names.new) }
    {
        let part = self.part;
        add_bound_of(part, self.old, names)?;
        add_bound_of(part, self.new, names)
    }
}

/// The places of the phrases in the part of the node, or else in the node and inside it, if it is there, under the
/// names that they mention, in order.
fn uses_in(alloc: Global, part: Option<u8>, node: Option<&NameNode>) -> Result<Uses, OutOfMemory>
    requires few { part ≡ None → IfSome node (λ node. HaveFewParts (node_names node.now)) }
    ensures { IfOk result (λ uses. (name : List ℕ)
        → IsSettled (places_of part (option_copied node.entry) name) (mentions_of name uses.uses)) }
{
    let Some(node) = node else {
        return Ok(Uses::new(alloc));
    };
    match part {
        Some(part) => Uses::of_part(alloc, node, part),
        None => Uses::of(alloc, node),
    }
}

/// Adds the places of the phrases in the part of the node, or else in the node and inside it, if it is there.
fn add_places(
    part: Option<u8>,
    node: Option<&NameNode>,
    places: &mut MentionList,
) -> Result<(), OutOfMemory>
    requires few { part ≡ None → IfSome node (λ node. HaveFewParts (node_names node.now)) }
    ensures { OnOk result (places.new ≡ places.old ++ spots_of part (option_copied node.entry)) }
{
    let Some(node) = node else {
        return Ok(());
    };
    match part {
        Some(part) => add_place(node, part, places),
        None => add_all_places(node, places),
    }
}

/// Whether what stands there, if something does, is main, a procedure or a declaration, which bind names.
fn binds_names(node: Option<&NameNode>) -> bool
    ensures { result ≡ names_bind (option_copied node.entry) }
{
    match node {
        Some(node) => sort_binds_names(node.kind().row().sort),
        None => false,
    }
}

/// Whether nodes of the sort bind names: declarations do, and main and procedures, which have declarations and
/// headings.
fn sort_binds_names(sort: Sort) -> bool
    ensures { result ≡ binds_names sort }
{
    match sort {
        Sort::Main => true,
        Sort::Procedure => true,
        Sort::Declaration => true,
        Sort::Statement => false,
    }
}

/// Adds the place of the phrase in the part of the node, if one stands there.
fn add_place(node: &NameNode, part: u8, places: &mut MentionList) -> Result<(), OutOfMemory>
    ensures { OnOk result (places.new
        ≡ places.old ++ kept_place (phrase_at node.now.label.slot part)
        (option_flatten (slice_get node.now.label.parts part))) }
{
    match node.part(part) {
        Some(_) => places.push(PhraseAt {
            slot: node.slot(),
            part,
        }),
        None => Ok(()),
    }
}

/// Adds the places of the phrases in the node and inside it.
#[cycle(add_all_places)]
fn add_all_places(node: &NameNode, places: &mut MentionList) -> Result<(), OutOfMemory>
    requires few { HaveFewParts (node_names node.now) }
    ensures { OnOk result (places.new ≡ places.old ++ name_places (node_names node.now)) }
{
    add_part_places(node, places)?;
    add_places_of(node.nodes_inside(), places)
}

/// Adds the places of the phrases in the nodes and inside them.
#[cycle(add_all_places)]
fn add_places_of(nodes: &[NameNode], places: &mut MentionList) -> Result<(), OutOfMemory>
    requires few { HaveFewParts (name_forest nodes.now) }
    ensures { OnOk result (places.new ≡ places.old ++ name_places (name_forest nodes.now)) }
{
    for node in nodes {
        add_all_places(node, places)?;
    }
    Ok(())
}

/// Adds the places of the phrases in the parts of the node.
fn add_part_places(node: &NameNode, places: &mut MentionList) -> Result<(), OutOfMemory>
    requires few { length node.now.label.parts < 256 }
    ensures { OnOk result (places.new
        ≡ places.old ++ kept_places node.now.label.slot 0 node.now.label.parts) }
{
    let mut part = 0;
    while (part as usize) < node.parts() {
        add_place(node, part, places)?;
        part += 1;
    }
    Ok(())
}

/// Adds the names that stand in the declaration or the heading, if it is there: those in all its parts where one was
/// set, or else also those inside it.
fn add_bound_of(
    part: Option<u8>,
    node: Option<&NameNode>,
    names: &mut NameSet,
) -> Result<(), OutOfMemory>
    ensures { OnOk result (AddsNames (bound_of part (option_copied node.entry)) names.old names.new) }
{
    let Some(node) = node else {
        return Ok(());
    };
    match part {
        Some(_) => names.add_part_names(node),
        None => add_all_bound(node, names),
    }
}

/// Adds the names that stand in declarations and headings, of the node and of those inside it.
#[cycle(add_all_bound)]
fn add_all_bound(node: &NameNode, names: &mut NameSet) -> Result<(), OutOfMemory>
    ensures { OnOk result (AddsNames (bound_has (node_names node.now)) names.old names.new) }
{
    if !sort_binds_names(node.kind().row().sort) {
        return Ok(());
    }
    names.add_part_names(node)?;
    add_bound_in(node.nodes_inside(), names)
}

/// Adds the names that stand in declarations and headings, of the nodes and of those inside them.
#[cycle(add_all_bound)]
fn add_bound_in(nodes: &[NameNode], names: &mut NameSet) -> Result<(), OutOfMemory>
    ensures { OnOk result (AddsNames (bound_has (name_forest nodes.now)) names.old names.new) }
{
    for node in nodes {
        add_all_bound(node, names)?;
    }
    Ok(())
}
