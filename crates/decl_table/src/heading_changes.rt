//! The names whose effective heading an edit may change.
ghost use Rattle.std.specs.Prelude.{◌≡◌, [], false, OnOk, bytes_eq, find, is_some, length, option_map};
ghost use Rattle.std.specs.List.{list_any};
ghost use Rattle.std.specs.Map.{lookup};
ghost use Rattle.std.specs.Option.{option_map_or};
ghost use Rattle.template_tree.specs.Checks.Environment.{Sig, heading_of};
ghost use Rattle.template_tree.specs.Programs.Tree.{IsTree};
ghost use Rattle.decl_table.specs.Private.HeadingChangesView.{NotesHeadings, stands_first};

use crate::name_node::NameNode;
use plcs_base::{Name, OutOfMemory, Slot};
use std::alloc::Global;
use std::marker::Model;
use template_tree::{Node, Tree, heading_name, items_are_nodes, may_be_called, path_of_item};

/// The slot of the effective heading of a name after an edit, or none where it has none then.
#[derive(Drop)]
pub(crate) struct HeadingChange {
    pub(crate) name: Name,
    pub(crate) slot: Option<Slot>,
}

/// The names whose effective heading an edit may change, with what it is then, which contracts see as a list of pairs.
#[derive(Drop)]
pub(crate) struct HeadingChanges {
    pub(crate) list: Vec<HeadingChange>,
}

impl Model for HeadingChanges {
    ghost use Rattle.std.specs.Prelude.{List, Option, ℕ};
    ghost use Rattle.decl_table.specs.Private.HeadingChangesView.{heading_changes_code, plain_heading_changes};

    ghost Value = { List (List ℕ × Option ℕ) };

    ghost coded = { heading_changes_code };

    ghost view = { λ a. plain_heading_changes a.list.items };
}

impl HeadingChanges {
    /// No changes. It takes no memory.
    pub(crate) fn none(alloc: Global) -> HeadingChanges
        ensures { result ≡ [] }
    {
        HeadingChanges {
            list: Vec::new(alloc),
        }
    }

    /// Notes what the effective heading is, by the tree after the edit, of each name that stands where the procedure
    /// has its name.
    pub(crate) fn note(&mut self, tree: &Tree, procedure: &NameNode) -> Result<(), OutOfMemory>
        requires tree { IsTree tree.now }
        ensures { OnOk result (NotesHeadings (stands_first procedure.now) tree.now.items self.old self.new) }
    {
        match procedure.part(0) {
            Some(names) => self.note_names(tree, names.as_slice()),
            None => Ok(()),
        }
    }

    /// Notes what the effective heading of each of the names is, by the tree after the edit.
    fn note_names(&mut self, tree: &Tree, names: &[Name]) -> Result<(), OutOfMemory>
        requires tree { IsTree tree.now }
        ensures { OnOk result
            (NotesHeadings (λ name. list_any (bytes_eq name) names.now) tree.now.items self.old self.new) }
    {
        for name in names {
            self.note_name(tree, name)?;
        }
        Ok(())
    }

    /// Notes what the effective heading of the name is, by the tree after the edit, if it isn't noted yet.
    fn note_name(&mut self, tree: &Tree, name: &Name) -> Result<(), OutOfMemory>
        requires tree { IsTree tree.now }
        ensures { OnOk result (NotesHeadings (bytes_eq name.now) tree.now.items self.old self.new) }
    {
        if self.has(name) {
            return Ok(());
        }
        let slot = first_headed(tree, name);
        self.list.push(HeadingChange {
            name: name.copy(),
            slot,
        })?;
        Ok(())
    }

    /// Whether it is noted what the effective heading of the name is.
    fn has(&self, name: &Name) -> bool
        ensures { result ≡ is_some (lookup (bytes_eq name.now) self.now) }
    {
        is_among(self.list.as_slice(), name)
    }

    /// What becomes of the effective heading of the name, if it changes.
    pub(crate) fn change(&self, name: &Name) -> Option<&HeadingChange>
        ensures { option_map (λ change. option_map (λ slot. slot.0) change.now.slot) result
            ≡ lookup (bytes_eq name.now) self.now }
    {
        named(self.list.as_slice(), name)
    }

    /// Of how many names it is noted what the effective heading is.
    pub(crate) fn len(&self) -> usize
        ensures { result ≡ length self.now }
    {
        self.list.len()
    }
}

/// The change of the name, if one of these is.
fn named<'a>(changes: &'a [HeadingChange], name: &Name) -> Option<&'a HeadingChange>
    ensures { option_map (λ change. change.now) result
        ≡ find (λ change. bytes_eq name.now change.name) changes.now }
{
    changes.iter().find(|change| *name == change.name)
}

/// Whether one of the changes is that of the name.
fn is_among(changes: &[HeadingChange], name: &Name) -> bool
    ensures { result ≡ list_any (λ change. bytes_eq name.now change.name) changes.now }
{
    changes.iter().any(|change| name == &change.name)
}

/// The slot of the first procedure of the tree whose heading is whole and has the name, if the name may be called.
fn first_headed(tree: &Tree, name: &Name) -> Option<Slot>
    requires tree { IsTree tree.now }
    ensures { option_map (λ slot. slot.0) result
        ≡ option_map (λ signature. signature.slot) (Sig tree.now.items name.now) }
{
    items_are_nodes();
    if !may_be_called(name) {
        return None;
    }
    let mut k = 0;
    while let Some(item) = tree.node(&path_of_item(k)) {
        if heads(item, name) {
            return Some(item.slot());
        }
        k += 1;
    }
    None
}

/// Whether the heading of the procedure is whole and has the name.
fn heads(procedure: &Node, name: &Name) -> bool
    ensures { result ≡ option_map_or (λ heading. bytes_eq name.now heading.name)
        (heading_of procedure.now.label.kind procedure.now.label.parts) false }
{
    match heading_name(procedure) {
        Some(other) => name == other,
        None => false,
    }
}
