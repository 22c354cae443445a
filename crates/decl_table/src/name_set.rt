//! Names, each once: those that an edit affects.
ghost use Rattle.std.specs.Prelude.{◌≡◌, [], bytes_eq, OnOk};
ghost use Rattle.std.specs.Option.{option_copied};
ghost use Rattle.decl_table.specs.Private.ItemTests.{is_lost, is_this};
ghost use Rattle.decl_table.specs.Private.NameTests.{AddsNames, has_name, part_has, parts_have};

use crate::items::Items;
use crate::name_list::NameList;
use crate::name_node::NameNode;
use indexmap::IndexSet;
use plcs_base::{Name, OutOfMemory};
use std::alloc::Global;
use std::marker::Model;

/// Names, each once, in the order in which they came, which contracts see as a list.
#[derive(Drop)]
pub(crate) struct NameSet {
    names: IndexSet<Name>,
}

impl Model for NameSet {
    ghost use Rattle.std.specs.Prelude.{List, ℕ};
    ghost use Rattle.decl_table.specs.Private.NameTests.{names_code};

    ghost Value = { List (List ℕ) };

    ghost coded = { names_code };

    ghost view = { λ a. a.names.keys };
}

impl NameSet {
    /// No names. It takes no memory.
    pub(crate) fn new(alloc: Global) -> NameSet
        ensures { result ≡ [] }
    {
        NameSet {
            names: IndexSet::new(alloc),
        }
    }

    /// Adds the name, if it isn't there.
    pub(crate) fn add(&mut self, name: &Name) -> Result<(), OutOfMemory>
        ensures { OnOk result (AddsNames (bytes_eq name.now) self.old self.new) }
    {
        self.names.insert(name.copy())?;
        Ok(())
    }

    /// Adds the names of the phrases in the parts of the node.
    pub(crate) fn add_part_names(&mut self, node: &NameNode) -> Result<(), OutOfMemory>
        ensures { OnOk result (AddsNames (parts_have node.now.label.parts) self.old self.new) }
    {
        for names in node.all_parts() {
            self.add_part(names)?;
        }
        Ok(())
    }

    /// Adds the names of the phrase in the part, if one stands there.
    fn add_part(&mut self, part: &Option<NameList>) -> Result<(), OutOfMemory>
        ensures { OnOk result (AddsNames (part_has part.now) self.old self.new) }
    {
        match part {
            Some(names) => self.add_all(names.as_slice()),
            None => Ok(()),
        }
    }

    /// Adds the names.
    fn add_all(&mut self, names: &[Name]) -> Result<(), OutOfMemory>
        ensures { OnOk result (AddsNames (has_name names.now) self.old self.new) }
    {
        for name in names {
            self.add(name)?;
        }
        Ok(())
    }

    /// Adds the names of the items for which the others have another item, or none.
    pub(crate) fn add_differing(&mut self, items: &Items, others: &Items) -> Result<(), OutOfMemory>
        ensures { OnOk result (AddsNames (is_lost items.now others.now) self.old self.new) }
    {
        for k in 0..items.len() {
            self.add_this(items.differing(k, others))?;
        }
        Ok(())
    }

    /// Adds the name, if there is one and it isn't there.
    fn add_this(&mut self, name: Option<&Name>) -> Result<(), OutOfMemory>
        ensures { OnOk result (AddsNames (is_this (option_copied name.entry)) self.old self.new) }
    {
        match name {
            Some(name) => self.add(name),
            None => Ok(()),
        }
    }

    /// All the names.
    pub(crate) fn as_slice(&self) -> &[Name]
        ensures { result.now ≡ self.now }
    {
        self.names.as_slice()
    }
}
