//! The effective headings in the code of a program, found by name.
ghost use Rattle.std.specs.Prelude.{◌≡◌, OnOk};
ghost use Rattle.std.specs.FinMap.{empty, get};
ghost use Rattle.template_tree.specs.Checks.Environment.{heading_of};
ghost use Rattle.plcs_code.specs.Gen.{heading_by_name};
ghost use Rattle.plcs_code.specs.Private.CodeMaps.{with_first, with_firsts};

use crate::heading_entry::HeadingEntry;
use indexmap::IndexMap;
use plcs_base::{Name, OutOfMemory};
use std::alloc::Global;
use std::marker::Model;
use template_tree::{Node, heading_name, may_be_called};

/// What code knows of each effective heading, which contracts see as a finite map.
#[derive(Drop)]
pub(crate) struct Headings {
    entries: IndexMap<Name, HeadingEntry>,
}

impl Model for Headings {
    ghost use Rattle.std.specs.FinMap.{from_entries};
    ghost use Rattle.plcs_code.specs.Gen.{EntryMap};
    ghost use Rattle.plcs_code.specs.Private.InstrCode.{entry_map_code};

    ghost Value = { EntryMap };

    ghost coded = { entry_map_code };

    ghost view = { λ a. from_entries a.entries.entries };
}

impl Headings {
    /// No headings that code knows yet.
    pub(crate) fn new(alloc: Global) -> Headings
        ensures { result ≡ empty }
    {
        Headings {
            entries: IndexMap::new(alloc),
        }
    }

    /// Notes the heading of main or a procedure, whose code begins at the address, behind earlier ones: if it
    /// is whole, may be called, and none of them has its name.
    pub(crate) fn note(&mut self, node: &Node, address: u32) -> Result<(), OutOfMemory>
        ensures { OnOk result (self.new ≡ with_firsts self.old
            (heading_by_name node.now.label.slot address (heading_of node.now.label.kind node.now.label.parts))) }
    {
        let Some(name) = heading_name(node) else {
            return Ok(());
        };
        if !may_be_called(name) {
            return Ok(());
        }
        let slot = node.slot();
        self.put(name.copy(), HeadingEntry { address, slot })
    }

    /// What code knows of the effective heading of the name, or `None` where none has it.
    pub(crate) fn get(&self, name: &Name) -> Option<HeadingEntry>
        ensures { result ≡ get self.now name.now }
    {
        match self.entries.get(name) {
            Some(entry) => Some(*entry),
            None => None,
        }
    }

    /// Puts what code knows of a heading under its name, if nothing is there.
    fn put(&mut self, name: Name, entry: HeadingEntry) -> Result<(), OutOfMemory>
        ensures { OnOk result (self.new ≡ with_first self.old name entry) }
    {
        if let Some(_) = self.entries.get(&name) {
            return Ok(());
        }
        let Ok(_) = self.entries.insert(name, entry) else {
            return Err(OutOfMemory);
        };
        Ok(())
    }
}
