//! Which item of a program calls find by a name.
ghost use Rattle.code_patch.specs.ItemNames.{number_named};
ghost use Rattle.std.specs.Prelude.{◌≡◌, IfOk, OnOk};
ghost use Rattle.std.specs.FinMap.{empty, from_entries, get, insert};
ghost use Rattle.template_tree.specs.Checks.Environment.{heading_of};
ghost use Rattle.template_tree.specs.Programs.Tree.{IsTree};
ghost use Rattle.plcs_code.specs.OwnCode.{name_to_call};
ghost use Rattle.code_patch.specs.Private.ItemNames.{numbered_items, with_numbers};

use indexmap::IndexMap;
use plcs_base::{Name, OutOfMemory};
use plcs_code::name_to_call;
use std::alloc::Global;
use std::marker::Model;
use template_tree::{Node, Tree, items_are_nodes, path_of_item};

/// The number of the item that calls find by each name: of those with one name it is the first.
#[derive(Drop)]
pub(crate) struct Names {
    numbers: IndexMap<Name, u32>,
}

impl Model for Names {
    ghost use Rattle.std.specs.FinMap.{from_entries};
    ghost use Rattle.code_patch.specs.ItemNames.{NumberMap};
    ghost use Rattle.code_patch.specs.Private.ItemNames.{number_map_code};

    ghost Value = { NumberMap };

    ghost coded = { number_map_code };

    ghost view = { λ a. from_entries a.numbers.entries };
}

impl Names {
    /// The names of all items of the tree.
    pub(crate) fn of(alloc: Global, tree: &Tree) -> Result<Names, OutOfMemory>
        requires tree { IsTree tree.now }
        ensures { IfOk result (λ names. names ≡ from_entries (numbered_items 0 tree.now.items)) }
    {
        items_are_nodes();
        let mut names = Names::new(alloc);
        let mut k = tree.procedures() + 1;
        while k > 0 {
            k -= 1;
            let Some(item) = tree.node(&path_of_item(k)) else {
                unreachable!()
            };
            names.note(item, k)?;
        }
        Ok(names)
    }

    /// The number of the item that calls find by the name, or `None` where there is none.
    pub(crate) fn number(&self, name: &Name) -> Option<u32>
        ensures { result ≡ get self.now name.now }
    {
        match self.numbers.get(name) {
            Some(number) => Some(*number),
            None => None,
        }
    }

    /// The names of no items.
    fn new(alloc: Global) -> Names
        ensures { result ≡ empty }
    {
        Names {
            numbers: IndexMap::new(alloc),
        }
    }

    /// Notes the name by which calls find the item of this number, before later ones.
    fn note(&mut self, item: &Node, number: u32) -> Result<(), OutOfMemory>
        ensures { OnOk result (self.new ≡ with_numbers (number_named number
            (name_to_call (heading_of item.now.label.kind item.now.label.parts))) self.old) }
    {
        let Some(name) = name_to_call(item) else {
            return Ok(());
        };
        self.put(name.copy(), number)
    }

    /// Puts the number of an item under its name.
    fn put(&mut self, name: Name, number: u32) -> Result<(), OutOfMemory>
        ensures { OnOk result (self.new ≡ insert self.old name number) }
    {
        self.numbers.insert(name, number)?;
        Ok(())
    }
}
