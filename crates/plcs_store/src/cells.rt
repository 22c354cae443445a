//! The cells of a frame, by the names of its variables.
ghost use Rattle.std.specs.Prelude.{◌≡◌, [], ◌∷◌, ◌++◌, None, OnErr, OnOk, is_some, option_map};
ghost use Rattle.plcs_store.specs.CellAt.{HasElement, element_named, variable_named, with_element_named};

use crate::cell::Cell;
use crate::variable::Variable;
use indexmap::IndexMap;
use plcs_base::{Name, OutOfMemory};
use std::alloc::Global;
use std::marker::Model;

/// The cells of a frame: its variables in the order in which they were made, each under its name.
/// Contracts see them as a list of pairs.
#[derive(Drop)]
pub struct Cells {
    variables: IndexMap<Name, Variable>,
}

impl Model for Cells {
    ghost use Rattle.std.specs.Prelude.{List, ℕ};
    ghost use Rattle.plcs_store.specs.declared.variable.Variable.{Variable};

    ghost Value = { List (List ℕ × Variable) };

    ghost view = { λ cells. cells.variables.entries };
}

impl Cells {
    /// No cells of a frame yet. It takes no memory.
    pub fn new(alloc: Global) -> Cells
        ensures { result ≡ [] }
    {
        Cells {
            variables: IndexMap::new(alloc),
        }
    }

    /// The variable of the name, or `None` where there is none.
    pub fn get(&self, name: &Name) -> Option<&Variable>
        ensures { option_map (λ variable. variable.now) result ≡ variable_named name.now self.now }
    {
        self.variables.get(name)
    }

    /// Whether the cells of the frame have a variable of the name.
    pub fn contains(&self, name: &Name) -> bool
        ensures { result ≡ is_some (variable_named name.now self.now) }
    {
        self.get(name).is_some()
    }

    /// Puts this into a cell, counted from 0, of the frame's variable of the name; where there is no variable
    /// of the name, nowhere. It takes no memory.
    pub fn set(&mut self, name: &Name, element: usize, cell: Cell)
        requires there { HasElement name.now element self.old }
        ensures { self.new ≡ with_element_named name.now element cell self.old }
    {
        match self.variables.get_mut(name) {
            None => drop(cell),
            Some(variable) => variable.cells.set(element, cell),
        }
    }

    /// Puts this into a cell, counted from 0, of the frame's variable of the name, and gives what was in it;
    /// where there is no such cell, nowhere. It takes no memory.
    pub fn replace(&mut self, name: &Name, element: usize, cell: Cell) -> Option<Cell>
        ensures before { result ≡ element_named name.now element self.old }
        ensures set { self.new ≡ with_element_named name.now element cell self.old }
    {
        match self.variables.get_mut(name) {
            None => {
                drop(cell);
                None
            }
            Some(variable) => variable.cells.replace(element, cell),
        }
    }

    /// Adds a variable to the cells of a frame, behind the others, under a name that none of them has. Where memory
    /// runs out nothing is changed.
    pub fn add(&mut self, name: Name, variable: Variable) -> Result<(), OutOfMemory>
        requires new { variable_named name self.old ≡ None }
        ensures added { OnOk result (self.new ≡ self.old ++ (name, variable) ∷ []) }
        ensures refused { OnErr result (self.new ≡ self.old) }
    {
        self.variables.insert(name, variable)?;
        Ok(())
    }
}
