//! A variable of a frame.
ghost use Rattle.std.specs.Prelude.{◌≡◌, IfOk, Some};
ghost use Rattle.template_tree.specs.Checks.Environment.{cells_in};
ghost use Rattle.plcs_store.specs.CellAt.{element_of, new_variable, scalar_variable};
ghost use Rattle.plcs_store.specs.Outcome.{found_or_fault};

use crate::cell::Cell;
use crate::cell_list::CellList;
use crate::fault_kind::FaultKind;
use plcs_base::{ItemType, OutOfMemory};
use std::alloc::Global;

/// A variable of a frame: the cells of one name.
#[derive(Drop)]
pub struct Variable {
    /// The type of each of the cells.
    pub ty: ItemType,
    /// The size of an array, or 0 for a scalar, which has one cell.
    pub size: u32,
    /// The cells.
    pub cells: CellList,
}

impl Variable {
    /// A variable of the type and the size, whose cells aren't set. A scalar has size 0 and one cell.
    pub fn unset(alloc: Global, ty: ItemType, size: u32) -> Result<Variable, OutOfMemory>
        ensures { IfOk result (λ variable. variable ≡ new_variable ty size) }
    {
        Ok(Variable {
            ty,
            size,
            cells: CellList::unset(alloc, cell_count(size))?,
        })
    }

    /// A scalar of the type with this in its cell.
    pub fn scalar(alloc: Global, ty: ItemType, cell: Cell) -> Result<Variable, OutOfMemory>
        ensures { IfOk result (λ variable. variable ≡ scalar_variable ty cell) }
    {
        Ok(Variable {
            ty,
            size: 0,
            cells: CellList::single(alloc, cell)?,
        })
    }

    /// Which cell of the frame's variable is meant, counted from 0: without a subscript the first, and else by
    /// the subscript, from 1 to the size.
    pub fn element(&self, subscript: Option<i32>) -> Result<u32, FaultKind>
        ensures { found_or_fault result ≡ element_of self.now subscript }
    {
        match subscript {
            None => Ok(0),
            Some(number) => self.element_by(number),
        }
    }

    /// Which of its cells a variable of a frame means by a subscript, counted from 0.
    fn element_by(&self, number: i32) -> Result<u32, FaultKind>
        ensures { found_or_fault result ≡ element_of self.now (Some number) }
    {
        match u32::try_from(number) {
            Ok(place) if 1 <= place && place <= self.size => Ok(place - 1),
            _ => Err(FaultKind::SubscriptRange),
        }
    }
}

/// How many cells a frame's variable of this size has.
fn cell_count(size: u32) -> usize
    ensures { result ≡ cells_in size }
{
    if size == 0 { 1 } else { size as usize }
}
