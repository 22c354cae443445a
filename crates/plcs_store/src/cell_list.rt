//! The cells of one variable.
ghost use Rattle.std.specs.Prelude.{◌≡◌, ◌<◌, [], ◌∷◌, IfOk, length, replicate, slice_get, slice_set};
ghost use Rattle.plcs_store.specs.declared.cell.Cell.{Cell};

use crate::cell::Cell;
use plcs_base::OutOfMemory;
use std::alloc::Global;
use std::marker::Model;
use std::mem;

/// The cells of one variable in order, which contracts see as a list.
#[derive(Drop)]
pub struct CellList {
    cells: Vec<Cell>,
}

impl Model for CellList {
    ghost use Rattle.std.specs.Prelude.{List};
    ghost use Rattle.plcs_store.specs.declared.cell.Cell.{Cell};

    ghost Value = { List Cell };

    ghost view = { λ list. list.cells.items };
}

impl CellList {
    /// The list of these cells, as those of one variable. It takes no memory.
    pub fn from_vec(cells: Vec<Cell>) -> CellList
        ensures { result ≡ cells.items }
    {
        CellList { cells }
    }

    /// The list of so many cells that aren't set.
    pub fn unset(alloc: Global, count: usize) -> Result<CellList, OutOfMemory>
        ensures { IfOk result (λ cells. cells ≡ replicate count Cell.Unset) }
    {
        let mut cells = Vec::with_capacity(alloc, count)?;
        for _ in 0..count {
            cells.push(Cell::Unset)?;
        }
        Ok(CellList { cells })
    }

    /// The list of this cell alone.
    pub fn single(alloc: Global, cell: Cell) -> Result<CellList, OutOfMemory>
        ensures { IfOk result (λ cells. cells ≡ cell ∷ []) }
    {
        let mut cells = Vec::new(alloc);
        cells.push(cell)?;
        Ok(CellList { cells })
    }

    /// Gives the cells of the one variable back. It takes no memory.
    pub fn into_vec(self) -> Vec<Cell>
        ensures { result.items ≡ self }
    {
        self.cells
    }

    /// The cells of the one variable in order.
    pub fn as_slice(&self) -> &[Cell]
        ensures { result.now ≡ self.now }
    {
        self.cells.as_slice()
    }

    /// Puts this into the cell of this number, counted from 0. It takes no memory.
    pub fn set(&mut self, element: usize, cell: Cell)
        requires there { element < length self.old }
        ensures { self.new ≡ slice_set self.old element cell }
    {
        drop(mem::replace(&mut self.cells[element], cell));
    }

    /// Puts this into the cell of this number, counted from 0, and gives what was in it; where there is no such
    /// cell, nowhere. It takes no memory.
    pub fn replace(&mut self, element: usize, cell: Cell) -> Option<Cell>
        ensures before { result ≡ slice_get self.old element }
        ensures set { self.new ≡ slice_set self.old element cell }
    {
        match self.cells.get_mut(element) {
            None => {
                drop(cell);
                None
            }
            Some(old) => Some(mem::replace(old, cell)),
        }
    }
}
