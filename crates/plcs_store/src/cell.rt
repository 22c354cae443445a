//! Cells, and where they are.
ghost use Rattle.std.specs.Prelude.{◌≡◌};

use plcs_base::{Name, Value};

/// The location of a cell in the frames of a run.
#[derive(Debug, Drop, PartialEq, Eq)]
pub struct Location {
    /// The number of the frame, counted from 0 at main's.
    pub frame: u8,
    /// The name of the variable.
    pub name: Name,
    /// Which of the variable's cells it is, counted from 0.
    pub element: u32,
}

impl Location {
    /// The same location. It takes no memory.
    pub fn copy(&self) -> Location
        ensures { result ≡ self.now }
    {
        Location {
            frame: self.frame,
            name: self.name.copy(),
            element: self.element,
        }
    }
}

/// A cell of a variable.
#[derive(Debug, Drop, PartialEq, Eq)]
pub enum Cell {
    /// Nothing is in it yet.
    Unset,
    /// A value is in it.
    Held(Value),
    /// It stands for another cell.
    Ref(Location),
}
