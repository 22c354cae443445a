//! Names as they are declared, with the type and size of their cells.
use crate::name::Name;

/// The type that a declaration gives to a name.
#[derive(Clone, Copy, Debug, PartialEq, Eq)]
pub enum ItemType {
    /// Whole numbers.
    Fixed,
    /// Truth values.
    Bit,
    /// Texts of at most so many bytes.
    Text(u16),
}

/// A name as it is declared. For the layers that check and run programs.
#[derive(Debug, Drop, PartialEq, Eq)]
pub struct Declared {
    /// The declared name.
    pub name: Name,
    /// The type of the name's cells.
    pub ty: ItemType,
    /// The number of cells of an array, or 0 for a scalar.
    pub size: u32,
}
