//! Items of a declaration, as they are typed.
use plcs_base::Name;

/// A name in a declaration.
#[derive(Debug, Drop, PartialEq, Eq)]
pub struct Item {
    /// The name.
    pub name: Name,
    /// The number of cells of an array, or `None` for a scalar.
    pub size: Option<u32>,
}
