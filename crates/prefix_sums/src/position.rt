//! Where a count runs out.

/// The number of a list in which a count runs out.
#[derive(Clone, Copy, Debug, PartialEq, Eq)]
pub struct Position {
    /// The place of the number, counted from 0.
    pub index: usize,
    /// How much of the count is left for it, less than the number.
    pub rest: u32,
}
