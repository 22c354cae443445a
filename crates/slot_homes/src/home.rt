//! What is said of where the node of a slot stands.
use plcs_base::Slot;

/// Where the node of a slot stands, as advice.
#[derive(Clone, Copy, Debug, PartialEq, Eq)]
pub struct Home {
    /// The slot of the node inside which it stands, or `None` where it is an item of the program.
    pub parent: Option<Slot>,
    /// Its number there, counted from 0 in listing order.
    pub number: u32,
}
