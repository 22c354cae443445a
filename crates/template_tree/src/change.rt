//! What an edit changed.

use plcs_base::Slot;

/// What an edit did with the node or the item in a slot.
#[derive(Clone, Copy, Debug, PartialEq, Eq)]
pub enum What {
    /// Another node came into the slot.
    Node,
    /// A part of the node was set.
    Part(u8),
    /// The item was added to its list.
    Added,
    /// The item was dropped from its list.
    Dropped,
}

/// The change that an edit made: what it did, and where.
#[derive(Clone, Copy, Debug, PartialEq, Eq)]
pub struct Change {
    /// The slot of the node, or of the item that was added or dropped.
    pub slot: Slot,
    /// The slot of main, the procedure or the procedure hole that the slot is or stands in.
    pub procedure: Slot,
    /// What was done there.
    pub what: What,
}
