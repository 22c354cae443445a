//! Slots, points and places: where something stands in a program.

/// A slot: the number of a node, which is a main procedure, a procedure, a declaration or a statement.
///
/// Numbers are given out in order from 0, and none is given out twice.
#[derive(Clone, Copy, Debug, PartialEq, Eq, PartialOrd, Ord, Hash)]
pub struct Slot(pub u32);

/// A point: where in a slot a run stands. 0 is the start of what stands there, and the others are the points between
/// its steps.
#[derive(Clone, Copy, Debug, PartialEq, Eq, PartialOrd, Ord, Hash)]
pub struct Point(pub u16);

/// A place of a run. For the layers that make code and run it.
#[derive(Clone, Copy, Debug, PartialEq, Eq, PartialOrd, Ord, Hash)]
pub struct Place {
    /// The node at which the run stands.
    pub slot: Slot,
    /// Which of the points of that node it is.
    pub point: Point,
}

/// Where a phrase stands in a program: a part of a node.
#[derive(Clone, Copy, Debug, PartialEq, Eq, PartialOrd, Ord, Hash)]
pub struct PhraseAt {
    /// The node whose part the phrase fills.
    pub slot: Slot,
    /// Which of the node's parts that is, counted from 0 in the order shown.
    pub part: u8,
}
