//! Where the code of a node stands.
use plcs_base::Slot;
use plcs_grammar::NodeKind;

/// Where the code of a node stands, what stands inside it included.
#[derive(Clone, Copy, Debug, PartialEq, Eq)]
pub struct NodeSpan {
    /// The slot of the node.
    pub slot: Slot,
    /// The kind of the node.
    pub kind: NodeKind,
    /// The address of the first instruction.
    pub start: u32,
    /// How many instructions there are.
    pub length: u32,
}
