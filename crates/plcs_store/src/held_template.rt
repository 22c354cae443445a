//! What stood in the slot of a frame's place.
use crate::copied_parts::CopiedParts;
use plcs_grammar::NodeKind;

/// What stood in the slot of a frame's place.
#[derive(Drop)]
pub struct HeldTemplate {
    /// The kind of the node.
    pub kind: NodeKind,
    /// Its parts.
    pub parts: CopiedParts,
}
