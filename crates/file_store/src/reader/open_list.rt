//! What open lists and open nodes are.
ghost use Rattle.std.specs.Prelude.{◌≡◌, ◌^◌, ◌-◌, length, min};

use crate::reader::filling::Filling;
use plcs_grammar::NodeKind;
use template_tree::{Nodes, PhrasePlace};

/// An open list: its items so far, and how far it has come.
#[derive(Drop)]
pub(crate) struct OpenList {
    /// Its items so far.
    pub(crate) items: Nodes,
    /// How many they are; at its last value the count stays.
    pub(crate) count: usize,
    /// How far the list has come.
    pub(crate) filling: Filling,
    ghost counted: { count ≡ min (length items.items) (2 ^ 64 - 1) },
}

/// An open node, and the list in which it stands, which has come behind it already.
#[derive(Drop)]
pub(crate) struct OpenNode {
    pub(crate) kind: NodeKind,
    pub(crate) parts: Vec<PhrasePlace>,
    pub(crate) around: OpenList,
}

/// The open nodes, the innermost last, and the innermost open list.
#[derive(Drop)]
pub(crate) struct OpenNodes {
    pub(crate) own: OpenList,
    pub(crate) frames: Vec<OpenNode>,
}
