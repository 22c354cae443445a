//! Edits that were prepared for a layout.
ghost use Rattle.std.specs.Prelude.{◌<◌, ◌≤◌, ◌^◌, IfOk};

use crate::node_layout::{NodeLayout, NodeLayouts};
use plcs_base::OutOfMemory;
use prefix_sums::PrefixSums;
use std::alloc::Global;
use std::marker::Model;
use template_tree::Path;

/// An edit that was prepared for a layout, which contracts see as plain data. Only `Layout::prepare` makes one, and
/// `Layout::commit` puts it in place.
#[derive(Drop)]
pub struct LayoutEdit {
    pub(crate) path: Path,
    pub(crate) mend: LayoutMend,
}

/// What becomes of the node of a layout at a path.
#[derive(Drop)]
pub(crate) enum LayoutMend {
    /// It stays as it is.
    Keep,
    /// Another node comes in its place.
    Put(NodeLayout),
    /// This node comes before it; all of its list go into the room.
    Add(NodeLayout, LayoutRoom),
    /// It goes.
    Drop,
}

/// Room for a list of nodes of a layout, with their heights. Contracts see it as how many nodes fit.
#[derive(Drop)]
pub(crate) struct LayoutRoom {
    pub(crate) list: NodeLayouts,
    pub(crate) heights: PrefixSums,
}

impl Model for LayoutEdit {
    ghost use Rattle.unparse_layout.specs.LayoutEdit.{PlainLayoutEdit};
    ghost use Rattle.unparse_layout.specs.Private.LayoutEditView.{layout_edit_code, plain_mend};

    ghost Value = { PlainLayoutEdit };

    ghost coded = { layout_edit_code };

    ghost view = { λ a. record { path = a.path.items; mend = plain_mend a.mend } };
}

impl Model for LayoutRoom {
    ghost use Rattle.std.specs.Prelude.{ℕ, min};
    ghost use Rattle.unparse_layout.specs.Private.LayoutRoomView.{IsEmpty};

    ghost Value = { ℕ };

    ghost view = { λ a. min a.list.spare a.heights.spare };

    ghost invariant = { IsEmpty };
}

impl LayoutRoom {
    /// Room for so many nodes.
    pub(crate) fn of(alloc: Global, nodes: usize) -> Result<LayoutRoom, OutOfMemory>
        requires few { nodes < 2 ^ 48 }
        ensures { IfOk result (λ room. nodes ≤ room) }
    {
        let list = NodeLayouts::with_room(alloc, nodes)?;
        let mut heights = PrefixSums::new(alloc);
        heights.reserve(nodes)?;
        Ok(LayoutRoom { list, heights })
    }
}
