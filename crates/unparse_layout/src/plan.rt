//! Lines found by their numbers.
ghost use Rattle.std.specs.Prelude.{◌≡◌, ◌+◌, ◌<◌, ◌∷◌, codes, ◌≤◌, option_map, slice_get};
ghost use Rattle.template_tree.specs.Programs.Limit.{deepest_path, most_slots};
ghost use Rattle.template_tree.specs.Programs.Slots.{count, depth};
ghost use Rattle.template_tree.specs.Programs.Tree.{IsTree};
ghost use Rattle.unparse_layout.specs.Agreement.{IsLayoutOf};
ghost use Rattle.unparse_layout.specs.OwnedLine.{OwnedLines, first_line, partless_line, table_line};
ghost use Rattle.plcs_grammar.specs.Template.{row_of};
ghost use Rattle.unparse_layout.specs.Private.ItemLines.{lead_at, node_lines};
ghost use Rattle.unparse_layout.specs.Private.PlainNodeLayout.{node_layout_of};
ghost use Rattle.unparse_layout.specs.Private.PlainPlan.{planned};
ghost use Rattle.template_tree.specs.Programs.PlainTree.{PlainTree, roomless};

use crate::line::LineKind;
use crate::node_layout::NodeLayout;
use plcs_base::Slot;
use template_tree::{Node, SectionsLeft, Tree, path_of_item};

/// A line that is found but not laid.
#[derive(Drop)]
pub(crate) enum Plan<'a> {
    /// These bytes at a level, in a line of this kind of the node in the slot.
    Fixed(Slot, LineKind, u32, &'a [u8]),
    /// The first line of the node, at a level.
    First(u32, &'a Node),
}

impl NodeLayout {
    /// Finds the line of this number of the tree whose layout stands inside this node.
    pub(crate) fn plan_of<'a>(&self, tree: &'a Tree, k: u32) -> Option<Plan<'a>>
        requires tree { IsTree tree.now }
        requires agrees { IsLayoutOf self.now.inner tree.now }
        ensures { option_map planned result ≡ slice_get (OwnedLines (roomless tree.now.items)) k }
    {
        let Some(position) = self.heights.find(k) else {
            return None;
        };
        let Some(item) = self.inner.get(position.index) else {
            return None;
        };
        let Some(node) = tree.node(&path_of_item(position.index as u32)) else {
            return None;
        };
        item.plan(node, 0, position.rest)
    }

    /// Finds the line of this number among the node's own; the line before the node isn't one of them.
    fn plan<'a>(&self, node: &'a Node, level: u32, at: u32) -> Option<Plan<'a>>
        requires agrees { self.now ≡ node_layout_of self.now.bone.led node.now }
        requires few { count node.now.inner < most_slots }
        requires shallow { level + depth node.now.inner < deepest_path }
        ensures { option_map planned result ≡ slice_get (node_lines level node.now) at }
    {
        if at == 0 {
            return Some(Plan::First(level, node));
        }
        let below = at - 1;
        if self.elided {
            return self.elided_plan(level, below);
        }
        let Some(position) = self.heights.find(below) else {
            return self.last_plan(level, below - self.heights.total());
        };
        let Some(item) = self.inner.get(position.index) else {
            return None;
        };
        let Some(child) = node.child(position.index as u32) else {
            return None;
        };
        let lead = u32::from(item.led);
        if position.rest < lead {
            return fixed(
                self.slot,
                LineKind::Lead,
                level,
                lead_before(node, position.index as u32),
            );
        }
        item.plan(child, level + 1, position.rest - lead)
    }

    /// Finds the line of this number behind the first one, in a node whose refinement is elided.
    fn elided_plan<'a>(&self, level: u32, below: u32) -> Option<Plan<'a>>
        requires { level < deepest_path }
        ensures { option_map planned result
            ≡ slice_get
            (partless_line self.now.bone.slot LineKind.Elision (level + 1) (codes "...")
            ∷ table_line self.now.bone.slot LineKind.Last level (row_of self.now.bone.kind).last)
            below }
    {
        if below == 0 {
            return fixed(self.slot, LineKind::Elision, level + 1, Some(b"..."));
        }
        self.last_plan(level, below - 1)
    }

    /// Finds the line of this number behind what stands inside the node.
    fn last_plan<'a>(&self, level: u32, behind: u32) -> Option<Plan<'a>>
        ensures { option_map planned result
            ≡ slice_get (table_line self.now.bone.slot LineKind.Last level (row_of self.now.bone.kind).last) behind }
    {
        if behind > 0 {
            return None;
        }
        fixed(self.slot, LineKind::Last, level, self.kind.row().last)
    }
}

/// A line of the table of templates as one that is found but not laid, if the table has it.
fn fixed<'a>(slot: Slot, kind: LineKind, level: u32, line: Option<&'a [u8]>) -> Option<Plan<'a>>
    ensures { option_map planned result
        ≡ slice_get (table_line slot.0 kind level (option_map (λ bytes. bytes.now) line.entry)) 0 }
{
    let Some(bytes) = line else {
        return None;
    };
    Some(Plan::Fixed(slot, kind, level, bytes))
}

/// Finds the line before the node of this number inside a node, if one stands there. It goes through the
/// nodes before that one, of which there are few: the line comes before the first node of a section.
fn lead_before(node: &Node, k: u32) -> Option<&'static [u8]>
    ensures { option_map (λ bytes. bytes.now) result ≡ lead_at (row_of node.now.label.kind).sections node.now.inner k }
{
    let mut left = SectionsLeft::of(node.kind().row().sections);
    for i in 0..k {
        let Some(child) = node.child(i) else {
            return None;
        };
        left = left.at(child.kind().row().sort).after();
    }
    let Some(child) = node.child(k) else {
        return None;
    };
    left.at(child.kind().row().sort).lead()
}
