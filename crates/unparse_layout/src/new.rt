//! Layouts made anew, item by item of the program.
ghost use Rattle.std.specs.Prelude.{◌≡◌, ◌<◌, IfOk};
ghost use Rattle.template_tree.specs.Programs.Limit.{most_slots};
ghost use Rattle.template_tree.specs.Programs.Slots.{count};
ghost use Rattle.template_tree.specs.Programs.Tree.{IsTree};
ghost use Rattle.unparse_layout.specs.Agreement.{IsLayoutOf};
ghost use Rattle.unparse_layout.specs.Private.PlainNodeLayout.{node_layout_of};

use crate::layout::Layout;
use crate::node_layout::NodeLayout;
use plcs_base::{OutOfMemory, Slot, Work};
use plcs_grammar::{NodeKind, program_sections};
use std::alloc::Global;
use std::marker::PhantomData;
use template_tree::{Node, SectionsLeft, Tree, path_of_item};

impl<W: Work> Layout<W> {
    /// The layout of the tree, made anew.
    pub fn new(alloc: Global, tree: &Tree) -> Result<Layout<W>, OutOfMemory>
        requires tree { IsTree tree.now }
        ensures { IfOk result (λ layout. IsLayoutOf layout tree.now) }
    {
        let mut root = NodeLayout::bare(alloc, Slot(0), NodeKind::Main, false, false);
        let mut left = SectionsLeft::of(program_sections());
        let mut k = 0;
        while let Some(item) = tree.node(&path_of_item(k)) {
            left = left.at(item.kind().row().sort);
            root.push(NodeLayout::of(alloc, item, left.lead().is_some())?)?;
            left = left.after();
            k += 1;
        }
        Ok(Layout {
            root,
            of: PhantomData,
        })
    }
}

impl NodeLayout {
    /// Makes the node anew that a layout has for a node of the tree, before which a line of the table stands
    /// where `led`.
    pub(crate) fn of(alloc: Global, node: &Node, led: bool) -> Result<NodeLayout, OutOfMemory>
        requires few { count node.now.inner < most_slots }
        ensures { IfOk result (λ node_layout. node_layout ≡ node_layout_of led node.now) }
    {
        let mut node_layout = NodeLayout::bare(
            alloc,
            node.slot(),
            node.kind(),
            node.is_elided(),
            led,
        );
        let mut left = SectionsLeft::of(node.kind().row().sections);
        let mut k = 0;
        while let Some(child) = node.child(k) {
            left = left.at(child.kind().row().sort);
            node_layout.push(NodeLayout::of(alloc, child, left.lead().is_some())?)?;
            left = left.after();
            k += 1;
        }
        Ok(node_layout)
    }
}
