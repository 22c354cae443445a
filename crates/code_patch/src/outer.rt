//! What has nodes of a tree inside.
ghost use Rattle.std.specs.Prelude.{◌≡◌, option_map, slice_get};
ghost use Rattle.template_tree.specs.Programs.PlainTree.{nodes};
ghost use Rattle.code_patch.specs.Private.OuterNodes.{IsOuter, nodes_inside};

use template_tree::{Node, Tree, items_are_nodes, path_of_item};

/// What has nodes of a tree inside: the program, or a node of it.
#[derive(Drop)]
pub(crate) enum Outer<'a> {
    Program(&'a Tree),
    Node(&'a Node),
}

impl Outer<'_> {
    /// The node of this number inside, counted from 0, or `None` where there is none.
    pub(crate) fn child(&self, k: u32) -> Option<&Node>
        requires outer { IsOuter self.now }
        ensures { option_map (λ node. node.now) result ≡ slice_get (nodes (nodes_inside self.now)) k }
    {
        items_are_nodes();
        let tree = match self {
            Outer::Program(tree) => tree,
            Outer::Node(node) => return node.child(k),
        };
        tree.node(&path_of_item(k))
    }
}
