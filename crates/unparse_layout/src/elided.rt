//! Layouts after a refinement was hidden or shown.
ghost use Rattle.std.specs.Prelude.{◌≡◌, ◌≤◌};
ghost use Rattle.template_tree.specs.Programs.Limit.{most_slots};
ghost use Rattle.template_tree.specs.Programs.Tree.{IsTree};
ghost use Rattle.unparse_layout.specs.Agreement.{IsLayoutBeforeToggle, IsLayoutOf};
ghost use Rattle.unparse_layout.specs.Private.NodeLayoutLend.{with_elision};
ghost use Rattle.unparse_layout.specs.Bones.{bone_count};

use crate::layout::Layout;
use crate::node_layout::NodeLayout;
use plcs_base::Work;
use template_tree::{Path, Tree};

impl<W: Work> Layout<W> {
    /// Makes this the layout of the tree again, after `Tree::elide` turned the comment at the path. It
    /// takes no memory.
    pub fn elided(&mut self, tree: &Tree, path: &Path)
        requires tree { IsTree tree.now }
        requires before { IsLayoutBeforeToggle self.old path.now.items tree.now }
        ensures { IsLayoutOf self.new tree.now }
    {
        let Some(node) = tree.node(path) else {
            return;
        };
        self.root.set_elision(path, node.is_elided());
    }
}

impl NodeLayout {
    /// Notes whether the refinement of the node at the path is hidden, and how many lines the nodes on the
    /// way have then.
    #[tactic(auto, using(crate::specs::Private::PlainNodeLayout::node_layouts_bones))]
    fn set_elision(&mut self, path: &[u32], elided: bool)
        requires few { bone_count self.old.inner ≤ most_slots }
        ensures { self.new ≡ with_elision path.now elided self.old }
    {
        let Some((k, rest)) = path.split_first() else {
            self.elided = elided;
            return;
        };
        let Some(item) = self.inner.get_mut(*k as usize) else {
            return;
        };
        item.set_elision(rest, elided);
        let height = item.height();
        self.heights.set(*k as usize, height);
    }
}
