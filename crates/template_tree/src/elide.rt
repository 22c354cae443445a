//! Comments whose refinements are hidden or shown.
ghost use Rattle.std.specs.Prelude.{◌≡◌, ◌∷◌, [], option_and_then};
ghost use Rattle.template_tree.specs.Edits.Elision.{hidden_after_toggle, toggled, with_toggled_at};
ghost use Rattle.template_tree.specs.Positions.Path.{node_at};
ghost use Rattle.template_tree.specs.Programs.Tree.{IsTree};

use crate::node::Node;
use crate::path::Path;
use crate::tree::Tree;
use plcs_grammar::{NodeKind, Template};

impl Tree {
    /// Hides the refinement of the comment at the path, or shows it again, and tells whether it is
    /// hidden now. `None` where no comment stands there. It takes no memory.
    pub fn elide(&mut self, path: &Path) -> Option<bool>
        requires tree { IsTree self.old }
        ensures told { result ≡ option_and_then hidden_after_toggle (node_at self.old.items path.now.items) }
        ensures changed { self.new ≡ with_toggled_at path.now.items self.old }
        ensures tree { IsTree self.new }
    {
        let Some(node) = self.node_mut(path) else {
            return None;
        };
        node.toggle()
    }
}

impl Node {
    /// Hides the refinement of this node or shows it again, where it is a comment, and tells whether it
    /// is hidden now.
    fn toggle(&mut self) -> Option<bool>
        ensures told { result ≡ hidden_after_toggle self.old }
        ensures turned { toggled self.old ≡ self.new ∷ [] }
    {
        if self.kind != NodeKind::Filled(Template::Comment) {
            return None;
        }
        self.elided = !self.elided;
        Some(self.elided)
    }
}
