//! What stands around the node at a path: the sections and the nodes among which it stands.
ghost use Rattle.std.specs.Prelude.{◌≡◌, map};
ghost use Rattle.plcs_grammar.specs.Template.{plain_section, program_sections};
ghost use Rattle.template_tree.specs.Edits.ListItem.{sections_at, siblings_at};
ghost use Rattle.template_tree.specs.Programs.PlainTree.{forest};

use crate::node::{Node, Nodes};
use crate::path::Path;
use crate::tree::Tree;
use plcs_grammar::{Section, program_sections};

impl Tree {
    /// The sections around the node at the path: it stands among their items.
    pub(crate) fn sections_at(&self, path: &Path) -> &'static [Section]
        ensures { map plain_section result.now ≡ sections_at program_sections self.now.items path.now.items }
    {
        sections_of(program_sections(), &self.items, path)
    }

    /// The nodes among which the node at the path stands.
    pub(crate) fn siblings_at(&self, path: &Path) -> &[Node]
        ensures { forest result.now ≡ siblings_at self.now.items path.now.items }
    {
        siblings_of(&self.items, path)
    }
}

/// The sections among whose items the node at the path stands, from nodes with these sections on.
fn sections_of(sections: &'static [Section], nodes: &Nodes, path: &[u32]) -> &'static [Section]
    ensures { map plain_section result.now
        ≡ sections_at (map plain_section sections.now) (forest nodes.now.items) path.now }
{
    let Some((k, rest)) = path.split_first() else {
        return &[];
    };
    if rest.is_empty() {
        return sections;
    }
    let Some(node) = nodes.get(*k as usize) else {
        return &[];
    };
    sections_of(node.kind().row().sections, &node.inner, rest)
}

/// The nodes among which the node at the path stands, from these nodes on.
fn siblings_of<'a>(nodes: &'a Nodes, path: &[u32]) -> &'a [Node]
    ensures { forest result.now ≡ siblings_at (forest nodes.now.items) path.now }
{
    let Some((k, rest)) = path.split_first() else {
        return &[];
    };
    if rest.is_empty() {
        return nodes.as_slice();
    }
    let Some(node) = nodes.get(*k as usize) else {
        return &[];
    };
    siblings_of(&node.inner, rest)
}
