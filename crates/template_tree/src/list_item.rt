//! Which nodes are items of lists, and whether two of a list are of one sort.
ghost use Rattle.std.specs.Prelude.{◌≡◌, ◌↔◌, ◌≤◌, IsTrue, if◌then◌else◌, map};
ghost use Rattle.plcs_grammar.specs.Template.{plain_section};
ghost use Rattle.template_tree.specs.Edits.ListItem.{how_many, is_listed};
ghost use Rattle.template_tree.specs.Programs.PlainTree.{forest};
ghost use Rattle.template_tree.specs.Programs.Program.{sort_of, sorts};
ghost use Rattle.template_tree.specs.Listings.Section.{same_sort};

use crate::node::Node;
use plcs_grammar::{Amount, Section, Sort};

/// Whether items of the sort stand in a list, and not alone, where these are the sections of a row.
pub(crate) fn is_listed(sort: Sort, sections: &[Section]) -> bool
    ensures { result ≡ is_listed sort (map plain_section sections.now) }
{
    let Some((section, rest)) = sections.split_first() else {
        return false;
    };
    if section.sort == sort {
        return section.amount == Amount::Many;
    }
    is_listed(sort, rest)
}

/// Whether two or more of the nodes of a list are items of the sort. It looks no further than the second
/// of these.
pub(crate) fn are_two(sort: Sort, nodes: &[Node]) -> bool
    ensures { IsTrue result ↔ (2 ≤ how_many sort (sorts (forest nodes.now))) }
{
    let mut seen = 0;
    for node in nodes {
        seen += is_one(sort, node);
        if seen == 2 {
            return true;
        }
    }
    false
}

/// What a node counts among the items of the sort: 1 where it is of the sort, else 0.
fn is_one(sort: Sort, node: &Node) -> u32
    ensures { result ≡ (if same_sort sort (sort_of node.now.label.kind) then 1 else 0) }
{
    if node.kind().row().sort == sort {
        return 1;
    }
    0
}
