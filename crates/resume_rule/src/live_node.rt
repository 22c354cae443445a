//! Nodes of a tree, found by their slots.
ghost use Rattle.std.specs.Prelude.{◌≡◌, ◌<◌, IfSome, length, option_map};
ghost use Rattle.template_tree.specs.Checks.Environment.{procedure_at};
ghost use Rattle.template_tree.specs.Positions.Place.{site};
ghost use Rattle.template_tree.specs.Programs.Tree.{IsTree};

use plcs_base::Slot;
use template_tree::{Node, Tree};

/// The node of a tree, found by its slot, that is main or a procedure, or `None` where neither is there.
pub(crate) fn procedure_in(tree: &Tree, slot: Slot) -> Option<&Node>
    requires tree { IsTree tree.now }
    ensures found { option_map (λ node. node.now) result ≡ procedure_at tree.now.items slot.0 }
    ensures few { IfSome result (λ node. length node.now.label.parts < 256) }
{
    let Some(path) = tree.path_of(slot) else {
        return None;
    };
    if path.len() != 1 {
        return None;
    }
    tree.node(&path)
}

/// What stands in the slot, or `None` where it isn't live.
pub(crate) fn node_in(tree: &Tree, slot: Slot) -> Option<&Node>
    requires tree { IsTree tree.now }
    ensures found { option_map (λ node. node.now.label) result
        ≡ option_map (λ found. found.label) (site tree.now.items slot.0) }
    ensures few { IfSome result (λ node. length node.now.label.parts < 256) }
{
    let Some(path) = tree.path_of(slot) else {
        return None;
    };
    tree.node(&path)
}
