//! The visible node behind another one.
ghost use Rattle.std.specs.Prelude.{◌≡◌, IsSome, None, is_some, option_map};
ghost use Rattle.template_tree.specs.Positions.Stop.{visible_at};
ghost use Rattle.template_tree.specs.Programs.Tree.{IsTree};
ghost use Rattle.cursor_moves.specs.Private.NextPath.{LeadsOn, first_inside, next_of, next_with};

use template_tree::{Node, Path, Tree, copy_path};

/// The path of the visible node behind the one at the path, if there is one.
pub(crate) fn next_node(tree: &Tree, path: &Path) -> Option<Path>
    requires tree { IsTree tree.now }
    requires visible { IsSome (visible_at tree.now.items path.now.items) }
    ensures { option_map (λ next. next.items) result ≡ next_of tree.now.items path.now.items }
{
    let Some(node) = tree.node(path) else {
        return None;
    };
    let mut next = copy_path(path);
    if shows_inside(node) {
        next.push(0);
        return Some(next);
    }
    node_behind(tree, next)
}

/// Whether a visible node stands inside the node, which is then the one behind it.
fn shows_inside(node: &Node) -> bool
    ensures { result ≡ is_some (first_inside node.now) }
{
    !node.is_elided() && node.child(0).is_some()
}

/// The path of the node behind all that stands in the one at the path, if there is one: the next item
/// of the innermost list that has one.
fn node_behind(tree: &Tree, path: Path) -> Option<Path>
    requires tree { IsTree tree.now }
    requires there { LeadsOn tree.now.items path.items }
    ensures { option_map (λ next. next.items) result ≡ next_with None tree.now.items path.items }
{
    let mut next = path;
    while let Some(k) = next.pop() {
        next.push(k + 1);
        if tree.node(&next).is_some() {
            return Some(next);
        }
        next.pop();
    }
    None
}
