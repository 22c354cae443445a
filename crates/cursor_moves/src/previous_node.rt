//! The visible node before another one.
ghost use Rattle.std.specs.Prelude.{◌≡◌, ◌+◌, ◌≤◌, ◌++◌, ◌∷◌, [], IfNone, IfSome, IsSome, IsSomeAnd, List, None, Some, if◌then◌else◌, length, ℕ};
ghost use Rattle.template_tree.specs.Programs.Limit.{deepest_path, most_slots};
ghost use Rattle.template_tree.specs.Programs.PlainTree.{nodes};
ghost use Rattle.template_tree.specs.Programs.Slots.{count, depth};
ghost use Rattle.template_tree.specs.Positions.Stop.{visible_at};
ghost use Rattle.template_tree.specs.Programs.Tree.{IsTree};
ghost use Rattle.cursor_moves.specs.Private.Number.{last_number};
ghost use Rattle.cursor_moves.specs.Private.NextPath.{IsLastBelow, next_of};

use template_tree::{Node, Path, Tree, copy_path};

/// The path of the visible node before the one at the path, if there is one.
pub(crate) fn previous_node(tree: &Tree, path: &Path) -> Option<Path>
    requires tree { IsTree tree.now }
    requires visible { IsSome (visible_at tree.now.items path.now.items) }
    ensures none { IfNone result (path.now.items ≡ 0 ∷ []) }
    ensures next { IfSome result (λ previous. next_of tree.now.items previous.items ≡ Some path.now.items) }
{
    let mut previous = copy_path(path);
    let Some(k) = previous.pop() else {
        return None;
    };
    let Some(before) = k.checked_sub(1) else {
        return if previous.is_empty() {
            None
        } else {
            Some(previous)
        };
    };
    previous.push(before);
    push_last(tree, &mut previous);
    Some(previous)
}

/// Goes on from the node that the tree has at the path to the last visible node in it, if there is one.
pub(crate) fn push_last(tree: &Tree, path: &mut Path)
    requires tree { IsTree tree.now }
    requires visible { IsSome (visible_at tree.now.items path.old.items) }
    ensures { (way : List ℕ) × (path.new.items ≡ path.old.items ++ way)
        × IsSomeAnd (visible_at tree.now.items path.old.items) (λ node. IsLastBelow node way) }
{
    if let Some(node) = tree.node(path) {
        push_last_below(node, path);
    }
}

/// Goes on from this node, last item by last item, to the last visible node in it, if there is one.
fn push_last_below(node: &Node, path: &mut Path)
    requires few { count node.now.inner ≤ most_slots }
    requires room { length path.old.items + depth node.now.inner ≤ deepest_path }
    ensures { (way : List ℕ) × (path.new.items ≡ path.old.items ++ way) × IsLastBelow node.now way }
{
    let Some(k) = last_shown(node) else {
        return;
    };
    let Some(item) = node.child(k) else {
        return;
    };
    path.push(k);
    push_last_below(item, path);
}

/// The number of the last visible item inside a node, on the way to the node before another, if there is one.
fn last_shown(node: &Node) -> Option<u32>
    requires few { count node.now.inner ≤ most_slots }
    ensures { result ≡ (if node.now.label.elided then None else last_number (length (nodes node.now.inner))) }
{
    if node.is_elided() {
        return None;
    }
    node.children().checked_sub(1)
}
