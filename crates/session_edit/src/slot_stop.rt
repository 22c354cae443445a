//! The stop at which a slot is shown, found by the path of its node.
ghost use Rattle.std.specs.Prelude.{◌≡◌, ◌+◌, ◌++◌, ◌≤◌, IfSome, length, option_map};
ghost use Rattle.template_tree.specs.Programs.Limit.{deepest_path};
ghost use Rattle.template_tree.specs.Programs.PlainTree.{roomless_tree};
ghost use Rattle.template_tree.specs.Positions.Stop.{IsStop, plain_stop};
ghost use Rattle.template_tree.specs.Programs.Tree.{IsTree};
ghost use Rattle.session_edit.specs.Private.ShownPath.{shown_below, shown_numbers};
ghost use Rattle.session_edit.specs.ShownStop.{shown_at};

use crate::room_laws::room_laws;
use plcs_base::Slot;
use template_tree::{Node, Path, Stop, Tree};

/// The stop of the node in the slot, or that of the outermost elided comment in which it stands. `None`
/// where the slot isn't live. It takes no memory.
pub fn shown_stop(tree: &Tree, slot: Slot) -> Option<Stop>
    requires tree { IsTree tree.now }
    ensures shown { option_map plain_stop result ≡ shown_at (roomless_tree tree.now) slot.0 }
    ensures stop { IfSome result (λ stop. IsStop (roomless_tree tree.now).items (plain_stop stop)) }
{
    room_laws();
    let Some(path) = tree.path_of(slot) else {
        return None;
    };
    Some(Stop {
        path: shown_part(tree, &path),
        part: None,
    })
}

/// The part of the path of a slot's node that is shown: its first numbers, up to the first elided
/// comment on it.
fn shown_part(tree: &Tree, path: &Path) -> Path
    requires tree { IsTree tree.now }
    ensures { result.items ≡ shown_numbers tree.now.items path.now.items }
{
    let mut shown = Path::new();
    let Some((k, rest)) = path.split_first() else {
        return shown;
    };
    shown.push(*k);
    let Some(item) = tree.node(&shown) else {
        return shown;
    };
    push_shown(item, rest, &mut shown);
    shown
}

/// Puts the numbers of the path below the node behind those that are shown, up to the first elided
/// comment on it.
fn push_shown(node: &Node, path: &[u32], shown: &mut Path)
    requires room { length shown.old.items + length path.now ≤ deepest_path }
    ensures { shown.new.items ≡ shown.old.items ++ shown_below node.now path.now }
{
    let Some((k, rest)) = path.split_first() else {
        return;
    };
    if node.is_elided() {
        return;
    }
    shown.push(*k);
    let Some(item) = node.child(*k) else {
        return;
    };
    push_shown(item, rest, shown)
}
