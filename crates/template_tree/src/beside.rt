//! Paths to the items beside an item of a list, and on which side of them it stood.
ghost use Rattle.std.specs.Prelude.{◌≡◌, ◌<◌, pred, suc};
ghost use Rattle.template_tree.specs.Positions.Path.{added_path, last_child_number, with_last};
ghost use Rattle.template_tree.specs.Private.Restored.{side_of};

use crate::path::{Path, copy_path};
use crate::side::Side;

/// The path beside an item of a list: where a node stands that came on this side of the item at the path.
pub fn added_path(side: Side, path: &Path) -> Path
    requires small { last_child_number path.now.items < 4294967295 }
    ensures { result.items ≡ added_path side path.now.items }
{
    match side {
        Side::Before => copy_path(path),
        Side::After => next_path(path),
    }
}

/// The path to the item behind the one at the path, in the same list.
fn next_path(path: &Path) -> Path
    requires small { last_child_number path.now.items < 4294967295 }
    ensures { result.items ≡ with_last suc path.now.items }
{
    let mut next = copy_path(path);
    if let Some(last) = next.pop() {
        next.push(last + 1);
    }
    next
}

/// The path to the item before the one at the path, or to the one that comes in its place where it is the
/// first, once it has left its list.
pub fn path_before(path: &Path) -> Path
    ensures { result.items ≡ with_last pred path.now.items }
{
    let mut before = copy_path(path);
    if let Some(last) = before.pop() {
        before.push(last.saturating_sub(1));
    }
    before
}

/// On which side of the item at `path_before` the item at the path stood, before it left its list.
pub(crate) fn side_left(path: &Path) -> Side
    ensures { result ≡ side_of (last_child_number path.now.items) }
{
    let mut front = copy_path(path);
    let Some(last) = front.pop() else {
        return Side::Before;
    };
    if last == 0 {
        return Side::Before;
    }
    Side::After
}
