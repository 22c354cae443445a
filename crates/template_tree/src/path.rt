//! Paths to nodes, their copies and halves, and the path of an item of the program.
ghost use Rattle.std.specs.Prelude.{◌≡◌, ◌+◌, ◌≤◌, ◌++◌, ◌∷◌, [], IfNone, IfSome, length};

use crate::limit::DEEPEST_PATH;
use arrayvec::ArrayVec;

/// A path, the way to a node: the number of the item of the program, 0 for main and then the procedures,
/// and at each further level the number of the node inside, counted from 0 in listing order.
pub type Path = ArrayVec<u32, DEEPEST_PATH>;

/// The path of the item of the program with this number: main is 0, and the procedures follow.
pub fn path_of_item(k: u32) -> Path
    ensures { result.items ≡ k ∷ [] }
{
    let mut path = Path::new();
    path.push(k);
    path
}

/// A copy of the path, which takes no memory.
pub fn copy_path(path: &Path) -> Path
    ensures { result.items ≡ path.now.items }
{
    let mut copy = Path::new();
    if let Err(_) = copy.try_extend_from_slice(path.as_slice()) {}
    copy
}

/// A path in halves: the numbers before the middle one, that one, and the others; `None` where there are
/// none.
pub(crate) fn halves(path: &[u32]) -> Option<(&[u32], u32, &[u32])>
    ensures parts { IfSome result (λ p. path.now ≡ p.0.now ++ (p.1 ∷ p.2.now)) }
    ensures short { IfSome result (λ p. (length p.0.now + length p.0.now ≤ length path.now)
        × (length p.2.now + length p.2.now + 1 ≤ length path.now)) }
    ensures none { IfNone result (path.now ≡ []) }
{
    let (front, rest) = path.split_at(path.len() / 2);
    match rest.split_first() {
        Some((middle, back)) => Some((front, *middle, back)),
        None => None,
    }
}
