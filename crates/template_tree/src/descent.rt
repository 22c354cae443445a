//! A node lent for writing, at the end of a path.
//!
//! The contract of a lent node can't be told by a recursion. So the descents double: each goes twice as
//! far as the one below it, and one step between.
ghost use Rattle.std.specs.Borrow.{LendsIf, sem};
ghost use Rattle.std.specs.Prelude.{◌≡◌, ℕ, ◌+◌, ◌≤◌, length, option_and_then, option_map, slice_get};
ghost use Rattle.template_tree.specs.contracts.node.Node as node_row;
ghost use Rattle.template_tree.specs.contracts.node.Nodes as list_row;
ghost use Rattle.template_tree.specs.Edits.Lend.{put_in};
ghost use Rattle.template_tree.specs.Positions.Path.{below};

use crate::node::{Node, Nodes};
use crate::path::halves;
use std::marker::PhantomData;

/// A descent: lends the node at a path below an item of a list.
pub(crate) trait Descent {
    ghost limit: { ℕ };

    /// The node lent at the end of the descent: at the path below the item of this number of the list.
    fn down<'a>(list: &'a mut Nodes, k: usize, path: &[u32]) -> Option<&'a mut Node>
        requires { length path.now ≤ limit }
        ensures* writes_back { sem 𝓛 (LendsIf list_row.the_row node_row.the_row list.entry result
            (put_in list.old k path.now) list.old) }
        ensures found { option_map (λ node. node.now) result ≡ option_and_then (λ item. below item path.now)
            (slice_get list.old.items k) };
}

/// The descent of no step: lends the item itself.
pub(crate) struct Here;

/// The descent that goes twice as far as `D`, and one step.
pub(crate) struct Twice<D>(PhantomData<D>);

/// The descent that goes 63 steps below an item: to the end of the longest path.
pub(crate) type Deepest = Twice<Twice<Twice<Twice<Twice<Twice<Here>>>>>>;

impl Descent for Here {
    ghost limit = { 0 };

    fn down<'a>(list: &'a mut Nodes, k: usize, path: &[u32]) -> Option<&'a mut Node> {
        list.get_mut(k)
    }
}

impl<D: Descent> Descent for Twice<D> {
    ghost limit = { D.limit + D.limit + 1 };

    fn down<'a>(list: &'a mut Nodes, k: usize, path: &[u32]) -> Option<&'a mut Node> {
        let Some((front, middle, back)) = halves(path) else {
            return D::down(list, k, path);
        };
        let Some(node) = D::down(list, k, front) else {
            return None;
        };
        D::down(&mut node.inner, middle as usize, back)
    }
}
