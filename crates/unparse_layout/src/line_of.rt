//! The lines of stops.
ghost use Rattle.std.specs.Prelude.{◌≡◌, ◌<◌, ◌≤◌, ◌*◌, length};
ghost use Rattle.template_tree.specs.Programs.Limit.{most_slots};
ghost use Rattle.template_tree.specs.Listings.Line.{Lines};
ghost use Rattle.template_tree.specs.Programs.PlainTree.{roomless_tree};
ghost use Rattle.template_tree.specs.Positions.Stop.{IsStop, line_at, plain_stop};
ghost use Rattle.template_tree.specs.Programs.Tree.{IsTree};
ghost use Rattle.unparse_layout.specs.Agreement.{IsLayoutOf};
ghost use Rattle.unparse_layout.specs.Private.ItemLines.{lines_before};
ghost use Rattle.unparse_layout.specs.Bones.{bone_count};

use crate::layout::Layout;
use crate::node_layout::NodeLayout;
use plcs_base::Work;
use template_tree::{Stop, Tree};

impl<W: Work> Layout<W> {
    /// The number of the line on which the stop stands, counted from 0. It takes no memory.
    pub fn line_of(&self, tree: &Tree, stop: &Stop) -> u32
        requires tree { IsTree tree.now }
        requires agrees { IsLayoutOf self.now tree.now }
        requires stop { IsStop (roomless_tree tree.now).items (plain_stop stop.now) }
        ensures line { result ≡ line_at (roomless_tree tree.now).items (plain_stop stop.now) }
        ensures below { result < length (Lines (roomless_tree tree.now).items) }
        ensures few { result < 4 * most_slots }
    {
        let Some((k, rest)) = stop.path.split_first() else {
            unreachable!()
        };
        self.root.lines_before(*k as usize, rest)
    }
}

impl NodeLayout {
    /// How many lines inside this node of a layout stand before the first line of the node at a stop's
    /// path, which begins with this number.
    fn lines_before(&self, k: usize, rest: &[u32]) -> u32
        requires few { bone_count self.now.inner ≤ most_slots }
        ensures { result ≡ lines_before self.now.inner k rest.now }
    {
        let before = self.heights.before(k);
        let Some(item) = self.inner.get(k) else {
            return before;
        };
        let first = before + u32::from(item.led);
        let Some((next, others)) = rest.split_first() else {
            return first;
        };
        first + 1 + item.lines_before(*next as usize, others)
    }
}
