//! Layouts of trees.
ghost use Rattle.std.specs.Prelude.{◌≡◌, ◌≤◌, ◌*◌, length, slice_get};
ghost use Rattle.plcs_base.specs.PlainCounts.{LaysOne};
ghost use Rattle.template_tree.specs.Programs.Limit.{most_slots};
ghost use Rattle.template_tree.specs.Listings.Line.{Lines};
ghost use Rattle.template_tree.specs.Programs.PlainTree.{PlainTree, roomless_tree};
ghost use Rattle.template_tree.specs.Programs.Tree.{IsTree};
ghost use Rattle.unparse_layout.specs.Agreement.{IsLayoutOf};
ghost use Rattle.unparse_layout.specs.LaidLine.{LaidLines};

use crate::lay::lay;
use crate::line::Line;
use crate::node_layout::NodeLayout;
use plcs_base::{Marked, Work};
use std::marker::{Model, PhantomData};
use template_tree::Tree;

/// The layout of a tree: how many lines of the screen each of its nodes has. Contracts see it as the
/// tree's nodes without their phrases.
///
/// Main and the procedures stand inside a node of its own, so that they have a list like every other.
#[derive(Drop)]
pub struct Layout<W> {
    pub(crate) root: NodeLayout,
    pub(crate) of: PhantomData<W>,
}

impl<W> Model for Layout<W> {
    ghost use Rattle.unparse_layout.specs.Bones.{PlainLayout};
    ghost use Rattle.unparse_layout.specs.Private.BonesCode.{bones_code};

    ghost Value = { PlainLayout };

    ghost coded = { bones_code };

    ghost view = { λ a. a.root.inner };
}

impl<W: Work> Layout<W> {
    /// How many lines of the screen the layout has. It takes no memory.
    pub fn lines(&self) -> u32
        ensures lines { (tree : PlainTree)
            → IsLayoutOf self.now tree → result ≡ length (Lines (roomless_tree tree).items) }
        ensures few { (tree : PlainTree) → IsLayoutOf self.now tree → IsTree tree → result ≤ 4 * most_slots }
    {
        self.root.lines_inside()
    }

    /// The line of the screen of this number, counted from 0, laid under these marks, or `None` exactly
    /// where there is no such line. It is counted as laid either way. It takes no memory.
    pub fn line<M: Marked>(&self, tree: &Tree, marks: &M, k: u32, work: &mut W) -> Option<Line<W>>
        requires tree { IsTree tree.now }
        requires agrees { IsLayoutOf self.now tree.now }
        ensures line { result ≡ slice_get (LaidLines (M.marks marks.now) (roomless_tree tree.now).items) k }
        ensures counts { LaysOne (W.counts work.old) (W.counts work.new) }
    {
        work.laid();
        let Some(plan) = self.root.plan_of(tree, k) else {
            return None;
        };
        Some(lay(&plan, marks))
    }
}
