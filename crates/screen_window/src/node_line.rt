//! Lines of the screen, told by their nodes, and the one on which a place of a run is shown.

ghost use Rattle.std.specs.Prelude.{◌≡◌};
ghost use Rattle.template_tree.specs.Programs.Tree.{IsTree};
ghost use Rattle.screen_window.specs.NodeLine.{is_line, is_outer, is_procedure, place_line, point_line, same_line_kind};
ghost use Rattle.screen_window.specs.Private.PathLine.{line_below, line_on_path};

use plcs_base::{Place, Point};
use plcs_grammar::{NodeKind, Sort};
use template_tree::{Node, Path, Tree, path_of_item};
use unparse_layout::{Line, LineKind};

/// A line of the screen, told as one of the lines of the node in a slot.
#[derive(Clone, Copy)]
pub struct NodeLine {
    /// The slot.
    pub slot: u32,
    /// Which of the node's lines it is.
    pub kind: LineKind,
}

/// Whether a laid line is this line, which is told by its node.
pub fn is_line<W>(line: NodeLine, laid: &Line<W>) -> bool
    ensures { result ≡ is_line line laid.now }
{
    laid.slot().0 == line.slot && same_kind(line.kind, laid.kind())
}

/// Whether two lines of the screen that are told by their node are of the same kind.
fn same_kind(one: LineKind, other: LineKind) -> bool
    ensures { result ≡ same_line_kind one other }
{
    match one {
        LineKind::First => matches!(other, LineKind::First),
        LineKind::Lead => matches!(other, LineKind::Lead),
        LineKind::Elision => matches!(other, LineKind::Elision),
        LineKind::Last => matches!(other, LineKind::Last),
    }
}

/// The line on which a place of a run is shown, or `None` where its slot isn't live. Where the node of the slot
/// stands where the tree has noted it, or near there, it takes time by the length of its path alone; else, as
/// wherever the slot isn't live, in proportion to the number of slots.
pub fn place_line(tree: &Tree, place: Place) -> Option<NodeLine>
    requires { IsTree tree.now }
    ensures { result ≡ place_line place.slot.0 place.point.0 tree.now.items }
{
    let path = tree.path_of(place.slot)?;
    line_on_path(tree, &path, place.point)
}

/// The line on which a point of a run is shown in the node at the path: that of the first elided node above it
/// on the path, or else its own.
fn line_on_path(tree: &Tree, path: &Path, point: Point) -> Option<NodeLine>
    requires { IsTree tree.now }
    ensures { result ≡ line_on_path point.0 tree.now.items path.now.items }
{
    let (k, rest) = path.split_first()?;
    line_below(tree.node(&path_of_item(*k))?, rest, point)
}

/// The line on which a point of a run is shown in the node at the path below this node: that of the first elided
/// node above it, from this one on, or else its own.
fn line_below(node: &Node, path: &[u32], point: Point) -> Option<NodeLine>
    ensures { result ≡ line_below point.0 node.now path.now }
{
    let Some((k, rest)) = path.split_first() else {
        return Some(point_line(node, point));
    };
    if node.is_elided() {
        return Some(NodeLine {
            slot: node.slot().0,
            kind: LineKind::Elision,
        });
    }
    line_below(node.child(*k)?, rest, point)
}

/// The line of a node on which a point of a run is shown.
fn point_line(node: &Node, point: Point) -> NodeLine
    ensures { result ≡ point_line node.now.label point.0 }
{
    NodeLine {
        slot: node.slot().0,
        kind: if is_procedure(node.kind()) && point.0 == 1 {
            LineKind::Last
        } else {
            LineKind::First
        },
    }
}

/// Whether a node is a procedure, which has a last line on which a point of a run may be shown.
fn is_procedure(kind: NodeKind) -> bool
    ensures { result ≡ is_procedure kind }
{
    let row = kind.row();
    is_outer(row.sort) && row.last.is_some()
}

/// For the line of a point of a run: whether the sort is that of main, or of a procedure or a hole for
/// one.
fn is_outer(sort: Sort) -> bool
    ensures { result ≡ is_outer sort }
{
    matches!(sort, Sort::Main | Sort::Procedure)
}
