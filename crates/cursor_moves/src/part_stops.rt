//! The parts of a node at which the cursor may stand.
ghost use Rattle.std.specs.Prelude.{◌≡◌, ◌≤◌, IsSome, IsSomeAnd, length, map};
ghost use Rattle.plcs_grammar.specs.Template.{plain_segment};
ghost use Rattle.template_tree.specs.Positions.Path.{node_at};
ghost use Rattle.template_tree.specs.Programs.Program.{parts_of};
ghost use Rattle.template_tree.specs.Positions.Stop.{MayStand, plain_stop};
ghost use Rattle.template_tree.specs.Positions.Stop.{part_stops as number_of_part_stops};
ghost use Rattle.template_tree.specs.Programs.Tree.{IsTree};
ghost use Rattle.cursor_moves.specs.Private.Number.{last_number, next_number};

use plcs_grammar::{NodeKind, Segment};
use template_tree::{Path, Stop, Tree};

/// The last stop of the node at the path: its last part, or the node itself where none is a stop.
pub(crate) fn last_of_node(tree: &Tree, path: Path) -> Stop
    requires tree { IsTree tree.now }
    requires there { IsSome (node_at tree.now.items path.items) }
    ensures { IsSomeAnd (node_at tree.now.items path.items) (λ node. plain_stop result
        ≡ record { path = path.items; part = last_number (number_of_part_stops node.label.kind) }) }
{
    let Some(node) = tree.node(&path) else {
        return Stop { path, part: None };
    };
    let part = part_stops(node.kind()).checked_sub(1);
    Stop { path, part }
}

/// The next part of a node of the kind that is a stop, behind a part or behind the node itself, if
/// there is one.
pub(crate) fn next_part(kind: NodeKind, part: Option<u8>) -> Option<u8>
    requires { MayStand part kind }
    ensures { result ≡ next_number (number_of_part_stops kind) part }
{
    let next = match part {
        Some(part) => part + 1,
        None => 0,
    };
    if next < part_stops(kind) {
        Some(next)
    } else {
        None
    }
}

/// How many parts of a node of the kind are stops.
fn part_stops(kind: NodeKind) -> u8
    ensures { result ≡ number_of_part_stops kind }
{
    if kind == NodeKind::Assign {
        return 0;
    }
    parts_of(kind.row().line)
}

/// How many parts the line of a node has, each of them a stop unless the node is an assignment.
fn parts_of(line: &[Segment]) -> u8
    requires { length (parts_of (map plain_segment line.now)) ≤ 255 }
    ensures { result ≡ length (parts_of (map plain_segment line.now)) }
{
    let Some((segment, rest)) = line.split_first() else {
        return 0;
    };
    match segment {
        Segment::Words(_) => parts_of(rest),
        Segment::Part(_) => parts_of(rest) + 1,
    }
}
