//! Kinds of nodes that are holes or assignments, and which hole stands for which kind.
ghost use Rattle.std.specs.Prelude.{◌≡◌, ◌↔◌, IsTrue, Some};
ghost use Rattle.plcs_grammar.specs.declared.node_kind.NodeKind.{NodeKind};
ghost use Rattle.template_tree.specs.Edits.Hole.{hole_left, hole_of, is_hole};
ghost use Rattle.template_tree.specs.Programs.Program.{sort_of};

use plcs_grammar::{NodeKind, Sort};

/// The kind of the hole that stays where a node of the kind is taken out, or `None` where it is main or
/// a hole. It takes no memory.
pub fn hole_left(kind: NodeKind) -> Option<NodeKind>
    ensures { result ≡ hole_left kind }
{
    if is_hole(kind) {
        return None;
    }
    hole_for(kind)
}

/// Whether nodes of the kind are holes.
pub(crate) fn is_hole(kind: NodeKind) -> bool
    ensures { result ≡ is_hole kind }
{
    matches!(
        kind,
        NodeKind::DeclarationHole | NodeKind::StatementHole | NodeKind::ProcedureHole
    )
}

/// The kind of the hole that stands where nodes of the kind stand; main has none.
fn hole_for(kind: NodeKind) -> Option<NodeKind>
    ensures { result ≡ hole_of (sort_of kind) }
{
    hole_of(kind.row().sort)
}

/// Whether a node of the one kind is the hole where nodes of the other stand.
pub(crate) fn is_hole_for(kind: NodeKind, hole: NodeKind) -> bool
    ensures { IsTrue result ↔ (hole_of (sort_of kind) ≡ Some hole) }
{
    match hole_for(kind) {
        Some(own) => own == hole,
        None => false,
    }
}

/// The kind of the hole of the sort; main has none.
pub(crate) fn hole_of(sort: Sort) -> Option<NodeKind>
    ensures { result ≡ hole_of sort }
{
    match sort {
        Sort::Main => None,
        Sort::Procedure => Some(NodeKind::ProcedureHole),
        Sort::Declaration => Some(NodeKind::DeclarationHole),
        Sort::Statement => Some(NodeKind::StatementHole),
    }
}

/// Whether nodes of the kind are assignments.
pub(crate) fn is_assignment(kind: NodeKind) -> bool
    ensures { IsTrue result ↔ (kind ≡ NodeKind.Assign) }
{
    kind == NodeKind::Assign
}
