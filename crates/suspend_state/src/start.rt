//! Where a run begins that comes to a slot of the program.
ghost use Rattle.std.specs.Prelude.{◌≡◌, option_map};
ghost use Rattle.template_tree.specs.Positions.Place.{PlainPlace, Start, passes_in, passes_in_template, place_at, site_start};
ghost use Rattle.template_tree.specs.Programs.Program.{IsSubtree};
ghost use Rattle.template_tree.specs.Programs.Tree.{IsTree};
ghost use Rattle.plcs_store.specs.Act.{with_newest};
ghost use Rattle.plcs_store.specs.Configuration.{plain_place};
ghost use Rattle.plcs_store.specs.Resume.{resolved_frame};
ghost use Rattle.suspend_state.specs.Private.NodeSite.{site_of};

use plcs_base::{Place, Point, Slot};
use plcs_grammar::{NodeKind, Template};
use plcs_store::Frames;
use template_tree::{Node, Tree, items_are_nodes};

/// Has the newest frame, if it stands at point 0 of a slot, stand where a run begins that comes to the slot.
pub(crate) fn resolve_frames(tree: &Tree, frames: &mut Frames)
    requires tree { IsTree tree.now }
    ensures { frames.new ≡ with_newest (resolved_frame tree.now.items) frames.old }
{
    let Some(place) = frames.place() else {
        return;
    };
    if place.point.0 != 0 {
        return;
    }
    if let Some(start) = start_of(tree, place.slot) {
        frames.set_place(start);
    }
}

/// Where a run begins that comes to the slot, or `None` where the slot isn't live.
fn start_of(tree: &Tree, slot: Slot) -> Option<Place>
    requires tree { IsTree tree.now }
    ensures { option_map plain_place result ≡ Start tree.now.items slot.0 }
{
    let Some(path) = tree.path_of(slot) else {
        return None;
    };
    let Some(node) = tree.node(&path) else {
        unreachable!()
    };
    Some(Place {
        slot: begin_slot(node),
        point: Point(0),
    })
}

/// The slot at whose start a run begins that comes to the node, wherever it goes on behind that.
fn begin_slot(node: &Node) -> Slot
    requires subtree { IsSubtree node.now }
    ensures { (after : PlainPlace) → site_start (site_of node.now after) ≡ place_at result.0 0 }
{
    items_are_nodes();
    let mut inside = node;
    while passes_in(inside.kind()) {
        let Some(first) = inside.child(0) else {
            unreachable!()
        };
        inside = first;
    }
    inside.slot()
}

/// Whether a run that comes to a node of the kind goes to its first item at once.
fn passes_in(kind: NodeKind) -> bool
    ensures { result ≡ passes_in kind }
{
    match kind {
        NodeKind::DeclarationHole
        | NodeKind::StatementHole
        | NodeKind::ProcedureHole
        | NodeKind::Main
        | NodeKind::Assign => false,
        NodeKind::Filled(template) => passes_in_template(template),
    }
}

/// Whether a run that comes to the template goes to its first item at once: a group, a comment, or an Until.
fn passes_in_template(template: Template) -> bool
    ensures { result ≡ passes_in_template template }
{
    match template {
        Template::Until | Template::Group | Template::Comment => true,
        Template::Fixed
        | Template::Bit
        | Template::Char
        | Template::If
        | Template::IfElse
        | Template::While
        | Template::For
        | Template::Get
        | Template::Put
        | Template::PutSkip
        | Template::Call
        | Template::Return
        | Template::Proc
        | Template::ProcP => false,
    }
}
