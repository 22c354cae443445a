//! What may be done at a stop.
ghost use Rattle.std.specs.Prelude.{◌≡◌, is_some, option_and_then};
ghost use Rattle.template_tree.specs.Programs.PlainPhrasePlace.{plain_phrase_place};
ghost use Rattle.template_tree.specs.Programs.PlainTree.{roomless_tree};
ghost use Rattle.template_tree.specs.Positions.Stop.{IsStop, plain_stop};
ghost use Rattle.template_tree.specs.Programs.Tree.{IsTree};
ghost use Rattle.session_edit.specs.Here.{can_take, category_at, category_in, is_typed, takes_at};

use crate::room_laws::room_laws;
use plcs_grammar::{Category, NodeKind};
use template_tree::{Node, PhrasePlace, Stop, Tree, hole_left, part_category};

/// The category that phrase text has at the stop, or `None` where none is entered: at a node that is
/// neither a statement hole nor an assignment. It takes no memory.
pub fn wanted(tree: &Tree, at: &Stop) -> Option<Category>
    requires tree { IsTree tree.now }
    requires stop { IsStop (roomless_tree tree.now).items (plain_stop at.now) }
    ensures { result ≡ category_at (roomless_tree tree.now) (plain_stop at.now) }
{
    room_laws();
    let Some(node) = tree.node(&at.path) else {
        return None;
    };
    category_in(node.kind(), at.part)
}

/// Whether what stands at the stop can be taken out: a node other than main that is no hole, or a phrase
/// in a part. It takes no memory.
pub fn takes(tree: &Tree, at: &Stop) -> bool
    requires tree { IsTree tree.now }
    requires stop { IsStop (roomless_tree tree.now).items (plain_stop at.now) }
    ensures { result ≡ takes_at (roomless_tree tree.now) (plain_stop at.now) }
{
    room_laws();
    let Some(node) = tree.node(&at.path) else {
        return false;
    };
    can_take(node, at.part)
}

/// The category that phrase text has at the part of a node of the kind, or at the node itself, where it
/// is an assignment.
fn category_in(kind: NodeKind, part: Option<u8>) -> Option<Category>
    ensures { result ≡ category_in part kind }
{
    match part {
        None if is_typed(kind) => Some(Category::Assignment),
        None => None,
        Some(part) => part_category(kind, part),
    }
}

/// Whether at a stop that is a node of the kind an assignment may be typed.
fn is_typed(kind: NodeKind) -> bool
    ensures { result ≡ is_typed kind }
{
    matches!(kind, NodeKind::StatementHole | NodeKind::Assign)
}

/// Whether something can be taken out at the stop: at the part of the node, or at the node itself.
fn can_take(node: &Node, part: Option<u8>) -> bool
    ensures { result ≡ can_take part node.now }
{
    match part {
        None => hole_left(node.kind()).is_some(),
        Some(part) => is_filled(node.part(part)),
    }
}

/// Whether a phrase that can be taken out stands in the part, if there is such a part.
fn is_filled(place: Option<&PhrasePlace>) -> bool
    ensures { result ≡ is_some (option_and_then (λ there. plain_phrase_place there.now) place.entry) }
{
    matches!(place, Some(PhrasePlace::Filled(_)))
}
