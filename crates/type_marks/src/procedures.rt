//! Main and the procedures of a program, found by number, slot and name, and their parameters.
ghost use Rattle.std.specs.Prelude.{◌≡◌, ◌+◌, ◌≤◌, [], IfSome, is_some, nat_eq, option_map, slice_get};
ghost use Rattle.template_tree.specs.Checks.Environment.{Sig, procedure_at, signature_for};
ghost use Rattle.template_tree.specs.Programs.Limit.{most_slots};
ghost use Rattle.template_tree.specs.Checks.Marks.{procedures_before};
ghost use Rattle.template_tree.specs.Programs.PlainTree.{nodes};
ghost use Rattle.template_tree.specs.Programs.Program.{IsSubtree};
ghost use Rattle.template_tree.specs.Programs.Slots.{count};
ghost use Rattle.template_tree.specs.Programs.Tree.{IsTree};
ghost use Rattle.decl_table.specs.Knowledge.{heading_parameters};
ghost use Rattle.type_marks.specs.Private.MarksView.{procedure_item_on};

use plcs_base::{Name, Slot};
use template_tree::{
    Node, Path, Tree, heading_name, heading_parameters, items_are_nodes, may_be_called,
    path_of_item,
};

/// Main or the procedure in the slot, or `None` where none of them has it.
pub(crate) fn procedure_in(tree: &Tree, slot: Slot) -> Option<&Node>
    requires tree { IsTree tree.now }
    ensures { option_map (λ node. node.now) result ≡ procedure_at tree.now.items slot.0 }
{
    items_are_nodes();
    let mut k = 0;
    while let Some(node) = procedure_item(tree, k) {
        if stands_in(node, slot) {
            return Some(node);
        }
        k += 1;
    }
    None
}

/// Whether one of the program's procedures before the one in the slot, found by name, has an effective heading
/// of the name, or would have it where no earlier one does.
pub(crate) fn is_named_before(tree: &Tree, slot: Slot, name: &Name) -> bool
    requires tree { IsTree tree.now }
    ensures { result ≡ is_some (Sig (procedures_before tree.now.items slot.0) name.now) }
{
    items_are_nodes();
    let mut k = 0;
    while let Some(node) = procedure_item(tree, k) {
        if stands_in(node, slot) {
            return false;
        }
        if may_be_called_by(node, name) {
            return true;
        }
        k += 1;
    }
    false
}

/// Whether the node is, of the procedures of a program, one that is found by the name: its heading is whole and
/// has the name, and a procedure of the name may be called.
fn may_be_called_by(node: &Node, name: &Name) -> bool
    ensures { result ≡ is_some (signature_for name.now node.now) }
{
    let Some(other) = heading_name(node) else {
        return false;
    };
    name == other && may_be_called(name)
}

/// The parameters of main or of a procedure that was found: none where its heading isn't whole.
pub(crate) fn called_parameters(node: &Node) -> &[Name]
    ensures { result.now ≡ heading_parameters node.now }
{
    match heading_parameters(node) {
        Some(names) => names,
        None => &[],
    }
}

/// Whether the node is the one in the slot, by which main and procedures are found.
pub(crate) fn stands_in(node: &Node, slot: Slot) -> bool
    ensures { result ≡ nat_eq node.now.label.slot slot.0 }
{
    node.slot().0 == slot.0
}

/// Main or a procedure by its number: main is 0, and then come the procedures.
pub(crate) fn procedure_item(tree: &Tree, k: u32) -> Option<&Node>
    requires tree { IsTree tree.now }
    ensures item { option_map (λ node. node.now) result ≡ slice_get (nodes tree.now.items) k }
    ensures subtree { IfSome result (λ node. IsSubtree node.now) }
    ensures few { IfSome result (λ node. count node.now.inner + 1 ≤ most_slots) }
{
    items_are_nodes();
    tree.node(&path_of_item(k))
}

/// Main or the procedure of the program, found by a path that leads to it or to a node in it.
pub(crate) fn procedure_item_on<'a>(tree: &'a Tree, path: &Path) -> Option<&'a Node>
    requires tree { IsTree tree.now }
    ensures item { option_map (λ node. node.now) result ≡ procedure_item_on tree.now.items path.now.items }
    ensures subtree { IfSome result (λ node. IsSubtree node.now) }
    ensures few { IfSome result (λ node. count node.now.inner + 1 ≤ most_slots) }
{
    let Some((k, _)) = path.split_first() else {
        return None;
    };
    procedure_item(tree, *k)
}
