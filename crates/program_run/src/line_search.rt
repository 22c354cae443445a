//! How many lines of a listing stand before the one at which a run stands.
ghost use Rattle.std.specs.Prelude.{◌≡◌, ◌<◌, ◌≤◌, IfSome, option_map};
ghost use Rattle.plcs_grammar.specs.Template.{program_sections};
ghost use Rattle.plcs_store.specs.Configuration.{plain_place};
ghost use Rattle.template_tree.specs.Programs.Limit.{most_slots};
ghost use Rattle.template_tree.specs.Programs.Slots.{count};
ghost use Rattle.template_tree.specs.Programs.Tree.{IsTree};
ghost use Rattle.program_run.specs.Private.SoughtLine.{fixed_count, lines_to_inside, most_lines};
ghost use Rattle.program_run.specs.StoppedLine.{inner_line_count, is_at_last_line, is_outermost, node_line_count, lines_to_place, lines_to_point};

use plcs_base::{Place, Point};
use plcs_grammar::{NodeKind, Sort, program_sections};
use template_tree::{Node, SectionsLeft, Tree, items_are_nodes, path_of_item};

/// How many lines of the tree's listing stand before the one at which a run stands, by its place; `None` where the
/// slot isn't live.
pub(crate) fn lines_to_place(tree: &Tree, place: Place) -> Option<u32>
    requires { IsTree tree.now }
    ensures count { result ≡ lines_to_place (plain_place place) program_sections tree.now.items }
    ensures few { IfSome result (λ count. count < most_lines) }
{
    items_are_nodes();
    let mut left = SectionsLeft::of(program_sections());
    let mut passed = 0;
    let mut k = 0;
    while let Some(item) = tree.node(&path_of_item(k)) {
        left = left.at(item.kind().row().sort);
        passed += fixed_count(left.lead());
        if let Some(count) = lines_to_inside(item, place) {
            return Some(passed + count);
        }
        passed += node_line_count(item);
        left = left.after();
        k += 1;
    }
    None
}

/// How many lines of the node stand before the one at which a run stands, by its place; `None` where the slot is
/// neither the node's nor that of a node in it.
#[cycle(sought)]
fn lines_to_inside(node: &Node, place: Place) -> Option<u32>
    requires few { count node.now.inner < most_slots }
    ensures { result ≡ lines_to_inside (plain_place place) node.now }
{
    if node.slot().0 == place.slot.0 {
        return Some(lines_to_point(node, place.point));
    }
    let mut left = SectionsLeft::of(node.kind().row().sections);
    let mut passed = 0;
    let mut k = 0;
    while let Some(child) = node.child(k) {
        left = left.at(child.kind().row().sort);
        passed += fixed_count(left.lead());
        if let Some(count) = lines_to_inside(child, place) {
            return Some(1 + passed + count);
        }
        passed += node_line_count(child);
        left = left.after();
        k += 1;
    }
    None
}

/// How many lines of the node stand before the one at which a run stands at this point of it.
fn lines_to_point(node: &Node, point: Point) -> u32
    requires few { count node.now.inner < most_slots }
    ensures { result ≡ lines_to_point node.now.label node.now.inner point.0 }
{
    if is_at_last_line(node.kind(), point) {
        1 + inner_line_count(node)
    } else {
        0
    }
}

/// How many lines of a listing the node has.
#[cycle(counted)]
fn node_line_count(node: &Node) -> u32
    requires few { count node.now.inner < most_slots }
    ensures { result ≡ node_line_count node.now.label node.now.inner }
{
    1 + inner_line_count(node) + fixed_count(node.kind().row().last)
}

/// How many lines of a listing what stands inside the node has.
#[cycle(counted)]
fn inner_line_count(node: &Node) -> u32
    requires few { count node.now.inner < most_slots }
    ensures { result ≡ inner_line_count node.now.label node.now.inner }
{
    let mut left = SectionsLeft::of(node.kind().row().sections);
    let mut lines = 0;
    let mut k = 0;
    while let Some(child) = node.child(k) {
        left = left.at(child.kind().row().sort);
        lines += fixed_count(left.lead()) + node_line_count(child);
        left = left.after();
        k += 1;
    }
    lines
}

/// How many lines a line that the table of templates may have is: one, or none where it has none.
fn fixed_count(text: Option<&[u8]>) -> u32
    ensures count { result ≡ fixed_count (option_map (λ bytes. bytes.now) text.entry) }
    ensures few { result ≤ 1 }
{
    match text {
        Some(_) => 1,
        None => 0,
    }
}

/// Whether a run at this point of a node of the kind stands at the node's last line.
fn is_at_last_line(kind: NodeKind, point: Point) -> bool
    ensures { result ≡ is_at_last_line kind point.0 }
{
    let row = kind.row();
    point.0 == 1 && is_outermost(row.sort) && row.last.is_some()
}

/// Whether a node of the sort is main, or a procedure or a hole for one.
fn is_outermost(sort: Sort) -> bool
    ensures { result ≡ is_outermost sort }
{
    match sort {
        Sort::Main | Sort::Procedure => true,
        Sort::Declaration | Sort::Statement => false,
    }
}
