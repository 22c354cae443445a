//! The node at which the cursor stands, and where it stands in the line of its stop.

ghost use Rattle.std.specs.Prelude.{◌≡◌, ◌+◌, ◌≤◌, length, map, option_map};
ghost use Rattle.plcs_grammar.specs.Template.{plain_segment, row_of};
ghost use Rattle.template_tree.specs.Listings.Line.{part_text};
ghost use Rattle.template_tree.specs.Programs.Part.{part_at};
ghost use Rattle.template_tree.specs.Positions.Path.{node_at};
ghost use Rattle.template_tree.specs.Programs.PlainTree.{roomless, roomless_node};
ghost use Rattle.template_tree.specs.Programs.Tree.{IsTree};
ghost use Rattle.unparse_layout.specs.OwnedLine.{stretches_of};
ghost use Rattle.screen_window.specs.Cursor.{bytes_before, cut_col, stop_col, stop_offset};
ghost use Rattle.screen_window.specs.Private.Drawing.{capped};

use plcs_grammar::{Category, Segment, shown_len};
use template_tree::{Node, Stop, Tree, phrase_in, room_is_not_shown};

/// The node at which the cursor stands, or in one of whose parts it stands, if there is one.
pub fn stop_node<'a>(tree: &'a Tree, stop: &Stop) -> Option<&'a Node>
    requires { IsTree tree.now }
    ensures { option_map (λ node. roomless_node node.now) result
        ≡ node_at (roomless tree.now.items) stop.now.path.items }
{
    room_is_not_shown();
    tree.node(&stop.path)
}

/// The column of the cursor at a stop in the node, which counts from 1, or the last but one where it lies
/// beyond.
pub fn stop_col(cols: u16, stop: &Stop, node: &Node) -> u16
    ensures { result ≡ cut_col cols (stop_col stop.now.path.items stop.now.part node.now) }
{
    let level = (stop.path.len() as u32).saturating_sub(1);
    let col = stop_offset(node, stop.part).saturating_add(3 + 2 * level);
    col.min(u32::from(cols.saturating_sub(1))) as u16
}

/// How many bytes of the node's first line stand before the stop, behind the level's blanks; past
/// 4294967295 it is that number.
fn stop_offset(node: &Node, part: Option<u8>) -> u32
    ensures { result ≡ capped (stop_offset node.now part) }
{
    match part {
        None => 0,
        Some(part) => bytes_before(node, part, node.kind().row().line, 0),
    }
}

/// How many bytes of these segments, of which the next part has this number, stand before the part at
/// which the cursor is.
fn bytes_before(node: &Node, part: u8, segments: &[Segment], next: u8) -> u32
    requires { next + length segments.now ≤ 100 }
    ensures { result
        ≡ capped (bytes_before part (stretches_of next (map plain_segment segments.now) node.now.label.parts)) }
{
    let Some((first, rest)) = segments.split_first() else {
        return 0;
    };
    match *first {
        Segment::Words(bytes) => {
            let behind = bytes_before(node, part, rest, next);
            behind.saturating_add(capped(bytes.len()))
        }
        Segment::Part(_) if next == part => 0,
        Segment::Part(category) => {
            let behind = bytes_before(node, part, rest, next + 1);
            behind.saturating_add(part_len(node, category, next))
        }
    }
}

/// A number of bytes before the cursor, or the greatest one that is kept in 32 bits.
fn capped(number: usize) -> u32
    ensures { result ≡ capped number }
{
    number.min(4_294_967_295) as u32
}

/// How many bytes of the cursor's line are written for the part of this number.
fn part_len(node: &Node, category: Category, part: u8) -> u32
    ensures { result ≡ capped (length (part_text category (part_at node.now.label.parts part))) }
{
    match phrase_in(node, part) {
        Some(phrase) => shown_len(phrase),
        None => capped(category.placeholder().len()),
    }
}
