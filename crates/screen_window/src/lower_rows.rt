//! The rows below the window: the output, the message or mark, the prompt and the typed line.

ghost use Rattle.std.specs.Prelude.{◌≡◌, ◌+◌, ◌≤◌, [], Some, length, slice_index_or};
ghost use Rattle.template_tree.specs.Listings.Listing.{split_at_ends};
ghost use Rattle.template_tree.specs.Positions.Path.{node_at};
ghost use Rattle.template_tree.specs.Programs.PlainTree.{roomless};
ghost use Rattle.template_tree.specs.Programs.Tree.{IsTree};
ghost use Rattle.screen_window.specs.declared.limit.TheConstants.{MOST_ROWS};
ghost use Rattle.screen_window.specs.LowerRows.{cursor_mark, cursor_part, last_ones, mark_text, marked_text, message_or, output_row, part_mark};

use crate::cursor::stop_node;
use crate::limit::MOST_ROWS;
use plcs_base::{MarkKind, Marked, PhraseAt};
use plcs_grammar::NodeKind;
use template_tree::{Node, Stop, Tree, phrase_in};

/// How many rows show the output.
pub const OUTPUT_ROWS: usize = 3;

/// A row of the output, which counts from 0.
pub fn output_row(output: &[u8], row: usize) -> &[u8]
    requires { row ≤ MOST_ROWS }
    ensures { result.now ≡ output_row output.now row }
{
    if output.is_empty() {
        return output;
    }
    line_at(output, line_count(output).saturating_sub(OUTPUT_ROWS) + row)
}

/// How many lines the bytes of the output are split into.
fn line_count(bytes: &[u8]) -> usize
    ensures lines { result ≡ length (split_at_ends [] bytes.now) }
    ensures few { result ≤ length bytes.now + 1 }
{
    let mut ends = 0;
    for byte in bytes {
        if *byte != b'\n' {
            continue;
        }
        ends += 1;
    }
    ends + 1
}

/// The output's line of the number, which counts from 0, or nothing behind the last.
fn line_at(bytes: &[u8], number: usize) -> &[u8]
    ensures { result.now ≡ slice_index_or (split_at_ends [] bytes.now) number [] }
{
    let mut start = 0;
    let mut left = number;
    for at in 0..bytes.len() {
        if bytes[at] != b'\n' {
            continue;
        }
        if left == 0 {
            return &bytes[start..at];
        }
        left -= 1;
        start = at + 1;
    }
    if left == 0 { &bytes[start..] } else { &[] }
}

/// The row of the message: the message, or where it is empty the mark at the cursor.
pub fn message_row<'a, M: Marked>(
    message: &'a [u8],
    tree: &Tree,
    stop: &Stop,
    marks: &M,
) -> &'a [u8]
    requires { IsTree tree.now }
    ensures { result.now
        ≡ message_or message.now
        (marked_text
        (cursor_mark (M.marks marks.now) stop.now.part
        (node_at (roomless tree.now.items) stop.now.path.items))) }
{
    if !message.is_empty() {
        return message;
    }
    match cursor_mark(tree, stop, marks) {
        Some(mark) => mark_text(mark),
        None => message,
    }
}

/// The mark for the row of the message: that of the phrase or the assignment at the cursor, if it has one.
fn cursor_mark<M: Marked>(tree: &Tree, stop: &Stop, marks: &M) -> Option<MarkKind>
    requires { IsTree tree.now }
    ensures { result
        ≡ cursor_mark (M.marks marks.now) stop.now.part (node_at (roomless tree.now.items) stop.now.path.items) }
{
    let node = stop_node(tree, stop)?;
    let part = cursor_part(node.kind(), stop.part)?;
    part_mark(node, part, marks)
}

/// The mark of the phrase in a part of the node at the cursor, if a phrase stands there and has one.
fn part_mark<M: Marked>(node: &Node, part: u8, marks: &M) -> Option<MarkKind>
    ensures { result ≡ part_mark (M.marks marks.now) node.now (Some part) }
{
    phrase_in(node, part)?;
    marks.mark(PhraseAt {
        slot: node.slot(),
        part,
    })
}

/// The number of the part at the cursor in a node of the kind, whose mark the row of the message shows:
/// the part at which the cursor stands, or at the node of an assignment its only one. It takes no memory.
pub fn cursor_part(kind: NodeKind, part: Option<u8>) -> Option<u8>
    ensures { result ≡ cursor_part kind part }
{
    match part {
        Some(part) => Some(part),
        None => match kind {
            NodeKind::Assign => Some(0),
            _ => None,
        },
    }
}

/// The text of a mark in the row of the message.
fn mark_text(mark: MarkKind) -> &'static [u8]
    ensures { result.now ≡ mark_text mark }
{
    match mark {
        MarkKind::Undeclared => b"UNDECLARED",
        MarkKind::TypeMismatch => b"TYPE MISMATCH",
        MarkKind::NotArray => b"NOT AN ARRAY",
        MarkKind::NeedsSubscript => b"NEEDS SUBSCRIPT",
        MarkKind::Duplicate => b"DUPLICATE",
        MarkKind::UnknownProcedure => b"UNKNOWN PROCEDURE",
        MarkKind::WrongCount => b"WRONG COUNT",
        MarkKind::ArgumentType => b"ARGUMENT TYPE",
        MarkKind::ParameterUndeclared => b"PARAMETER UNDECLARED",
        MarkKind::TooManyCells => b"TOO MANY CELLS",
        MarkKind::Reserved => b"RESERVED",
    }
}

/// The last bytes of the typed line, at most so many.
pub fn last_ones(typed: &[u8], room: usize) -> &[u8]
    ensures { result.now ≡ last_ones room typed.now }
{
    &typed[typed.len().saturating_sub(room)..]
}
