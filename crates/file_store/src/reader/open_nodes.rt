//! What each line does to the open lists and nodes.
ghost use Rattle.std.specs.Prelude.{◌≡◌, ◌<◌, ◌^◌, ◌-◌, ◌∷◌, ◌++◌, ◌&&◌, [], Some, is_none, map, codes, length, min, option_and_then, option_map};
ghost use Rattle.phrase_parser.specs.NotRead.{Gives};
ghost use Rattle.plcs_grammar.specs.Template.{row_of};
ghost use Rattle.template_tree.specs.Programs.PlainPhrasePlace.{plain_phrase_place};
ghost use Rattle.template_tree.specs.Programs.PlainTree.{Forest, forest, join, nodes, roomless};
ghost use Rattle.file_store.specs.Private.Reader.{at_height, begun, closed, ended_in, finished, is_text, kind_with, led_in, lowered, lowered_to, optional, program_of, shut, line_taken, unread, with_filling, with_open_node};
ghost use Rattle.file_store.specs.Private.Views.{filling_of, open_node_of, open_list_of, said_of, open_nodes_of, open_nodes_on};

use crate::reader::filling::{Filling, LAST, is_text};
use crate::reader::open_list::{OpenList, OpenNode, OpenNodes};
use crate::reader::said::{Said, Saying};
use phrase_parser::NotRead;
use plcs_grammar::{NodeKind, Template, program_sections};
use std::alloc::Global;
use template_tree::{Node, Nodes, PhrasePlace};

impl OpenList {
    /// What a line does to the open lists where it opens a node: there is one more, without items, which has
    /// come so far.
    fn new(alloc: Global, filling: Filling) -> OpenList
        ensures { open_list_of result ≡ record { items = forest []; filling = filling_of filling } }
    {
        OpenList {
            items: Nodes::new(alloc),
            count: 0,
            filling,
        }
    }
}

impl OpenNodes {
    /// The open lists where no line was read yet, before any does something to them.
    pub(crate) fn new(alloc: Global) -> OpenNodes
        ensures { open_nodes_of result ≡ unread }
    {
        OpenNodes {
            own: OpenList::new(alloc, Filling::of(program_sections())),
            frames: Vec::new(alloc),
        }
    }
}

/// What a line does to the open lists, if some listing may go on with it.
pub(crate) fn line_taken(alloc: Global, stack: OpenNodes, said: Said) -> Result<OpenNodes, NotRead>
    requires small { said.level < 2 ^ 63 }
    ensures { Gives open_nodes_of result (line_taken (open_nodes_of stack) (said_of said)) }
{
    let Said { level, saying } = said;
    match saying {
        Saying::Head(kind, parts) => begun_at(alloc, stack, level, kind, parts),
        Saying::Lead => led_at(stack, level + 1),
        Saying::Last => ended_at(stack, level + 1),
    }
}

/// The open lists once nodes have ended until exactly so many are open, and one more is opened then, if they may.
fn begun_at(
    alloc: Global,
    stack: OpenNodes,
    level: usize,
    kind: NodeKind,
    parts: Vec<PhrasePlace>,
) -> Result<OpenNodes, NotRead>
    ensures { Gives open_nodes_of result (option_and_then (begun kind (map plain_phrase_place parts.items))
        (lowered_to level (open_nodes_of stack))) }
{
    match lowered_to(stack, level) {
        Ok(stack) => begun(alloc, stack, kind, parts),
        Err(fault) => {
            drop(parts);
            Err(fault)
        }
    }
}

/// The open lists behind the line before a section, once nodes have ended until exactly so many are open, if they may
/// and it is wanted.
fn led_at(stack: OpenNodes, level: usize) -> Result<OpenNodes, NotRead>
    ensures { Gives open_nodes_of result (option_and_then (λ s. led_in (codes "ELSE") s s.outer)
        (lowered_to level (open_nodes_of stack))) }
{
    match lowered_to(stack, level) {
        Ok(stack) => led(stack),
        Err(fault) => Err(fault),
    }
}

/// The open lists behind the last line of the innermost node, once nodes have ended until exactly so many are open, if
/// they may.
fn ended_at(stack: OpenNodes, level: usize) -> Result<OpenNodes, NotRead>
    ensures { Gives open_nodes_of result (option_and_then (λ s. ended_in (codes "END;") s.own s.outer)
        (lowered_to level (open_nodes_of stack))) }
{
    match lowered_to(stack, level) {
        Ok(stack) => ended(stack),
        Err(fault) => Err(fault),
    }
}

/// The items of the program that stand in the open lists, if the lines are its whole listing.
pub(crate) fn finish(stack: OpenNodes) -> Result<Nodes, NotRead>
    ensures { Gives (λ list. roomless (forest list.items)) result (program_of (open_nodes_of stack)) }
{
    match lowered(stack, 0) {
        Ok(stack) => {
            let OpenNodes { own, frames } = stack;
            drop(frames);
            finished(own)
        }
        Err(fault) => Err(fault),
    }
}

/// The items of the outermost list, if it may end.
fn finished(own: OpenList) -> Result<Nodes, NotRead>
    ensures { Gives (λ list. roomless (forest list.items)) result (finished (open_list_of own)) }
{
    let OpenList { items, filling, .. } = own;
    if !filling.may_end() {
        drop(items);
        return Err(NotRead::Refused);
    }
    Ok(items)
}

/// The open lists once nodes have ended until exactly so many are open, if they may.
fn lowered_to(stack: OpenNodes, level: usize) -> Result<OpenNodes, NotRead>
    ensures { Gives open_nodes_of result (lowered_to level (open_nodes_of stack)) }
{
    match lowered(stack, level) {
        Ok(stack) => at_height(stack, level),
        Err(fault) => Err(fault),
    }
}

/// The open lists, if exactly so many nodes are open.
fn at_height(stack: OpenNodes, level: usize) -> Result<OpenNodes, NotRead>
    ensures { Gives open_nodes_of result (at_height level (open_nodes_of stack)) }
{
    if stack.frames.len() != level {
        drop(stack);
        return Err(NotRead::Refused);
    }
    Ok(stack)
}

/// The open lists once nodes have ended until no more than so many are open, if they may. Where no more are open they
/// stay as they are, at once.
#[inline(always)]
fn lowered(stack: OpenNodes, level: usize) -> Result<OpenNodes, NotRead>
    ensures { Gives open_nodes_of result (lowered level (open_nodes_of stack).own (open_nodes_of stack).outer) }
{
    if stack.frames.len() <= level {
        return Ok(stack);
    }
    lowered_by_ends(stack, level)
}

/// The open lists once the innermost nodes have ended, one after the other, until no more than so many are open, if
/// they may.
fn lowered_by_ends(stack: OpenNodes, level: usize) -> Result<OpenNodes, NotRead>
    ensures { Gives open_nodes_of result (lowered level (open_nodes_of stack).own (open_nodes_of stack).outer) }
{
    let OpenNodes { own, frames } = stack;
    let mut own = own;
    let mut frames = frames;
    while frames.len() > level {
        let Some(frame) = frames.pop() else {
            unreachable!()
        };
        own = match shut(own, frame) {
            Ok(around) => around,
            Err(fault) => {
                drop(frames);
                return Err(fault);
            }
        };
    }
    Ok(OpenNodes { own, frames })
}

/// The list around the innermost open node, once that has ended without a line of its own, if it may.
fn shut(own: OpenList, frame: OpenNode) -> Result<OpenList, NotRead>
    ensures { Gives open_list_of result (shut (open_list_of own) (open_node_of frame)) }
{
    if !ends_alone(frame.kind, own.filling) {
        drop(own);
        drop(frame);
        return Err(NotRead::Refused);
    }
    closed(own, frame)
}

/// Whether a node of the kind whose list has come so far may end without a line of its own.
fn ends_alone(kind: NodeKind, filling: Filling) -> bool
    ensures { result ≡ (is_none (row_of kind).last && optional (filling_of filling).left) }
{
    kind.row().last.is_none() && filling.may_end()
}

/// The list around an open node, once the node has ended in it.
fn closed(own: OpenList, frame: OpenNode) -> Result<OpenList, NotRead>
    ensures { Gives open_list_of result (Some (closed (open_list_of own) (open_node_of frame))) }
{
    let OpenNode {
        kind,
        parts,
        around,
    } = frame;
    let kind = kind_with(kind, own.count);
    let OpenList { items, .. } = own;
    let node = Node::built(kind, parts, items);
    with_node(around, node)
}

/// The kind of an open node of the shape once a line has ended it, with so many items: an IF with one body
/// alone has no ELSE.
fn kind_with(kind: NodeKind, count: usize) -> NodeKind
    ensures { (items : Forest) → count ≡ min (length (nodes items)) (2 ^ 64 - 1) → result ≡ kind_with kind items }
{
    if count != 1 {
        return kind;
    }
    match kind {
        NodeKind::Filled(Template::IfElse) => NodeKind::Filled(Template::If),
        kind => kind,
    }
}

/// The open list around a node that has ended, with that node as one item more.
fn with_node(list: OpenList, node: Node) -> Result<OpenList, NotRead>
    ensures { Gives open_list_of result (Some (record (open_list_of list) {
      items = join (open_list_of list).items (roomless (Forest.cons node.label node.inner Forest.nil));
    })) }
{
    let OpenList {
        items,
        count,
        filling,
    } = list;
    let mut items = items;
    match items.push(node) {
        Ok(()) => Ok(OpenList {
            items,
            count: count.saturating_add(1),
            filling,
        }),
        Err(refused) => {
            drop(refused);
            drop(items);
            Err(NotRead::OutOfMemory)
        }
    }
}

/// What a line does to an open list that it only brings so far.
fn with_filling(list: OpenList, filling: Filling) -> OpenList
    ensures { open_list_of result ≡ record (open_list_of list) { filling = filling_of filling } }
{
    let OpenList { items, count, .. } = list;
    OpenList {
        items,
        count,
        filling,
    }
}

/// The open lists once a node is opened in the innermost one, if it may come there.
fn begun(
    alloc: Global,
    stack: OpenNodes,
    kind: NodeKind,
    parts: Vec<PhrasePlace>,
) -> Result<OpenNodes, NotRead>
    ensures { Gives open_nodes_of result (begun kind (map plain_phrase_place parts.items) (open_nodes_of stack)) }
{
    match stack.own.filling.advanced(kind.row().sort) {
        Some(filling) => with_open_node(alloc, stack, kind, parts, filling),
        None => {
            drop(stack);
            drop(parts);
            Err(NotRead::Refused)
        }
    }
}

/// The open lists once a node is opened in the innermost one, which has then come so far.
#[tactic(auto, using(crate::proofs::OpenNodes::frames_push))]
fn with_open_node(
    alloc: Global,
    stack: OpenNodes,
    kind: NodeKind,
    parts: Vec<PhrasePlace>,
    filling: Filling,
) -> Result<OpenNodes, NotRead>
    ensures { Gives open_nodes_of result (Some (with_open_node kind (map plain_phrase_place parts.items)
        (open_nodes_of stack) (filling_of filling))) }
{
    let OpenNodes { own, frames } = stack;
    let around = with_filling(own, filling);
    match with_frame(
        frames,
        OpenNode {
            kind,
            parts,
            around,
        },
    ) {
        Ok(frames) => Ok(OpenNodes {
            own: OpenList::new(alloc, Filling::of(kind.row().sections)),
            frames,
        }),
        Err(fault) => Err(fault),
    }
}

/// The open nodes with one more, the innermost then.
fn with_frame(frames: Vec<OpenNode>, frame: OpenNode) -> Result<Vec<OpenNode>, NotRead>
    ensures { Gives (λ list. list.items) result (Some (frames.items ++ frame ∷ [])) }
{
    let mut longer = frames;
    match longer.push(frame) {
        Ok(()) => Ok(longer),
        Err(refused) => {
            drop(refused);
            drop(longer);
            Err(NotRead::OutOfMemory)
        }
    }
}

/// The open lists behind the line before a section of the innermost node, if it is wanted.
fn led(stack: OpenNodes) -> Result<OpenNodes, NotRead>
    ensures { Gives open_nodes_of result (led_in (codes "ELSE") (open_nodes_of stack) (open_nodes_of stack).outer) }
{
    match behind_lead(&stack) {
        Some(filling) => {
            let OpenNodes { own, frames } = stack;
            Ok(OpenNodes {
                own: with_filling(own, filling),
                frames,
            })
        }
        None => {
            drop(stack);
            Err(NotRead::Refused)
        }
    }
}

/// How far the list of the innermost node has come behind the line before a section, if some node is open and that is
/// wanted.
fn behind_lead(stack: &OpenNodes) -> Option<Filling>
    ensures { option_map (λ filling. with_filling (open_nodes_of stack.now) (filling_of filling)) result
        ≡ led_in (codes "ELSE") (open_nodes_of stack.now) (open_nodes_of stack.now).outer }
{
    if stack.frames.is_empty() {
        return None;
    }
    stack.own.filling.behind_lead()
}

/// The open lists behind the last line of the innermost node, if that may end.
#[tactic(auto, using(crate::proofs::OpenNodes::frames_push))]
fn ended(stack: OpenNodes) -> Result<OpenNodes, NotRead>
    ensures { Gives open_nodes_of result
        (ended_in (codes "END;") (open_nodes_of stack).own (open_nodes_of stack).outer) }
{
    let OpenNodes { own, frames } = stack;
    let mut outer = frames;
    match outer.pop() {
        Some(frame) => ended_around(own, frame, outer),
        None => {
            drop(own);
            drop(outer);
            Err(NotRead::Refused)
        }
    }
}

/// The open lists behind the last line of the innermost node, which stands in these others, if that may end.
fn ended_around(own: OpenList, frame: OpenNode, outer: Vec<OpenNode>) -> Result<OpenNodes, NotRead>
    ensures { Gives open_nodes_of result
        (ended_in (codes "END;") (open_list_of own) (open_node_of frame ∷ open_nodes_on [] outer.items)) }
{
    if !ends_by_line(frame.kind, own.filling) {
        drop(own);
        drop(frame);
        drop(outer);
        return Err(NotRead::Refused);
    }
    match closed(own, frame) {
        Ok(around) => Ok(OpenNodes {
            own: around,
            frames: outer,
        }),
        Err(fault) => {
            drop(outer);
            Err(fault)
        }
    }
}

/// Whether a node of the kind whose list has come so far may end with a line of its own.
fn ends_by_line(kind: NodeKind, filling: Filling) -> bool
    ensures { result ≡ (is_text (codes "END;") (row_of kind).last && optional (filling_of filling).left) }
{
    is_text(LAST, kind.row().last) && filling.may_end()
}
