//! The code of a program, made afresh.
ghost use Rattle.std.specs.Prelude.{◌≡◌, ◌++◌, [], IfOk, OnOk, flat_map, length};
ghost use Rattle.std.specs.FinMap.{empty, from_entries};
ghost use Rattle.template_tree.specs.Programs.Tree.{IsTree};
ghost use Rattle.plcs_code.specs.Counts.{Emits, EmitsAtMost};
ghost use Rattle.plcs_code.specs.Gen.{Gen, addresses_in, node_address, node_spans, span_by_slot};

use crate::addresses::Addresses;
use crate::block::Block;
use crate::flat_code::FlatCode;
use crate::headings::Headings;
use crate::laid::Laid;
use crate::lengths::Lengths;
use crate::node_span::NodeSpan;
use crate::spans::Spans;
use plcs_base::{Marked, OutOfMemory, Scope, Work};
use std::alloc::Global;
use template_tree::{Tree, items_are_nodes, path_of_item};

/// The code of the tree, by these marks and these effective items. Each instruction is emitted once, and counted
/// as work of `W`; so are those that were emitted before memory ran out.
///
/// The lengths of all codes are counted ahead, so that it takes time in proportion to the tree and its code. Code
/// of more than 2,147,483,645 instructions, which no program within the limits has, is refused as if memory had run
/// out.
pub fn generate<W: Work, M: Marked, D: Scope>(
    alloc: Global,
    tree: &Tree,
    marks: &M,
    scope: &D,
    work: &mut W,
) -> Result<FlatCode<W>, OutOfMemory>
    requires tree { IsTree tree.now }
    ensures code { IfOk result (λ code. code ≡ Gen (M.marks marks.now) (D.items scope.now) tree.now.items) }
    ensures counted { OnOk result (Emits (length (Gen (M.marks marks.now) (D.items scope.now) tree.now.items).instrs)
        (W.counts work.old) (W.counts work.new)) }
    ensures counts { EmitsAtMost (length (Gen (M.marks marks.now) (D.items scope.now) tree.now.items).instrs)
        (W.counts work.old) (W.counts work.new) }
{
    let mut laid = Laid::new(alloc);
    let mut headings = Headings::new(alloc);
    match lay_program(alloc, tree, marks, scope, &mut laid, &mut headings, work) {
        Ok(()) => flat_code(alloc, laid, headings),
        Err(error) => Err(error),
    }
}

/// The code of a program that was laid, with these headings.
fn flat_code<W>(
    alloc: Global,
    laid: Laid<W>,
    headings: Headings,
) -> Result<FlatCode<W>, OutOfMemory>
    ensures { IfOk result (λ code. code ≡ record {
      instrs = laid.instrs;
      addresses = from_entries (flat_map node_address laid.spans ++ addresses_in 0 laid.instrs);
      headings = headings;
      spans = from_entries (flat_map span_by_slot laid.spans);
    }) }
{
    let (block, nodes) = laid.into_parts();
    match maps_of(alloc, &nodes, &block) {
        Ok((addresses, spans)) => Ok(FlatCode {
            block,
            addresses,
            headings,
            spans,
        }),
        Err(error) => Err(error),
    }
}

/// The addresses of places and the spans of slots in code, in which the nodes stand so.
fn maps_of<W>(
    alloc: Global,
    nodes: &[NodeSpan],
    code: &Block<W>,
) -> Result<(Addresses, Spans), OutOfMemory>
    ensures addresses { IfOk result (λ maps. maps.0
        ≡ from_entries (flat_map node_address nodes.now ++ addresses_in 0 code.now)) }
    ensures spans { IfOk result (λ maps. maps.1 ≡ from_entries (flat_map span_by_slot nodes.now)) }
{
    let Ok(addresses) = Addresses::of(alloc, nodes, code) else {
        return Err(OutOfMemory);
    };
    let Ok(spans) = Spans::of(alloc, nodes) else {
        return Err(OutOfMemory);
    };
    Ok((addresses, spans))
}

/// Makes the code of main and of each procedure afresh, and notes their headings.
fn lay_program<W: Work, M: Marked, D: Scope>(
    alloc: Global,
    tree: &Tree,
    marks: &M,
    scope: &D,
    laid: &mut Laid<W>,
    headings: &mut Headings,
    work: &mut W,
) -> Result<(), OutOfMemory>
    requires tree { IsTree tree.now }
    requires laid { laid.old ≡ record { instrs = []; spans = [] } }
    requires headings { headings.old ≡ empty }
    ensures laid { OnOk result (laid.new ≡ record {
      instrs = (Gen (M.marks marks.now) (D.items scope.now) tree.now.items).instrs;
      spans = node_spans (M.marks marks.now) (D.items scope.now) 0 0 tree.now.items;
    }) }
    ensures headings { OnOk result (headings.new
        ≡ (Gen (M.marks marks.now) (D.items scope.now) tree.now.items).headings) }
    ensures counted { OnOk result (Emits (length (Gen (M.marks marks.now) (D.items scope.now) tree.now.items).instrs)
        (W.counts work.old) (W.counts work.new)) }
    ensures counts { EmitsAtMost (length (Gen (M.marks marks.now) (D.items scope.now) tree.now.items).instrs)
        (W.counts work.old) (W.counts work.new) }
{
    items_are_nodes();
    let Ok(mut lengths) = Lengths::of(alloc, tree, marks, scope, work) else {
        return Err(OutOfMemory);
    };
    let mut k = 0;
    while let Some(item) = tree.node(&path_of_item(k)) {
        let Ok(()) = headings.note(item, laid.length()) else {
            drop(lengths);
            return Err(OutOfMemory);
        };
        let Ok(()) = laid.lay_node(alloc, item, marks, scope, &mut lengths, work) else {
            drop(lengths);
            return Err(OutOfMemory);
        };
        k += 1;
    }
    drop(lengths);
    Ok(())
}
