//! The spans of slots, found by slot.
ghost use Rattle.std.specs.Prelude.{◌≡◌, IfOk, OnOk, flat_map};
ghost use Rattle.std.specs.FinMap.{empty, from_entries, get, insert};
ghost use Rattle.plcs_code.specs.Gen.{has_code, sort_has_code, span_by_slot};
ghost use Rattle.plcs_code.specs.Private.CodeMaps.{with_all};

use crate::node_span::NodeSpan;
use indexmap::IndexMap;
use plcs_base::{OutOfMemory, Slot};
use plcs_grammar::{NodeKind, Sort};
use std::alloc::Global;
use std::marker::Model;

/// The address and the length of the code of what stands in each slot, which contracts see as a finite map.
#[derive(Drop)]
pub(crate) struct Spans {
    spans: IndexMap<u32, (u32, u32)>,
}

impl Model for Spans {
    ghost use Rattle.std.specs.FinMap.{from_entries};
    ghost use Rattle.plcs_code.specs.Gen.{SpanMap};
    ghost use Rattle.plcs_code.specs.Private.InstrCode.{span_map_code};

    ghost Value = { SpanMap };

    ghost coded = { span_map_code };

    ghost view = { λ a. from_entries a.spans.entries };
}

impl Spans {
    /// The span of each of the nodes that has code.
    pub(crate) fn of(alloc: Global, nodes: &[NodeSpan]) -> Result<Spans, OutOfMemory>
        ensures { IfOk result (λ spans. spans ≡ from_entries (flat_map span_by_slot nodes.now)) }
    {
        let mut spans = Spans::new(alloc);
        let mut k = nodes.len();
        while k > 0 {
            k -= 1;
            let Some(node) = nodes.get(k) else {
                unreachable!()
            };
            let Ok(()) = spans.note(node) else {
                return Err(OutOfMemory);
            };
        }
        Ok(spans)
    }

    /// The span of the slot, or `None` where it has no code.
    pub(crate) fn get(&self, slot: Slot) -> Option<(u32, u32)>
        ensures { result ≡ get self.now slot.0 }
    {
        match self.spans.get(&slot.0) {
            Some(span) => Some(*span),
            None => None,
        }
    }

    /// No spans of slots yet.
    fn new(alloc: Global) -> Spans
        ensures { result ≡ empty }
    {
        Spans {
            spans: IndexMap::new(alloc),
        }
    }

    /// Notes the span of a node, if it has code.
    fn note(&mut self, node: &NodeSpan) -> Result<(), OutOfMemory>
        ensures { OnOk result (self.new ≡ with_all (span_by_slot node.now) self.old) }
    {
        if !has_code(node.kind) {
            return Ok(());
        }
        self.put(node.slot, node.start, node.length)
    }

    /// Puts a span under its slot.
    fn put(&mut self, slot: Slot, start: u32, length: u32) -> Result<(), OutOfMemory>
        ensures { OnOk result (self.new ≡ insert self.old slot.0 (start, length)) }
    {
        let Ok(_) = self.spans.insert(slot.0, (start, length)) else {
            return Err(OutOfMemory);
        };
        Ok(())
    }
}

/// Whether the slot of a node of the kind has a span, that of the node's code: a declaration has no code, nor
/// has a hole for a procedure.
pub fn has_code(kind: NodeKind) -> bool
    ensures { result ≡ has_code kind }
{
    match kind {
        NodeKind::ProcedureHole => false,
        NodeKind::DeclarationHole => false,
        NodeKind::StatementHole => true,
        NodeKind::Main => true,
        NodeKind::Assign => true,
        NodeKind::Filled(template) => sort_has_code(NodeKind::Filled(template).row().sort),
    }
}

/// Whether nodes of the sort have code, so that there are spans to find by their slots.
fn sort_has_code(sort: Sort) -> bool
    ensures { result ≡ sort_has_code sort }
{
    match sort {
        Sort::Main => true,
        Sort::Procedure => true,
        Sort::Declaration => false,
        Sort::Statement => true,
    }
}
