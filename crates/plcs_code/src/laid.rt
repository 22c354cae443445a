//! The code of a program, laid node by node, with where each node's code stands.
ghost use Rattle.std.specs.Prelude.{◌≡◌, ◌+◌, ◌<◌, ◌≤◌, ◌∷◌, ◌++◌, [], IfOk, List, OnOk, length, option_map, sum};
ghost use Rattle.std.specs.Option.{option_to_list};
ghost use Rattle.template_tree.specs.Programs.Limit.{most_slots};
ghost use Rattle.template_tree.specs.Programs.PlainTree.{forest};
ghost use Rattle.template_tree.specs.Programs.Program.{IsSubtree};
ghost use Rattle.template_tree.specs.Programs.Slots.{count};
ghost use Rattle.plcs_code.specs.BlockLimit.{most_instrs};
ghost use Rattle.plcs_code.specs.Counts.{Emits, EmitsAtMost};
ghost use Rattle.plcs_code.specs.Gen.{codes_around, node_codes, node_lengths};
ghost use Rattle.plcs_code.specs.Pieces.{own_pieces, pieces};
ghost use Rattle.plcs_code.specs.PlainInstr.{plain_instr};
ghost use Rattle.plcs_code.specs.Private.LaidCode.{BeginWith, front, jumps_by, listed_lengths, with_instrs, with_nodes, with_span};

use crate::block::Block;
use crate::instr::Instr;
use crate::instr_out::Draft;
use crate::jumps::{lay_jump, own_jumps};
use crate::lay_before::lay_before;
use crate::lay_behind::lay_behind;
use crate::lengths::{Lengths, NodeLength};
use crate::node_span::NodeSpan;
use crate::procedure_items::procedure_items;
use plcs_base::{Declared, Marked, OutOfMemory, Scope, Work};
use std::alloc::Global;
use std::marker::Model;
use template_tree::{Node, items_are_nodes};

/// Code while it is laid node by node, which contracts see as its instructions and the spans of its nodes.
#[derive(Drop)]
pub(crate) struct Laid<W> {
    draft: Draft<W>,
    pub(crate) spans: Vec<NodeSpan>,
}

/// In the code of a program that is laid node by node, the jumps of a node that are still to be laid, behind
/// nodes inside it, each one instruction or none.
#[derive(Drop)]
struct JumpsBehind {
    /// Behind the code of the first of them.
    between: Option<Instr>,
    /// Behind the codes of all.
    back: Option<Instr>,
}

impl<W> Model for Laid<W> {
    ghost use Rattle.plcs_code.specs.Private.LaidCode.{PlainLaid, laid_code};

    ghost Value = { PlainLaid };

    ghost coded = { laid_code };

    ghost view = { λ a. record { instrs = a.draft.instrs; spans = a.spans.items } };
}

impl<W> Laid<W> {
    /// No code that is laid yet. It takes no memory.
    pub(crate) fn new(alloc: Global) -> Laid<W>
        ensures { result ≡ record { instrs = []; spans = [] } }
    {
        Laid {
            draft: Draft::new(alloc),
            spans: Vec::new(alloc),
        }
    }

    /// How many instructions of the program's code are laid so far.
    pub(crate) fn length(&self) -> u32
        ensures { result ≡ length self.now.instrs }
    {
        self.draft.length()
    }

    /// The instructions that were laid, and the spans of the nodes.
    pub(crate) fn into_parts(self) -> (Block<W>, Vec<NodeSpan>)
        ensures block { result.0 ≡ self.instrs }
        ensures spans { result.1.items ≡ self.spans }
    {
        (self.draft.into_block(), self.spans)
    }
}

impl<W: Work> Laid<W> {
    /// Lays the code of a node, what stands inside it included, by the lengths of its nodes, which it takes.
    #[cycle(lay_node)]
    pub(crate) fn lay_node<M: Marked, D: Scope>(
        &mut self,
        alloc: Global,
        node: &Node,
        marks: &M,
        scope: &D,
        lengths: &mut Lengths,
        work: &mut W,
    ) -> Result<(), OutOfMemory>
        requires subtree { IsSubtree node.now }
        requires few { count node.now.inner < most_slots }
        requires short { sum (node_lengths (M.marks marks.now) (D.items scope.now) (forest (node.now ∷ []))) + 2
            ≤ most_instrs }
        requires lengths { BeginWith (listed_lengths (M.marks marks.now) (D.items scope.now) (forest (node.now ∷ [])))
            lengths.old }
        ensures laid { OnOk result (self.new ≡ with_nodes (M.marks marks.now) (D.items scope.now) []
            (forest (node.now ∷ [])) self.old) }
        ensures lengths { OnOk result (lengths.old
            ≡ listed_lengths (M.marks marks.now) (D.items scope.now) (forest (node.now ∷ [])) ++ lengths.new) }
        ensures counted { OnOk result (Emits (length (codes_around []
            (node_codes (M.marks marks.now) (D.items scope.now) (forest (node.now ∷ [])))))
            (W.counts work.old) (W.counts work.new)) }
        ensures counts { EmitsAtMost (length (codes_around [] (node_codes (M.marks marks.now) (D.items scope.now)
            (forest (node.now ∷ []))))) (W.counts work.old) (W.counts work.new) }
    {
        let Some(length) = lengths.next() else {
            unreachable!()
        };
        let Ok(behind) = self.lay_head(alloc, node, marks, scope, length, work) else {
            return Err(OutOfMemory);
        };
        match self.lay_inside(alloc, node, behind.between, marks, scope, lengths, work) {
            Ok(()) => self.lay_rest(alloc, node, marks, behind.back, work),
            Err(OutOfMemory) => {
                drop(behind.back);
                Err(OutOfMemory)
            }
        }
    }

    /// Lays the codes of the nodes inside a node, with a jump behind the first of them.
    #[cycle(lay_node)]
    fn lay_inside<M: Marked, D: Scope>(
        &mut self,
        alloc: Global,
        node: &Node,
        between: Option<Instr>,
        marks: &M,
        scope: &D,
        lengths: &mut Lengths,
        work: &mut W,
    ) -> Result<(), OutOfMemory>
        requires subtree { IsSubtree node.now }
        requires few { count node.now.inner < most_slots }
        requires short { sum (node_lengths (M.marks marks.now) (D.items scope.now) node.now.inner) + 2 ≤ most_instrs }
        requires lengths { BeginWith (listed_lengths (M.marks marks.now) (D.items scope.now) node.now.inner)
            lengths.old }
        ensures laid { OnOk result (self.new ≡ with_nodes (M.marks marks.now) (D.items scope.now)
            (option_to_list (option_map plain_instr between)) node.now.inner self.old) }
        ensures lengths { OnOk result (lengths.old
            ≡ listed_lengths (M.marks marks.now) (D.items scope.now) node.now.inner ++ lengths.new) }
        ensures counted { OnOk result (Emits (length (codes_around (option_to_list (option_map plain_instr between))
            (node_codes (M.marks marks.now) (D.items scope.now) node.now.inner)))
            (W.counts work.old) (W.counts work.new)) }
        ensures counts { EmitsAtMost (length (codes_around (option_to_list (option_map plain_instr between))
            (node_codes (M.marks marks.now) (D.items scope.now) node.now.inner)))
            (W.counts work.old) (W.counts work.new) }
    {
        items_are_nodes();
        let mut jump = between;
        let mut k = 0;
        while let Some(child) = node.child(k) {
            let Ok(()) = self.lay_node(alloc, child, marks, scope, lengths, work) else {
                drop(jump);
                return Err(OutOfMemory);
            };
            let Ok(()) = self.lay_jump(jump.take(), work) else {
                drop(jump);
                return Err(OutOfMemory);
            };
            k += 1;
        }
        self.lay_jump(jump, work)
    }

    /// Notes where the code of a node of these lengths stands, lays what stands before the nodes inside it, and answers
    /// the jumps that come behind them.
    fn lay_head<M: Marked, D: Scope>(
        &mut self,
        alloc: Global,
        node: &Node,
        marks: &M,
        scope: &D,
        lengths: NodeLength,
        work: &mut W,
    ) -> Result<JumpsBehind, OutOfMemory>
        requires few { length node.now.label.parts < 256 }
        requires short { lengths.pieces + lengths.first + lengths.others + 2 ≤ most_instrs }
        ensures laid { OnOk result (self.new ≡ with_instrs
            (front (M.marks marks.now) (D.items scope.now) node.now.label lengths) (with_span (record {
              slot = record { 0 = node.now.label.slot };
              kind = node.now.label.kind;
              start = length self.old.instrs;
              length = lengths.whole;
            }) self.old)) }
        ensures between { IfOk result (λ behind. option_map plain_instr behind.between
            ≡ (jumps_by (M.marks marks.now) (D.items scope.now) node.now.label lengths).between) }
        ensures back { IfOk result (λ behind. option_map plain_instr behind.back
            ≡ (jumps_by (M.marks marks.now) (D.items scope.now) node.now.label lengths).back) }
        ensures counted { OnOk result (Emits
            (length (front (M.marks marks.now) (D.items scope.now) node.now.label lengths))
            (W.counts work.old) (W.counts work.new)) }
        ensures counts { EmitsAtMost (length (front (M.marks marks.now) (D.items scope.now) node.now.label lengths))
            (W.counts work.old) (W.counts work.new) }
    {
        let Ok(()) = self.begin(node, lengths.whole) else {
            return Err(OutOfMemory);
        };
        self.lay_front(alloc, node, marks, scope, lengths, work)
    }

    /// Notes where the code of a node stands in the code that is laid: from here on, with this length.
    fn begin(&mut self, node: &Node, whole: u32) -> Result<(), OutOfMemory>
        ensures { OnOk result (self.new ≡ with_span (record {
          slot = record { 0 = node.now.label.slot };
          kind = node.now.label.kind;
          start = length self.old.instrs;
          length = whole;
        }) self.old) }
    {
        let span = NodeSpan {
            slot: node.slot(),
            kind: node.kind(),
            start: self.length(),
            length: whole,
        };
        let Ok(()) = self.spans.push(span) else {
            return Err(OutOfMemory);
        };
        Ok(())
    }

    /// Lays what stands before the nodes inside a node, and answers the jumps that come behind them.
    fn lay_front<M: Marked, D: Scope>(
        &mut self,
        alloc: Global,
        node: &Node,
        marks: &M,
        scope: &D,
        lengths: NodeLength,
        work: &mut W,
    ) -> Result<JumpsBehind, OutOfMemory>
        requires few { length node.now.label.parts < 256 }
        requires short { lengths.pieces + lengths.first + lengths.others + 2 ≤ most_instrs }
        ensures laid { OnOk result (self.new ≡ with_instrs
            (front (M.marks marks.now) (D.items scope.now) node.now.label lengths) self.old) }
        ensures between { IfOk result (λ behind. option_map plain_instr behind.between
            ≡ (jumps_by (M.marks marks.now) (D.items scope.now) node.now.label lengths).between) }
        ensures back { IfOk result (λ behind. option_map plain_instr behind.back
            ≡ (jumps_by (M.marks marks.now) (D.items scope.now) node.now.label lengths).back) }
        ensures counted { OnOk result (Emits
            (length (front (M.marks marks.now) (D.items scope.now) node.now.label lengths))
            (W.counts work.old) (W.counts work.new)) }
        ensures counts { EmitsAtMost (length (front (M.marks marks.now) (D.items scope.now) node.now.label lengths))
            (W.counts work.old) (W.counts work.new) }
    {
        let Ok(()) = self.lay_before_by_scope(alloc, node, marks, scope, work) else {
            return Err(OutOfMemory);
        };
        let jumps = own_jumps(node, marks, lengths.pieces, lengths.first, lengths.others);
        let behind = JumpsBehind {
            between: jumps.between,
            back: jumps.back,
        };
        match self.lay_jump(jumps.ahead, work) {
            Ok(()) => Ok(behind),
            Err(OutOfMemory) => {
                drop(behind.between);
                drop(behind.back);
                Err(OutOfMemory)
            }
        }
    }

    /// Lays what stands in the own code of a node before the nodes inside it, by the effective items of the program.
    fn lay_before_by_scope<M: Marked, D: Scope>(
        &mut self,
        alloc: Global,
        node: &Node,
        marks: &M,
        scope: &D,
        work: &mut W,
    ) -> Result<(), OutOfMemory>
        requires few { length node.now.label.parts < 256 }
        ensures laid { OnOk result (self.new ≡ with_instrs
            (pieces (M.marks marks.now) (D.items scope.now) node.now.label).before self.old) }
        ensures counted { OnOk result (Emits
            (length (pieces (M.marks marks.now) (D.items scope.now) node.now.label).before)
            (W.counts work.old) (W.counts work.new)) }
        ensures counts { EmitsAtMost (length (pieces (M.marks marks.now) (D.items scope.now) node.now.label).before)
            (W.counts work.old) (W.counts work.new) }
    {
        match procedure_items(alloc, scope, node) {
            Ok(items) => {
                let laid = self.lay_before(alloc, node, marks, &items, work);
                drop(items);
                laid
            }
            Err(OutOfMemory) => Err(OutOfMemory),
        }
    }

    /// Lays the code of the program node by node: of this node what stands in its own code before the nodes
    /// inside it.
    fn lay_before<M: Marked>(
        &mut self,
        alloc: Global,
        node: &Node,
        marks: &M,
        items: &[Declared],
        work: &mut W,
    ) -> Result<(), OutOfMemory>
        requires few { length node.now.label.parts < 256 }
        ensures laid { OnOk result (self.new ≡ with_instrs
            (own_pieces (M.marks marks.now) items.now node.now.label).before self.old) }
        ensures counted { OnOk result (Emits (length (own_pieces (M.marks marks.now) items.now node.now.label).before)
            (W.counts work.old) (W.counts work.new)) }
        ensures counts { EmitsAtMost (length (own_pieces (M.marks marks.now) items.now node.now.label).before)
            (W.counts work.old) (W.counts work.new) }
    {
        lay_before(alloc, node, marks, items, &mut self.draft, work);
        let Ok(_) = self.draft.end() else {
            return Err(OutOfMemory);
        };
        Ok(())
    }

    /// Lays the rest of a node's code in that of the program, behind the nodes inside it, with the jump back.
    fn lay_rest<M: Marked>(
        &mut self,
        alloc: Global,
        node: &Node,
        marks: &M,
        back: Option<Instr>,
        work: &mut W,
    ) -> Result<(), OutOfMemory>
        ensures laid { OnOk result (self.new ≡ with_instrs
            ((own_pieces (M.marks marks.now) [] node.now.label).behind
            ++ option_to_list (option_map plain_instr back)) self.old) }
        ensures counted { OnOk result (Emits (length ((own_pieces (M.marks marks.now) [] node.now.label).behind
            ++ option_to_list (option_map plain_instr back))) (W.counts work.old) (W.counts work.new)) }
        ensures counts { EmitsAtMost (length ((own_pieces (M.marks marks.now) [] node.now.label).behind
            ++ option_to_list (option_map plain_instr back))) (W.counts work.old) (W.counts work.new) }
    {
        lay_behind(alloc, node, marks, &mut self.draft, work);
        lay_jump(back, &mut self.draft, work);
        let Ok(_) = self.draft.end() else {
            return Err(OutOfMemory);
        };
        Ok(())
    }

    /// Lays a jump into the code of a program that is laid node by node, if there is one.
    fn lay_jump(&mut self, jump: Option<Instr>, work: &mut W) -> Result<(), OutOfMemory>
        ensures laid { OnOk result (self.new ≡ with_instrs (option_to_list (option_map plain_instr jump)) self.old) }
        ensures counted { OnOk result (Emits (length (option_to_list (option_map plain_instr jump))) (W.counts work.old)
            (W.counts work.new)) }
        ensures counts { EmitsAtMost (length (option_to_list (option_map plain_instr jump))) (W.counts work.old)
            (W.counts work.new) }
    {
        lay_jump(jump, &mut self.draft, work);
        let Ok(_) = self.draft.end() else {
            return Err(OutOfMemory);
        };
        Ok(())
    }
}
