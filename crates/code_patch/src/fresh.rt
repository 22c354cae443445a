//! What is kept of the code of a node, made anew from the node of the tree.
ghost use Rattle.std.specs.Prelude.{◌≡◌, ◌+◌, ◌-◌, ◌^◌, ◌<◌, ◌≤◌, ◌∷◌, [], IfOk, OnOk, length, sum};
ghost use Rattle.plcs_code.specs.BlockLimit.{most_instrs};
ghost use Rattle.plcs_code.specs.Counts.{Emits, EmitsAtMost};
ghost use Rattle.plcs_code.specs.Gen.{node_lengths};
ghost use Rattle.plcs_code.specs.OwnCode.{jumps_around, no_own_code};
ghost use Rattle.template_tree.specs.Programs.Limit.{most_slots};
ghost use Rattle.template_tree.specs.Programs.Program.{IsSubtree};
ghost use Rattle.template_tree.specs.Programs.Slots.{count};
ghost use Rattle.code_patch.specs.CodeEdit.{join_code, roomless_code};
ghost use Rattle.code_patch.specs.CodeForest.{CodeForest, kept_code, kept_lengths, code_nodes};
ghost use Rattle.code_patch.specs.PreparedEdit.{AreJumps};
ghost use Rattle.code_patch.specs.Private.JumpRoom.{jump_room};
ghost use Rattle.code_patch.specs.Private.MadeJumps.{AreMadeJumps, count_jumps};
ghost use Rattle.code_patch.specs.Private.OuterNodes.{IsOuter, nodes_inside};
ghost use Rattle.code_patch.specs.Private.PlainCodeNode.{code_forest, jumps_length, kept_length, kept_node, node_length, roomless_code_node};
ghost use Rattle.code_patch.specs.Private.StepsView.{plain_jumps};

use crate::code_node::CodeNode;
use crate::outer::Outer;
use plcs_base::{Marked, OutOfMemory, Scope, Work};
use plcs_code::{JumpBlocks, MOST_INSTRS, OwnCode, lengths_are_told};
use std::alloc::Global;
use template_tree::{Node, items_are_nodes};

/// How many instructions the length of what a node has but its jumps leaves free of the limit of code: three for the
/// jumps, and two that are asked for where these are made.
const JUMP_ROOM: u32 = 5;

impl<W: Work> CodeNode<W> {
    /// What is kept of the code of the node, made anew by these marks and these effective items. Each instruction is
    /// emitted once.
    #[cycle(of)]
    pub(crate) fn of<M: Marked, D: Scope>(
        alloc: Global,
        node: &Node,
        marks: &M,
        scope: &D,
        work: &mut W,
    ) -> Result<CodeNode<W>, OutOfMemory>
        requires subtree { IsSubtree node.now }
        requires few { count node.now.inner < most_slots }
        ensures kept { IfOk result (λ kept.
            roomless_code_node kept ≡ kept_node (M.marks marks.now) (D.items scope.now) node.now) }
        ensures counted { OnOk result (Emits (node_length (M.marks marks.now) (D.items scope.now) node.now)
            (W.counts work.old) (W.counts work.new)) }
        ensures counts { EmitsAtMost (node_length (M.marks marks.now) (D.items scope.now) node.now)
            (W.counts work.old) (W.counts work.new) }
    {
        lengths_are_told();
        let Ok(own) = OwnCode::of(alloc, node, marks, scope, work) else {
            return Err(OutOfMemory);
        };
        let mut kept = CodeNode::none(alloc);
        match kept.fill(alloc, &Outer::Node(node), marks, scope, work) {
            Ok(()) => kept.with_own(alloc, own, work),
            Err(OutOfMemory) => {
                drop(own);
                drop(kept);
                Err(OutOfMemory)
            }
        }
    }

    /// What is kept of the codes of the nodes inside the program or a node of it, made anew by these marks and these
    /// effective items, inside a node without own code. Each instruction is emitted once.
    pub(crate) fn inside<M: Marked, D: Scope>(
        alloc: Global,
        outer: &Outer<'_>,
        marks: &M,
        scope: &D,
        work: &mut W,
    ) -> Result<CodeNode<W>, OutOfMemory>
        requires outer { IsOuter outer.now }
        ensures own { IfOk result (λ kept. kept.own ≡ no_own_code) }
        ensures inner { IfOk result (λ kept. roomless_code kept.inner
            ≡ kept_code (M.marks marks.now) (D.items scope.now) (nodes_inside outer.now)) }
        ensures short { IfOk result (λ kept. kept_length kept ≤ most_instrs) }
        ensures counted { OnOk result (Emits
            (sum (node_lengths (M.marks marks.now) (D.items scope.now) (nodes_inside outer.now)))
            (W.counts work.old) (W.counts work.new)) }
        ensures counts { EmitsAtMost
            (sum (node_lengths (M.marks marks.now) (D.items scope.now) (nodes_inside outer.now)))
            (W.counts work.old) (W.counts work.new) }
    {
        let mut kept = CodeNode::none(alloc);
        match kept.fill(alloc, outer, marks, scope, work) {
            Ok(()) => Ok(kept),
            Err(OutOfMemory) => {
                drop(kept);
                Err(OutOfMemory)
            }
        }
    }

    /// Puts what is kept of the nodes inside the program or a node of it, made anew by these marks and these effective
    /// items, inside this node, which has no own code and nothing inside. Each instruction is emitted once.
    #[cycle(of)]
    fn fill<M: Marked, D: Scope>(
        &mut self,
        alloc: Global,
        outer: &Outer<'_>,
        marks: &M,
        scope: &D,
        work: &mut W,
    ) -> Result<(), OutOfMemory>
        requires own { self.old.own ≡ no_own_code }
        requires empty { self.old.inner ≡ CodeForest.nil }
        requires outer { IsOuter outer.now }
        ensures own { OnOk result (self.new.own ≡ no_own_code) }
        ensures inner { OnOk result (roomless_code self.new.inner
            ≡ kept_code (M.marks marks.now) (D.items scope.now) (nodes_inside outer.now)) }
        ensures short { OnOk result (kept_length self.new ≤ most_instrs) }
        ensures counted { OnOk result (Emits
            (sum (node_lengths (M.marks marks.now) (D.items scope.now) (nodes_inside outer.now)))
            (W.counts work.old) (W.counts work.new)) }
        ensures counts { EmitsAtMost
            (sum (node_lengths (M.marks marks.now) (D.items scope.now) (nodes_inside outer.now)))
            (W.counts work.old) (W.counts work.new) }
    {
        items_are_nodes();
        let mut k = 0;
        while let Some(node) = outer.child(k) {
            let Ok(child) = CodeNode::of(alloc, node, marks, scope, work) else {
                return Err(OutOfMemory);
            };
            self.push(child)?;
            k += 1;
        }
        Ok(())
    }

    /// What is kept of a node with this own code, inside which is what is kept inside this node. Its jumps are
    /// emitted.
    fn with_own(
        self,
        alloc: Global,
        own: OwnCode<W>,
        work: &mut W,
    ) -> Result<CodeNode<W>, OutOfMemory>
        ensures kept { IfOk result (λ kept. kept ≡ record { own = own; spare = self.spare; inner = self.inner }) }
        ensures counted { OnOk result (Emits (jumps_length own (kept_lengths self.inner))
            (W.counts work.old) (W.counts work.new)) }
        ensures counts { EmitsAtMost (jumps_length own (kept_lengths self.inner))
            (W.counts work.old) (W.counts work.new) }
    {
        match self.jumps_of(alloc, &own, work) {
            Ok(jumps) => Ok(self.completed(own, jumps)),
            Err(OutOfMemory) => {
                drop(own);
                drop(self);
                Err(OutOfMemory)
            }
        }
    }

    /// The jumps of own code beside what is kept inside this node, which are emitted, unless all together would be too
    /// long for code.
    fn jumps_of(
        &self,
        alloc: Global,
        own: &OwnCode<W>,
        work: &mut W,
    ) -> Result<JumpBlocks<W>, OutOfMemory>
        ensures jumps { IfOk result (λ jumps. AreJumps own.now self.now.inner (plain_jumps jumps)) }
        ensures counted { OnOk result (Emits (jumps_length own.now (kept_lengths self.now.inner))
            (W.counts work.old) (W.counts work.new)) }
        ensures counts { EmitsAtMost (jumps_length own.now (kept_lengths self.now.inner))
            (W.counts work.old) (W.counts work.new) }
    {
        let first = self.length_to(1);
        let total = self.length_inside();
        let jumps = jumps_for(alloc, own, first, total, work)?;
        Ok(jumps)
    }
}

impl<W> CodeNode<W> {
    /// What is kept of a node with this own code and these jumps, inside which is what is kept inside this node.
    fn completed(self, own: OwnCode<W>, jumps: JumpBlocks<W>) -> CodeNode<W>
        requires jumps { AreJumps own self.inner (plain_jumps jumps) }
        ensures { result ≡ record { own = own; spare = self.spare; inner = self.inner } }
    {
        let CodeNode {
            own: no_own,
            jumps: no_jumps,
            inner,
            lengths,
        } = self;
        drop(no_own);
        drop(no_jumps);
        CodeNode {
            own,
            jumps,
            inner,
            lengths,
        }
    }
}

impl<W> CodeNode<W> {
    /// Puts what is kept of one more node behind what is kept inside this node, which has no own code.
    fn push(&mut self, node: CodeNode<W>) -> Result<(), OutOfMemory>
        requires own { self.old.own ≡ no_own_code }
        requires few { length (code_nodes self.old.inner) < 2 ^ 32 }
        ensures own { OnOk result (self.new.own ≡ no_own_code) }
        ensures inner { OnOk result (self.new.inner ≡ join_code self.old.inner (code_forest (node ∷ []))) }
        ensures short { OnOk result (kept_length self.new ≤ most_instrs) }
    {
        match self.make_place_for(node.length()) {
            Ok(()) => {
                self.put_last(node);
                Ok(())
            }
            Err(OutOfMemory) => {
                drop(node);
                Err(OutOfMemory)
            }
        }
    }

    /// Makes room for what is kept of one more node inside this node, whose code has this length, unless all together
    /// would be too long for code.
    fn make_place_for(&mut self, more: u32) -> Result<(), OutOfMemory>
        requires few { length (code_nodes self.old.inner) < 2 ^ 32 }
        ensures own { self.new.own ≡ self.old.own }
        ensures inner { self.new.inner ≡ self.old.inner }
        ensures room { OnOk result (0 < self.new.spare) }
        ensures short { OnOk result (sum (kept_lengths self.old.inner) + more ≤ most_instrs) }
    {
        length_within(self.length_inside(), more)?;
        self.reserve_one()
    }

    /// Puts what is kept of one more node, into room that is there, behind what is kept inside this node, which has no
    /// own code.
    fn put_last(&mut self, node: CodeNode<W>)
        requires own { self.old.own ≡ no_own_code }
        requires room { 0 < self.old.spare }
        requires short { sum (kept_lengths self.old.inner) + kept_length node ≤ most_instrs }
        ensures own { self.new.own ≡ self.old.own }
        ensures inner { self.new.inner ≡ join_code self.old.inner (code_forest (node ∷ [])) }
        ensures short { kept_length self.new ≤ most_instrs }
    {
        let length = node.length();
        self.lengths.insert(self.lengths.len(), length);
        self.inner.push_reserved(node);
    }
}

/// The length of kept codes of these two lengths together, unless it would be too long for code with jumps beside it.
pub(crate) fn length_within(one: u32, other: u32) -> Result<u32, OutOfMemory>
    ensures sum { IfOk result (λ n. n ≡ one + other) }
    ensures short { IfOk result (λ n. n + jump_room ≤ most_instrs) }
{
    let Some(total) = one.checked_add(other) else {
        return Err(OutOfMemory);
    };
    if total > MOST_INSTRS as u32 - JUMP_ROOM {
        return Err(OutOfMemory);
    }
    Ok(total)
}

/// The jumps of own code beside codes inside of which the first has one length, and all together have another. They are
/// emitted, unless all together would be too long for code.
pub(crate) fn jumps_for<W: Work>(
    alloc: Global,
    own: &OwnCode<W>,
    first: u32,
    total: u32,
    work: &mut W,
) -> Result<JumpBlocks<W>, OutOfMemory>
    requires first { first ≤ total }
    ensures jumps { IfOk result (λ jumps. AreMadeJumps (jumps_around own.now first (total - first)) (plain_jumps jumps)) }
    ensures short { IfOk result (λ jumps. length own.now.pieces.before + length own.now.pieces.behind + total + jump_room
        ≤ most_instrs) }
    ensures counted { OnOk result (Emits (count_jumps (jumps_around own.now first (total - first)))
        (W.counts work.old) (W.counts work.new)) }
    ensures counts { EmitsAtMost (count_jumps (jumps_around own.now first (total - first)))
        (W.counts work.old) (W.counts work.new) }
{
    bare_length(own, total)?;
    let jumps = own.jumps(alloc, first, total - first, work)?;
    Ok(jumps)
}

/// How long the code of a node is with this own code but for its jumps, where the codes inside have this length
/// together, unless it would be too long for code.
fn bare_length<W>(own: &OwnCode<W>, inside: u32) -> Result<u32, OutOfMemory>
    ensures length { IfOk result (λ n.
        n ≡ length own.now.pieces.before + length own.now.pieces.behind + inside) }
    ensures short { IfOk result (λ n. n + jump_room ≤ most_instrs) }
{
    let pieces = length_within(own.before().length(), own.behind().length())?;
    length_within(pieces, inside)
}
