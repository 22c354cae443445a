//! The lengths of codes, counted ahead of the code.
ghost use Rattle.std.specs.Prelude.{◌≡◌, ◌+◌, ◌<◌, ◌≤◌, ◌∷◌, ◌++◌, [], IfOk, IsSome, OnOk, length, sum};
ghost use Rattle.std.specs.Option.{option_to_list};
ghost use Rattle.plcs_base.specs.PlainCounts.{CountsNothing};
ghost use Rattle.template_tree.specs.Programs.Limit.{most_slots};
ghost use Rattle.template_tree.specs.Programs.PlainTree.{forest};
ghost use Rattle.template_tree.specs.Programs.Program.{IsSubtree};
ghost use Rattle.template_tree.specs.Programs.Slots.{count};
ghost use Rattle.template_tree.specs.Programs.Tree.{IsTree};
ghost use Rattle.plcs_code.specs.BlockLimit.{most_instrs};
ghost use Rattle.plcs_code.specs.Gen.{length_around, node_lengths, own_length};
ghost use Rattle.plcs_code.specs.Pieces.{count_pieces, pieces};
ghost use Rattle.plcs_code.specs.Private.LaidCode.{listed_lengths};

use crate::instr_out::Tally;
use crate::jumps::{lay_jump, own_jumps};
use crate::lay_before::lay_before;
use crate::lay_behind::lay_behind;
use crate::limit::MOST_INSTRS;
use crate::procedure_items::procedure_items;
use plcs_base::{Marked, OutOfMemory, Scope, Work};
use std::alloc::Global;
use std::marker::Model;
use template_tree::{Node, Tree, items_are_nodes, path_of_item};

/// How long the code of a node is, how long are its own pieces together, and how long the codes inside it: that of
/// the first node, and those of the others together.
#[derive(Clone, Copy)]
pub(crate) struct NodeLength {
    pub(crate) whole: u32,
    pub(crate) pieces: u32,
    pub(crate) first: u32,
    pub(crate) others: u32,
}

/// The lengths of nodes in listing order, which contracts see as a list. The first of them stands last in
/// memory, so that each is taken from the end.
#[derive(Drop)]
pub(crate) struct Lengths {
    list: Vec<NodeLength>,
}

impl Model for Lengths {
    ghost use Rattle.std.specs.Prelude.{List, reverse};
    ghost use Rattle.plcs_code.specs.declared.lengths.NodeLength.{NodeLength};
    ghost use Rattle.plcs_code.specs.Private.LaidCode.{lengths_code};

    ghost Value = { List NodeLength };

    ghost coded = { lengths_code };

    ghost view = { λ a. reverse a.list.items };
}

impl Lengths {
    /// The lengths of all nodes of the tree.
    pub(crate) fn of<W: Work, M: Marked, D: Scope>(
        alloc: Global,
        tree: &Tree,
        marks: &M,
        scope: &D,
        work: &mut W,
    ) -> Result<Lengths, OutOfMemory>
        requires tree { IsTree tree.now }
        ensures lengths { IfOk result (λ lengths. lengths
            ≡ listed_lengths (M.marks marks.now) (D.items scope.now) tree.now.items) }
        ensures short { OnOk result
            (sum (node_lengths (M.marks marks.now) (D.items scope.now) tree.now.items) + 2 ≤ most_instrs) }
        ensures uncounted { CountsNothing (W.counts work.old) (W.counts work.new) }
    {
        items_are_nodes();
        let mut lengths = Lengths::new(alloc);
        let mut total = 0;
        let mut k = tree.procedures() + 1;
        // From the last node on, as they stand in memory.
        while k > 0 {
            k -= 1;
            let Some(item) = tree.node(&path_of_item(k)) else {
                unreachable!()
            };
            let Ok(length) = lengths.measure(alloc, item, marks, scope, work) else {
                drop(lengths);
                return Err(OutOfMemory);
            };
            let Ok(sum) = sum_within(length, total) else {
                drop(lengths);
                return Err(OutOfMemory);
            };
            total = sum;
        }
        Ok(lengths)
    }

    /// Takes the length of the next node, in listing order.
    pub(crate) fn next(&mut self) -> Option<NodeLength>
        ensures next { self.old ≡ option_to_list result ++ self.new }
        ensures there { 0 < length self.old → IsSome result }
    {
        self.list.pop()
    }

    /// No lengths of codes yet. It takes no memory.
    fn new(alloc: Global) -> Lengths
        ensures { result ≡ [] }
    {
        Lengths {
            list: Vec::new(alloc),
        }
    }

    /// Counts the code of a node ahead, and those of the nodes inside it, and puts their lengths before the
    /// others.
    fn measure<W: Work, M: Marked, D: Scope>(
        &mut self,
        alloc: Global,
        node: &Node,
        marks: &M,
        scope: &D,
        work: &mut W,
    ) -> Result<u32, OutOfMemory>
        requires subtree { IsSubtree node.now }
        requires few { count node.now.inner < most_slots }
        ensures length { IfOk result (λ n. n ∷ [] ≡ node_lengths (M.marks marks.now) (D.items scope.now)
            (forest (node.now ∷ []))) }
        ensures lengths { OnOk result (self.new ≡ listed_lengths (M.marks marks.now) (D.items scope.now)
            (forest (node.now ∷ [])) ++ self.old) }
        ensures short { IfOk result (λ n. n + 2 ≤ most_instrs) }
        ensures uncounted { CountsNothing (W.counts work.old) (W.counts work.new) }
    {
        items_are_nodes();
        let mut first = 0;
        let mut others = 0;
        let mut k = node.children();
        while k > 0 {
            k -= 1;
            let Some(child) = node.child(k) else {
                unreachable!()
            };
            let Ok(behind) = sum_within(first, others) else {
                return Err(OutOfMemory);
            };
            let Ok(length) = self.measure(alloc, child, marks, scope, work) else {
                return Err(OutOfMemory);
            };
            first = length;
            others = behind;
        }
        let Ok(inside) = sum_within(first, others) else {
            return Err(OutOfMemory);
        };
        let Ok(own) = own_length(alloc, node, marks, scope, work) else {
            return Err(OutOfMemory);
        };
        let Ok(whole) = sum_within(own.whole, inside) else {
            return Err(OutOfMemory);
        };
        let Ok(()) = self.push(NodeLength {
            whole,
            pieces: own.pieces,
            first,
            others,
        }) else {
            return Err(OutOfMemory);
        };
        Ok(whole)
    }

    /// Puts the length of a node before the others.
    fn push(&mut self, length: NodeLength) -> Result<(), OutOfMemory>
        ensures { OnOk result (self.new ≡ length ∷ self.old) }
    {
        let Ok(()) = self.list.push(length) else {
            return Err(OutOfMemory);
        };
        Ok(())
    }
}

/// How long the own code of a node is, and how long its pieces are together, without its jumps.
#[derive(Clone, Copy)]
struct OwnLength {
    whole: u32,
    pieces: u32,
}

/// How many instructions the own code of a node has, counted ahead.
fn own_length<W: Work, M: Marked, D: Scope>(
    alloc: Global,
    node: &Node,
    marks: &M,
    scope: &D,
    work: &mut W,
) -> Result<OwnLength, OutOfMemory>
    requires few { length node.now.label.parts < 256 }
    ensures length { IfOk result (λ own. own.whole
        ≡ own_length (M.marks marks.now) (D.items scope.now) node.now.label) }
    ensures pieces { IfOk result (λ own. own.pieces
        ≡ count_pieces (pieces (M.marks marks.now) (D.items scope.now) node.now.label)) }
    ensures short { IfOk result (λ own. own.whole ≤ most_instrs) }
    ensures uncounted { CountsNothing (W.counts work.old) (W.counts work.new) }
{
    let Ok(items) = procedure_items(alloc, scope, node) else {
        return Err(OutOfMemory);
    };
    let jumps = own_jumps(node, marks, 0, 0, 0);
    let mut tally = Tally::new();
    lay_before(alloc, node, marks, &items, &mut tally, work);
    drop(items);
    lay_behind(alloc, node, marks, &mut tally, work);
    let Ok(pieces) = tally.end() else {
        return Err(OutOfMemory);
    };
    lay_jump(jumps.ahead, &mut tally, work);
    lay_jump(jumps.between, &mut tally, work);
    lay_jump(jumps.back, &mut tally, work);
    let Ok(whole) = tally.end() else {
        return Err(OutOfMemory);
    };
    Ok(OwnLength { whole, pieces })
}

/// The sum of two lengths of codes that are counted ahead, unless code of that length would be too long.
fn sum_within(one: u32, other: u32) -> Result<u32, OutOfMemory>
    requires one { one ≤ most_instrs }
    requires other { other ≤ most_instrs }
    ensures sum { IfOk result (λ n. n ≡ one + other) }
    ensures short { IfOk result (λ n. n + 2 ≤ most_instrs) }
{
    let total = one + other;
    if total > MOST_INSTRS as u32 - 2 {
        return Err(OutOfMemory);
    }
    Ok(total)
}
