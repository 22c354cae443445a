//! What is kept of the code of a node and of the nodes inside it.
ghost use Rattle.std.specs.Prelude.{◌≡◌, ◌+◌, ◌<◌, ◌≤◌, ◌++◌, ◌∷◌, [], OnOk, Some, length, option_map, slice_get, sum, take};
ghost use Rattle.plcs_code.specs.BlockLimit.{most_instrs};
ghost use Rattle.plcs_code.specs.OwnCode.{no_own_code};
ghost use Rattle.code_patch.specs.CodeForest.{CodeForest, kept_lengths, PlainCodeNode, code_nodes};
ghost use Rattle.code_patch.specs.Private.PlainCodeNode.{kept_length, length_ahead, length_behind, with_code_set, with_kept_inserted, with_kept_removed};

use plcs_base::{OutOfMemory, Slot};
use plcs_code::{Block, JumpBlocks, OwnCode};
use plcs_grammar::NodeKind;
use prefix_sums::PrefixSums;
use std::alloc::Global;
use std::marker::Model;
use std::mem;

/// What is kept of the code of a node: its own code, its jumps, and how long the codes of the nodes inside it are.
#[cycle(code_node)]
#[derive(Drop)]
pub(crate) struct CodeNode<W> {
    pub(crate) own: OwnCode<W>,
    pub(crate) jumps: JumpBlocks<W>,
    pub(crate) inner: CodeNodes<W>,
    pub(crate) lengths: PrefixSums,
}

/// What is kept of the codes of the nodes of a list, in order.
#[cycle(code_node)]
#[derive(Drop)]
pub(crate) struct CodeNodes<W> {
    list: Vec<CodeNode<W>>,
}

impl<W> Model for CodeNode<W> {
    ghost use Rattle.std.proofs.Common.{arith};
    ghost use Rattle.code_patch.specs.CodeForest.{PlainCodeNode};
    ghost use Rattle.code_patch.specs.Private.CodeForestCode.{code_node_code};
    ghost use Rattle.code_patch.specs.Private.Weight.{weight};

    ghost Value = { PlainCodeNode };

    ghost coded = { code_node_code };

    ghost use Rattle.code_patch.specs.Private.CodeNodeView.{IsCodeNodeRight, code_node_seen};

    ghost view = { code_node_seen };

    ghost invariant = { IsCodeNodeRight };

    ghost size = { weight };

    ghost size_decreases = { λ a h. omega arith };
}

impl<W> Model for CodeNodes<W> {
    ghost use Rattle.std.proofs.Common.{arith};
    ghost use Rattle.std.specs.Prelude.{◌-◌, vec_len, vec_capacity};
    ghost use Rattle.code_patch.specs.Private.CodeForestCode.{code_nodes_code};
    ghost use Rattle.code_patch.specs.Private.PlainCodeNode.{PlainCodeNodes};
    ghost use Rattle.code_patch.specs.Private.Weight.{list_weight, most_le_weight};

    ghost Value = { PlainCodeNodes };

    ghost coded = { code_nodes_code };

    ghost view = { λ a. record { items = a.list.items; spare = vec_capacity a.list - vec_len a.list } };

    ghost size = { list_weight };

    ghost size_decreases = { λ a h. omega (arith, most_le_weight a.list.items) };
}

impl<W> CodeNode<W> {
    /// What is kept of a node without own code and with nothing inside. It takes no memory.
    pub(crate) fn none(alloc: Global) -> CodeNode<W>
        ensures own { result.own ≡ no_own_code }
        ensures inner { result.inner ≡ CodeForest.nil }
    {
        CodeNode {
            own: OwnCode::none(alloc),
            jumps: JumpBlocks::none(alloc),
            inner: CodeNodes::new(alloc),
            lengths: PrefixSums::new(alloc),
        }
    }

    /// The slot of the node whose code is kept.
    pub(crate) fn slot(&self) -> Slot
        ensures { result.0 ≡ self.now.own.slot }
    {
        self.own.slot()
    }

    /// The kind of the node whose code is kept.
    pub(crate) fn kind(&self) -> NodeKind
        ensures { result ≡ self.now.own.kind }
    {
        self.own.kind()
    }

    /// The instructions of the node's own code before the codes of the nodes inside it, but for the jump.
    pub(crate) fn before(&self) -> &Block<W>
        ensures { result.now ≡ self.now.own.pieces.before }
    {
        self.own.before()
    }

    /// The instructions of the node's own code behind the codes of the nodes inside it, but for the jump.
    pub(crate) fn behind(&self) -> &Block<W>
        ensures { result.now ≡ self.now.own.pieces.behind }
    {
        self.own.behind()
    }

    /// How many instructions the code of the node has before that of the nodes inside it.
    pub(crate) fn length_before(&self) -> u32
        ensures { result ≡ length_ahead self.now }
    {
        self.own.before().length() + self.jumps.ahead.length()
    }

    /// How many instructions the code of the node has behind that of the nodes inside it.
    pub(crate) fn length_behind(&self) -> u32
        ensures { result ≡ length_behind self.now }
    {
        self.own.behind().length() + self.jumps.back.length()
    }

    /// How many instructions the code of the node has, what stands inside it included.
    pub(crate) fn length(&self) -> u32
        ensures length { result ≡ kept_length self.now }
        ensures short { kept_length self.now ≤ most_instrs }
    {
        let before = self.length_before();
        let behind = self.length_behind();
        before + self.jumps.between.length() + self.lengths.total() + behind
    }

    /// How many instructions the codes of the nodes inside the node have together.
    pub(crate) fn length_inside(&self) -> u32
        ensures sum { result ≡ sum (kept_lengths self.now.inner) }
        ensures short { sum (kept_lengths self.now.inner) ≤ most_instrs }
    {
        self.lengths.total()
    }

    /// How many instructions the codes of the first so many nodes inside the node have together.
    pub(crate) fn length_to(&self, k: usize) -> u32
        ensures { result ≡ sum (take k (kept_lengths self.now.inner)) }
    {
        self.lengths.before(k)
    }

    /// How many nodes are kept inside the node, those inside others not counted.
    pub(crate) fn count(&self) -> usize
        ensures { result ≡ length (code_nodes self.now.inner) }
    {
        self.inner.len()
    }

    /// What is kept of the node of this number inside the node, counted from 0, or `None` where there is none.
    pub(crate) fn child(&self, k: usize) -> Option<&CodeNode<W>>
        ensures { option_map (λ node. node.now) result ≡ slice_get (code_nodes self.now.inner) k }
    {
        self.inner.get(k)
    }
}

impl<W> CodeNodes<W> {
    /// An empty list of kept nodes, which takes no memory.
    pub(crate) fn new(alloc: Global) -> CodeNodes<W>
        ensures { result.items ≡ [] }
    {
        CodeNodes {
            list: Vec::new(alloc),
        }
    }

    /// How many kept nodes the list has.
    pub(crate) fn len(&self) -> usize
        ensures { result ≡ length self.now.items }
    {
        self.list.len()
    }

    /// What is kept of the node of this number in the list, counted from 0.
    pub(crate) fn get(&self, k: usize) -> Option<&CodeNode<W>>
        ensures { option_map (λ node. node.now) result ≡ slice_get self.now.items k }
    {
        self.list.get(k)
    }

    /// Takes what is kept of the node of this number out of its place in the list, where something else stands then.
    pub(crate) fn take(&mut self, k: usize) -> CodeNode<W>
        requires there { k < length self.old.items }
        ensures taken { Some result ≡ slice_get self.old.items k }
        ensures rest { (node : PlainCodeNode) → with_code_set self.new k node ≡ with_code_set self.old k node }
    {
        let other = CodeNode::none(*self.list.allocator());
        mem::replace(&mut self.list[k], other)
    }

    /// Puts what is kept of a node in the place of this number in the list.
    pub(crate) fn put(&mut self, k: usize, node: CodeNode<W>)
        requires there { k < length self.old.items }
        ensures { self.new ≡ with_code_set self.old k node }
    {
        drop(mem::replace(&mut self.list[k], node));
    }

    /// Makes room for one more kept node in the list.
    pub(crate) fn reserve_one(&mut self) -> Result<(), OutOfMemory>
        ensures room { OnOk result (0 < self.new.spare) }
        ensures items { self.new.items ≡ self.old.items }
    {
        self.list.reserve(1)?;
        Ok(())
    }

    /// Puts what is kept of one more node at the end of the list, into room that is there.
    pub(crate) fn push_reserved(&mut self, node: CodeNode<W>)
        requires room { 0 < self.old.spare }
        ensures { self.new.items ≡ self.old.items ++ node ∷ [] }
    {
        self.list.push_reserved(node);
    }

    /// Puts what is kept of a node before the one of this number, into room that is there.
    pub(crate) fn insert_within(&mut self, k: usize, node: CodeNode<W>)
        requires there { k ≤ length self.old.items }
        requires room { 0 < self.old.spare }
        ensures { self.new ≡ with_kept_inserted self.old k node }
    {
        drop(self.list.insert(k, node));
    }

    /// Takes what is kept of the node of this number out of the list; its room stays.
    pub(crate) fn remove(&mut self, k: usize) -> CodeNode<W>
        requires there { k < length self.old.items }
        ensures taken { Some result ≡ slice_get self.old.items k }
        ensures left { self.new ≡ with_kept_removed self.old k }
    {
        self.list.remove(k)
    }
}
