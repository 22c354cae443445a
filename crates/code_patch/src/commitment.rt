//! Prepared edits put in place in kept code.
ghost use Rattle.std.specs.Prelude.{◌≡◌, ◌<◌, ◌≤◌, length, map, min, slice_set, sum, unwrap_or};
ghost use Rattle.prefix_sums.specs.PlainPrefixSums.{with_number_set};
ghost use Rattle.plcs_code.specs.BlockLimit.{most_instrs};
ghost use Rattle.plcs_code.specs.OwnCode.{no_own_code};
ghost use Rattle.code_patch.specs.CodeEdit.{code_tree_after, edited_code, room_after};
ghost use Rattle.code_patch.specs.PreparedEdit.{AreJumps, CanPutInCode, StepsFit};
ghost use Rattle.code_patch.specs.Private.ActedLists.{CanAct, IsActed};
ghost use Rattle.code_patch.specs.Private.PlainCodeNode.{code_forest, kept_length, with_code_set};
ghost use Rattle.code_patch.specs.Private.StepsView.{plain_jumps};

use crate::code_edit::{Act, Mending, Prepared, Step, Steps};
use crate::code_node::{CodeNode, CodeNodes};
use crate::code_tree::CodeTree;
use crate::homes::note;
use crate::names::Names;
use prefix_sums::PrefixSums;

impl<W> CodeTree<W> {
    /// Puts the edit in place that was prepared last for the code tree. It takes no memory.
    pub fn commit(&mut self, prepared: Prepared<W>)
        requires ready { CanPutInCode prepared self.old }
        ensures { self.new ≡ code_tree_after prepared.steps self.old }
    {
        let Prepared {
            steps,
            names,
            moved,
        } = prepared;
        self.root.make(steps);
        put_names(&mut self.names, names);
        note(&mut self.homes, &self.root, &moved);
    }
}

/// Puts other names of the items in place, if they change.
fn put_names(names: &mut Names, new: Option<Names>)
    ensures { names.new ≡ unwrap_or new names.old }
{
    let Some(other) = new else {
        return;
    };
    *names = other;
}

impl<W> CodeNode<W> {
    /// Makes the steps of a prepared edit in the list inside this kept node, which has no own code.
    fn make(&mut self, steps: Steps<W>)
        requires own { self.old.own ≡ no_own_code }
        requires fit { StepsFit steps self.old.spare self.old.inner }
        ensures made { self.new ≡ record {
          own = self.old.own;
          spare = room_after steps self.old.spare;
          inner = edited_code steps self.old.inner;
        } }
        ensures short { kept_length self.new ≤ most_instrs }
    {
        make_steps(&mut self.inner, &mut self.lengths, steps);
    }

    /// This kept node mended by what is new of it.
    #[cycle(make_steps)]
    fn mended(self, mending: Mending<W>) -> CodeNode<W>
        requires fit { StepsFit mending.inner self.spare self.inner }
        requires jumps { AreJumps (unwrap_or mending.own self.own) (edited_code mending.inner self.inner)
            (plain_jumps mending.jumps) }
        ensures { result ≡ record {
          own = unwrap_or mending.own self.own;
          spare = room_after mending.inner self.spare;
          inner = edited_code mending.inner self.inner;
        } }
    {
        let CodeNode {
            own: was,
            jumps: _,
            mut inner,
            mut lengths,
        } = self;
        let Mending {
            own,
            jumps,
            inner: steps,
        } = mending;
        make_steps(&mut inner, &mut lengths, steps);
        CodeNode {
            own: own.unwrap_or(was),
            jumps,
            inner,
            lengths,
        }
    }
}

/// Makes the steps of a prepared edit in a list of kept nodes with the lengths of their codes.
#[cycle(make_steps)]
fn make_steps<W>(inner: &mut CodeNodes<W>, lengths: &mut PrefixSums, steps: Steps<W>)
    requires lengths { lengths.old.numbers ≡ map kept_length inner.old.items }
    requires fit { StepsFit steps (min inner.old.spare lengths.old.spare) (code_forest inner.old.items) }
    ensures items { code_forest inner.new.items ≡ edited_code steps (code_forest inner.old.items) }
    ensures spare { min inner.new.spare lengths.new.spare
        ≡ room_after steps (min inner.old.spare lengths.old.spare) }
    ensures lengths { lengths.new.numbers ≡ map kept_length inner.new.items }
    ensures short { sum lengths.new.numbers ≤ most_instrs }
{
    let mut left = steps;
    while let Some(step) = left.next() {
        make_step(inner, lengths, step);
    }
}

/// Makes one step of a prepared edit in a list of kept nodes with the lengths of their codes.
#[cycle(make_steps)]
fn make_step<W>(inner: &mut CodeNodes<W>, lengths: &mut PrefixSums, step: Step<W>)
    requires { CanAct step.act step.number inner.old lengths.old }
    ensures { IsActed step.act step.number inner.old inner.new lengths.old lengths.new }
{
    let Step { number, act } = step;
    let k = number as usize;
    match act {
        Act::Mend(mending) => mend_node(inner, lengths, k, mending),
        Act::Put(node) => put_node(inner, lengths, k, node),
        Act::Add(node) => add_node(inner, lengths, k, node),
        Act::Drop => drop_node(inner, lengths, k),
    }
}

/// Mends the kept node of this number in a list with the lengths of their codes.
#[cycle(make_steps)]
fn mend_node<W>(inner: &mut CodeNodes<W>, lengths: &mut PrefixSums, k: usize, mending: Mending<W>)
    requires { CanAct (Act.Mend mending) k inner.old lengths.old }
    ensures { IsActed (Act.Mend mending) k inner.old inner.new lengths.old lengths.new }
{
    let node = inner.take(k).mended(mending);
    put_node(inner, lengths, k, node);
}

/// Puts a kept node in the place of the one of this number in a list with the lengths of their codes.
fn put_node<W>(inner: &mut CodeNodes<W>, lengths: &mut PrefixSums, k: usize, node: CodeNode<W>)
    requires there { k < length inner.old.items }
    requires many { length lengths.old.numbers ≡ length inner.old.items }
    requires fits { sum (slice_set lengths.old.numbers k (kept_length node)) ≤ most_instrs }
    ensures items { inner.new ≡ with_code_set inner.old k node }
    ensures lengths { lengths.new ≡ with_number_set lengths.old k (kept_length node) }
{
    lengths.set(k, node.length());
    inner.put(k, node);
}

/// Puts a kept node before the one of this number in a list with the lengths of their codes.
fn add_node<W>(inner: &mut CodeNodes<W>, lengths: &mut PrefixSums, k: usize, node: CodeNode<W>)
    requires { CanAct {W = W} (Act.Add node) k inner.old lengths.old }
    ensures { IsActed {W = W} (Act.Add node) k inner.old inner.new lengths.old lengths.new }
{
    lengths.insert(k, node.length());
    inner.insert_within(k, node);
}

/// Takes the kept node of this number out of a list with the lengths of their codes.
fn drop_node<W>(inner: &mut CodeNodes<W>, lengths: &mut PrefixSums, k: usize)
    requires { CanAct {W = W} Act.Drop k inner.old lengths.old }
    ensures { IsActed {W = W} Act.Drop k inner.old inner.new lengths.old lengths.new }
{
    drop(inner.remove(k));
    lengths.remove(k);
}
