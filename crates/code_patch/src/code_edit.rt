//! Prepared edits of kept code: what becomes of the nodes of each list on the way to what an edit touched.
ghost use Rattle.std.specs.Prelude.{◌≡◌};
ghost use Rattle.code_patch.specs.Private.StepsView.{StepTaken, edit_of_steps};

use crate::code_node::CodeNode;
use crate::homes::Moved;
use crate::names::Names;
use plcs_code::{JumpBlocks, OwnCode};
use std::marker::Model;

/// An edit that was prepared for a code tree, which contracts see as plain data. Only `CodeTree::prepare` makes one,
/// and `CodeTree::commit` puts it in place.
#[derive(Drop)]
pub struct Prepared<W> {
    pub(crate) steps: Steps<W>,
    pub(crate) names: Option<Names>,
    /// Where the nodes have other places then, to note these.
    pub(crate) moved: Moved,
}

/// The steps of a prepared edit in one list of kept nodes. The first of them stands last in memory.
#[cycle(code_edit)]
#[derive(Drop)]
pub(crate) struct Steps<W> {
    list: Vec<Step<W>>,
}

/// What becomes of the node of this number in its list by a prepared edit.
#[cycle(code_edit)]
#[derive(Drop)]
pub(crate) struct Step<W> {
    pub(crate) number: u32,
    pub(crate) act: Act<W>,
}

/// What a step of a prepared edit does with a kept node.
#[cycle(code_edit)]
#[derive(Drop)]
pub(crate) enum Act<W> {
    /// It is mended.
    Mend(Mending<W>),
    /// Another one comes in its place.
    Put(CodeNode<W>),
    /// Another one comes before it.
    Add(CodeNode<W>),
    /// It goes.
    Drop,
}

/// What is new of a kept node that is mended: its own code, if that is touched, its jumps, and what is inside.
#[cycle(code_edit)]
#[derive(Drop)]
pub(crate) struct Mending<W> {
    pub(crate) own: Option<OwnCode<W>>,
    pub(crate) jumps: JumpBlocks<W>,
    pub(crate) inner: Steps<W>,
}

impl<W> Model for Steps<W> {
    ghost use Rattle.std.proofs.Common.{arith};
    ghost use Rattle.code_patch.specs.CodeEdit.{CodeEdit};
    ghost use Rattle.code_patch.specs.Private.CodeEditCode.{code_edit_code, code_edit_weight};

    ghost Value = { CodeEdit };

    ghost coded = { code_edit_code };

    ghost use Rattle.code_patch.specs.Private.StepsView.{steps_seen};

    ghost view = { steps_seen };

    ghost size = { code_edit_weight };

    ghost use Rattle.code_patch.specs.Private.StepsFall.{most_le_weight};

    ghost size_decreases = { λ a h. omega (arith, most_le_weight a.list.items) };
}

impl<W> Model for Prepared<W> {
    ghost use Rattle.code_patch.specs.PreparedEdit.{PlainPrepared};
    ghost use Rattle.code_patch.specs.Private.CodeEditCode.{prepared_code};

    ghost Value = { PlainPrepared };

    ghost coded = { prepared_code };

    ghost view = { λ a. record { steps = a.steps; names = a.names } };
}

impl<W> Steps<W> {
    /// The prepared edit of these steps, one after the other. It takes no memory.
    pub(crate) fn of(list: Vec<Step<W>>) -> Steps<W>
        ensures { result ≡ edit_of_steps list.items }
    {
        let mut backward = list;
        backward.reverse();
        Steps { list: backward }
    }

    /// Takes the first step of a prepared edit, or answers `None` where it has none.
    pub(crate) fn next(&mut self) -> Option<Step<W>>
        ensures { StepTaken self.old result self.new }
    {
        self.list.pop()
    }
}
