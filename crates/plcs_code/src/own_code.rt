//! What the own code of a node is made of, kept apart from the codes inside the node, beside which its jumps are
//! emitted again where these have other lengths.
ghost use Rattle.std.specs.Prelude.{◌≡◌, ◌+◌, ◌≤◌, ◌<◌, ◌↔◌, [], IfOk, OnOk, true, is_some, length, option_map, take};
ghost use Rattle.std.specs.Option.{option_to_list};
ghost use Rattle.template_tree.specs.Checks.Environment.{heading_of};
ghost use Rattle.template_tree.specs.Programs.Part.{part_at};
ghost use Rattle.plcs_code.specs.BlockLimit.{most_instrs};
ghost use Rattle.plcs_code.specs.Counts.{Emits, EmitsAtMost};
ghost use Rattle.plcs_code.specs.ExprCode.{counter_name};
ghost use Rattle.plcs_code.specs.OwnCode.{jumps_around, name_to_call, no_own_code, own_code_by};
ghost use Rattle.plcs_code.specs.Pieces.{count_pieces, own_pieces, pieces, suspension};
ghost use Rattle.plcs_code.specs.PlainInstr.{plain_instr};
ghost use Rattle.plcs_code.specs.Private.PlainJumps.{plain_jumps};

use crate::block::Block;
use crate::instr::Instr;
use crate::instr_out::Draft;
use crate::jumps::{Jumps, kind_jumps, lay_jump};
use crate::lay_before::lay_before;
use crate::lay_behind::lay_behind;
use crate::procedure_items::procedure_items;
use crate::statement_parts::counter_name;
use crate::suspension::{first_suspension, suspension};
use plcs_base::{Declared, Marked, Name, OutOfMemory, Scope, Slot, Work};
use plcs_grammar::NodeKind;
use std::alloc::Global;
use std::marker::Model;
use template_tree::{Node, heading_name, may_be_called};

/// What the own code of a node is made of: its pieces, and what its jumps depend on beside the lengths of the codes
/// inside the node. Contracts see it as plain data.
#[derive(Drop)]
pub struct OwnCode<W> {
    slot: Slot,
    kind: NodeKind,
    name: Option<Name>,
    counter: Option<Name>,
    all_stopped: bool,
    one_stopped: bool,
    before: Block<W>,
    behind: Block<W>,
}

/// The jumps of own code, each a block of one instruction or none.
#[derive(Drop)]
pub struct JumpBlocks<W> {
    /// Before the code of what stands inside the node.
    pub ahead: Block<W>,
    /// Behind the code of the first node inside.
    pub between: Block<W>,
    /// Behind all.
    pub back: Block<W>,
}

/// The pieces of own code, each a block.
#[derive(Drop)]
struct OwnBlocks<W> {
    /// Before the codes of the nodes inside.
    before: Block<W>,
    /// Behind them.
    behind: Block<W>,
}

impl<W> Model for OwnCode<W> {
    ghost use Rattle.plcs_code.specs.OwnCode.{PlainOwnCode};
    ghost use Rattle.plcs_code.specs.Private.OwnCodeCode.{own_code_code};

    ghost Value = { PlainOwnCode };

    ghost coded = { own_code_code };

    ghost view = { λ a.
        record {
          slot = a.slot.0;
          kind = a.kind;
          name = a.name;
          counter = a.counter;
          all_stopped = a.all_stopped;
          one_stopped = a.one_stopped;
          pieces = record { before = a.before; behind = a.behind };
        } };
}

impl<W> OwnCode<W> {
    /// The slot of the node.
    pub fn slot(&self) -> Slot
        ensures { result.0 ≡ self.now.slot }
    {
        self.slot
    }

    /// The kind of the node.
    pub fn kind(&self) -> NodeKind
        ensures { result ≡ self.now.kind }
    {
        self.kind
    }

    /// Whether the own code stops a run as that of the node does by these marks: where it needs all parts, and where
    /// it needs the first one alone.
    pub fn stops_as<M: Marked>(&self, node: &Node, marks: &M) -> bool
        requires few { length node.now.label.parts < 256 }
        ensures { result ≡ true ↔ ((self.now.all_stopped
            ≡ is_some (suspension (M.marks marks.now) node.now.label.slot node.now.label.parts))
            × (self.now.one_stopped
            ≡ is_some (suspension (M.marks marks.now) node.now.label.slot (take 1 node.now.label.parts)))) }
    {
        self.all_stopped == suspension(node, marks).is_some()
            && self.one_stopped == first_suspension(node, marks).is_some()
    }

    /// The instructions before the codes of the nodes inside, but for the jump.
    pub fn before(&self) -> &Block<W>
        ensures { result.now ≡ self.now.pieces.before }
    {
        &self.before
    }

    /// The instructions behind the codes of the nodes inside, but for the jump.
    pub fn behind(&self) -> &Block<W>
        ensures { result.now ≡ self.now.pieces.behind }
    {
        &self.behind
    }
}

impl<W> OwnCode<W> {
    /// The own code of a node that has none. It takes no memory.
    pub fn none(alloc: Global) -> OwnCode<W>
        ensures { result ≡ no_own_code }
    {
        OwnCode {
            slot: Slot(0),
            kind: NodeKind::ProcedureHole,
            name: None,
            counter: None,
            all_stopped: false,
            one_stopped: false,
            before: Block::new(alloc),
            behind: Block::new(alloc),
        }
    }
}

impl<W> JumpBlocks<W> {
    /// The jumps of own code that has none. They take no memory.
    pub fn none(alloc: Global) -> JumpBlocks<W>
        ensures { result ≡ record { ahead = []; between = []; back = [] } }
    {
        JumpBlocks {
            ahead: Block::new(alloc),
            between: Block::new(alloc),
            back: Block::new(alloc),
        }
    }
}

impl<W: Work> OwnCode<W> {
    /// What the own code of the node is made of, by these marks and these effective items. Its pieces are emitted.
    pub fn of<M: Marked, D: Scope>(
        alloc: Global,
        node: &Node,
        marks: &M,
        scope: &D,
        work: &mut W,
    ) -> Result<OwnCode<W>, OutOfMemory>
        requires few { length node.now.label.parts < 256 }
        ensures code { IfOk result (λ own. own ≡ own_code_by (M.marks marks.now) (D.items scope.now) node.now.label) }
        ensures counted { IfOk result (λ own. Emits (length own.pieces.before + length own.pieces.behind)
            (W.counts work.old) (W.counts work.new)) }
        ensures counts { let pieces = (own_code_by (M.marks marks.now) (D.items scope.now) node.now.label).pieces in
            EmitsAtMost (length pieces.before + length pieces.behind) (W.counts work.old) (W.counts work.new) }
    {
        match own_blocks(alloc, node, marks, scope, work) {
            Ok(blocks) => Ok(blocks.into_own_code(node, marks)),
            Err(error) => Err(error),
        }
    }

    /// The jumps of this own code, where the first code inside has one length, and the others together have another.
    /// They are emitted.
    pub fn jumps(
        &self,
        alloc: Global,
        first: u32,
        others: u32,
        work: &mut W,
    ) -> Result<JumpBlocks<W>, OutOfMemory>
        requires short { count_pieces self.now.pieces + first + others + 2 ≤ most_instrs }
        ensures ahead { IfOk result (λ jumps. jumps.ahead
            ≡ option_to_list (jumps_around self.now first others).ahead) }
        ensures between { IfOk result (λ jumps. jumps.between
            ≡ option_to_list (jumps_around self.now first others).between) }
        ensures back { IfOk result (λ jumps. jumps.back
            ≡ option_to_list (jumps_around self.now first others).back) }
        ensures counted { IfOk result (λ jumps. Emits (length jumps.ahead + length jumps.between + length jumps.back)
            (W.counts work.old) (W.counts work.new)) }
        ensures counts { let jumps = jumps_around self.now first others in
            EmitsAtMost (length (option_to_list jumps.ahead)
            + (length (option_to_list jumps.between) + length (option_to_list jumps.back)))
            (W.counts work.old) (W.counts work.new) }
    {
        let own = self.before.length() + self.behind.length();
        let jumps = kind_jumps(
            self.slot,
            self.kind,
            self.counter(),
            self.all_stopped,
            self.one_stopped,
            own,
            first,
            others,
        );
        jump_blocks(alloc, jumps, work)
    }

    /// The variable with which the node counts, if its own code keeps one.
    fn counter(&self) -> Option<&Name>
        ensures { option_map (λ name. name.now) result ≡ self.now.counter }
    {
        self.counter.as_ref()
    }
}

impl<W> OwnBlocks<W> {
    /// The own code of the node by these marks, of which these are the pieces.
    fn into_own_code<M: Marked>(self, node: &Node, marks: &M) -> OwnCode<W>
        requires few { length node.now.label.parts < 256 }
        ensures { result ≡ record {
          slot = node.now.label.slot;
          kind = node.now.label.kind;
          name = name_to_call (heading_of node.now.label.kind node.now.label.parts);
          counter = counter_name (part_at node.now.label.parts 0);
          all_stopped = is_some (suspension (M.marks marks.now) node.now.label.slot node.now.label.parts);
          one_stopped = is_some (suspension (M.marks marks.now) node.now.label.slot (take 1 node.now.label.parts));
          pieces = record { before = self.before; behind = self.behind };
        } }
    {
        OwnCode {
            slot: node.slot(),
            kind: node.kind(),
            name: copy_of(name_to_call(node)),
            counter: copy_of(counter_name(node)),
            all_stopped: suspension(node, marks).is_some(),
            one_stopped: first_suspension(node, marks).is_some(),
            before: self.before,
            behind: self.behind,
        }
    }
}

/// The name by which calls find the procedure of the node, if they do: that in a whole heading that may be called.
pub fn name_to_call(node: &Node) -> Option<&Name>
    ensures { option_map (λ name. name.now) result
        ≡ name_to_call (heading_of node.now.label.kind node.now.label.parts) }
{
    let Some(name) = heading_name(node) else {
        return None;
    };
    if !may_be_called(name) {
        return None;
    }
    Some(name)
}

/// A copy of a name that own code keeps, if there is one.
fn copy_of(name: Option<&Name>) -> Option<Name>
    ensures { result ≡ option_map (λ other. other.now) name.entry }
{
    match name {
        Some(name) => Some(name.copy()),
        None => None,
    }
}

/// The pieces of the own code of the node, by these marks and these effective items. They are emitted.
fn own_blocks<W: Work, M: Marked, D: Scope>(
    alloc: Global,
    node: &Node,
    marks: &M,
    scope: &D,
    work: &mut W,
) -> Result<OwnBlocks<W>, OutOfMemory>
    requires few { length node.now.label.parts < 256 }
    ensures before { IfOk result (λ blocks. blocks.before
        ≡ (pieces (M.marks marks.now) (D.items scope.now) node.now.label).before) }
    ensures behind { IfOk result (λ blocks. blocks.behind
        ≡ (pieces (M.marks marks.now) (D.items scope.now) node.now.label).behind) }
    ensures counted { let pieces = pieces (M.marks marks.now) (D.items scope.now) node.now.label in
        OnOk result (Emits (length pieces.before + length pieces.behind) (W.counts work.old) (W.counts work.new)) }
    ensures counts { let pieces = pieces (M.marks marks.now) (D.items scope.now) node.now.label in
        EmitsAtMost (length pieces.before + length pieces.behind) (W.counts work.old) (W.counts work.new) }
{
    let Ok(before) = block_before_by_scope(alloc, node, marks, scope, work) else {
        return Err(OutOfMemory);
    };
    match block_behind(alloc, node, marks, work) {
        Ok(behind) => Ok(OwnBlocks { before, behind }),
        Err(OutOfMemory) => {
            drop(before);
            Err(OutOfMemory)
        }
    }
}

/// The block of what stands in the own code of a node before the codes of the nodes inside it, by the effective items
/// of the program.
fn block_before_by_scope<W: Work, M: Marked, D: Scope>(
    alloc: Global,
    node: &Node,
    marks: &M,
    scope: &D,
    work: &mut W,
) -> Result<Block<W>, OutOfMemory>
    requires few { length node.now.label.parts < 256 }
    ensures code { IfOk result (λ block. block
        ≡ (pieces (M.marks marks.now) (D.items scope.now) node.now.label).before) }
    ensures counted { OnOk result (Emits (length (pieces (M.marks marks.now) (D.items scope.now) node.now.label).before)
        (W.counts work.old) (W.counts work.new)) }
    ensures counts { EmitsAtMost (length (pieces (M.marks marks.now) (D.items scope.now) node.now.label).before)
        (W.counts work.old) (W.counts work.new) }
{
    match procedure_items(alloc, scope, node) {
        Ok(items) => {
            let block = block_before(alloc, node, marks, &items, work);
            drop(items);
            block
        }
        Err(OutOfMemory) => Err(OutOfMemory),
    }
}

/// The block of what stands in the own code of a node before the codes of the nodes inside it.
fn block_before<W: Work, M: Marked>(
    alloc: Global,
    node: &Node,
    marks: &M,
    items: &[Declared],
    work: &mut W,
) -> Result<Block<W>, OutOfMemory>
    requires few { length node.now.label.parts < 256 }
    ensures code { IfOk result (λ block. block ≡ (own_pieces (M.marks marks.now) items.now node.now.label).before) }
    ensures counted { OnOk result (Emits (length (own_pieces (M.marks marks.now) items.now node.now.label).before)
        (W.counts work.old) (W.counts work.new)) }
    ensures counts { EmitsAtMost (length (own_pieces (M.marks marks.now) items.now node.now.label).before)
        (W.counts work.old) (W.counts work.new) }
{
    let mut draft = Draft::new(alloc);
    lay_before(alloc, node, marks, items, &mut draft, work);
    draft.into_whole()
}

/// The block of what stands in the own code of a node behind the codes of the nodes inside it.
fn block_behind<W: Work, M: Marked>(
    alloc: Global,
    node: &Node,
    marks: &M,
    work: &mut W,
) -> Result<Block<W>, OutOfMemory>
    ensures code { IfOk result (λ block. block ≡ (own_pieces (M.marks marks.now) [] node.now.label).behind) }
    ensures counted { OnOk result (Emits (length (own_pieces (M.marks marks.now) [] node.now.label).behind)
        (W.counts work.old) (W.counts work.new)) }
    ensures counts { EmitsAtMost (length (own_pieces (M.marks marks.now) [] node.now.label).behind)
        (W.counts work.old) (W.counts work.new) }
{
    let mut draft = Draft::new(alloc);
    lay_behind(alloc, node, marks, &mut draft, work);
    draft.into_whole()
}

/// The jumps of own code, each a block. They are emitted.
fn jump_blocks<W: Work>(
    alloc: Global,
    jumps: Jumps,
    work: &mut W,
) -> Result<JumpBlocks<W>, OutOfMemory>
    ensures ahead { IfOk result (λ blocks. blocks.ahead ≡ option_to_list (plain_jumps jumps).ahead) }
    ensures between { IfOk result (λ blocks. blocks.between ≡ option_to_list (plain_jumps jumps).between) }
    ensures back { IfOk result (λ blocks. blocks.back ≡ option_to_list (plain_jumps jumps).back) }
    ensures counted { IfOk result (λ blocks. Emits
        (length blocks.ahead + length blocks.between + length blocks.back)
        (W.counts work.old) (W.counts work.new)) }
    ensures counts { let plain = plain_jumps jumps in
        EmitsAtMost (length (option_to_list plain.ahead)
        + (length (option_to_list plain.between) + length (option_to_list plain.back)))
        (W.counts work.old) (W.counts work.new) }
{
    let Ok(ahead) = jump_block(alloc, jumps.ahead, work) else {
        drop(jumps.between);
        drop(jumps.back);
        return Err(OutOfMemory);
    };
    let Ok(between) = jump_block(alloc, jumps.between, work) else {
        drop(ahead);
        drop(jumps.back);
        return Err(OutOfMemory);
    };
    let Ok(back) = jump_block(alloc, jumps.back, work) else {
        drop(ahead);
        drop(between);
        return Err(OutOfMemory);
    };
    Ok(JumpBlocks {
        ahead,
        between,
        back,
    })
}

/// The block of a jump, of one instruction or none.
fn jump_block<W: Work>(
    alloc: Global,
    jump: Option<Instr>,
    work: &mut W,
) -> Result<Block<W>, OutOfMemory>
    ensures code { IfOk result (λ block. block ≡ option_to_list (option_map plain_instr jump)) }
    ensures counted { OnOk result (Emits (length (option_to_list (option_map plain_instr jump)))
        (W.counts work.old) (W.counts work.new)) }
    ensures counts { EmitsAtMost (length (option_to_list (option_map plain_instr jump)))
        (W.counts work.old) (W.counts work.new) }
{
    let mut draft = Draft::new(alloc);
    lay_jump(jump, &mut draft, work);
    draft.into_whole()
}
