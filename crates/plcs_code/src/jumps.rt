//! The jumps of a node's own code, which depend on how long the codes inside it are.
ghost use Rattle.std.specs.Prelude.{◌≡◌, ◌+◌, ◌<◌, ◌≤◌, None, length, option_map, neg_ℤ, pos};
ghost use Rattle.std.specs.Option.{option_to_list};
ghost use Rattle.template_tree.specs.Programs.Part.{part_at};
ghost use Rattle.plcs_code.specs.BlockLimit.{most_instrs};
ghost use Rattle.plcs_code.specs.ExprCode.{counter_name};
ghost use Rattle.plcs_code.specs.Pieces.{back_jump, enter_jump, iteration_jump, kind_jumps, no_jumps, own_jumps, template_jumps, test_back_jump, test_jump};
ghost use Rattle.plcs_code.specs.PlainInstr.{plain_instr};
ghost use Rattle.plcs_code.specs.Private.LaysAll.{LaysAll};
ghost use Rattle.plcs_code.specs.Private.PlainJumps.{plain_jumps};

use crate::instr::Instr;
use crate::instr_out::InstrOut;
use crate::statement_parts::counter_name;
use crate::suspension::{first_suspension, suspension};
use plcs_base::{Marked, Name, Slot, Work};
use plcs_grammar::{NodeKind, Template};
use template_tree::Node;

/// The jumps of a node's own code, each one instruction or none.
#[derive(Drop)]
pub(crate) struct Jumps {
    /// Before the code of what stands inside the node.
    pub(crate) ahead: Option<Instr>,
    /// Behind the code of the first node inside.
    pub(crate) between: Option<Instr>,
    /// Behind all.
    pub(crate) back: Option<Instr>,
}

/// The jumps of a node whose pieces have so many instructions, where of what is inside the first node has code of
/// one length, and the others together of another.
pub(crate) fn own_jumps<M: Marked>(
    node: &Node,
    marks: &M,
    own: u32,
    first: u32,
    others: u32,
) -> Jumps
    requires few { length node.now.label.parts < 256 }
    requires short { own + first + others + 2 ≤ most_instrs }
    ensures { plain_jumps result ≡ own_jumps (M.marks marks.now) node.now.label own first others }
{
    let all = suspension(node, marks).is_some();
    let one = first_suspension(node, marks).is_some();
    kind_jumps(
        node.slot(),
        node.kind(),
        counter_name(node),
        all,
        one,
        own,
        first,
        others,
    )
}

/// The jumps of a node of the kind in a slot, which counts with the variable, if it is there; where the piece that
/// needs all its parts is stopped or not, and the one that needs the first.
pub(crate) fn kind_jumps(
    slot: Slot,
    kind: NodeKind,
    counter: Option<&Name>,
    all: bool,
    one: bool,
    own: u32,
    first: u32,
    others: u32,
) -> Jumps
    requires short { own + first + others + 2 ≤ most_instrs }
    ensures { plain_jumps result
        ≡ kind_jumps slot.0 (option_map (λ name. name.now) counter.entry) all one own first others kind }
{
    match kind {
        NodeKind::DeclarationHole => no_jumps(),
        NodeKind::StatementHole => no_jumps(),
        NodeKind::ProcedureHole => no_jumps(),
        NodeKind::Main => no_jumps(),
        NodeKind::Assign => no_jumps(),
        NodeKind::Filled(template) => {
            template_jumps(slot, template, counter, all, one, own, first, others)
        }
    }
}

/// The jumps of a node whose own code has none, whatever stands inside it.
fn no_jumps() -> Jumps
    ensures { plain_jumps result ≡ no_jumps }
{
    Jumps {
        ahead: None,
        between: None,
        back: None,
    }
}

/// The jumps of a node of the template, where the piece that needs all its parts is stopped or not, and the
/// one that needs the first.
fn template_jumps(
    slot: Slot,
    template: Template,
    counter: Option<&Name>,
    all: bool,
    one: bool,
    own: u32,
    first: u32,
    others: u32,
) -> Jumps
    requires short { own + first + others + 2 ≤ most_instrs }
    ensures { plain_jumps result
        ≡ template_jumps slot.0 (option_map (λ name. name.now) counter.entry) all one own first others template }
{
    match template {
        Template::Fixed => no_jumps(),
        Template::Bit => no_jumps(),
        Template::Char => no_jumps(),
        Template::If => Jumps {
            ahead: test_jump(all, first + others),
            between: None,
            back: None,
        },
        Template::IfElse => Jumps {
            ahead: test_jump(all, first + 1),
            between: Some(Instr::Jump(others as i32)),
            back: None,
        },
        Template::While => while_jumps(all, own, first + others),
        Template::For => Jumps {
            ahead: enter_jump(slot, counter, all, first + others + 2),
            between: None,
            back: iteration_jump(slot, counter, one, first + others + 2),
        },
        Template::Until => Jumps {
            ahead: None,
            between: None,
            back: test_back_jump(one, own + first + others + 1),
        },
        Template::Group => no_jumps(),
        Template::Get => no_jumps(),
        Template::Put => no_jumps(),
        Template::PutSkip => no_jumps(),
        Template::Call => no_jumps(),
        Template::Return => no_jumps(),
        Template::Comment => no_jumps(),
        Template::Proc => no_jumps(),
        Template::ProcP => no_jumps(),
    }
}

/// The jumps of a While whose condition is stopped or not, whose piece has so many instructions, and which has a
/// body of this length.
fn while_jumps(stopped: bool, own: u32, inside: u32) -> Jumps
    requires short { own + inside + 2 ≤ most_instrs }
    ensures { plain_jumps result
        ≡ record {
          ahead = test_jump stopped (inside + 1);
          between = None;
          back = back_jump (own + length (option_to_list (test_jump stopped (inside + 1))) + inside + 1);
        } }
{
    let test = u32::from(!stopped);
    Jumps {
        ahead: test_jump(stopped, inside + 1),
        between: None,
        back: Some(Instr::Jump(back_by(own + test + inside + 1))),
    }
}

/// The jump of a condition, if it isn't stopped.
fn test_jump(stopped: bool, ahead: u32) -> Option<Instr>
    requires few { ahead ≤ most_instrs }
    ensures { option_map plain_instr result ≡ test_jump stopped ahead }
{
    if stopped {
        return None;
    }
    Some(Instr::JumpFalse(ahead as i32))
}

/// The jump back of a condition that is tested at the end, if it isn't stopped.
fn test_back_jump(stopped: bool, back: u32) -> Option<Instr>
    requires few { back ≤ most_instrs }
    ensures { option_map plain_instr result ≡ test_back_jump stopped back }
{
    if stopped {
        return None;
    }
    Some(Instr::JumpFalse(back_by(back)))
}

/// The instruction that enters a loop that counts, if its variable is there, and it isn't stopped.
fn enter_jump(slot: Slot, counter: Option<&Name>, stopped: bool, ahead: u32) -> Option<Instr>
    requires few { ahead ≤ most_instrs }
    ensures { option_map plain_instr result
        ≡ enter_jump slot.0 (option_map (λ name. name.now) counter.entry) stopped ahead }
{
    if stopped {
        return None;
    }
    let Some(name) = counter else {
        return None;
    };
    Some(Instr::ForEnter(slot, name.copy(), ahead as i32))
}

/// The instruction for the next iteration of a loop that counts, if its variable is there, and it isn't
/// stopped.
fn iteration_jump(slot: Slot, counter: Option<&Name>, stopped: bool, back: u32) -> Option<Instr>
    requires few { back ≤ most_instrs }
    ensures { option_map plain_instr result
        ≡ iteration_jump slot.0 (option_map (λ name. name.now) counter.entry) stopped back }
{
    if stopped {
        return None;
    }
    let Some(name) = counter else {
        return None;
    };
    Some(Instr::ForNext(slot, name.copy(), back_by(back)))
}

/// The number of a jump back by so many instructions.
fn back_by(back: u32) -> i32
    requires few { back ≤ most_instrs }
    ensures { result ≡ neg_ℤ (pos back) }
{
    -(back as i32)
}

/// Lays one of the jumps that a node's own code has by the lengths of the codes inside it, if there is one.
pub(crate) fn lay_jump<W: Work, O: InstrOut<W>>(jump: Option<Instr>, out: &mut O, work: &mut W)
    ensures { LaysAll O.lays out.old (W.counts work.old) (option_to_list (option_map plain_instr jump))
        out.new (W.counts work.new) }
{
    if let Some(jump) = jump {
        out.put(jump, work);
    }
}
