//! What each instruction does: the table of instructions.
ghost use Rattle.std.specs.Prelude.{◌≡◌, ℕ, ◌≤◌, [], length, List, true};
ghost use Rattle.plcs_base.specs.declared.value.Value.{Value};
ghost use Rattle.plcs_code.specs.PlainInstr.{plain_instr};
ghost use Rattle.plcs_store.specs.declared.argument.Argument.{Argument};
ghost use Rattle.plcs_store.specs.Outcome.{answer_outcome, found_or_fault};
ghost use Rattle.plcs_store.specs.Step.{is_over};
ghost use Rattle.plcs_machine.specs.Lead.{add_lead, builtin_lead, for_enter_lead, for_next_lead, get_lead, lead, leave_lead, load_lead, newest_arguments, push_lead, reference_lead, store_lead};
ghost use Rattle.plcs_machine.specs.Reached.{reached};
ghost use Rattle.plcs_machine.specs.Private.InstructionLead.{computed_lead, dummy_lead, entry_lead, get_at_lead, infix_lead, iterate_lead, jump_false_lead, load_at_lead, named_call_lead, prefix_lead, read_lead, reference_at_lead, store_at_lead, store_newest_lead, sum_lead};
ghost use Rattle.plcs_machine.specs.Private.PlainLed.{IsNeither, TakesAtMost, is_defined, is_fine, plain_doing, plain_led};

use crate::builtins::builtin_value;
use crate::landing::target;
use crate::led::{Doing, Led};
use crate::operators::{fixed_value, infix_value, prefix_value};
use crate::step_act::StepAct;
use plcs_base::{Name, Slot, TextValue, Value, Work};
use plcs_code::{CodeView, HeadingEntry, Instr};
use plcs_grammar::{Builtin, InfixOp, PrefixOp};
use plcs_store::{
    Argument, FaultKind, Frames, ItemFault, KeptLoop, Location, MOST_FRAMES, Operands, Reason,
    read_item,
};

/// What the instruction before the next address leads to, where this is left of the input.
pub(crate) fn lead<W: Work, C: CodeView<W>>(
    code: &C,
    rest: &[u8],
    frames: &Frames,
    operands: &mut Operands,
    next: u32,
    instr: &Instr,
) -> Doing
    requires short { length rest.now ≤ 4294967295 }
    requires fine { is_fine (lead (C.code code.now) frames.now rest.now [] next operands.old.values
        operands.old.arguments (plain_instr instr.now)) ≡ true }
    ensures leads { (output : List ℕ) → plain_doing output next result operands.new.values operands.new.arguments
        ≡ lead (C.code code.now) frames.now rest.now output next operands.old.values
        operands.old.arguments (plain_instr instr.now) }
    ensures within { TakesAtMost (length rest.now) result }
{
    match instr {
        Instr::Put(count) => Doing::Writes(false, *count),
        Instr::PutSkip(count) => Doing::Writes(true, *count),
        Instr::Get(name) => get(frames, rest, next, name, None),
        Instr::GetAt(name) => get_at(frames, operands, rest, next, name),
        other => Doing::Leads(lead_of(code, frames, operands, next, other)),
    }
}

/// What an instruction that neither writes nor reads leads to.
fn lead_of<W: Work, C: CodeView<W>>(
    code: &C,
    frames: &Frames,
    operands: &mut Operands,
    next: u32,
    instr: &Instr,
) -> Led
    requires other { IsNeither (plain_instr instr.now) }
    requires fine { is_fine (lead (C.code code.now) frames.now [] [] next operands.old.values
        operands.old.arguments (plain_instr instr.now)) ≡ true }
    ensures { plain_led result operands.new.values operands.new.arguments
        ≡ lead (C.code code.now) frames.now [] [] next operands.old.values
        operands.old.arguments (plain_instr instr.now) }
{
    match instr {
        Instr::At(place) => Led::Arrives(*place),
        Instr::SuspendPlaceholder => Led::Stops(Reason::Placeholder),
        Instr::SuspendMarked => Led::Stops(Reason::Marked),
        Instr::PushNumber(number) => push(operands, next, Value::Fixed(*number)),
        Instr::PushBit(bit) => push(operands, next, Value::Bit(*bit)),
        Instr::PushText(text) => push_text(operands, next, text),
        Instr::Load(name) => load(frames, operands, next, name, None),
        Instr::LoadAt(name) => load_at(frames, operands, next, name),
        Instr::Store(name) => store_newest(frames, operands, next, name),
        Instr::StoreAt(name) => store_at(frames, operands, next, name),
        Instr::Prefix(op) => unary(operands, next, *op),
        Instr::Infix(op) => binary(operands, next, *op),
        Instr::Builtin(function, count) => call_builtin(operands, next, *function, *count),
        Instr::Jump(by) => Led::GoesOn(target(next, *by)),
        Instr::JumpFalse(by) => jump_false(operands, next, *by),
        Instr::ForEnter(slot, name, by) => enter_loop(frames, operands, next, *slot, name, *by),
        Instr::ForNext(slot, name, by) => next_iteration(frames, next, *slot, name, *by),
        Instr::Ref(name) => refer(frames, operands, next, name, None),
        Instr::RefAt(name) => refer_at(frames, operands, next, name),
        Instr::Dummy => add_dummy(operands, next),
        Instr::Call(name, count) => call(code, frames, name, *count),
        Instr::Leave => leave(code, frames),
        _ => unreachable!(),
    }
}

// ---- operands and arguments

/// Pushes a value on the operands.
fn push(operands: &mut Operands, next: u32, value: Value) -> Led
    requires fine { is_fine (push_lead next operands.old.values operands.old.arguments value) ≡ true }
    ensures { plain_led result operands.new.values operands.new.arguments
        ≡ push_lead next operands.old.values operands.old.arguments value }
{
    operands.values.push(value);
    Led::GoesOn(next)
}

/// Pushes a copy of a text on the operands.
fn push_text(operands: &mut Operands, next: u32, text: &TextValue) -> Led
    requires fine { is_fine (push_lead next operands.old.values
        operands.old.arguments (Value.Text text.now)) ≡ true }
    ensures { plain_led result operands.new.values operands.new.arguments
        ≡ push_lead next operands.old.values operands.old.arguments (Value.Text text.now) }
{
    let Some(copy) = TextValue::read(text.as_bytes()) else {
        unreachable!()
    };
    push(operands, next, Value::Text(copy))
}

/// What an instruction does that adds an argument behind the others.
fn add(operands: &mut Operands, next: u32, argument: Argument) -> Led
    requires fine { is_fine (add_lead next operands.old.values operands.old.arguments argument) ≡ true }
    ensures { plain_led result operands.new.values operands.new.arguments
        ≡ add_lead next operands.old.values operands.old.arguments argument }
{
    operands.arguments.push(argument);
    Led::GoesOn(next)
}

/// Adds the newest operand as an argument.
fn add_dummy(operands: &mut Operands, next: u32) -> Led
    requires fine { is_fine (dummy_lead next operands.old.arguments operands.old.values) ≡ true }
    ensures { plain_led result operands.new.values operands.new.arguments
        ≡ dummy_lead next operands.old.arguments operands.old.values }
{
    let Some(value) = operands.values.pop() else {
        unreachable!()
    };
    add(operands, next, Argument::Dummy(value))
}

/// Pushes what was computed.
fn push_computed(
    operands: &mut Operands,
    next: u32,
    computed: Result<Option<Value>, FaultKind>,
) -> Led
    requires fine { is_fine (computed_lead next operands.old.values
        operands.old.arguments (answer_outcome computed)) ≡ true }
    ensures { plain_led result operands.new.values operands.new.arguments
        ≡ computed_lead next operands.old.values operands.old.arguments (answer_outcome computed) }
{
    match computed {
        Err(kind) => Led::Stops(Reason::Fault(kind)),
        Ok(None) => unreachable!(),
        Ok(Some(value)) => push(operands, next, value),
    }
}

// ---- operators

/// Pushes what a prefix operator makes of the newest operand.
fn unary(operands: &mut Operands, next: u32, op: PrefixOp) -> Led
    requires fine { is_fine (prefix_lead next operands.old.arguments op operands.old.values) ≡ true }
    ensures { plain_led result operands.new.values operands.new.arguments
        ≡ prefix_lead next operands.old.arguments op operands.old.values }
{
    let Some(value) = operands.values.pop() else {
        unreachable!()
    };
    push_computed(operands, next, prefix_value(op, &value))
}

/// Pushes what an infix operator makes of the two newest operands.
fn binary(operands: &mut Operands, next: u32, op: InfixOp) -> Led
    requires fine { is_fine (infix_lead next operands.old.arguments op operands.old.values) ≡ true }
    ensures { plain_led result operands.new.values operands.new.arguments
        ≡ infix_lead next operands.old.arguments op operands.old.values }
{
    let Some(right) = operands.values.pop() else {
        unreachable!()
    };
    let Some(left) = operands.values.pop() else {
        unreachable!()
    };
    push_computed(operands, next, infix_value(op, &left, &right))
}

/// What the instruction of a built-in function does: it pushes what the function makes of so many newest
/// operands.
fn call_builtin(operands: &mut Operands, next: u32, function: Builtin, count: u32) -> Led
    requires fine { is_fine (builtin_lead next operands.old.arguments function count operands.old.values) ≡ true }
    ensures { plain_led result operands.new.values operands.new.arguments
        ≡ builtin_lead next operands.old.arguments function count operands.old.values }
{
    let computed = builtin_value(function, operands.values.newest(count as usize));
    operands.values.drop_newest(count as usize);
    push_computed(operands, next, computed)
}

// ---- variables

/// On which cell an instruction works that names a variable of the newest frame, with this subscript or none.
fn reached(frames: &Frames, name: &Name, subscript: Option<i32>) -> Result<Location, FaultKind>
    requires there { is_defined (reached frames.now name.now subscript) ≡ true }
    ensures { found_or_fault result ≡ reached frames.now name.now subscript }
{
    match frames.located(name, subscript) {
        Err(kind) => Err(kind),
        Ok(Some(location)) => Ok(location),
        Ok(None) => unreachable!(),
    }
}

/// Pushes the value of a variable.
fn load(
    frames: &Frames,
    operands: &mut Operands,
    next: u32,
    name: &Name,
    subscript: Option<i32>,
) -> Led
    requires fine { is_fine (load_lead frames.now next operands.old.arguments name.now subscript
        operands.old.values) ≡ true }
    ensures { plain_led result operands.new.values operands.new.arguments
        ≡ load_lead frames.now next operands.old.arguments name.now subscript operands.old.values }
{
    match reached(frames, name, subscript) {
        Err(kind) => Led::Stops(Reason::Fault(kind)),
        Ok(location) => push_computed(operands, next, frames.value_at(&location)),
    }
}

/// Pushes the value of a cell of an array, whose subscript is the newest operand.
fn load_at(frames: &Frames, operands: &mut Operands, next: u32, name: &Name) -> Led
    requires fine { is_fine (load_at_lead frames.now next operands.old.arguments name.now
        operands.old.values) ≡ true }
    ensures { plain_led result operands.new.values operands.new.arguments
        ≡ load_at_lead frames.now next operands.old.arguments name.now operands.old.values }
{
    let Some(Value::Fixed(subscript)) = operands.values.pop() else {
        unreachable!()
    };
    load(frames, operands, next, name, Some(subscript))
}

/// What an instruction does that stores a value into a variable.
fn store(frames: &Frames, next: u32, name: &Name, subscript: Option<i32>, value: Value) -> Led
    requires fine { is_fine (store_lead frames.now next name.now subscript value) ≡ true }
    ensures { (values : List Value) (arguments : List Argument) → plain_led result values arguments
        ≡ store_lead frames.now next name.now subscript value }
{
    match reached(frames, name, subscript) {
        Err(kind) => Led::Stops(Reason::Fault(kind)),
        Ok(location) => match frames.kept_at(&location, value) {
            None => unreachable!(),
            Some(kept) => Led::Acts(StepAct::Store(location, kept), next),
        },
    }
}

/// Stores the newest operand into a variable.
fn store_newest(frames: &Frames, operands: &mut Operands, next: u32, name: &Name) -> Led
    requires fine { is_fine (store_newest_lead frames.now next name.now operands.old.values) ≡ true }
    ensures { plain_led result operands.new.values operands.new.arguments
        ≡ store_newest_lead frames.now next name.now operands.old.values }
{
    let Some(value) = operands.values.pop() else {
        unreachable!()
    };
    store(frames, next, name, None, value)
}

/// Stores the newest operand into a cell of an array, whose subscript is the operand before it.
fn store_at(frames: &Frames, operands: &mut Operands, next: u32, name: &Name) -> Led
    requires fine { is_fine (store_at_lead frames.now next name.now operands.old.values) ≡ true }
    ensures { plain_led result operands.new.values operands.new.arguments
        ≡ store_at_lead frames.now next name.now operands.old.values }
{
    let Some(value) = operands.values.pop() else {
        unreachable!()
    };
    let Some(Value::Fixed(subscript)) = operands.values.pop() else {
        unreachable!()
    };
    store(frames, next, name, Some(subscript), value)
}

/// Adds a variable as an argument.
fn refer(
    frames: &Frames,
    operands: &mut Operands,
    next: u32,
    name: &Name,
    subscript: Option<i32>,
) -> Led
    requires fine { is_fine (reference_lead frames.now next operands.old.arguments name.now subscript
        operands.old.values) ≡ true }
    ensures { plain_led result operands.new.values operands.new.arguments
        ≡ reference_lead frames.now next operands.old.arguments name.now subscript operands.old.values }
{
    match reached(frames, name, subscript) {
        Err(kind) => Led::Stops(Reason::Fault(kind)),
        Ok(location) => add(operands, next, Argument::Reference(location)),
    }
}

/// Adds a cell of an array as an argument, whose subscript is the newest operand.
fn refer_at(frames: &Frames, operands: &mut Operands, next: u32, name: &Name) -> Led
    requires fine { is_fine (reference_at_lead frames.now next operands.old.arguments name.now
        operands.old.values) ≡ true }
    ensures { plain_led result operands.new.values operands.new.arguments
        ≡ reference_at_lead frames.now next operands.old.arguments name.now operands.old.values }
{
    let Some(Value::Fixed(subscript)) = operands.values.pop() else {
        unreachable!()
    };
    refer(frames, operands, next, name, Some(subscript))
}

/// What the instruction does that reads an item of the input into a variable.
fn get(frames: &Frames, rest: &[u8], next: u32, name: &Name, subscript: Option<i32>) -> Doing
    requires short { length rest.now ≤ 4294967295 }
    requires fine { is_fine (get_lead frames.now rest.now next name.now subscript) ≡ true }
    ensures leads { (output : List ℕ) (values : List Value) (arguments : List Argument)
        → plain_doing output next result values arguments ≡ get_lead frames.now rest.now next name.now subscript }
    ensures within { TakesAtMost (length rest.now) result }
{
    match reached(frames, name, subscript) {
        Err(kind) => Doing::Leads(Led::Stops(Reason::Fault(kind))),
        Ok(location) => read_into(frames, rest, next, location),
    }
}

/// What an instruction does that reads an item of the input into the cell at a location.
fn read_into(frames: &Frames, rest: &[u8], next: u32, location: Location) -> Doing
    requires short { length rest.now ≤ 4294967295 }
    requires fine { is_fine (read_lead frames.now rest.now next location) ≡ true }
    ensures leads { (output : List ℕ) (values : List Value) (arguments : List Argument)
        → plain_doing output next result values arguments ≡ read_lead frames.now rest.now next location }
    ensures within { TakesAtMost (length rest.now) result }
{
    let Some(variable) = frames.variable(usize::from(location.frame), &location.name) else {
        unreachable!()
    };
    match read_item(rest, variable.ty) {
        Err(ItemFault::Wanted) => Doing::Leads(Led::Stops(Reason::InputWanted)),
        Err(ItemFault::Conversion) => Doing::Leads(Led::Stops(Reason::Fault(
            FaultKind::Conversion,
        ))),
        Ok((value, count)) => match frames.kept_at(&location, value) {
            None => unreachable!(),
            Some(kept) => Doing::Reads(location, kept, count),
        },
    }
}

/// What the instruction does that reads an item of the input into a cell of an array, whose subscript is the
/// newest operand.
fn get_at(frames: &Frames, operands: &mut Operands, rest: &[u8], next: u32, name: &Name) -> Doing
    requires short { length rest.now ≤ 4294967295 }
    requires fine { is_fine (get_at_lead frames.now rest.now next name.now operands.old.values) ≡ true }
    ensures leads { (output : List ℕ) (values : List Value) (arguments : List Argument)
        → plain_doing output next result values arguments
        ≡ get_at_lead frames.now rest.now next name.now operands.old.values }
    ensures within { TakesAtMost (length rest.now) result }
{
    let Some(Value::Fixed(subscript)) = operands.values.pop() else {
        unreachable!()
    };
    get(frames, rest, next, name, Some(subscript))
}

// ---- jumps and loops

/// Jumps where the newest operand is false, and takes that off.
fn jump_false(operands: &mut Operands, next: u32, by: i32) -> Led
    requires fine { is_fine (jump_false_lead next operands.old.arguments by operands.old.values) ≡ true }
    ensures { plain_led result operands.new.values operands.new.arguments
        ≡ jump_false_lead next operands.old.arguments by operands.old.values }
{
    let Some(Value::Bit(holds)) = operands.values.pop() else {
        unreachable!()
    };
    if holds {
        Led::GoesOn(next)
    } else {
        Led::GoesOn(target(next, by))
    }
}

/// Whether a loop is over where its variable has this value.
fn is_over(limit: i32, step: i32, value: i32) -> bool
    ensures { result ≡ is_over limit step value }
{
    if 0 <= step {
        limit < value
    } else {
        value < limit
    }
}

/// Enters a loop by its three operands, or jumps where it is over at once.
fn enter_loop(
    frames: &Frames,
    operands: &mut Operands,
    next: u32,
    slot: Slot,
    name: &Name,
    by: i32,
) -> Led
    requires fine { is_fine (for_enter_lead frames.now next slot.0 name.now by operands.old.values) ≡ true }
    ensures { plain_led result operands.new.values operands.new.arguments
        ≡ for_enter_lead frames.now next slot.0 name.now by operands.old.values }
{
    let Some(Value::Fixed(step)) = operands.values.pop() else {
        unreachable!()
    };
    let Some(Value::Fixed(limit)) = operands.values.pop() else {
        unreachable!()
    };
    let Some(Value::Fixed(first)) = operands.values.pop() else {
        unreachable!()
    };
    match reached(frames, name, None) {
        Err(kind) => Led::Stops(Reason::Fault(kind)),
        Ok(location) => enter_at(
            frames,
            next,
            KeptLoop { slot, limit, step },
            location,
            first,
            by,
        ),
    }
}

/// Enters a loop whose variable stands at a location, or jumps where it is over at once.
fn enter_at(
    frames: &Frames,
    next: u32,
    kept: KeptLoop,
    location: Location,
    first: i32,
    by: i32,
) -> Led
    requires fine { is_fine (entry_lead frames.now next kept location first by) ≡ true }
    ensures { (values : List Value) (arguments : List Argument) → plain_led result values arguments
        ≡ entry_lead frames.now next kept location first by }
{
    match frames.kept_at(&location, Value::Fixed(first)) {
        None => unreachable!(),
        Some(value) => {
            if is_over(kept.limit, kept.step, first) {
                Led::Acts(StepAct::Store(location, value), target(next, by))
            } else {
                Led::Acts(StepAct::Enter(location, value, kept), next)
            }
        }
    }
}

/// Takes the next iteration of the loop that is kept for a slot, or leaves it.
fn next_iteration(frames: &Frames, next: u32, slot: Slot, name: &Name, by: i32) -> Led
    requires fine { is_fine (for_next_lead frames.now next slot.0 name.now by) ≡ true }
    ensures { (values : List Value) (arguments : List Argument) → plain_led result values arguments
        ≡ for_next_lead frames.now next slot.0 name.now by }
{
    let Some((number, kept)) = frames.newest_loop(slot) else {
        unreachable!()
    };
    match reached(frames, name, None) {
        Err(kind) => Led::Stops(Reason::Fault(kind)),
        Ok(location) => match frames.value_at(&location) {
            Err(kind) => Led::Stops(Reason::Fault(kind)),
            Ok(Some(Value::Fixed(value))) => iterate(
                frames, next, number, kept, location, value, by,
            ),
            Ok(_) => unreachable!(),
        },
    }
}

/// Adds the step of a loop to its variable, which has this value.
fn iterate(
    frames: &Frames,
    next: u32,
    number: usize,
    kept: KeptLoop,
    location: Location,
    value: i32,
    by: i32,
) -> Led
    requires fine { is_fine (iterate_lead frames.now next number kept location value by) ≡ true }
    ensures { (values : List Value) (arguments : List Argument) → plain_led result values arguments
        ≡ iterate_lead frames.now next number kept location value by }
{
    match fixed_value(i64::from(value) + i64::from(kept.step)) {
        Err(kind) => Led::Stops(Reason::Fault(kind)),
        Ok(Some(Value::Fixed(sum))) => iterate_to(frames, next, number, kept, location, sum, by),
        Ok(_) => unreachable!(),
    }
}

/// Goes on with a loop whose variable becomes this, or leaves it.
fn iterate_to(
    frames: &Frames,
    next: u32,
    number: usize,
    kept: KeptLoop,
    location: Location,
    sum: i32,
    by: i32,
) -> Led
    requires fine { is_fine (sum_lead frames.now next number kept location sum by) ≡ true }
    ensures { (values : List Value) (arguments : List Argument) → plain_led result values arguments
        ≡ sum_lead frames.now next number kept location sum by }
{
    match frames.kept_at(&location, Value::Fixed(sum)) {
        None => unreachable!(),
        Some(value) => {
            if is_over(kept.limit, kept.step, sum) {
                Led::Acts(StepAct::Finish(location, value, number), next)
            } else {
                Led::Acts(StepAct::Store(location, value), target(next, by))
            }
        }
    }
}

// ---- calls

/// What the instruction does that calls the procedure of the name with so many newest arguments, unless too many
/// frames stand.
fn call<W: Work, C: CodeView<W>>(code: &C, frames: &Frames, name: &Name, count: u32) -> Led
    requires fine { is_fine (named_call_lead (C.code code.now) frames.now name.now []) ≡ true }
    ensures { (values : List Value) (arguments : List Argument) → plain_led result values arguments
        ≡ named_call_lead (C.code code.now) frames.now name.now (newest_arguments count arguments) }
{
    let Some(address) = code.entry(name) else {
        unreachable!()
    };
    let Some(slot) = code.procedure(name) else {
        unreachable!()
    };
    if frames.count() >= MOST_FRAMES {
        return Led::Stops(Reason::Fault(FaultKind::CallDepth));
    }
    Led::Enters(HeadingEntry { address, slot }, count)
}

/// What the instruction does that leaves the newest frame; in main it ends the run.
fn leave<W: Work, C: CodeView<W>>(code: &C, frames: &Frames) -> Led
    requires fine { is_fine (leave_lead (C.code code.now) frames.now) ≡ true }
    ensures { (values : List Value) (arguments : List Argument) → plain_led result values arguments
        ≡ leave_lead (C.code code.now) frames.now }
{
    if frames.count() <= 1 {
        return Led::Ends;
    }
    let Some(place) = frames.caller_place() else {
        unreachable!()
    };
    let Some(address) = code.address(place) else {
        unreachable!()
    };
    Led::Acts(StepAct::Leave, address)
}
