//! What operators make of values. None of it takes memory.
ghost use Rattle.std.specs.Prelude.{◌≡◌, ◌++◌, Ok, get_or};
ghost use Rattle.plcs_base.specs.declared.value.Value.{Value};
ghost use Rattle.plcs_store.specs.Operator.{fixed_value, infix_value, prefix_value, quotient, text_order, text_value};
ghost use Rattle.plcs_store.specs.Outcome.{answer_outcome};
ghost use Rattle.plcs_machine.specs.Private.Comparison.{comparison};

use arrayvec::ArrayVec;
use plcs_base::{LONGEST_TEXT, TextValue, Value};
use plcs_grammar::{InfixOp, PrefixOp};
use plcs_store::FaultKind;
use std::cmp::Ordering;

/// What a prefix operator makes of a value, or `None` where that is of another kind.
pub(crate) fn prefix_value(op: PrefixOp, value: &Value) -> Result<Option<Value>, FaultKind>
    ensures { answer_outcome result ≡ prefix_value op value.now }
{
    match value {
        Value::Fixed(number) => prefix_number(op, *number),
        Value::Bit(bit) => Ok(prefix_bit(op, *bit)),
        Value::Text(_) => Ok(None),
    }
}

/// What a prefix operator makes of a whole number.
fn prefix_number(op: PrefixOp, number: i32) -> Result<Option<Value>, FaultKind>
    ensures { answer_outcome result ≡ prefix_value op (Value.Fixed number) }
{
    match op {
        PrefixOp::Plus => fixed_value(i64::from(number)),
        PrefixOp::Minus => fixed_value(-i64::from(number)),
        PrefixOp::Not => Ok(None),
    }
}

/// What a prefix operator makes of a truth value.
fn prefix_bit(op: PrefixOp, bit: bool) -> Option<Value>
    ensures { answer_outcome (Ok result) ≡ prefix_value op (Value.Bit bit) }
{
    match op {
        PrefixOp::Plus => None,
        PrefixOp::Minus => None,
        PrefixOp::Not => Some(Value::Bit(!bit)),
    }
}

/// What an infix operator makes of two values, or `None` where they are of other kinds.
pub(crate) fn infix_value(
    op: InfixOp,
    left: &Value,
    right: &Value,
) -> Result<Option<Value>, FaultKind>
    ensures { answer_outcome result ≡ infix_value op left.now right.now }
{
    match left {
        Value::Fixed(a) => match right {
            Value::Fixed(b) => infix_numbers(op, *a, *b),
            Value::Bit(_) => Ok(None),
            Value::Text(_) => Ok(None),
        },
        Value::Bit(a) => match right {
            Value::Fixed(_) => Ok(None),
            Value::Bit(b) => Ok(infix_bits(op, *a, *b)),
            Value::Text(_) => Ok(None),
        },
        Value::Text(a) => match right {
            Value::Fixed(_) => Ok(None),
            Value::Bit(_) => Ok(None),
            Value::Text(b) => infix_texts(op, a, b),
        },
    }
}

/// What an infix operator makes of two whole numbers.
fn infix_numbers(op: InfixOp, a: i32, b: i32) -> Result<Option<Value>, FaultKind>
    ensures { answer_outcome result ≡ infix_value op (Value.Fixed a) (Value.Fixed b) }
{
    let order = a.cmp(&b);
    match op {
        InfixOp::Plus => fixed_value(i64::from(a) + i64::from(b)),
        InfixOp::Minus => fixed_value(i64::from(a) - i64::from(b)),
        InfixOp::Times => fixed_value(i64::from(a) * i64::from(b)),
        InfixOp::Divide => quotient(a, b),
        InfixOp::Or => Ok(None),
        InfixOp::And => Ok(None),
        InfixOp::Join => Ok(None),
        InfixOp::Equal => Ok(compared(op, order)),
        InfixOp::NotEqual => Ok(compared(op, order)),
        InfixOp::Less => Ok(compared(op, order)),
        InfixOp::LessEqual => Ok(compared(op, order)),
        InfixOp::Greater => Ok(compared(op, order)),
        InfixOp::GreaterEqual => Ok(compared(op, order)),
    }
}

/// A quotient, cut off toward zero.
fn quotient(a: i32, b: i32) -> Result<Option<Value>, FaultKind>
    ensures { answer_outcome result ≡ quotient a b }
{
    if b == 0 {
        return Err(FaultKind::ZeroDivide);
    }
    fixed_value(i64::from(a) / i64::from(b))
}

/// What an infix operator makes of two truth values.
fn infix_bits(op: InfixOp, a: bool, b: bool) -> Option<Value>
    ensures { answer_outcome (Ok result) ≡ infix_value op (Value.Bit a) (Value.Bit b) }
{
    let order = a.cmp(&b);
    match op {
        InfixOp::Or => Some(Value::Bit(a || b)),
        InfixOp::And => Some(Value::Bit(a && b)),
        InfixOp::Join => None,
        InfixOp::Plus => None,
        InfixOp::Minus => None,
        InfixOp::Times => None,
        InfixOp::Divide => None,
        InfixOp::Equal => compared(op, order),
        InfixOp::NotEqual => compared(op, order),
        InfixOp::Less => compared(op, order),
        InfixOp::LessEqual => compared(op, order),
        InfixOp::Greater => compared(op, order),
        InfixOp::GreaterEqual => compared(op, order),
    }
}

/// What an infix operator makes of two texts.
fn infix_texts(op: InfixOp, a: &TextValue, b: &TextValue) -> Result<Option<Value>, FaultKind>
    ensures { answer_outcome result ≡ infix_value op (Value.Text a.now) (Value.Text b.now) }
{
    match op {
        InfixOp::Join => joined(a, b),
        InfixOp::Or => Ok(None),
        InfixOp::And => Ok(None),
        InfixOp::Plus => Ok(None),
        InfixOp::Minus => Ok(None),
        InfixOp::Times => Ok(None),
        InfixOp::Divide => Ok(None),
        InfixOp::Equal => Ok(compared(op, text_order(a.as_bytes(), b.as_bytes()))),
        InfixOp::NotEqual => Ok(compared(op, text_order(a.as_bytes(), b.as_bytes()))),
        InfixOp::Less => Ok(compared(op, text_order(a.as_bytes(), b.as_bytes()))),
        InfixOp::LessEqual => Ok(compared(op, text_order(a.as_bytes(), b.as_bytes()))),
        InfixOp::Greater => Ok(compared(op, text_order(a.as_bytes(), b.as_bytes()))),
        InfixOp::GreaterEqual => Ok(compared(op, text_order(a.as_bytes(), b.as_bytes()))),
    }
}

/// What a comparison makes of how two values are ordered, or `None` where the operator is no comparison.
fn compared(op: InfixOp, order: Ordering) -> Option<Value>
    ensures { result ≡ comparison op order }
{
    match op {
        InfixOp::Equal => Some(Value::Bit(order.is_eq())),
        InfixOp::NotEqual => Some(Value::Bit(order.is_ne())),
        InfixOp::Less => Some(Value::Bit(order.is_lt())),
        InfixOp::LessEqual => Some(Value::Bit(order.is_le())),
        InfixOp::Greater => Some(Value::Bit(order.is_gt())),
        InfixOp::GreaterEqual => Some(Value::Bit(order.is_ge())),
        InfixOp::Or => None,
        InfixOp::And => None,
        InfixOp::Join => None,
        InfixOp::Plus => None,
        InfixOp::Minus => None,
        InfixOp::Times => None,
        InfixOp::Divide => None,
    }
}

/// What the operator that joins two texts makes of them, if that isn't too long.
fn joined(a: &TextValue, b: &TextValue) -> Result<Option<Value>, FaultKind>
    ensures { answer_outcome result ≡ text_value (a.now ++ b.now) }
{
    let mut bytes: ArrayVec<u8, LONGEST_TEXT> = ArrayVec::new();
    if bytes.try_extend_from_slice(a.as_bytes()).is_err()
        || bytes.try_extend_from_slice(b.as_bytes()).is_err()
    {
        return Err(FaultKind::StringSize);
    }
    match TextValue::read(bytes.as_slice()) {
        None => Ok(None),
        Some(text) => Ok(Some(Value::Text(text))),
    }
}

/// How two texts are ordered: byte by byte, the shorter one padded with blanks.
fn text_order(left: &[u8], right: &[u8]) -> Ordering
    ensures { result ≡ text_order left.now right.now }
{
    for k in 0..left.len().max(right.len()) {
        match byte_or_blank(left, k).cmp(&byte_or_blank(right, k)) {
            Ordering::Less => return Ordering::Less,
            Ordering::Equal => {}
            Ordering::Greater => return Ordering::Greater,
        }
    }
    Ordering::Equal
}

/// The whole number as a value, if it is one.
pub(crate) fn fixed_value(number: i64) -> Result<Option<Value>, FaultKind>
    ensures { answer_outcome result ≡ fixed_value number }
{
    match i32::try_from(number) {
        Ok(fixed) => Ok(Some(Value::Fixed(fixed))),
        Err(_) => Err(FaultKind::FixedOverflow),
    }
}

/// What an operator compares of a text: the byte of this number, or a blank behind the last one.
fn byte_or_blank(bytes: &[u8], k: usize) -> u8
    ensures { result ≡ get_or bytes.now k 32 }
{
    match bytes.get(k) {
        None => b' ',
        Some(byte) => *byte,
    }
}
