//! What built-in functions make of values. None of it takes memory.
ghost use Rattle.std.specs.Prelude.{◌≡◌, ◌+◌, ◌≤◌, [], ◌∷◌, drop, length, take, Ok};
ghost use Rattle.plcs_base.specs.Text.{IsTextValue};
ghost use Rattle.plcs_base.specs.declared.value.Value.{Value};
ghost use Rattle.plcs_store.specs.BuiltinValue.{builtin_value, found_in, modulo, text_from, text_part};
ghost use Rattle.plcs_store.specs.Outcome.{answer_outcome};

use crate::operators::fixed_value;
use plcs_base::{TextValue, Value};
use plcs_grammar::Builtin;
use plcs_store::FaultKind;

/// What a built-in function makes of its arguments, or `None` where there are more or fewer, or of other kinds.
pub(crate) fn builtin_value(function: Builtin, given: &[Value]) -> Result<Option<Value>, FaultKind>
    ensures { answer_outcome result ≡ builtin_value function given.now }
{
    match given {
        [a] => of_one(function, a),
        [a, b] => of_two(function, a, b),
        [a, b, c] => of_three(function, a, b, c),
        _ => Ok(None),
    }
}

/// What a built-in function makes of one argument.
fn of_one(function: Builtin, a: &Value) -> Result<Option<Value>, FaultKind>
    ensures { answer_outcome result ≡ builtin_value function (a.now ∷ []) }
{
    match a {
        Value::Fixed(a) => of_number(function, *a),
        Value::Bit(_) => Ok(None),
        Value::Text(x) => Ok(of_text(function, x)),
    }
}

/// What a built-in function makes of one whole number.
fn of_number(function: Builtin, a: i32) -> Result<Option<Value>, FaultKind>
    ensures { answer_outcome result ≡ builtin_value function (Value.Fixed a ∷ []) }
{
    match function {
        Builtin::Abs => fixed_value(i64::from(a).abs()),
        Builtin::Mod => Ok(None),
        Builtin::Min => Ok(None),
        Builtin::Max => Ok(None),
        Builtin::Length => Ok(None),
        Builtin::Substr => Ok(None),
        Builtin::Index => Ok(None),
    }
}

/// What a built-in function makes of one text.
fn of_text(function: Builtin, x: &TextValue) -> Option<Value>
    ensures { answer_outcome (Ok result) ≡ builtin_value function (Value.Text x.now ∷ []) }
{
    match function {
        Builtin::Abs => None,
        Builtin::Mod => None,
        Builtin::Min => None,
        Builtin::Max => None,
        Builtin::Length => Some(Value::Fixed(x.as_bytes().len() as i32)),
        Builtin::Substr => None,
        Builtin::Index => None,
    }
}

/// What a built-in function makes of two arguments.
fn of_two(function: Builtin, a: &Value, b: &Value) -> Result<Option<Value>, FaultKind>
    ensures { answer_outcome result ≡ builtin_value function (a.now ∷ (b.now ∷ [])) }
{
    match a {
        Value::Fixed(a) => match b {
            Value::Fixed(b) => of_numbers(function, *a, *b),
            Value::Bit(_) => Ok(None),
            Value::Text(_) => Ok(None),
        },
        Value::Bit(_) => Ok(None),
        Value::Text(x) => match b {
            Value::Fixed(i) => of_text_and_number(function, x, *i),
            Value::Bit(_) => Ok(None),
            Value::Text(sought) => Ok(of_texts(function, x, sought)),
        },
    }
}

/// What a built-in function makes of two whole numbers.
fn of_numbers(function: Builtin, a: i32, b: i32) -> Result<Option<Value>, FaultKind>
    ensures { answer_outcome result ≡ builtin_value function (Value.Fixed a ∷ (Value.Fixed b ∷ [])) }
{
    match function {
        Builtin::Abs => Ok(None),
        Builtin::Mod => modulo(a, b),
        Builtin::Min => Ok(Some(Value::Fixed(if a <= b { a } else { b }))),
        Builtin::Max => Ok(Some(Value::Fixed(if a <= b { b } else { a }))),
        Builtin::Length => Ok(None),
        Builtin::Substr => Ok(None),
        Builtin::Index => Ok(None),
    }
}

/// What a built-in function makes of a text and a whole number.
fn of_text_and_number(function: Builtin, x: &TextValue, i: i32) -> Result<Option<Value>, FaultKind>
    ensures { answer_outcome result ≡ builtin_value function (Value.Text x.now ∷ (Value.Fixed i ∷ [])) }
{
    match function {
        Builtin::Abs => Ok(None),
        Builtin::Mod => Ok(None),
        Builtin::Min => Ok(None),
        Builtin::Max => Ok(None),
        Builtin::Length => Ok(None),
        Builtin::Substr => text_from(x, i),
        Builtin::Index => Ok(None),
    }
}

/// What a built-in function makes of two texts.
fn of_texts(function: Builtin, x: &TextValue, sought: &TextValue) -> Option<Value>
    ensures { answer_outcome (Ok result) ≡ builtin_value function (Value.Text x.now ∷ (Value.Text sought.now ∷ [])) }
{
    match function {
        Builtin::Abs => None,
        Builtin::Mod => None,
        Builtin::Min => None,
        Builtin::Max => None,
        Builtin::Length => None,
        Builtin::Substr => None,
        Builtin::Index => Some(Value::Fixed(found_in(x.as_bytes(), sought.as_bytes()) as i32)),
    }
}

/// What a built-in function makes of three arguments.
fn of_three(function: Builtin, a: &Value, b: &Value, c: &Value) -> Result<Option<Value>, FaultKind>
    ensures { answer_outcome result ≡ builtin_value function (a.now ∷ (b.now ∷ (c.now ∷ []))) }
{
    match function {
        Builtin::Abs => Ok(None),
        Builtin::Mod => Ok(None),
        Builtin::Min => Ok(None),
        Builtin::Max => Ok(None),
        Builtin::Length => Ok(None),
        Builtin::Substr => text_part_of(a, b, c),
        Builtin::Index => Ok(None),
    }
}

/// `SUBSTR` with three arguments, or `None` where they are of other kinds than a text and two whole numbers.
fn text_part_of(a: &Value, b: &Value, c: &Value) -> Result<Option<Value>, FaultKind>
    ensures { answer_outcome result ≡ builtin_value Builtin.Substr (a.now ∷ (b.now ∷ (c.now ∷ []))) }
{
    match a {
        Value::Fixed(_) => Ok(None),
        Value::Bit(_) => Ok(None),
        Value::Text(x) => match b {
            Value::Fixed(i) => match c {
                Value::Fixed(k) => text_part(x, *i, *k),
                Value::Bit(_) => Ok(None),
                Value::Text(_) => Ok(None),
            },
            Value::Bit(_) => Ok(None),
            Value::Text(_) => Ok(None),
        },
    }
}

/// `MOD`: the number from 0 to |b| - 1 that differs from a by a multiple of b.
fn modulo(a: i32, b: i32) -> Result<Option<Value>, FaultKind>
    ensures { answer_outcome result ≡ modulo a b }
{
    if b == 0 {
        return Err(FaultKind::ZeroDivide);
    }
    Ok(Some(Value::Fixed(i64::from(a).rem_euclid(i64::from(b)) as i32)))
}

/// `SUBSTR` with two arguments: the bytes of a text from the i-th on, counted from 1.
fn text_from(x: &TextValue, i: i32) -> Result<Option<Value>, FaultKind>
    ensures { answer_outcome result ≡ text_from x.now i }
{
    let bytes = x.as_bytes();
    if i < 1 || i > bytes.len() as i32 + 1 {
        return Err(FaultKind::StringRange);
    }
    Ok(Some(cut(&bytes[(i - 1) as usize..])))
}

/// `SUBSTR` with three arguments: so many bytes of a text from the i-th on.
fn text_part(x: &TextValue, i: i32, k: i32) -> Result<Option<Value>, FaultKind>
    ensures { answer_outcome result ≡ text_part x.now i k }
{
    let bytes = x.as_bytes();
    if i < 1 || k < 0 || i64::from(i) + i64::from(k) > bytes.len() as i64 + 1 {
        return Err(FaultKind::StringRange);
    }
    Ok(Some(part(bytes, (i - 1) as usize, k as usize)))
}

/// So many bytes of a text behind its first ones, as a value.
fn part(bytes: &[u8], from: usize, count: usize) -> Value
    requires within { from + count ≤ length bytes.now }
    requires short { IsTextValue bytes.now }
    ensures { result ≡ Value.Text (take count (drop from bytes.now)) }
{
    cut(&bytes[from..from + count])
}

/// What a built-in function makes of a text where it takes a part of it: the bytes of that, as a value.
fn cut(bytes: &[u8]) -> Value
    requires short { IsTextValue bytes.now }
    ensures { result ≡ Value.Text bytes.now }
{
    match TextValue::read(bytes) {
        None => unreachable!(),
        Some(text) => Value::Text(text),
    }
}

/// What `INDEX` makes of two texts: where the sought one first stands in the other, counted from 1; 0 where it
/// doesn't, or the sought text is empty.
fn found_in(x: &[u8], sought: &[u8]) -> usize
    ensures found { result ≡ found_in x.now sought.now }
    ensures within { result ≤ length x.now }
{
    if sought.is_empty() {
        return 0;
    }
    let mut k = 0;
    while k < x.len() {
        if x[k..].starts_with(sought) {
            return k + 1;
        }
        k += 1;
    }
    0
}
