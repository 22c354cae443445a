//! Reading the items of the input.
ghost use Rattle.std.specs.Prelude.{◌≡◌, ◌<◌, ◌≤◌, false, length, nat_lt, ◌^◌, IfSome, IfOk, option_map, slice_get};
ghost use Rattle.std.specs.List.{list_all};
ghost use Rattle.plcs_base.specs.Byte.{is_digit, is_printable};
ghost use Rattle.plcs_store.specs.InputItem.{are_digits, bit_item, blanks_before, closed_at, comma_length, cut_item, fixed_item, is_input_blank, is_item_byte, item_at_front, item_bytes_before, item_length, item_value, negative_item, next_item, positive_item, readable_text, separator_length, text_item, unquoted, whole_constant};

use arrayvec::ArrayVec;
use plcs_base::{ItemType, LONGEST_TEXT, TextValue, Value, is_digit, is_printable};
use plcs_grammar::numeral_value;

/// Why no item is read.
#[derive(Clone, Copy, Debug, PartialEq, Eq)]
pub enum ItemFault {
    /// The input has no whole item more.
    Wanted,
    /// The item isn't one of the type.
    Conversion,
}

/// The next item of the input, as one of the type, and how many bytes it takes, the blanks before it and
/// what separates it from the next one among them. A text is whole, however short the type is. It takes no
/// memory, and looks at no byte behind those that it answers but one.
pub fn read_item(input: &[u8], ty: ItemType) -> Result<(Value, u32), ItemFault>
    requires short { length input.now ≤ 4294967295 }
    ensures item { result ≡ next_item ty input.now }
    ensures within { IfOk result (λ found. found.1 ≤ length input.now) }
{
    let blanks = blanks_before(input);
    let (value, taken) = item_at_front(&input[blanks..], ty)?;
    Ok((value, (blanks + taken) as u32))
}

/// The item at the front of the input, before which no blank stands.
fn item_at_front(input: &[u8], ty: ItemType) -> Result<(Value, usize), ItemFault>
    ensures item { result ≡ item_at_front ty input.now }
    ensures within { IfOk result (λ found. found.1 ≤ length input.now) }
{
    if input.is_empty() {
        return Err(ItemFault::Wanted);
    }
    match item_length(input) {
        None => Err(ItemFault::Wanted),
        Some(bytes) => cut_item(input, bytes, ty),
    }
}

/// The item that is the first bytes of the input, so many.
fn cut_item(input: &[u8], bytes: usize, ty: ItemType) -> Result<(Value, usize), ItemFault>
    requires within { bytes ≤ length input.now }
    ensures item { result ≡ cut_item ty input.now bytes }
    ensures within { IfOk result (λ found. found.1 ≤ length input.now) }
{
    match item_value(&input[..bytes], ty) {
        None => Err(ItemFault::Conversion),
        Some(value) => Ok((value, bytes + separator_length(&input[bytes..]))),
    }
}

// ---- where an item ends

/// How many bytes the item at the front of the input has, or `None` where it isn't whole.
fn item_length(input: &[u8]) -> Option<usize>
    ensures item { result ≡ item_length input.now }
    ensures within { IfSome result (λ n. n ≤ length input.now) }
{
    match input {
        [b'\'', rest @ ..] => match constant_length(rest) {
            None => None,
            Some(more) => Some(1 + more + item_bytes_before(&rest[more..])),
        },
        _ => Some(item_bytes_before(input)),
    }
}

/// How many blanks stand at the front of the input.
fn blanks_before(input: &[u8]) -> usize
    ensures blanks { result ≡ blanks_before input.now }
    ensures within { result ≤ length input.now }
{
    let mut count = 0;
    while count < input.len() && is_input_blank(input[count]) {
        count += 1;
    }
    count
}

/// How many bytes at the front of the input go on with an item.
fn item_bytes_before(input: &[u8]) -> usize
    ensures bytes { result ≡ item_bytes_before input.now }
    ensures within { result ≤ length input.now }
{
    let mut count = 0;
    while count < input.len() && is_item_byte(input[count]) {
        count += 1;
    }
    count
}

/// Whether a byte of the input goes on with an item.
fn is_item_byte(byte: u8) -> bool
    ensures { result ≡ is_item_byte byte }
{
    !(is_input_blank(byte) || byte == b',')
}

/// Whether a byte of the input is a blank.
fn is_input_blank(byte: u8) -> bool
    ensures { result ≡ is_input_blank byte }
{
    byte == 9 || byte == 10 || byte == 13 || byte == 32
}

/// How many bytes of the input a constant has behind its opening quote, or `None` where it isn't closed.
fn constant_length(input: &[u8]) -> Option<usize>
    ensures closed { result ≡ closed_at 0 false input.now }
    ensures within { IfSome result (λ n. n ≤ length input.now) }
{
    let mut behind_quote = false;
    let mut count = 0;
    while count < input.len() {
        let quote = input[count] == b'\'';
        if !behind_quote {
            behind_quote = quote;
        } else if quote {
            behind_quote = false;
        } else {
            return Some(count);
        }
        count += 1;
    }
    if behind_quote { Some(count) } else { None }
}

/// How many bytes of the input stand between an item and the next one.
fn separator_length(input: &[u8]) -> usize
    ensures separator { result ≡ separator_length input.now }
    ensures within { result ≤ length input.now }
{
    let blanks = blanks_before(input);
    blanks + comma_length(&input[blanks..])
}

/// How many bytes a comma at the front of the input has, with the blanks behind it.
fn comma_length(input: &[u8]) -> usize
    ensures comma { result ≡ comma_length input.now }
    ensures within { result ≤ length input.now }
{
    match input {
        [b',', rest @ ..] => blanks_before(rest) + 1,
        _ => 0,
    }
}

// ---- what an item says

/// The value of the type that the item is, or `None` where it is none.
fn item_value(item: &[u8], ty: ItemType) -> Option<Value>
    ensures { result ≡ item_value ty item.now }
{
    match ty {
        ItemType::Fixed => fixed_item(item),
        ItemType::Bit => bit_item(item),
        ItemType::Text(_) => text_item(item),
    }
}

/// How an item may write the truth value that is false, by a number.
const ZERO: &[u8] = b"0";

/// How an item may write the truth value that is true, by a number.
const ONE: &[u8] = b"1";

/// How an item may write the truth value that is false, by a bit constant.
const FALSE: &[u8] = b"'0'B";

/// How an item may write the truth value that is true, by a bit constant.
const TRUE: &[u8] = b"'1'B";

/// The truth value that the item is, or `None` where it is none.
fn bit_item(item: &[u8]) -> Option<Value>
    ensures { result ≡ bit_item item.now }
{
    if item == ZERO || item == FALSE {
        Some(Value::Bit(false))
    } else if item == ONE || item == TRUE {
        Some(Value::Bit(true))
    } else {
        None
    }
}

/// The whole number that the item is, or `None` where it is none.
fn fixed_item(item: &[u8]) -> Option<Value>
    ensures { result ≡ fixed_item item.now }
{
    match item {
        [b'-', digits @ ..] => negative_item(digits),
        [b'+', digits @ ..] => positive_item(digits),
        _ => positive_item(item),
    }
}

/// The number that the digits write, or `None` where it is too great or they aren't digits, one at least.
fn positive_item(digits: &[u8]) -> Option<Value>
    ensures { result ≡ positive_item digits.now }
{
    if !are_digits(digits) {
        return None;
    }
    let number = numeral_value(digits);
    if number < 2147483648 {
        Some(Value::Fixed(number as i32))
    } else {
        None
    }
}

/// The number below 0 that the digits write behind a minus, or `None` where it is too small or they aren't
/// digits, one at least.
fn negative_item(digits: &[u8]) -> Option<Value>
    ensures { result ≡ negative_item digits.now }
{
    if !are_digits(digits) {
        return None;
    }
    let number = numeral_value(digits);
    if number <= 2147483648 {
        Some(Value::Fixed((-(number as i64)) as i32))
    } else {
        None
    }
}

/// Whether the bytes of an item are digits, one at least.
fn are_digits(bytes: &[u8]) -> bool
    ensures { result ≡ are_digits bytes.now }
{
    !bytes.is_empty() && all_digits(bytes)
}

/// Whether each of the bytes of an item is a digit.
fn all_digits(bytes: &[u8]) -> bool
    ensures { result ≡ list_all is_digit bytes.now }
{
    bytes.iter().all(|byte| is_digit(*byte))
}

/// The text that the item is, or `None` where it is none.
fn text_item(item: &[u8]) -> Option<Value>
    ensures { result ≡ text_item item.now }
{
    match item {
        [] => None,
        [b'\'', rest @ ..] => whole_constant(rest),
        _ => readable_text(item),
    }
}

/// The text of the constant that these bytes are behind its opening quote, or `None` where it isn't one or
/// something follows.
fn whole_constant(rest: &[u8]) -> Option<Value>
    ensures { result ≡ whole_constant rest.now }
{
    match constant_length(rest) {
        Some(bytes) if bytes == rest.len() => unquoted_text(rest),
        _ => None,
    }
}

/// The text of these bytes of an item, or `None` where they are too many or one may not stand in a constant.
fn readable_text(bytes: &[u8]) -> Option<Value>
    ensures { result ≡ readable_text bytes.now }
{
    if !all_printable(bytes) {
        return None;
    }
    match TextValue::read(bytes) {
        None => None,
        Some(text) => Some(Value::Text(text)),
    }
}

/// Whether each of the bytes of an item may stand in a constant.
fn all_printable(bytes: &[u8]) -> bool
    ensures { result ≡ list_all is_printable bytes.now }
{
    bytes.iter().all(|byte| is_printable(*byte))
}

/// The text of an item of the input that is a constant, of which these are the bytes behind the opening quote,
/// or `None` where it is too long or has a byte that may not stand in a constant.
fn unquoted_text(rest: &[u8]) -> Option<Value>
    ensures { result ≡ readable_text (unquoted false rest.now) }
{
    let mut text: ArrayVec<u8, LONGEST_TEXT> = ArrayVec::new();
    let mut behind_quote = false;
    let mut count = 0;
    while count < rest.len() {
        let byte = rest[count];
        let quote = byte == b'\'';
        if !behind_quote && quote {
            behind_quote = true;
        } else if behind_quote && !quote {
            return readable_text(text.as_slice());
        } else {
            behind_quote = false;
            if text.try_push(byte).is_err() {
                return None;
            }
        }
        count += 1;
    }
    readable_text(text.as_slice())
}
