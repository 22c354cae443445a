//! Numbers among the words of the command, written in decimal digits.

ghost use Rattle.std.specs.Prelude.{◌≡◌, ◌≤◌, ◌<◌, ◌^◌, length, IsTrue, IfSome};
ghost use Rattle.std.specs.List.{list_all};
ghost use Rattle.std.specs.Char.{is_ascii_digit};
ghost use Rattle.synth_top.specs.Number.{value_of, number_in_digits};

/// How many digits a number among the words has at most.
const MOST_DIGITS: usize = 10;

/// The number that a word of the command spells in 1 to 10 decimal digits, where it is at most `most`.
#[tactic(auto, unfolding(crate::specs::Number::number_in_digits))]
pub fn number_in_digits(most: u32, text: &[u8]) -> Option<u32>
    ensures value { result ≡ number_in_digits most text.now }
    ensures bound { IfSome result (λ n. n ≤ most) }
{
    if text.is_empty() || text.len() > MOST_DIGITS || !are_digits(text) {
        return None;
    }
    let value = digits_value(text);
    if value > u64::from(most) {
        return None;
    }
    Some(value as u32)
}

/// Whether a word of the command consists of decimal digits alone.
fn are_digits(text: &[u8]) -> bool
    ensures { result ≡ list_all is_ascii_digit text.now }
{
    text.iter().all(|byte| byte.is_ascii_digit())
}

/// The number that the decimal digits of a word of the command spell.
fn digits_value(digits: &[u8]) -> u64
    requires short { length digits.now ≤ MOST_DIGITS }
    requires digits { IsTrue (list_all is_ascii_digit digits.now) }
    ensures value { result ≡ value_of digits.now }
    ensures bound { result < 10 ^ 10 }
{
    let mut value: u64 = 0;
    for digit in digits {
        value = 10 * value + u64::from(*digit - b'0');
    }
    value
}
