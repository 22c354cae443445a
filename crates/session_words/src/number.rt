//! Arguments that are numbers in decimal digits.
ghost use Rattle.std.specs.Prelude.{◌≡◌};
ghost use Rattle.std.specs.List.{list_all};
ghost use Rattle.plcs_base.specs.Byte.{is_digit};
ghost use Rattle.session_words.specs.Argument.{number_between};

use plcs_base::is_digit;
use plcs_grammar::numeral_value;

/// The number that an argument is in decimal digits, any count of them, where it lies between the two bounds,
/// which are part of the range.
#[tactic(auto, unfolding(crate::specs::Argument::number_between))]
pub fn number_between(least: u32, most: u32, text: &[u8]) -> Option<u32>
    ensures { result ≡ number_between least most text.now }
{
    if text.is_empty() || !all_digits(text) {
        return None;
    }
    let value = numeral_value(text);
    if value < u64::from(least) || value > u64::from(most) {
        return None;
    }
    Some(value as u32)
}

/// Whether each byte of the argument is a digit.
fn all_digits(text: &[u8]) -> bool
    ensures { result ≡ list_all is_digit text.now }
{
    text.iter().all(|byte| is_digit(*byte))
}
