//! The options of a whole run that edits, as the words ask for them.

ghost use Rattle.std.specs.Prelude.{◌≡◌, ◌≤◌, option_map, IfSome};
ghost use Rattle.synth_top.specs.Options.{count_between, count_given, is_name_given, options_with};
ghost use Rattle.synth_top.specs.Private.PlainForms.{plain_given, plain_options};

use crate::command::Given;
use crate::number::number_in_digits;
use screen_window::{FEWEST_COLS, FEWEST_ROWS, MOST_COLS, MOST_ROWS};
use session_words::is_file_name;
use synth_session::ScreenSize;

/// The least number of bytes of keys that an option can ask for.
const FEWEST_KEYS: u32 = 1;

/// The greatest number of bytes of keys that an option can ask for; where none asks for one, it is this.
const MOST_KEYS: u32 = 1_000_000_000;

/// How many rows a screen has where no option says it.
pub const USUAL_ROWS: u16 = 24;

/// How many columns a screen has where no option says it.
pub const USUAL_COLS: u16 = 80;

/// The options: what the words ask for.
#[derive(Clone, Copy)]
pub struct Options<'a> {
    /// The size of the screen.
    pub size: ScreenSize,
    /// How many bytes of keys are taken at most.
    pub key_limit: u32,
    /// The name of the file with the program, if there is one.
    pub program: Option<&'a str>,
    /// The name of the file with the program's input, if there is one.
    pub input: Option<&'a str>,
}

/// The options that are asked for by what the words give, if each number is in its range and each name one
/// that a file may have.
pub fn options_with<'a>(given: &Given<'a>) -> Option<Options<'a>>
    ensures { option_map plain_options result ≡ options_with (plain_given given.now) }
{
    let rows = count_given(
        u32::from(FEWEST_ROWS),
        u32::from(MOST_ROWS),
        u32::from(USUAL_ROWS),
        given.rows,
    )?;
    let cols = count_given(
        u32::from(FEWEST_COLS),
        u32::from(MOST_COLS),
        u32::from(USUAL_COLS),
        given.cols,
    )?;
    let key_limit = count_given(FEWEST_KEYS, MOST_KEYS, MOST_KEYS, given.keys)?;
    if !is_name_given(given.program) || !is_name_given(given.input) {
        return None;
    }
    Some(Options {
        size: ScreenSize::new(rows as u16, cols as u16),
        key_limit,
        program: given.program,
        input: given.input,
    })
}

/// The number that the words of an option ask for, if it is in its range, which both bounds are part of; the usual
/// one where they give none.
fn count_given(least: u32, most: u32, usual: u32, word: Option<&str>) -> Option<u32>
    requires least { least ≤ usual }
    requires most { usual ≤ most }
    ensures value { result ≡ count_given least most usual (option_map (λ word. word.now) word.entry) }
    ensures range { IfSome result (λ n. (least ≤ n) × (n ≤ most)) }
{
    match word {
        Some(word) => count_between(least, most, word),
        None => Some(usual),
    }
}

/// The number that a word asks for as the option of a run, where it lies between the two bounds, which are part
/// of the range.
pub fn count_between(least: u32, most: u32, word: &str) -> Option<u32>
    ensures value { result ≡ count_between least most word.now }
    ensures range { IfSome result (λ n. (least ≤ n) × (n ≤ most)) }
{
    let count = number_in_digits(most, word.as_bytes())?;
    if count < least {
        return None;
    }
    Some(count)
}

/// Whether the words of an option name no file, or one by a name that a file may have.
fn is_name_given(name: Option<&str>) -> bool
    ensures { result ≡ is_name_given (option_map (λ name. name.now) name.entry) }
{
    match name {
        Some(name) => is_file_name(name.as_bytes()),
        None => true,
    }
}
