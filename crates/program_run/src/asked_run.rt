//! The run that the words of the command ask for.
ghost use Rattle.std.specs.Prelude.{◌≡◌, ◌≤◌, ◌⊎◌, None, Some, map, option_map, IfErr, IfOk, IfSome};
ghost use Rattle.std.specs.List.{list_all};
ghost use Rattle.std.specs.String.{string_bytes};
ghost use Rattle.plcs_base.specs.Byte.{is_digit};
ghost use Rattle.program_run.specs.AskedRun.{asked_run_of, is_input_name, run_asked_by, steps_given, steps_in};
ghost use Rattle.program_run.specs.Private.PlainForms.{plain_asked_run, plain_given_words};

use crate::command::{GivenWords, read_words};
use crate::ending::Ending;
use plcs_base::is_digit;
use plcs_grammar::numeral_value;
use session_words::is_file_name;
use std::alloc::Global;

/// The least number of steps that the words of the command can ask for.
const FEWEST_STEPS: u32 = 1;

/// The greatest number of steps that the words of the command can ask for.
const MOST_STEPS: u32 = 1_000_000_000;

/// How many steps are made at most where no words say it.
const USUAL_STEPS: u32 = 100_000_000;

/// How many digits the number of steps has at most.
const MOST_DIGITS: usize = 10;

/// A run that is asked for: of which program, over which input, and for how many steps.
#[derive(Clone, Copy, Debug)]
pub(crate) struct AskedRun<'a> {
    /// How many steps are made at most.
    pub(crate) steps: u32,
    /// The name of the file with the program.
    pub(crate) program: &'a str,
    /// The name of the file with the program's input, if there is one.
    pub(crate) input: Option<&'a str>,
}

/// The run that the words after the command's name ask for. Words that aren't of the command are `BadWords`, and
/// it is `NoMemory` where memory ran out.
#[tactic(auto, unfolding(crate::specs::AskedRun::asked_run_of))]
pub(crate) fn asked_run_of<'a>(alloc: Global, words: &'a [String]) -> Result<AskedRun<'a>, Ending>
    ensures asked { IfOk result (λ asked.
        asked_run_of (map string_bytes words.entry.now) ≡ Some (plain_asked_run asked)) }
    ensures bad { IfErr result (λ ending. (ending ≡ Ending.NoMemory)
        ⊎ ((ending ≡ Ending.BadWords) × (asked_run_of (map string_bytes words.entry.now) ≡ None))) }
{
    match read_words(alloc, words) {
        Ok(given) => match run_asked_by(&given) {
            Some(asked) => Ok(asked),
            None => Err(Ending::BadWords),
        },
        Err(ending) => Err(ending),
    }
}

/// The run that is asked for by what the words give, if they name a program, the number of steps is in its range,
/// and each file name is one that a file may have.
fn run_asked_by<'a>(given: &GivenWords<'a>) -> Option<AskedRun<'a>>
    ensures { option_map plain_asked_run result ≡ run_asked_by (plain_given_words given.now) }
{
    let steps = steps_given(given.steps)?;
    let program = given.program?;
    if !is_file_name(program.as_bytes()) || !is_input_name(given.input) {
        return None;
    }
    Some(AskedRun {
        steps,
        program,
        input: given.input,
    })
}

/// How many steps are asked for by the words of the option, if that number is in its range; the usual one where they
/// give none.
fn steps_given(word: Option<&str>) -> Option<u32>
    ensures { result ≡ steps_given (option_map (λ word. word.now) word.entry) }
{
    match word {
        Some(word) => steps_in(word.as_bytes()),
        None => Some(USUAL_STEPS),
    }
}

/// The number of steps that a word asks for in 1 to 10 digits, if it is in its range.
#[tactic(auto, unfolding(session_words::specs::Argument::number_between))]
fn steps_in(word: &[u8]) -> Option<u32>
    ensures { result ≡ steps_in word.now }
{
    if word.is_empty() || word.len() > MOST_DIGITS || !all_digits(word) {
        return None;
    }
    let steps = numeral_value(word);
    if steps < u64::from(FEWEST_STEPS) || steps > u64::from(MOST_STEPS) {
        return None;
    }
    Some(steps as u32)
}

/// Whether each byte of the word for the number of steps is a digit.
fn all_digits(word: &[u8]) -> bool
    ensures { result ≡ list_all is_digit word.now }
{
    word.iter().all(|byte| is_digit(*byte))
}

/// Whether the words name no file with input for the run, or one by a name that a file may have.
fn is_input_name(name: Option<&str>) -> bool
    ensures { result ≡ is_input_name (option_map (λ name. name.now) name.entry) }
{
    match name {
        Some(name) => is_file_name(name.as_bytes()),
        None => true,
    }
}
