//! The command that runs a saved program, as clap reads it: what the words give, as texts.
ghost use Rattle.std.specs.Prelude.{◌≡◌, ◌≢◌, ◌⊎◌, codes, false, map, None, Some, IfErr, IfOk};
ghost use Rattle.std.specs.String.{string_bytes};
ghost use Rattle.clap.specs.Words.{app_of, found_of, kind_of, new_rule, rule_of};
ghost use Rattle.program_run.specs.GivenWords.{given_words};
ghost use Rattle.program_run.specs.RunCommand.{run_command, steps_option, unflagged_command};
ghost use Rattle.program_run.specs.Private.PlainForms.{plain_given_words, words_of_matches};

use crate::ending::Ending;
use clap::error::ErrorKind;
use clap::{Arg, ArgMatches, Command, Error};
use std::alloc::{AllocError, Global};

/// What the words give: a text for the option and for each of the words that stand by themselves.
#[derive(Clone, Copy, Debug)]
pub(crate) struct GivenWords<'a> {
    /// How many steps are made at most.
    pub(crate) steps: Option<&'a str>,
    /// The name of the file with the program.
    pub(crate) program: Option<&'a str>,
    /// The name of the file with the program's input.
    pub(crate) input: Option<&'a str>,
}

/// What the words give, as clap reads them. Words that aren't of the command are `BadWords`, and it is
/// `NoMemory` where memory ran out.
pub(crate) fn read_words<'a>(alloc: Global, words: &'a [String]) -> Result<GivenWords<'a>, Ending>
    ensures given { IfOk result (λ given.
        given_words (map string_bytes words.entry.now) ≡ Some (plain_given_words given)) }
    ensures bad { IfErr result (λ ending. (ending ≡ Ending.NoMemory)
        ⊎ ((ending ≡ Ending.BadWords) × (given_words (map string_bytes words.entry.now) ≡ None))) }
{
    match run_command(alloc) {
        Ok(command) => read_by(command, words),
        Err(AllocError) => Err(Ending::NoMemory),
    }
}

/// What the words give, as clap reads them by the command.
fn read_by<'a>(command: Command<'a>, words: &'a [String]) -> Result<GivenWords<'a>, Ending>
    requires { app_of command ≡ run_command }
    ensures given { IfOk result (λ given.
        given_words (map string_bytes words.entry.now) ≡ Some (plain_given_words given)) }
    ensures bad { IfErr result (λ ending. (ending ≡ Ending.NoMemory)
        ⊎ ((ending ≡ Ending.BadWords) × (given_words (map string_bytes words.entry.now) ≡ None))) }
{
    match command.try_get_matches_from(words) {
        Ok(matches) => Ok(given_by(&matches)),
        Err(error) => Err(ending_of(&error)),
    }
}

/// The command as clap knows it: an option, and two words that stand by themselves.
fn run_command<'a>(alloc: Global) -> Result<Command<'a>, AllocError>
    ensures { IfOk result (λ command. app_of command ≡ run_command) }
{
    unflagged_command(alloc)
        .arg(steps_option(alloc))?
        .arg(word_named(alloc, "program"))?
        .arg(word_named(alloc, "input"))
}

/// The command for clap without its arguments: it knows neither help nor version, and its first word is the first
/// after the command's name.
fn unflagged_command<'a>(alloc: Global) -> Command<'a>
    ensures { app_of result ≡ unflagged_command }
{
    Command::new(alloc, "plcs_run")
        .no_binary_name(true)
        .disable_help_flag(true)
        .disable_version_flag(true)
}

/// The option of the command for clap, whose value is the next word or stands behind `=`.
fn steps_option<'a>(alloc: Global) -> Arg<'a>
    ensures rule { rule_of result ≡ steps_option }
    ensures local { result.global ≡ false }
{
    Arg::new(alloc, "steps").long("steps")
}

/// The word of the command of this name, which stands by itself, for clap.
fn word_named<'a>(alloc: Global, name: &'a str) -> Arg<'a>
    ensures rule { rule_of result ≡ new_rule name.entry.now }
    ensures local { result.global ≡ false }
{
    Arg::new(alloc, name)
}

/// What clap's matches give of the words of the command that runs a saved program.
fn given_by<'a>(matches: &ArgMatches<'a>) -> GivenWords<'a>
    ensures { plain_given_words result ≡ words_of_matches (found_of matches.now) }
{
    GivenWords {
        steps: matches.get_str("steps"),
        program: matches.get_str("program"),
        input: matches.get_str("input"),
    }
}

/// How the command ends where clap refuses the words.
fn ending_of(error: &Error) -> Ending
    ensures { ((result ≡ Ending.NoMemory) × (kind_of error.now ≡ ErrorKind.OutOfMemory))
        ⊎ ((result ≡ Ending.BadWords) × (kind_of error.now ≢ ErrorKind.OutOfMemory)) }
{
    match error.kind() {
        ErrorKind::OutOfMemory => Ending::NoMemory,
        _ => Ending::BadWords,
    }
}
