//! The command as clap reads it: what the words give, as texts.

ghost use Rattle.std.specs.Prelude.{◌≡◌, ◌≢◌, ◌⊎◌, codes, false, map, None, Some, IfErr, IfOk, IsOkAnd};
ghost use Rattle.std.specs.String.{string_bytes};
ghost use Rattle.clap.specs.Words.{app_of, found_of, kind_of, new_rule, rule_of, with_rule};
ghost use Rattle.synth_top.specs.Given.{given_in};
ghost use Rattle.synth_top.specs.Private.ClapCommand.{bare_app, given_of_matches, option_rule, synth_app};
ghost use Rattle.synth_top.specs.Private.PlainForms.{plain_given};

use crate::status::Status;
use clap::error::ErrorKind;
use clap::{Arg, ArgMatches, Command, Error};
use std::alloc::{AllocError, Global};

/// What the words give: a text for each option that they name, and the word that stands by itself.
#[derive(Clone, Copy)]
pub struct Given<'a> {
    /// How many rows the screen has.
    pub rows: Option<&'a str>,
    /// How many columns the screen has.
    pub cols: Option<&'a str>,
    /// How many bytes of keys are taken at most.
    pub keys: Option<&'a str>,
    /// The name of the file with the program's input.
    pub input: Option<&'a str>,
    /// How many statements a program has that is made.
    pub make: Option<&'a str>,
    /// The name of the file with the program.
    pub program: Option<&'a str>,
}

/// What the words give, as clap reads them. Words that aren't of the command are `BadWords`, and it is
/// `NoMemory` where memory ran out.
pub fn read_words<'a>(alloc: Global, words: &'a [String]) -> Result<Given<'a>, Status>
    ensures given { IfOk result (λ given. given_in (map string_bytes words.entry.now) ≡ Some (plain_given given)) }
    ensures bad { IfErr result (λ status. (status ≡ Status.NoMemory)
        ⊎ ((status ≡ Status.BadWords) × (given_in (map string_bytes words.entry.now) ≡ None))) }
{
    match synth_command(alloc) {
        Ok(command) => read_by(command, words),
        Err(AllocError) => Err(Status::NoMemory),
    }
}

/// What the words give, as clap reads them by the command.
fn read_by<'a>(command: Command<'a>, words: &'a [String]) -> Result<Given<'a>, Status>
    requires { app_of command ≡ synth_app }
    ensures given { IfOk result (λ given. given_in (map string_bytes words.entry.now) ≡ Some (plain_given given)) }
    ensures bad { IfErr result (λ status. (status ≡ Status.NoMemory)
        ⊎ ((status ≡ Status.BadWords) × (given_in (map string_bytes words.entry.now) ≡ None))) }
{
    match command.try_get_matches_from(words) {
        Ok(matches) => Ok(given_by(&matches)),
        Err(error) => Err(status_of(&error)),
    }
}

/// The command as clap knows it: five options, and a word that stands by itself.
fn synth_command<'a>(alloc: Global) -> Result<Command<'a>, AllocError>
    ensures { IfOk result (λ command. app_of command ≡ synth_app) }
{
    match command_with_options(alloc) {
        Ok(command) => command.arg(program_word(alloc)),
        Err(AllocError) => Err(AllocError),
    }
}

/// The command for clap with its five options, before it knows the word that stands by itself.
fn command_with_options<'a>(alloc: Global) -> Result<Command<'a>, AllocError>
    ensures { IfOk result (λ command. with_rule (app_of command) (new_rule (codes "program")) ≡ synth_app) }
{
    let rows = with_option(alloc, Ok(bare_command(alloc)), "rows");
    let cols = with_option(alloc, rows, "cols");
    let keys = with_option(alloc, cols, "keys");
    let input = with_option(alloc, keys, "input");
    with_option(alloc, input, "make")
}

/// The command for clap with one option more, where memory didn't run out before.
fn with_option<'a>(
    alloc: Global,
    command: Result<Command<'a>, AllocError>,
    name: &'a str,
) -> Result<Command<'a>, AllocError>
    ensures { IfOk result (λ after. IsOkAnd command.entry (λ before.
        app_of after ≡ with_rule (app_of before) (option_rule name.entry.now))) }
{
    match command {
        Ok(command) => command.arg(option_named(alloc, name)),
        Err(AllocError) => Err(AllocError),
    }
}

/// The command for clap without its options: it knows neither help nor version, and its first word is the
/// first behind the program's name.
fn bare_command<'a>(alloc: Global) -> Command<'a>
    ensures { app_of result ≡ bare_app }
{
    Command::new(alloc, "synth")
        .no_binary_name(true)
        .disable_help_flag(true)
        .disable_version_flag(true)
}

/// The option of this name for clap, whose value is the next word or stands behind `=`.
fn option_named<'a>(alloc: Global, name: &'a str) -> Arg<'a>
    ensures rule { rule_of result ≡ option_rule name.entry.now }
    ensures local { result.global ≡ false }
{
    Arg::new(alloc, name).long(name)
}

/// The word that stands by itself, for clap.
fn program_word<'a>(alloc: Global) -> Arg<'a>
    ensures rule { rule_of result ≡ new_rule (codes "program") }
    ensures local { result.global ≡ false }
{
    Arg::new(alloc, "program")
}

/// What clap's matches give.
fn given_by<'a>(matches: &ArgMatches<'a>) -> Given<'a>
    ensures { plain_given result ≡ given_of_matches (found_of matches.now) }
{
    Given {
        rows: matches.get_str("rows"),
        cols: matches.get_str("cols"),
        keys: matches.get_str("keys"),
        input: matches.get_str("input"),
        make: matches.get_str("make"),
        program: matches.get_str("program"),
    }
}

/// How the editor ends where clap can't read the words as its command.
fn status_of(error: &Error) -> Status
    ensures { ((result ≡ Status.NoMemory) × (kind_of error.now ≡ ErrorKind.OutOfMemory))
        ⊎ ((result ≡ Status.BadWords) × (kind_of error.now ≢ ErrorKind.OutOfMemory)) }
{
    match error.kind() {
        ErrorKind::OutOfMemory => Status::NoMemory,
        _ => Status::BadWords,
    }
}
