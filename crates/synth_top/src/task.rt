//! What the words that follow the program's name ask for: a task.

ghost use Rattle.std.specs.Prelude.{◌≡◌, ◌⊎◌, None, Some, map, option_map, IfErr, IfOk};
ghost use Rattle.std.specs.String.{string_bytes};
ghost use Rattle.synth_top.specs.Private.PlainForms.{plain_given, plain_task};
ghost use Rattle.synth_top.specs.Task.{gives_no_option, task_by, task_of, task_with};

use crate::command::{Given, read_words};
use crate::options::{Options, count_between, options_with};
use crate::status::Status;
use std::alloc::Global;

/// The fewest statements that a program can be asked for that is made.
const FEWEST_STATEMENTS: u32 = 1;

/// The most statements that a program can be asked for that is made.
const MOST_STATEMENTS: u32 = 2_000;

/// A task: what the words of the command ask for.
#[derive(Clone, Copy)]
pub enum Task<'a> {
    /// To edit, with these options.
    Edit(Options<'a>),
    /// To make a program of so many statements, 1 to 2,000, and to write a summary of it.
    Make(u32),
}

/// The task that the words after the program's name ask for. Words that aren't of the command are
/// `BadWords`, and it is `NoMemory` where memory ran out.
#[tactic(auto, unfolding(crate::specs::Task::task_of))]
pub fn task_of<'a>(alloc: Global, words: &'a [String]) -> Result<Task<'a>, Status>
    ensures task { IfOk result (λ task. task_of (map string_bytes words.entry.now) ≡ Some (plain_task task)) }
    ensures bad { IfErr result (λ status. (status ≡ Status.NoMemory)
        ⊎ ((status ≡ Status.BadWords) × (task_of (map string_bytes words.entry.now) ≡ None))) }
{
    match read_words(alloc, words) {
        Ok(given) => match task_with(&given) {
            Some(task) => Ok(task),
            None => Err(Status::BadWords),
        },
        Err(status) => Err(status),
    }
}

/// The task that is asked for by what the words give: where they give a number of statements they give nothing else.
fn task_with<'a>(given: &Given<'a>) -> Option<Task<'a>>
    ensures { option_map plain_task result ≡ task_with (plain_given given.now) }
{
    match given.make {
        Some(number) => making_of(given, number),
        None => match options_with(given) {
            Some(options) => Some(Task::Edit(options)),
            None => None,
        },
    }
}

/// The task to make a program of as many statements as the word says, if the words give nothing else.
fn making_of<'a>(given: &Given<'a>, number: &str) -> Option<Task<'a>>
    ensures { option_map plain_task result ≡ task_by (plain_given given.now) (Some number.now) }
{
    if !gives_no_option(given) {
        return None;
    }
    match count_between(FEWEST_STATEMENTS, MOST_STATEMENTS, number) {
        Some(count) => Some(Task::Make(count)),
        None => None,
    }
}

/// Whether the words ask for no options and no file of a task, so that a program may be made.
fn gives_no_option(given: &Given<'_>) -> bool
    ensures { result ≡ gives_no_option (plain_given given.now) }
{
    given.rows.is_none()
        && given.cols.is_none()
        && given.keys.is_none()
        && given.input.is_none()
        && given.program.is_none()
}
