//! Commands, and which command a line is.
ghost use Rattle.std.specs.Prelude.{◌≡◌, ◌≤◌, length, option_map, IsTrue};
ghost use Rattle.std.specs.List.{prefix_len};
ghost use Rattle.plcs_base.specs.Byte.{is_letter};
ghost use Rattle.session_words.specs.CommandLine.{begins_with_point, command_of, command_word, is_word_end};
ghost use Rattle.session_words.specs.PlainCommand.{plain_reading};

use crate::command_table::argument_rule_of;
use plcs_base::{Name, is_letter};
use plcs_grammar::{Template, trimmed};

/// A command, which is what a command line asks for.
#[derive(Debug, Drop, PartialEq, Eq)]
pub enum Command<'a> {
    /// Fill the hole at the cursor with the template.
    Template(Template),
    /// Declare floating-point numbers, which the language doesn't have.
    Float,
    /// Add a hole before the nearest enclosing list item.
    Before,
    /// Add a hole after the nearest enclosing list item.
    After,
    /// Delete what stands at the cursor.
    Del,
    /// Take what stands at the cursor out into the clip of this name.
    Cut(Name),
    /// Copy what stands at the cursor into the clip of this name.
    Copy(Name),
    /// Insert a copy of the clip of this name.
    Insert(Name),
    /// Turn the elision of the comment at the cursor.
    Elide,
    /// Take the newest edit back that is kept.
    Undo,
    /// Go to the first stop.
    Top,
    /// Go to the last stop.
    Bottom,
    /// Begin a new run.
    Run,
    /// Make this many steps, from 1 to 100.
    Step(u32),
    /// Go on with the run.
    Resume,
    /// Go back this many steps, from 1 to 500.
    Back(u32),
    /// Turn tracing.
    Trace,
    /// Append the text, which isn't empty, and a line end to the program input.
    Input(&'a [u8]),
    /// Save under the file name.
    Save(&'a [u8]),
    /// Load from the file name.
    Load(&'a [u8]),
    /// Show the code of the cursor's node from the instruction of this number on, counted from 0.
    /// Whether there is such an instruction isn't asked here.
    Code(u32),
    /// End the session.
    Quit,
}

/// Why a command line is no command.
#[derive(Clone, Copy, Debug, PartialEq, Eq)]
pub enum CommandFault {
    /// It isn't a point, letters, and then the end or a blank and an argument; or the letters are no
    /// command's word.
    UnknownCommand,
    /// It has an argument where the command takes none, none where it needs one, or one that isn't what
    /// the command takes.
    WrongArgument,
}

/// The command that the line is, with its argument or what stands for one that is left out.
#[tactic(auto, unfolding(crate::specs::CommandLine::command_of))]
pub fn read_command<'a>(line: &'a [u8]) -> Result<Command<'a>, CommandFault>
    requires point { IsTrue (begins_with_point line.now) }
    ensures command { plain_reading result ≡ command_of line.entry.now }
{
    let behind = &line[1..];
    let length = word_length(behind);
    let rest = &behind[length..];
    if !is_word_end(rest) {
        return Err(CommandFault::UnknownCommand);
    }
    match argument_rule_of(&behind[..length]) {
        Some(rule) => rule.command(trimmed(rest)),
        None => Err(CommandFault::UnknownCommand),
    }
}

/// The word of a command line, or `None` where the line has not the form of a command: a point,
/// letters, and then the end or a blank.
pub fn command_word<'a>(line: &'a [u8]) -> Option<&'a [u8]>
    requires point { IsTrue (begins_with_point line.now) }
    ensures word { option_map (λ word. word.now) result ≡ command_word line.entry.now }
{
    let behind = &line[1..];
    let length = word_length(behind);
    if is_word_end(&behind[length..]) {
        Some(&behind[..length])
    } else {
        None
    }
}

/// Whether the line begins with the point with which command lines begin.
pub fn begins_with_point(line: &[u8]) -> bool
    ensures { result ≡ begins_with_point line.now }
{
    match line {
        [] => false,
        [byte, ..] => *byte == b'.',
    }
}

/// How many letters the word of a command has that these bytes begin with.
fn word_length(bytes: &[u8]) -> usize
    ensures counted { result ≡ prefix_len is_letter bytes.now }
    ensures within { result ≤ length bytes.now }
{
    let mut count = 0;
    while count < bytes.len() && is_letter(bytes[count]) {
        count += 1;
    }
    count
}

/// Whether the word of a command ends before these bytes: there are none, or they begin with a blank.
fn is_word_end(rest: &[u8]) -> bool
    ensures { result ≡ is_word_end rest.now }
{
    match rest {
        [] => true,
        [byte, ..] => *byte == b' ',
    }
}
