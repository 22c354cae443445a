//! What commands take behind their words, and the commands that come of it.
ghost use Rattle.std.specs.Prelude.{◌≡◌};
ghost use Rattle.session_words.specs.Argument.{PlainArgumentRule, command_with};
ghost use Rattle.session_words.specs.PlainCommand.{plain_command, plain_reading};
ghost use Rattle.session_words.specs.Private.PlainArgumentRule.{plain_argument_rule, alone_command, named_command, numbered_command, texted_command, filed_command};

use crate::argument::{is_file_name, name_in, number_in};
use crate::command::{Command, CommandFault};
use plcs_base::Name;
use plcs_grammar::Template;

/// What a command takes behind its word, and the command that it makes of it.
#[derive(Clone, Copy)]
pub enum ArgumentRule {
    /// No argument.
    Nothing(Alone),
    /// A name, which may be left out.
    Name(Named),
    /// A number of the range, which may be left out.
    Number(Range, Numbered),
    /// A text.
    Text(Texted),
    /// The name of a file.
    File(Filed),
}

/// The numbers that a command takes behind its word.
#[derive(Clone, Copy)]
pub struct Range {
    /// The least of them.
    pub least: u32,
    /// The greatest of them.
    pub most: u32,
    /// The number that is meant where none is given.
    pub otherwise: u32,
}

/// The commands that take no argument behind their words.
#[derive(Clone, Copy)]
pub enum Alone {
    /// `Command::Template`
    Template(Template),
    /// `Command::Float`
    Float,
    /// `Command::Before`
    Before,
    /// `Command::After`
    After,
    /// `Command::Del`
    Del,
    /// `Command::Elide`
    Elide,
    /// `Command::Undo`
    Undo,
    /// `Command::Top`
    Top,
    /// `Command::Bottom`
    Bottom,
    /// `Command::Run`
    Run,
    /// `Command::Resume`
    Resume,
    /// `Command::Trace`
    Trace,
    /// `Command::Quit`
    Quit,
}

/// The commands that take the name of a clip behind their words.
#[derive(Clone, Copy)]
pub enum Named {
    /// `Command::Cut`
    Cut,
    /// `Command::Copy`
    Copy,
    /// `Command::Insert`
    Insert,
}

/// The commands that take a number behind their words.
#[derive(Clone, Copy)]
pub enum Numbered {
    /// `Command::Step`
    Step,
    /// `Command::Back`
    Back,
    /// `Command::Code`
    Code,
}

/// The commands that take a text behind their words.
#[derive(Clone, Copy)]
pub enum Texted {
    /// `Command::Input`
    Input,
}

/// Which command comes of the name of a file behind its word.
#[derive(Clone, Copy)]
pub enum Filed {
    /// `Command::Save`
    Save,
    /// `Command::Load`
    Load,
}

impl ArgumentRule {
    /// The command that the argument makes, by what is taken behind the word; no bytes are no argument.
    pub fn command<'a>(self, argument: &'a [u8]) -> Result<Command<'a>, CommandFault>
        ensures { plain_reading result ≡ command_with (plain_argument_rule self) argument.entry.now }
    {
        match self {
            ArgumentRule::Nothing(alone) => alone.command(argument),
            ArgumentRule::Name(named) => named.command(argument),
            ArgumentRule::Number(range, numbered) => numbered.command(range, argument),
            ArgumentRule::Text(texted) => texted.command(argument),
            ArgumentRule::File(filed) => filed.command(argument),
        }
    }
}

impl Alone {
    /// A command that takes no argument, where none stands behind its word.
    fn command<'a>(self, argument: &[u8]) -> Result<Command<'a>, CommandFault>
        ensures { plain_reading result ≡
            command_with (PlainArgumentRule.nothing (alone_command self)) argument.now }
    {
        if argument.is_empty() {
            Ok(self.command_of())
        } else {
            Err(CommandFault::WrongArgument)
        }
    }

    /// Each of the commands that take no argument.
    fn command_of<'a>(self) -> Command<'a>
        ensures { plain_command result ≡ alone_command self }
    {
        match self {
            Alone::Template(template) => Command::Template(template),
            Alone::Float => Command::Float,
            Alone::Before => Command::Before,
            Alone::After => Command::After,
            Alone::Del => Command::Del,
            Alone::Elide => Command::Elide,
            Alone::Undo => Command::Undo,
            Alone::Top => Command::Top,
            Alone::Bottom => Command::Bottom,
            Alone::Run => Command::Run,
            Alone::Resume => Command::Resume,
            Alone::Trace => Command::Trace,
            Alone::Quit => Command::Quit,
        }
    }
}

impl Named {
    /// A command that takes a clip's name, with the name that the argument is.
    fn command<'a>(self, argument: &[u8]) -> Result<Command<'a>, CommandFault>
        ensures { plain_reading result ≡
            command_with (PlainArgumentRule.name (named_command self)) argument.now }
    {
        match name_in(argument) {
            Some(name) => Ok(self.command_of(name)),
            None => Err(CommandFault::WrongArgument),
        }
    }

    /// Each of the commands that take a clip's name, with this name.
    fn command_of<'a>(self, name: Name) -> Command<'a>
        ensures { plain_command result ≡ named_command self name }
    {
        match self {
            Named::Cut => Command::Cut(name),
            Named::Copy => Command::Copy(name),
            Named::Insert => Command::Insert(name),
        }
    }
}

impl Numbered {
    /// A command that takes a number, with the one of its range that the argument is.
    fn command<'a>(self, range: Range, argument: &[u8]) -> Result<Command<'a>, CommandFault>
        ensures { plain_reading result ≡
            command_with (plain_argument_rule (ArgumentRule.Number range self)) argument.now }
    {
        match number_in(range, argument) {
            Some(number) => Ok(self.command_of(number)),
            None => Err(CommandFault::WrongArgument),
        }
    }

    /// Each of the commands that take a number, with this number of its range.
    fn command_of<'a>(self, number: u32) -> Command<'a>
        ensures { plain_command result ≡ numbered_command self number }
    {
        match self {
            Numbered::Step => Command::Step(number),
            Numbered::Back => Command::Back(number),
            Numbered::Code => Command::Code(number),
        }
    }
}

impl Texted {
    /// A command that takes a text, with the text that the argument is.
    fn command<'a>(self, argument: &'a [u8]) -> Result<Command<'a>, CommandFault>
        ensures { plain_reading result ≡
            command_with (PlainArgumentRule.text (texted_command self)) argument.entry.now }
    {
        if argument.is_empty() {
            return Err(CommandFault::WrongArgument);
        }
        match self {
            Texted::Input => Ok(Command::Input(argument)),
        }
    }
}

impl Filed {
    /// A command that takes a file name, with the one that the argument is.
    fn command<'a>(self, argument: &'a [u8]) -> Result<Command<'a>, CommandFault>
        ensures { plain_reading result ≡
            command_with (PlainArgumentRule.file (filed_command self)) argument.entry.now }
    {
        if !is_file_name(argument) {
            return Err(CommandFault::WrongArgument);
        }
        match self {
            Filed::Save => Ok(Command::Save(argument)),
            Filed::Load => Ok(Command::Load(argument)),
        }
    }
}
