//! The table of the commands: their words, and what each takes behind its word.
ghost use Rattle.std.specs.Prelude.{◌≡◌, map, find, bytes_eq};
ghost use Rattle.std.specs.Option.{option_map};
ghost use Rattle.session_words.specs.CommandTable.{other_commands, argument_rule_in, argument_rule_of};
ghost use Rattle.session_words.specs.Private.PlainArgumentRule.{plain_argument_rule};
ghost use Rattle.session_words.specs.Private.PlainCommandRow.{plain_command_row};

use crate::argument_rule::{Alone, ArgumentRule, Filed, Named, Numbered, Range, Texted};
use crate::limit::{GREATEST_CODE_NUMBER, MOST_STEPS, MOST_STEPS_BACK};
use plcs_grammar::Template;

/// A row of the table of commands: a command's word, and what it takes.
#[derive(Clone, Copy)]
struct CommandRow {
    word: &'static [u8],
    rule: ArgumentRule,
}

/// The numbers that `.step` takes in the table of commands.
const STEPS: Range = Range {
    least: 1,
    most: MOST_STEPS,
    otherwise: 1,
};

/// The numbers that `.back` takes in the table of commands.
const STEPS_BACK: Range = Range {
    least: 1,
    most: MOST_STEPS_BACK,
    otherwise: 1,
};

/// The numbers that `.code` takes in the table of commands.
const INSTRUCTIONS: Range = Range {
    least: 0,
    most: GREATEST_CODE_NUMBER,
    otherwise: 0,
};

/// The table of the commands that fill in no template.
const COMMANDS: [CommandRow; 21] = [
    CommandRow {
        word: b"float",
        rule: ArgumentRule::Nothing(Alone::Float),
    },
    CommandRow {
        word: b"before",
        rule: ArgumentRule::Nothing(Alone::Before),
    },
    CommandRow {
        word: b"after",
        rule: ArgumentRule::Nothing(Alone::After),
    },
    CommandRow {
        word: b"del",
        rule: ArgumentRule::Nothing(Alone::Del),
    },
    CommandRow {
        word: b"cut",
        rule: ArgumentRule::Name(Named::Cut),
    },
    CommandRow {
        word: b"copy",
        rule: ArgumentRule::Name(Named::Copy),
    },
    CommandRow {
        word: b"insert",
        rule: ArgumentRule::Name(Named::Insert),
    },
    CommandRow {
        word: b"elide",
        rule: ArgumentRule::Nothing(Alone::Elide),
    },
    CommandRow {
        word: b"undo",
        rule: ArgumentRule::Nothing(Alone::Undo),
    },
    CommandRow {
        word: b"top",
        rule: ArgumentRule::Nothing(Alone::Top),
    },
    CommandRow {
        word: b"bottom",
        rule: ArgumentRule::Nothing(Alone::Bottom),
    },
    CommandRow {
        word: b"run",
        rule: ArgumentRule::Nothing(Alone::Run),
    },
    CommandRow {
        word: b"step",
        rule: ArgumentRule::Number(STEPS, Numbered::Step),
    },
    CommandRow {
        word: b"resume",
        rule: ArgumentRule::Nothing(Alone::Resume),
    },
    CommandRow {
        word: b"back",
        rule: ArgumentRule::Number(STEPS_BACK, Numbered::Back),
    },
    CommandRow {
        word: b"trace",
        rule: ArgumentRule::Nothing(Alone::Trace),
    },
    CommandRow {
        word: b"input",
        rule: ArgumentRule::Text(Texted::Input),
    },
    CommandRow {
        word: b"save",
        rule: ArgumentRule::File(Filed::Save),
    },
    CommandRow {
        word: b"load",
        rule: ArgumentRule::File(Filed::Load),
    },
    CommandRow {
        word: b"code",
        rule: ArgumentRule::Number(INSTRUCTIONS, Numbered::Code),
    },
    CommandRow {
        word: b"quit",
        rule: ArgumentRule::Nothing(Alone::Quit),
    },
];

/// What the table of commands says that the command of the word takes, or `None` where the word is no
/// command's.
#[tactic(auto, unfolding(crate::specs::CommandTable::argument_rule_of))]
pub fn argument_rule_of(word: &[u8]) -> Option<ArgumentRule>
    ensures { option_map plain_argument_rule result ≡ argument_rule_of word.now }
{
    match Template::read(word) {
        Some(template) => Some(ArgumentRule::Nothing(Alone::Template(template))),
        None => other_argument_rule_of(word),
    }
}

/// What the table says that the command of the word takes, among the commands that fill in no template.
fn other_argument_rule_of(word: &[u8]) -> Option<ArgumentRule>
    ensures { option_map plain_argument_rule result ≡ argument_rule_in other_commands word.now }
{
    argument_rule_among(other_rows(), word)
}

/// The rows of the table of commands that fill in no template.
fn other_rows() -> &'static [CommandRow]
    ensures { map plain_command_row result.now ≡ other_commands }
{
    &COMMANDS
}

/// What the first row of the table with the word says that its command takes.
fn argument_rule_among(rows: &[CommandRow], word: &[u8]) -> Option<ArgumentRule>
    ensures { result ≡ option_map (λ row. row.rule)
        (find (λ row. bytes_eq word.now row.word.now) rows.now) }
{
    rows.iter().find(|row| word == row.word).map(|row| row.rule)
}
