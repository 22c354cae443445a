//! The words of a session: the commands that a typed line can be, and the texts of the messages that
//! answer keys.
#![tactic(auto)]

mod argument;
mod argument_rule;
mod command;
mod command_table;
mod limit;
mod message;
mod message_text;
mod number;

pub use argument::is_file_name;
pub use command::{Command, CommandFault, begins_with_point, command_word, read_command};
pub use limit::{GREATEST_CODE_NUMBER, LONGEST_FILE_NAME, MOST_STEPS, MOST_STEPS_BACK};
pub use message::{Message, Notice, RefusalMessage};
pub use message_text::MessageText;
