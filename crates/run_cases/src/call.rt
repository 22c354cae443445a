//! The words that cases begin with.

use crate::code::Question;
use crate::run::Telling;

/// What a case on runs asks for, by its first word.
#[derive(Clone, Copy)]
pub(crate) enum Call {
    /// The next item of an input.
    ReadItem,
    /// What a variable keeps of a value.
    KeptValue,
    /// An output on which nothing is written.
    Begin,
    /// Values written behind the output.
    Put,
    /// Values written on a new line.
    PutSkip,
    /// What was written.
    Output,
    /// A program of the lines of text.
    Program,
    /// The refinement of a comment hidden, or shown again.
    Elide,
    /// What the code of the program tells.
    About(Question),
}

/// The calls of cases on runs, with the words that these begin with.
pub(crate) static CALLS: [(&'static [u8], Call); 19] = [
    (b"read_item", Call::ReadItem),
    (b"kept_value", Call::KeptValue),
    (b"begin", Call::Begin),
    (b"put", Call::Put),
    (b"put_skip", Call::PutSkip),
    (b"output", Call::Output),
    (b"program", Call::Program),
    (b"elide", Call::Elide),
    (b"code", Call::About(Question::Code)),
    (b"counted", Call::About(Question::Counted)),
    (b"entry", Call::About(Question::Entry)),
    (b"procedure", Call::About(Question::Procedure)),
    (b"address", Call::About(Question::Address)),
    (b"span", Call::About(Question::Span)),
    (b"places", Call::About(Question::Places)),
    (b"spans", Call::About(Question::Spans)),
    (b"steps", Call::About(Question::Run(Telling::Steps))),
    (b"run", Call::About(Question::Run(Telling::End))),
    (b"state", Call::About(Question::Run(Telling::State))),
];
