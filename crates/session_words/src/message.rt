//! The messages that answer keys, and their texts.
ghost use Rattle.std.specs.Prelude.{◌≡◌, ◌≤◌, length};
ghost use Rattle.session_words.specs.Message.{refusal_row, notice_words, message_words, message_value, message_text};

use crate::message_text::MessageText;

/// A message, which answers a key: what the message row says of it.
#[derive(Clone, Copy, Debug, PartialEq, Eq)]
pub enum Message {
    /// The key was refused.
    Refusal(RefusalMessage),
    /// The key was taken.
    Notice(Notice),
}

/// The messages of refusals: why a key was refused. Places are counted from 0, lines from 1, and slots
/// by their numbers.
#[derive(Clone, Copy, Debug, PartialEq, Eq)]
pub enum RefusalMessage {
    /// The key or the line is no command.
    UnknownCommand,
    /// The cursor lacks what the key needs.
    NotHere,
    /// The phrase goes wrong at this place.
    SyntaxAt(u32),
    /// The number at this place is too large.
    NumberTooLargeAt(u32),
    /// The phrase is nested too deep at this place.
    PhraseTooDeepAt(u32),
    /// No clip has the name.
    NoClip,
    /// The clips are full.
    ClipsFull,
    /// There is no file of the name.
    NoFile,
    /// A file could not be read or written.
    FileFault,
    /// The file is no listing from this line on.
    NotAListing(u32),
    /// The program in the file is nested too deep.
    FileTooDeep,
    /// The program in the file has too many nodes.
    FileTooLarge,
    /// The file, or the program input, is too long.
    FileTooLong,
    /// No run stands.
    NoRun,
    /// The run has ended.
    RunEnded,
    /// No earlier step is held.
    NoHistory,
    /// The heading in this slot has changed under the run.
    HeadingChanged(u32),
    /// The declarations in this slot have changed under the run.
    DeclarationChanged(u32),
    /// The template in this slot has changed under the run.
    TemplateChanged(u32),
    /// The program would be nested too deep.
    TreeTooDeep,
    /// The program would have too many nodes.
    TreeTooLarge,
    /// No further slot can be drawn.
    SlotsUsedUp,
    /// The argument isn't what the command takes.
    WrongArgument,
    /// The typed line or the phrase is full.
    PhraseFull,
    /// The language has no floating-point numbers.
    FloatNotThere,
    /// There is no stop in that direction.
    AtEdge,
    /// No edit is held that could be undone.
    NothingToUndo,
}

/// The messages that are notices: what came of a key that was taken.
#[derive(Clone, Copy, Debug, PartialEq, Eq)]
pub enum Notice {
    /// The run has come to a placeholder.
    Placeholder,
    /// The run has come to a marked phrase.
    MarkedPhrase,
    /// A number left its range.
    FixedOverflow,
    /// A number was divided by 0.
    ZeroDivide,
    /// A subscript was out of its array.
    SubscriptRange,
    /// A part was taken from outside of a text.
    StringRange,
    /// A text became too long.
    StringSize,
    /// A cell was read before it was set.
    Uninitialized,
    /// An input item isn't of the variable's type.
    Conversion,
    /// The output became too long.
    OutputLimit,
    /// Too many procedures were under way.
    CallDepth,
    /// The run wants more input.
    InputWanted,
    /// The run can go on.
    Paused,
    /// The run has ended.
    Ended,
    /// The program was saved.
    Saved,
    /// Each step is shown from now on.
    TraceOn,
    /// Steps aren't shown from now on.
    TraceOff,
}

/// The row of a message that answers a key with a refusal: the number of its kind, the words of its text, and
/// the number behind them, if there is one.
#[derive(Clone, Copy)]
struct RefusalRow {
    number: u8,
    words: &'static [u8],
    value: Option<u32>,
}

impl Message {
    /// The text of this message that answers a key, as the message row shows it.
    #[tactic(auto, unfolding(crate::specs::Message::message_text))]
    pub fn text(self) -> MessageText
        ensures { result ≡ message_text self }
    {
        MessageText::new(self.words(), self.value())
    }

    /// The words of any message, a refusal or a notice.
    fn words(self) -> &'static [u8]
        ensures words { result.now ≡ message_words self }
        ensures short { length result.now ≤ 20 }
    {
        match self {
            Message::Refusal(refusal) => refusal.row().words,
            Message::Notice(notice) => notice.words(),
        }
    }

    /// The number that a message has behind its words, if it is one with a number.
    fn value(self) -> Option<u32>
        ensures { result ≡ message_value self }
    {
        match self {
            Message::Refusal(refusal) => refusal.row().value,
            Message::Notice(_) => None,
        }
    }
}

impl RefusalMessage {
    /// The number of the kind of a refusal's message, from 1 to 14, or 16.
    pub fn number(self) -> u8
        ensures { result ≡ (refusal_row self).number }
    {
        self.row().number
    }

    /// The number, the words and the value of each message that is a refusal, of which its text is made.
    fn row(self) -> RefusalRow
        ensures number { result.number ≡ (refusal_row self).number }
        ensures words { result.words.now ≡ (refusal_row self).words }
        ensures value { result.value ≡ (refusal_row self).value }
        ensures short { length result.words.now ≤ 20 }
    {
        match self {
            RefusalMessage::UnknownCommand => row_of(1, b"UNKNOWN COMMAND"),
            RefusalMessage::NotHere => row_of(2, b"NOT HERE"),
            RefusalMessage::SyntaxAt(n) => with_number(3, b"SYNTAX AT", n),
            RefusalMessage::NumberTooLargeAt(n) => with_number(3, b"NUMBER TOO LARGE AT", n),
            RefusalMessage::PhraseTooDeepAt(n) => with_number(3, b"PHRASE TOO DEEP AT", n),
            RefusalMessage::NoClip => row_of(4, b"NO CLIP"),
            RefusalMessage::ClipsFull => row_of(4, b"CLIPS FULL"),
            RefusalMessage::NoFile => row_of(5, b"NO FILE"),
            RefusalMessage::FileFault => row_of(5, b"FILE FAULT"),
            RefusalMessage::NotAListing(n) => with_number(5, b"NOT A LISTING", n),
            RefusalMessage::FileTooDeep => row_of(5, b"FILE TOO DEEP"),
            RefusalMessage::FileTooLarge => row_of(5, b"FILE TOO LARGE"),
            RefusalMessage::FileTooLong => row_of(5, b"FILE TOO LONG"),
            RefusalMessage::NoRun => row_of(6, b"NO RUN"),
            RefusalMessage::RunEnded => row_of(7, b"RUN ENDED"),
            RefusalMessage::NoHistory => row_of(8, b"NO HISTORY"),
            RefusalMessage::HeadingChanged(n) => with_number(9, b"HEADING CHANGED", n),
            RefusalMessage::DeclarationChanged(n) => with_number(9, b"DECLARATION CHANGED", n),
            RefusalMessage::TemplateChanged(n) => with_number(9, b"TEMPLATE CHANGED", n),
            RefusalMessage::TreeTooDeep => row_of(10, b"TREE TOO DEEP"),
            RefusalMessage::TreeTooLarge => row_of(10, b"TREE TOO LARGE"),
            RefusalMessage::SlotsUsedUp => row_of(10, b"SLOTS USED UP"),
            RefusalMessage::WrongArgument => row_of(11, b"WRONG ARGUMENT"),
            RefusalMessage::PhraseFull => row_of(12, b"PHRASE FULL"),
            RefusalMessage::FloatNotThere => row_of(13, b"FLOAT NOT THERE"),
            RefusalMessage::AtEdge => row_of(14, b"AT EDGE"),
            RefusalMessage::NothingToUndo => row_of(16, b"NOTHING TO UNDO"),
        }
    }
}

impl Notice {
    /// The words of each notice, a message.
    fn words(self) -> &'static [u8]
        ensures words { result.now ≡ notice_words self }
        ensures short { length result.now ≤ 20 }
    {
        match self {
            Notice::Placeholder => b"PLACEHOLDER",
            Notice::MarkedPhrase => b"MARKED PHRASE",
            Notice::FixedOverflow => b"FAULT FIXEDOVERFLOW",
            Notice::ZeroDivide => b"FAULT ZERODIVIDE",
            Notice::SubscriptRange => b"FAULT SUBSCRIPTRANGE",
            Notice::StringRange => b"FAULT STRINGRANGE",
            Notice::StringSize => b"FAULT STRINGSIZE",
            Notice::Uninitialized => b"FAULT UNINITIALIZED",
            Notice::Conversion => b"FAULT CONVERSION",
            Notice::OutputLimit => b"FAULT OUTPUTLIMIT",
            Notice::CallDepth => b"FAULT CALLDEPTH",
            Notice::InputWanted => b"INPUT WANTED",
            Notice::Paused => b"PAUSED",
            Notice::Ended => b"ENDED",
            Notice::Saved => b"SAVED",
            Notice::TraceOn => b"TRACE ON",
            Notice::TraceOff => b"TRACE OFF",
        }
    }
}

/// The row of one of the messages that answer keys, one of a refusal, of which the words have no number behind
/// them.
fn row_of(number: u8, words: &'static [u8]) -> RefusalRow
    ensures number { result.number ≡ number }
    ensures words { result.words.now ≡ words.entry.now }
    ensures value { result.value ≡ None }
{
    RefusalRow {
        number,
        words,
        value: None,
    }
}

/// The row of a refusal's message, of which the words have this number behind them.
fn with_number(number: u8, words: &'static [u8], value: u32) -> RefusalRow
    ensures number { result.number ≡ number }
    ensures words { result.words.now ≡ words.entry.now }
    ensures value { result.value ≡ Some value }
{
    RefusalRow {
        number,
        words,
        value: Some(value),
    }
}
