//! Cases on command lines, file names and messages.
use crate::tell::{named, tell_found, tell_named};
use case_script::{Told, number_of};
use plcs_base::{ByteOut, put_bytes};
use session_words::{
    Command, Message, MessageText, Notice, RefusalMessage, begins_with_point, command_word,
    is_file_name, read_command,
};

/// The refusals of which the message has no number, as cases name them.
static REFUSALS: [RefusalMessage; 20] = [
    RefusalMessage::UnknownCommand,
    RefusalMessage::NotHere,
    RefusalMessage::NoClip,
    RefusalMessage::ClipsFull,
    RefusalMessage::NoFile,
    RefusalMessage::FileFault,
    RefusalMessage::FileTooDeep,
    RefusalMessage::FileTooLarge,
    RefusalMessage::FileTooLong,
    RefusalMessage::NoRun,
    RefusalMessage::RunEnded,
    RefusalMessage::NoHistory,
    RefusalMessage::TreeTooDeep,
    RefusalMessage::TreeTooLarge,
    RefusalMessage::SlotsUsedUp,
    RefusalMessage::WrongArgument,
    RefusalMessage::PhraseFull,
    RefusalMessage::FloatNotThere,
    RefusalMessage::AtEdge,
    RefusalMessage::NothingToUndo,
];

/// The notices, as cases on messages name them.
static NOTICES: [Notice; 17] = [
    Notice::Placeholder,
    Notice::MarkedPhrase,
    Notice::FixedOverflow,
    Notice::ZeroDivide,
    Notice::SubscriptRange,
    Notice::StringRange,
    Notice::StringSize,
    Notice::Uninitialized,
    Notice::Conversion,
    Notice::OutputLimit,
    Notice::CallDepth,
    Notice::InputWanted,
    Notice::Paused,
    Notice::Ended,
    Notice::Saved,
    Notice::TraceOn,
    Notice::TraceOff,
];

/// Answers a case on command lines: the command that the line is, or why it is none.
pub fn put_command(line: &[u8], told: &mut Told) -> Option<()> {
    if !begins_with_point(line) {
        told.text("NO POINT");
        return Some(());
    }
    match read_command(line) {
        Ok(Command::Cut(name)) => tell_named("Cut", name.as_bytes(), told),
        Ok(Command::Copy(name)) => tell_named("Copy", name.as_bytes(), told),
        Ok(Command::Insert(name)) => tell_named("Insert", name.as_bytes(), told),
        Ok(Command::Input(text)) => tell_named("Input", text, told),
        Ok(Command::Save(file)) => tell_named("Save", file, told),
        Ok(Command::Load(file)) => tell_named("Load", file, told),
        Ok(other) => told.value(&other),
        Err(fault) => told.value(&fault),
    }
    Some(())
}

/// Answers a case on command lines: the word of one.
pub fn put_command_word(line: &[u8], told: &mut Told) -> Option<()> {
    if begins_with_point(line) {
        tell_found(command_word(line), told);
    } else {
        told.text("NO POINT");
    }
    Some(())
}

/// Answers a case on file names: whether the bytes are one.
pub fn put_file_name(bytes: &[u8], told: &mut Told) -> Option<()> {
    told.value(&is_file_name(bytes));
    Some(())
}

/// Answers a case on messages: the text of one, behind the number of its kind if it is a refusal's.
pub fn put_message(name: &[u8], number: Option<&Vec<u8>>, told: &mut Told) -> Option<()> {
    let message = match number {
        Some(digits) => Message::Refusal(numbered(name, digits, told)?),
        None => plain_message(name, told)?,
    };
    if let Message::Refusal(refusal) = message {
        told.value(&refusal.number());
        told.text(" ");
    }
    told.word(message.text().as_bytes());
    Some(())
}

/// The message without a number that a case names.
fn plain_message(name: &[u8], told: &Told) -> Option<Message> {
    if let Some(refusal) = named(told.alloc(), &REFUSALS, name) {
        return Some(Message::Refusal(refusal));
    }
    Some(Message::Notice(named(told.alloc(), &NOTICES, name)?))
}

/// The refusal with a number in its message that a case names.
fn numbered(name: &[u8], digits: &[u8], told: &Told) -> Option<RefusalMessage> {
    let number = number_of(digits)?;
    let refusals = [
        RefusalMessage::SyntaxAt(number),
        RefusalMessage::NumberTooLargeAt(number),
        RefusalMessage::PhraseTooDeepAt(number),
        RefusalMessage::NotAListing(number),
        RefusalMessage::HeadingChanged(number),
        RefusalMessage::DeclarationChanged(number),
        RefusalMessage::TemplateChanged(number),
    ];
    let mut whole = Told::new(told.alloc());
    put_bytes(name, &mut whole);
    whole.put(b'(');
    put_bytes(digits, &mut whole);
    whole.put(b')');
    named(told.alloc(), &refusals, whole.as_bytes())
}

/// Answers a case on messages: the text where there is none.
pub fn put_no_message(told: &mut Told) -> Option<()> {
    told.word(MessageText::none().as_bytes());
    Some(())
}
