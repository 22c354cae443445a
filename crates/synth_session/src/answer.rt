//! Answers to keys, and refusals with their messages.
ghost use Rattle.std.specs.Prelude.{◌≡◌};
ghost use Rattle.synth_session.specs.RefusalText.{file_message, phrase_message, refusal_message, resume_message, tree_message};

use file_store::FileRefusal;
use phrase_parser::PhraseFault;
use plcs_store::ResumeRefusal;
use session_words::{Message, RefusalMessage};
use template_tree::TreeFault;

/// The answer to a key: what became of it.
#[derive(Clone, Copy, Debug, PartialEq, Eq)]
pub enum Answer {
    /// It was carried out.
    Done,
    /// It changed nothing but the message, and ended a display of code.
    Refused(Refusal),
    /// The run goes on: its steps are made by ticks.
    Running,
    /// It ended the session.
    Quit,
}

/// Why a key was refused, as its answer tells.
#[derive(Clone, Copy, Debug, PartialEq, Eq)]
pub enum Refusal {
    /// The line is no command, or the key has no meaning.
    UnknownCommand,
    /// The cursor stands where what is asked for can't be done.
    NotHere,
    /// The phrase text is wrong, or past a limit. `OutOfMemory` is no refusal: `press` answers it itself.
    Phrase(PhraseFault),
    /// No clip has the name, or the clips are full.
    Clip(ClipRefusal),
    /// The file can't be saved or loaded. `OutOfMemory` is no refusal: `press` answers it itself.
    File(FileRefusal),
    /// No run stands.
    NoRun,
    /// The run is over.
    RunEnded,
    /// No earlier step of the run is held.
    NoHistory,
    /// The run may not go on in the program as it is now.
    Resume(ResumeRefusal),
    /// The program would be past a limit. `NotHere` isn't among these, and `OutOfMemory` is no refusal.
    Tree(TreeFault),
    /// The command has an argument that it doesn't take, or lacks one.
    WrongArgument,
    /// The typed line, or the phrase in its canonical text, would be too long.
    PhraseFull,
    /// The language has no floating-point numbers.
    FloatNotThere,
    /// There is no stop to go to.
    AtEdge,
    /// No edit is held that could be undone.
    NothingToUndo,
}

/// Why a key with a command of clips was refused, as its answer tells.
#[derive(Clone, Copy, Debug, PartialEq, Eq)]
pub enum ClipRefusal {
    /// No clip has the name.
    NoClip,
    /// There would be more than 64 clips, or more than 20,000 slots in them.
    Full,
}

impl Refusal {
    /// The message that is shown for a refusal; want of memory has none.
    pub(crate) fn message(self) -> Option<Message>
        ensures { result ≡ refusal_message self }
    {
        Some(Message::Refusal(match self {
            Refusal::UnknownCommand => RefusalMessage::UnknownCommand,
            Refusal::NotHere => RefusalMessage::NotHere,
            Refusal::Phrase(fault) => return phrase_message(fault),
            Refusal::Clip(ClipRefusal::NoClip) => RefusalMessage::NoClip,
            Refusal::Clip(ClipRefusal::Full) => RefusalMessage::ClipsFull,
            Refusal::File(refusal) => return file_message(refusal),
            Refusal::NoRun => RefusalMessage::NoRun,
            Refusal::RunEnded => RefusalMessage::RunEnded,
            Refusal::NoHistory => RefusalMessage::NoHistory,
            Refusal::Resume(refusal) => return Some(resume_message(refusal)),
            Refusal::Tree(fault) => return tree_message(fault),
            Refusal::WrongArgument => RefusalMessage::WrongArgument,
            Refusal::PhraseFull => RefusalMessage::PhraseFull,
            Refusal::FloatNotThere => RefusalMessage::FloatNotThere,
            Refusal::AtEdge => RefusalMessage::AtEdge,
            Refusal::NothingToUndo => RefusalMessage::NothingToUndo,
        }))
    }
}

/// The message that is shown for phrase text that is refused; want of memory has none.
fn phrase_message(fault: PhraseFault) -> Option<Message>
    ensures { result ≡ phrase_message fault }
{
    Some(Message::Refusal(match fault {
        PhraseFault::Syntax(place) => RefusalMessage::SyntaxAt(place),
        PhraseFault::NumberTooLarge(place) => RefusalMessage::NumberTooLargeAt(place),
        PhraseFault::TooDeep(place) => RefusalMessage::PhraseTooDeepAt(place),
        PhraseFault::OutOfMemory => return None,
    }))
}

/// The message that is shown for a file that is refused; want of memory has none.
fn file_message(refusal: FileRefusal) -> Option<Message>
    ensures { result ≡ file_message refusal }
{
    Some(Message::Refusal(match refusal {
        FileRefusal::NoFile => RefusalMessage::NoFile,
        FileRefusal::FileFault => RefusalMessage::FileFault,
        FileRefusal::NotAListing(line) => RefusalMessage::NotAListing(line),
        FileRefusal::TooDeep => RefusalMessage::FileTooDeep,
        FileRefusal::TooLarge => RefusalMessage::FileTooLarge,
        FileRefusal::TooLong => RefusalMessage::FileTooLong,
        FileRefusal::OutOfMemory => return None,
    }))
}

/// The message that is shown for a run that may not go on.
fn resume_message(refusal: ResumeRefusal) -> Message
    ensures { result ≡ resume_message refusal }
{
    Message::Refusal(match refusal {
        ResumeRefusal::HeadingChanged(slot) => RefusalMessage::HeadingChanged(slot.0),
        ResumeRefusal::DeclarationChanged(slot) => RefusalMessage::DeclarationChanged(slot.0),
        ResumeRefusal::TemplateChanged(slot) => RefusalMessage::TemplateChanged(slot.0),
    })
}

/// The message that is shown for an edit of the program that is refused; want of memory has none.
fn tree_message(fault: TreeFault) -> Option<Message>
    ensures { result ≡ tree_message fault }
{
    Some(Message::Refusal(match fault {
        TreeFault::NotHere => RefusalMessage::NotHere,
        TreeFault::TooDeep => RefusalMessage::TreeTooDeep,
        TreeFault::TooLarge => RefusalMessage::TreeTooLarge,
        TreeFault::SlotsUsedUp => RefusalMessage::SlotsUsedUp,
        TreeFault::OutOfMemory => return None,
    }))
}
