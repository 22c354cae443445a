//! What is reported of the run of a saved program: how it ended, and where it stands.
ghost use Rattle.std.specs.Prelude.{◌≡◌, ◌++◌, codes, None, option_map};
ghost use Rattle.plcs_base.specs.Put.{PutsAll};
ghost use Rattle.session_words.specs.Message.{message_text};
ghost use Rattle.program_run.specs.ReportText.{ending_text, reported_fault, line_text, numbered_text, reported_reason, reported_refusal, report_text, stopped_text, unindented};

use crate::ending::Ending;
use crate::stopped_line::StoppedLine;
use file_store::FileRefusal;
use plcs_base::{ByteOut, put_bytes, puts_in_turn};
use plcs_grammar::put_decimal;
use plcs_store::{FaultKind, Reason};
use session_words::{Message, Notice, RefusalMessage};

/// What is reported of a run.
#[derive(Debug, Drop)]
pub struct Report {
    /// How the run ended.
    pub ending: Ending,
    /// The line of the program's listing at which the run stands, where it might have gone on.
    pub line: Option<StoppedLine>,
}

impl Report {
    /// The report of a run that stands at no line.
    pub fn without_line(ending: Ending) -> Report
        ensures ending { result.ending ≡ ending }
        ensures line { result.line ≡ None }
    {
        Report { ending, line: None }
    }
}

/// Puts the text of a report: one line, without its end.
pub fn put_report<O: ByteOut>(report: &Report, out: &mut O)
    ensures { PutsAll O.puts out.old (report_text report.now.ending report.now.line) out.new }
{
    puts_in_turn::<O>();
    put_ending(report.ending, out);
    put_line(&report.line, out);
}

/// Puts how a run ended, as it is reported.
fn put_ending<O: ByteOut>(ending: Ending, out: &mut O)
    ensures { PutsAll O.puts out.old (ending_text ending) out.new }
{
    match ending {
        Ending::BadWords => put_bytes(b"usage: plcs_run [--steps N] PROGRAM [INPUT]", out),
        Ending::NoMemory => put_bytes(b"plcs_run: OUT OF MEMORY", out),
        Ending::WriteFault => put_bytes(b"plcs_run: WRITE FAULT", out),
        Ending::Ended => put_notice(Notice::Ended, out),
        Ending::Stopped(reason) => put_notice(reported_reason(reason), out),
        Ending::StepsMade => put_notice(Notice::Paused, out),
        Ending::ProgramRefused(refusal) => {
            let message = Message::Refusal(reported_refusal(refusal));
            put_message(b"plcs_run: program: ", message, out);
        }
        Ending::InputRefused(refusal) => {
            let message = Message::Refusal(reported_refusal(refusal));
            put_message(b"plcs_run: input: ", message, out);
        }
    }
}

/// Puts the text of a notice of the editor, as it is reported.
fn put_notice<O: ByteOut>(notice: Notice, out: &mut O)
    ensures { PutsAll O.puts out.old (stopped_text notice) out.new }
{
    put_message(b"plcs_run: ", Message::Notice(notice), out);
}

/// Puts the text of a message of the editor, as it is reported, behind these bytes.
fn put_message<O: ByteOut>(front: &[u8], message: Message, out: &mut O)
    ensures { PutsAll O.puts out.old (front.now ++ message_text message) out.new }
{
    puts_in_turn::<O>();
    put_bytes(front, out);
    put_bytes(message.text().as_bytes(), out);
}

/// Puts the line at which a run stands, if one is reported.
fn put_line<O: ByteOut>(line: &Option<StoppedLine>, out: &mut O)
    ensures { PutsAll O.puts out.old (line_text line.now) out.new }
{
    match line {
        Some(line) => put_numbered(line, out),
        None => {}
    }
}

/// Puts a line that is reported: its number, and its bytes without the blanks before them.
fn put_numbered<O: ByteOut>(line: &StoppedLine, out: &mut O)
    ensures { PutsAll O.puts out.old (numbered_text line.now) out.new }
{
    puts_in_turn::<O>();
    put_bytes(b", line ", out);
    put_decimal(line.number(), out);
    put_bytes(b": ", out);
    put_bytes(unindented(line.as_bytes()), out);
}

/// The bytes of a line that is reported, without the blanks before them.
fn unindented(bytes: &[u8]) -> &[u8]
    ensures { result.now ≡ unindented bytes.now }
{
    let mut rest = bytes;
    while let [b' ', more @ ..] = rest {
        rest = more;
    }
    rest
}

/// The notice of the editor that says why a run that is reported stopped.
fn reported_reason(reason: Reason) -> Notice
    ensures { result ≡ reported_reason reason }
{
    match reason {
        Reason::Placeholder => Notice::Placeholder,
        Reason::Marked => Notice::MarkedPhrase,
        Reason::Fault(kind) => reported_fault(kind),
        Reason::InputWanted => Notice::InputWanted,
    }
}

/// The notice of the editor for the fault of a run that is reported.
fn reported_fault(kind: FaultKind) -> Notice
    ensures { result ≡ reported_fault kind }
{
    match kind {
        FaultKind::FixedOverflow => Notice::FixedOverflow,
        FaultKind::ZeroDivide => Notice::ZeroDivide,
        FaultKind::SubscriptRange => Notice::SubscriptRange,
        FaultKind::StringRange => Notice::StringRange,
        FaultKind::StringSize => Notice::StringSize,
        FaultKind::Uninitialized => Notice::Uninitialized,
        FaultKind::Conversion => Notice::Conversion,
        FaultKind::OutputLimit => Notice::OutputLimit,
        FaultKind::CallDepth => Notice::CallDepth,
    }
}

/// The message of the editor that says why a file of a run that is reported was refused; want of memory is no
/// refusal there.
fn reported_refusal(refusal: FileRefusal) -> RefusalMessage
    ensures { result ≡ reported_refusal refusal }
{
    match refusal {
        FileRefusal::NoFile => RefusalMessage::NoFile,
        FileRefusal::FileFault => RefusalMessage::FileFault,
        FileRefusal::NotAListing(line) => RefusalMessage::NotAListing(line),
        FileRefusal::TooDeep => RefusalMessage::FileTooDeep,
        FileRefusal::TooLarge => RefusalMessage::FileTooLarge,
        FileRefusal::TooLong => RefusalMessage::FileTooLong,
        FileRefusal::OutOfMemory => RefusalMessage::FileFault,
    }
}
