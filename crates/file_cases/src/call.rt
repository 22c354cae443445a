//! The words that cases begin with.

/// What a case of files asks for, by its first word.
#[derive(Clone, Copy)]
pub(crate) enum Call {
    /// A call that takes the text.
    Text(TextCall),
    /// More lines of the text.
    Longer(Way),
    /// Files in memory are at hand.
    Memory,
    /// The files of the system are at hand.
    System,
    /// What stands under a name in the files at hand.
    Content,
    /// A call on the files at hand.
    Files(FilesCall),
    /// A change of what lies where the program runs.
    Change(Change),
    /// A source that is read, or a sink that is written to.
    Stream(StreamCall),
}

/// A call on the text, by the word that a case of files begins with.
#[derive(Clone, Copy)]
pub(crate) enum TextCall {
    ReadListing,
    Damage,
    Save,
}

/// Which of the words that make a text longer a case begins with: its lines stand all at level 1, each a level
/// deeper than the one before, from level 1 on, or each a level higher, down to level 1.
#[derive(Clone, Copy)]
pub(crate) enum Way {
    Level,
    Deeper,
    Higher,
}

/// A call on the files at hand, by the word that a case begins with.
#[derive(Clone, Copy)]
pub(crate) enum FilesCall {
    OpenRead,
    Read,
    Begin,
    Write,
    Commit,
    Load,
    LoadAndSave,
    LoadAndRescue,
    LoadInput,
}

/// A change of what lies where the program runs, by the word that a case begins with.
#[derive(Clone, Copy)]
pub(crate) enum Change {
    MakeFolder,
    RemoveFolder,
    RemoveFile,
    Link,
}

/// The words that cases of streams begin with: a source that is read, or a sink that is written to.
#[derive(Clone, Copy)]
pub(crate) enum StreamCall {
    Source,
    FileSource,
    UnreadableSource,
    SliceSource,
    StumblingSource,
    Sink,
    FileSink,
    UnwritableSink,
    SliceSink,
    StumblingSink,
}

/// Each word that a case of files begins with, with its call.
pub(crate) static CALLS: [(&[u8], Call); 32] = [
    (b"read_listing", Call::Text(TextCall::ReadListing)),
    (b"damage", Call::Text(TextCall::Damage)),
    (b"save", Call::Text(TextCall::Save)),
    (b"lines", Call::Longer(Way::Level)),
    (b"deeper_lines", Call::Longer(Way::Deeper)),
    (b"higher_lines", Call::Longer(Way::Higher)),
    (b"open_read", Call::Files(FilesCall::OpenRead)),
    (b"read", Call::Files(FilesCall::Read)),
    (b"begin", Call::Files(FilesCall::Begin)),
    (b"write", Call::Files(FilesCall::Write)),
    (b"commit", Call::Files(FilesCall::Commit)),
    (b"load", Call::Files(FilesCall::Load)),
    (b"load_and_save", Call::Files(FilesCall::LoadAndSave)),
    (b"load_and_rescue", Call::Files(FilesCall::LoadAndRescue)),
    (b"load_input", Call::Files(FilesCall::LoadInput)),
    (b"memory", Call::Memory),
    (b"system", Call::System),
    (b"content", Call::Content),
    (b"make_folder", Call::Change(Change::MakeFolder)),
    (b"remove_folder", Call::Change(Change::RemoveFolder)),
    (b"remove_file", Call::Change(Change::RemoveFile)),
    (b"link", Call::Change(Change::Link)),
    (b"source", Call::Stream(StreamCall::Source)),
    (b"file_source", Call::Stream(StreamCall::FileSource)),
    (
        b"unreadable_source",
        Call::Stream(StreamCall::UnreadableSource),
    ),
    (b"slice_source", Call::Stream(StreamCall::SliceSource)),
    (
        b"stumbling_source",
        Call::Stream(StreamCall::StumblingSource),
    ),
    (b"sink", Call::Stream(StreamCall::Sink)),
    (b"file_sink", Call::Stream(StreamCall::FileSink)),
    (b"unwritable_sink", Call::Stream(StreamCall::UnwritableSink)),
    (b"slice_sink", Call::Stream(StreamCall::SliceSink)),
    (b"stumbling_sink", Call::Stream(StreamCall::StumblingSink)),
];
