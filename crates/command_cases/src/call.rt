//! The words that cases begin with.

/// What a case of saved programs asks for, by its first word.
#[derive(Clone, Copy)]
pub(crate) enum Call {
    /// There are no files; some of their calls are to fail.
    Files,
    /// Some writes of the output are to fail.
    Writes,
    /// A file is put among those that runs find.
    File,
    /// A run by the words of the command.
    Run,
}

/// Each word that a case of saved programs begins with, with its call.
pub(crate) static CALLS: [(&[u8], Call); 4] = [
    (b"files", Call::Files),
    (b"writes", Call::Writes),
    (b"file", Call::File),
    (b"run", Call::Run),
];
