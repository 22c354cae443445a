//! The words that cases begin with.

/// What a case of the journal asks for, by its first word.
#[derive(Clone, Copy)]
pub(crate) enum Call {
    /// A call on the disk or the journal that is held.
    Held(HeldCall),
    /// What a crash leaves at each moment of a session.
    Walk,
    /// How a session ends over a file of which each call fails in turn.
    Stumble,
    /// A call on the file of the system that a journal is kept in.
    File(FileCall),
}

/// A call on the disk or the journal that is held, by the word that a case begins with.
#[derive(Clone, Copy)]
pub(crate) enum HeldCall {
    Disk,
    WriteAt,
    ReadAt,
    Sync,
    Bytes,
    Crash,
    Open,
    Read,
    ReadAll,
    Given,
    Ended,
    Parts,
    Clear,
}

/// A call on the journal's file of the system, by the word that a case begins with.
#[derive(Clone, Copy)]
pub(crate) enum FileCall {
    Session,
    Bytes,
    Put,
    Remove,
    MakeFolder,
    RemoveFolder,
}

/// Each word that a case of the journal begins with, with its call.
pub(crate) static CALLS: [(&[u8], Call); 21] = [
    (b"disk", Call::Held(HeldCall::Disk)),
    (b"write_at", Call::Held(HeldCall::WriteAt)),
    (b"read_at", Call::Held(HeldCall::ReadAt)),
    (b"sync", Call::Held(HeldCall::Sync)),
    (b"bytes", Call::Held(HeldCall::Bytes)),
    (b"crash", Call::Held(HeldCall::Crash)),
    (b"open", Call::Held(HeldCall::Open)),
    (b"read", Call::Held(HeldCall::Read)),
    (b"read_all", Call::Held(HeldCall::ReadAll)),
    (b"given", Call::Held(HeldCall::Given)),
    (b"ended", Call::Held(HeldCall::Ended)),
    (b"parts", Call::Held(HeldCall::Parts)),
    (b"clear", Call::Held(HeldCall::Clear)),
    (b"crash_at_each_moment", Call::Walk),
    (b"stumbling_file", Call::Stumble),
    (b"file_session", Call::File(FileCall::Session)),
    (b"file_bytes", Call::File(FileCall::Bytes)),
    (b"put_file", Call::File(FileCall::Put)),
    (b"remove_file", Call::File(FileCall::Remove)),
    (b"make_folder", Call::File(FileCall::MakeFolder)),
    (b"remove_folder", Call::File(FileCall::RemoveFolder)),
];
