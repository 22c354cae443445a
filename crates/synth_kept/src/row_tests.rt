//! Rows of tests, a session each: what it writes, keeps on its disk and ends with.

use crate::images::Images;
use crate::playing::{DONE, NEVER, Played, Words};
use crate::status::KeptStatus;
use key_journal::MemDisk;
use std::alloc::Global;
use std::test::Fail;
use synth_top::Status;

/// The keys that put a number into the program.
const PUT_KEYS: &[u8] = b".put\r7\r";

/// How many of the pieces are those of the screens up to the second Enter.
const PUT_PIECES: usize = 25;

/// How many pieces there are.
const ALL_PIECES: usize = 35;

/// What these keys and then those of a quit write on a small screen, piece by piece.
static STORED_RUN: [&[u8]; ALL_PIECES] = [
    b"\x1b[0m\x1b[2J",
    b"\x1b[1;1H  main: PROCEDURE OPTIONS ( MAIN );\x1b[K",
    b"\x1b[2;1H    {declaration}\x1b[K",
    b"\x1b[3;1H    {statement}\x1b[K",
    b"\x1b[4;1H  END;\x1b[K",
    b"\x1b[5;1H  {procedure}\x1b[K",
    b"\x1b[7;1H---------------------------------------\x1b[K",
    b"\x1b[12;1Hstatement>\x1b[K",
    b"\x1b[3;5H",
    // .
    b"\x1b[12;1Hstatement> .\x1b[K",
    b"\x1b[12;13H",
    // p
    b"\x1b[12;1Hstatement> .p\x1b[K",
    b"\x1b[12;14H",
    // u
    b"\x1b[12;1Hstatement> .pu\x1b[K",
    b"\x1b[12;15H",
    // t
    b"\x1b[12;1Hstatement> .put\x1b[K",
    b"\x1b[12;16H",
    // Enter
    b"\x1b[3;1H    PUT LIST ( {expressions} );\x1b[K",
    b"\x1b[12;1Hexpressions>\x1b[K",
    b"\x1b[3;16H",
    // 7
    b"\x1b[12;1Hexpressions> 7\x1b[K",
    b"\x1b[12;15H",
    // Enter
    b"\x1b[3;1H    PUT LIST ( 7 );\x1b[K",
    b"\x1b[12;1Hexpressions>\x1b[K",
    b"\x1b[3;16H",
    // .
    b"\x1b[12;1Hexpressions> .\x1b[K",
    b"\x1b[12;15H",
    // q
    b"\x1b[12;1Hexpressions> .q\x1b[K",
    b"\x1b[12;16H",
    // u
    b"\x1b[12;1Hexpressions> .qu\x1b[K",
    b"\x1b[12;17H",
    // i
    b"\x1b[12;1Hexpressions> .qui\x1b[K",
    b"\x1b[12;18H",
    // t
    b"\x1b[12;1Hexpressions> .quit\x1b[K",
    b"\x1b[12;19H",
    // The last Enter writes nothing.
];

/// What a session leaves on the disk that put the number into the program.
const PUT_KEPT: &[u8] = &[
    0x01, 0x2E, 0x01, 0x70, 0x01, 0x75, 0x01, 0x74, 0x01, 0x0D, 0x01, 0x37, 0x01, 0x0D, 0x00,
];

/// What the keys of a quit leave on the disk before it is cleared, and once the first gate is shut.
const QUIT_KEPT: &[u8] = b"\x01.\x01q\x01u\x01i\x01t\x01\r\x00";

const QUIT_SHUT: &[u8] = b"\x00.\x01q\x01u\x01i\x01t\x01\r\x00";

/// A session, and what comes of it.
struct Row {
    /// What it shows.
    shows: &'static str,
    disk: Found,
    words: Words,
    keys: &'static [u8],
    /// Which call of the source and which of the sink fails.
    read: u64,
    write: u64,
    status: KeptStatus,
    /// The number with which its program ends.
    number: u8,
    written: Written,
    kept: Kept,
}

/// The disk that the session of a row finds.
#[derive(Clone, Copy)]
enum Found {
    /// An empty one, whose call of this number fails.
    Empty(u64),
    /// The one that the row before left.
    Left,
}

/// What the session of a row writes.
#[derive(Clone, Copy)]
enum Written {
    /// So many pieces of the stored run.
    Pieces(usize),
    /// The screens of these keys.
    Screens(&'static [u8]),
    Nothing,
}

/// What a session leaves of its disk.
#[derive(Clone, Copy)]
enum Kept {
    /// These bytes.
    Bytes(&'static [u8]),
    /// The first gate isn't open.
    Shut,
    /// Each image that a crash may leave recovers to nothing or to these keys, and one to these.
    Images(&'static [u8]),
}

static ROWS: [Row; 16] = [
    Row {
        shows: "a session keeps its keys",
        disk: Found::Empty(NEVER),
        words: Words::Small,
        keys: PUT_KEYS,
        read: NEVER,
        write: NEVER,
        status: DONE,
        number: 0,
        written: Written::Pieces(PUT_PIECES),
        kept: Kept::Bytes(PUT_KEPT),
    },
    Row {
        shows: "a session goes on where it was not quit",
        disk: Found::Left,
        words: Words::Small,
        keys: b".quit\r",
        read: NEVER,
        write: NEVER,
        status: DONE,
        number: 0,
        written: Written::Pieces(ALL_PIECES),
        kept: Kept::Shut,
    },
    Row {
        shows: "a session is quit",
        disk: Found::Empty(NEVER),
        words: Words::Small,
        keys: b".quit\r",
        read: NEVER,
        write: NEVER,
        status: DONE,
        number: 0,
        written: Written::Screens(b".quit\r"),
        kept: Kept::Bytes(QUIT_SHUT),
    },
    Row {
        shows: "a session begins anew after a quit",
        disk: Found::Left,
        words: Words::Small,
        keys: b"",
        read: NEVER,
        write: NEVER,
        status: DONE,
        number: 0,
        written: Written::Screens(b""),
        kept: Kept::Shut,
    },
    // The call that clears the journal fails, so that its keys stay.
    Row {
        shows: "a quit is kept where the journal is not cleared",
        disk: Found::Empty(29),
        words: Words::Small,
        keys: b".quit\r",
        read: NEVER,
        write: NEVER,
        status: KeptStatus::JournalFault,
        number: 6,
        written: Written::Screens(b".quit\r"),
        kept: Kept::Bytes(QUIT_KEPT),
    },
    Row {
        shows: "a quit that was kept quits again",
        disk: Found::Left,
        words: Words::Small,
        keys: b"a",
        read: NEVER,
        write: NEVER,
        status: DONE,
        number: 0,
        written: Written::Screens(b".quit\r"),
        kept: Kept::Bytes(QUIT_SHUT),
    },
    // The third sync is the sixth call, and the fourth one the eighth. No key was acted on before, and so none that was
    // is lost.
    Row {
        shows: "the third sync fails",
        disk: Found::Empty(6),
        words: Words::Small,
        keys: b"a",
        read: NEVER,
        write: NEVER,
        status: KeptStatus::Run(Status::ReadFault),
        number: 1,
        written: Written::Screens(b""),
        kept: Kept::Images(b""),
    },
    Row {
        shows: "the fourth sync fails",
        disk: Found::Empty(8),
        words: Words::Small,
        keys: b"a",
        read: NEVER,
        write: NEVER,
        status: KeptStatus::Run(Status::ReadFault),
        number: 1,
        written: Written::Screens(b""),
        kept: Kept::Images(b"a"),
    },
    // Six keys take four calls each after the first four, and then the journal is cleared. Where that fails, a crash
    // leaves nothing or all keys.
    Row {
        shows: "the write that clears fails",
        disk: Found::Empty(29),
        words: Words::Small,
        keys: b".quit\ra",
        read: NEVER,
        write: NEVER,
        status: KeptStatus::JournalFault,
        number: 6,
        written: Written::Screens(b".quit\r"),
        kept: Kept::Images(b".quit\r"),
    },
    Row {
        shows: "the sync that clears fails",
        disk: Found::Empty(30),
        words: Words::Small,
        keys: b".quit\ra",
        read: NEVER,
        write: NEVER,
        status: KeptStatus::JournalFault,
        number: 6,
        written: Written::Screens(b".quit\r"),
        kept: Kept::Images(b".quit\r"),
    },
    Row {
        shows: "a read fails",
        disk: Found::Empty(NEVER),
        words: Words::Small,
        keys: b"abc",
        read: 3,
        write: NEVER,
        status: KeptStatus::Run(Status::ReadFault),
        number: 1,
        written: Written::Screens(b"ab"),
        kept: Kept::Bytes(b"\x01a\x01b\x00"),
    },
    Row {
        shows: "the write of a key's gate fails",
        disk: Found::Empty(11),
        words: Words::Small,
        keys: b"abc",
        read: NEVER,
        write: NEVER,
        status: KeptStatus::Run(Status::ReadFault),
        number: 1,
        written: Written::Screens(b"a"),
        kept: Kept::Bytes(b"\x01a\x00b\x00"),
    },
    // The write of the screen after the first key fails: the key is kept.
    Row {
        shows: "a write of a screen fails",
        disk: Found::Empty(NEVER),
        words: Words::Small,
        keys: b"abc",
        read: NEVER,
        write: 10,
        status: KeptStatus::Run(Status::WriteFault),
        number: 2,
        written: Written::Screens(b""),
        kept: Kept::Bytes(b"\x01a\x00"),
    },
    Row {
        shows: "the journal is not cleared",
        disk: Found::Empty(29),
        words: Words::Small,
        keys: b".quit\ra",
        read: NEVER,
        write: NEVER,
        status: KeptStatus::JournalFault,
        number: 6,
        written: Written::Screens(b".quit\r"),
        kept: Kept::Bytes(QUIT_KEPT),
    },
    // The first call opens the journal.
    Row {
        shows: "the journal is not opened",
        disk: Found::Empty(1),
        words: Words::Small,
        keys: b"a",
        read: NEVER,
        write: NEVER,
        status: KeptStatus::JournalFault,
        number: 6,
        written: Written::Nothing,
        kept: Kept::Bytes(b""),
    },
    Row {
        shows: "the words are not of the command",
        disk: Found::Empty(NEVER),
        words: Words::Lacking,
        keys: b"a",
        read: NEVER,
        write: NEVER,
        status: KeptStatus::Run(Status::BadWords),
        number: 4,
        written: Written::Nothing,
        kept: Kept::Bytes(b""),
    },
];

/// How a session agrees with its row.
#[derive(Clone, Copy, Debug)]
enum Outcome {
    AsSaid,
    OtherStatus,
    OtherNumber,
    OtherScreens,
    OtherDisk,
    OutOfMemory,
}

#[test]
fn sessions_keep_their_keys(rt: HostRuntime) -> Result<(), Fail> {
    let other = first_other(rt.alloc());
    assert!(rt; other.is_none(), "{other:?}");
    Ok(())
}

/// What the first session shows that doesn't agree with its row, if there is one, and what of it is otherwise.
fn first_other(alloc: Global) -> Option<(&'static str, Outcome)> {
    let mut played = Played::none(alloc);
    let mut images = Images::none(alloc);
    other_row(alloc, &mut played, &mut images)
}

/// Plays the sessions of the rows in turn, up to the first one that writes, keeps or ends otherwise than its
/// row says.
fn other_row(
    alloc: Global,
    played: &mut Played,
    images: &mut Images,
) -> Option<(&'static str, Outcome)> {
    for row in &ROWS {
        match compared(alloc, played, images, row).unwrap_or(Outcome::OutOfMemory) {
            Outcome::AsSaid => {}
            other => return Some((row.shows, other)),
        }
    }
    None
}

/// Plays the session of a row, and compares it with that.
fn compared(alloc: Global, played: &mut Played, images: &mut Images, row: &Row) -> Option<Outcome> {
    play_row(alloc, played, row)?;
    if played.status != row.status {
        return Some(Outcome::OtherStatus);
    }
    if played.status.code() != row.number {
        return Some(Outcome::OtherNumber);
    }
    if !is_written(alloc, played, row.written)? {
        return Some(Outcome::OtherScreens);
    }
    if !is_kept(alloc, images, &played.disk, row.kept)? {
        return Some(Outcome::OtherDisk);
    }
    Some(Outcome::AsSaid)
}

/// Plays the session of a row.
fn play_row(alloc: Global, played: &mut Played, row: &Row) -> Option<()> {
    if let Found::Empty(failing_call) = row.disk {
        played.take_disk(alloc, failing_call)?;
    }
    played.take_words(alloc, row.words)?;
    played.play(alloc, row.keys, row.read, row.write)
}

/// Whether the session of a row wrote what the row says.
fn is_written(alloc: Global, played: &mut Played, written: Written) -> Option<bool> {
    match written {
        Written::Pieces(count) => Some(are_pieces(played.written(), count)),
        Written::Screens(keys) => {
            played.find_wanted(alloc, keys)?;
            Some(played.written() == played.wanted())
        }
        Written::Nothing => Some(played.written().is_empty()),
    }
}

/// Whether the bytes that the session of a row of tests wrote are so many pieces of the stored run.
fn are_pieces(bytes: &[u8], count: usize) -> bool {
    let mut left = bytes;
    for piece in &STORED_RUN[..count.min(ALL_PIECES)] {
        match left.strip_prefix(*piece) {
            Some(behind) => left = behind,
            None => return false,
        }
    }
    left.is_empty()
}

/// Whether the session of a row left of its disk what the row says.
fn is_kept(alloc: Global, images: &mut Images, disk: &MemDisk, kept: Kept) -> Option<bool> {
    match kept {
        Kept::Bytes(bytes) => Some(disk.bytes() == bytes),
        Kept::Shut => Some(disk.bytes().first() == Some(&0)),
        Kept::Images(keys) => {
            images.find(alloc, disk.done())?;
            images.leave(keys)
        }
    }
}
