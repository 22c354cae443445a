//! What a disk asks of the file that it stands on, and the file of the system that gives it.

ghost use Rattle.std.specs.Prelude.{◌≡◌, ◌+◌, ◌<◌, ◌≤◌, [], List, length, take, IfOk, OnOk, OnErr};
ghost use Rattle.key_journal.specs.Disk.{DiskState, Newest, ReadsAsImage, WritesToDisk, Tears, Syncs};
ghost use Rattle.key_journal.specs.DiskFile.{ReadsSome};

use super::DISK_END;
use std::fs::File;
use std::io;
use std::os::unix::fs::FileExt;

/// A file that a disk stands on: the calls that it makes of it, each of which may fail.
///
/// `past` and `reads_as_image` are those of the disk. Where `past` is empty, nothing is claimed.
pub trait DiskFile {
    ghost past: { Self → List DiskState };

    ghost reads_as_image: { (file : Self) → Newest ReadsAsImage (past file) };

    /// Moves some bytes of the file from `at` on into the front of the buffer, and answers how many. `Ok(0)` is the
    /// end of the file.
    fn read_some(&mut self, at: u64, buf: &mut [u8]) -> io::Result<usize>
        requires { 0 < length buf.old }
        ensures count { IfOk result (λ count. count ≤ length buf.new) }
        ensures bytes { IfOk result (λ count.
            Newest (ReadsSome at count (take count buf.new)) (past self.old)) }
        ensures inside { IfOk result (λ count. 0 < count → at + count ≤ DISK_END) }
        ensures same { past self.new ≡ past self.old };

    /// Writes the whole piece over the bytes of the file from `at` on, or a part of it where it isn't `Ok`.
    fn write_whole(&mut self, at: u64, piece: &[u8]) -> io::Result<()>
        requires { Newest (λ state. at ≤ length state.bytes) (past self.old) }
        ensures whole { OnOk result (WritesToDisk at piece.now (past self.old) (past self.new)) }
        ensures torn { OnErr result (Tears at (length piece.now) (past self.old) (past self.new)) };

    /// Has the system keep all that was written to the file. It changes nothing where it isn't `Ok`.
    fn sync_whole(&mut self) -> io::Result<()>
        ensures whole { OnOk result (Syncs (past self.old) (past self.new)) }
        ensures same { OnErr result (past self.new ≡ past self.old) };
}

impl DiskFile for File {
    ghost past = { λ _. [] };

    ghost reads_as_image = { λ _. tt };

    fn read_some(&mut self, at: u64, buf: &mut [u8]) -> io::Result<usize> {
        if at >= DISK_END {
            return Ok(0);
        }
        let room = (DISK_END - at).min(buf.len() as u64) as usize;
        self.read_at(&mut buf[..room], at)
    }

    fn write_whole(&mut self, at: u64, piece: &[u8]) -> io::Result<()> {
        self.write_all_at(piece, at)
    }

    fn sync_whole(&mut self) -> io::Result<()> {
        self.sync_all()
    }
}
