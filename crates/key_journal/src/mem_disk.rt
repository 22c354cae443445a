//! A disk in memory.

ghost use Rattle.std.specs.Prelude.{◌≡◌, ◌≢◌, ◌+◌, ◌<◌, ◌≤◌, ◌-◌, ◌⊎◌, ◌↔◌, [], ◌∷◌, ◌++◌, min, length, take, drop, Err, IsTrue, IfOk, OnOk, OnErr, IsErrOf};
ghost use Rattle.synth_outside.specs.Calls.{after_call, is_failing};
ghost use Rattle.synth_outside.specs.Cause.{HasCause};
ghost use Rattle.key_journal.specs.Disk.{Newest, ReadsRange, WritesToDisk, Tears, Syncs, disk_bytes, overwritten};

use super::{DISK_END, Disk, DiskFault};
use std::alloc::{AllocError, Global};
use std::marker::Model;
use synth_outside::Calls;

/// The bytes of one write to a disk in memory.
#[derive(Debug, Drop)]
pub struct Piece {
    bytes: Vec<u8>,
}

impl Model for Piece {
    ghost use Rattle.std.specs.Prelude.{ℕ, List};

    ghost Value = { List ℕ };

    ghost view = { λ piece. piece.bytes.items };
}

impl Piece {
    /// The bytes of the piece that was written to the disk in memory.
    pub fn bytes(&self) -> &[u8]
        ensures { result.now ≡ self.now }
    {
        self.bytes.as_slice()
    }
}

/// A call on a disk in memory that was done and that changed what a crash may leave.
#[derive(Debug, Drop)]
pub enum DiskCall {
    /// The piece was written from this byte on, counted from 0.
    Write(u64, Piece),
    /// The disk was synced.
    Sync,
}

/// A disk that lies in memory, is empty first, and fails where it is told to.
///
/// It tells all. It is seen as the writes and syncs that were done, the calls made with those that are
/// to fail, and how many failed. A call that fails changes nothing.
#[derive(Debug, Drop)]
pub struct MemDisk {
    alloc: Global,
    bytes: Vec<u8>,
    done: Vec<DiskCall>,
    calls: Calls,
    faults: u64,
}

impl Model for MemDisk {
    ghost use Rattle.key_journal.specs.MemDisk.{PlainMemDisk};
    ghost use Rattle.key_journal.specs.Private.MemDiskFields.{HoldsBytes};

    ghost Value = { PlainMemDisk };

    ghost view = { λ disk.
        record { done = disk.done.items; calls = disk.calls; faults = disk.faults } };

    ghost invariant = { λ disk. HoldsBytes disk.bytes.items disk.done.items };
}

impl MemDisk {
    ghost use Rattle.key_journal.specs.MemDisk.{states};

    /// An empty disk. The calls whose numbers, from 1, are in `fails` are to fail.
    ///
    /// It takes no memory.
    pub fn new(alloc: Global, fails: Vec<u64>) -> Self
        ensures done { result.done ≡ [] }
        ensures calls { result.calls ≡ record { fails = fails.items; made = 0; faults = 0 } }
        ensures faults { result.faults ≡ 0 }
    {
        MemDisk {
            alloc,
            bytes: Vec::new(alloc),
            done: Vec::new(alloc),
            calls: Calls::new(fails),
            faults: 0,
        }
    }

    /// What the disk in memory reads as.
    pub fn bytes(&self) -> &[u8]
        ensures { result.now ≡ disk_bytes (states self.now.done) }
    {
        self.bytes.as_slice()
    }

    /// The writes and syncs of the disk in memory that were done, in their order.
    pub fn done(&self) -> &[DiskCall]
        ensures { result.now ≡ self.now.done }
    {
        self.done.as_slice()
    }
}

impl Disk for MemDisk {
    ghost use Rattle.key_journal.specs.MemDisk.{states};
    ghost use Rattle.key_journal.specs.Private.ReadImage.{states_read_as_image};

    ghost past = { λ disk. states disk.done };

    ghost reads_as_image = { λ disk. states_read_as_image disk.done };

    ghost faults = { λ disk. disk.faults };

    fn read_at(&mut self, at: u64, buf: &mut [u8]) -> Result<usize, DiskFault>
        ensures count { IfOk result (λ count. count ≤ length buf.new) }
        ensures bytes { IfOk result (λ count. Newest
            (ReadsRange at (length buf.new) count (take count buf.new)) (states self.old.done)) }
        ensures inside { IfOk result (λ count. 0 < count → at + count ≤ DISK_END) }
        ensures same { self.new.done ≡ self.old.done }
        ensures cause { HasCause DiskFault.Failed self.old.faults self.new.faults result }

        // Which calls fail, exactly; memory is never wanted.
        ensures called { self.new.calls ≡ after_call self.old.calls }
        ensures memory { result ≢ Err DiskFault.OutOfMemory }
        ensures listed { IsErrOf result DiskFault.Failed ↔ IsTrue (is_failing self.old.calls) }
    {
        if self.calls.next_fails() {
            self.faults = self.faults.saturating_add(1);
            return Err(DiskFault::Failed);
        }
        Ok(copy_from(self.bytes.as_slice(), at, buf))
    }

    fn write_at(&mut self, at: u64, piece: &[u8]) -> Result<(), DiskFault>
        requires { Newest (λ state. at ≤ length state.bytes) (states self.old.done) }
        ensures whole { OnOk result (WritesToDisk at piece.now (states self.old.done) (states self.new.done)) }
        ensures torn { OnErr result
            (Tears at (length piece.now) (states self.old.done) (states self.new.done)) }
        ensures outside { DISK_END < at + length piece.now → IsErrOf result DiskFault.Failed }
        ensures cause { HasCause DiskFault.Failed self.old.faults self.new.faults result }

        // Which calls fail, and that they change nothing, exactly.
        ensures called { self.new.calls ≡ after_call self.old.calls }
        ensures listed { IsErrOf result DiskFault.Failed ↔
            (IsTrue (is_failing self.old.calls) ⊎ (DISK_END < at + length piece.now)) }
        ensures kept { OnErr result (self.new.done ≡ self.old.done) }
    {
        let is_listed = self.calls.next_fails();
        if is_listed || is_outside(at, piece) {
            self.faults = self.faults.saturating_add(1);
            return Err(DiskFault::Failed);
        }
        let bytes = written_over(self.alloc, self.bytes.as_slice(), at, piece)?;
        note_write(self.alloc, &mut self.done, at, piece)?;
        self.bytes = bytes;
        Ok(())
    }

    fn sync(&mut self) -> Result<(), DiskFault>
        ensures whole { OnOk result (Syncs (states self.old.done) (states self.new.done)) }
        ensures same { OnErr result (states self.new.done ≡ states self.old.done) }
        ensures cause { HasCause DiskFault.Failed self.old.faults self.new.faults result }

        // Which calls fail, and that they change nothing, exactly.
        ensures called { self.new.calls ≡ after_call self.old.calls }
        ensures listed { IsErrOf result DiskFault.Failed ↔ IsTrue (is_failing self.old.calls) }
        ensures kept { OnErr result (self.new.done ≡ self.old.done) }
    {
        if self.calls.next_fails() {
            self.faults = self.faults.saturating_add(1);
            return Err(DiskFault::Failed);
        }
        note_sync(&mut self.done)?;
        Ok(())
    }
}

// Whether a write to the disk in memory would reach a byte that no disk has.
fn is_outside(at: u64, piece: &[u8]) -> bool
    ensures { IsTrue result ↔ (DISK_END < at + length piece.now) }
{
    at > DISK_END || piece.len() as u64 > DISK_END - at
}

// Copies the bytes of the disk in memory from `at` on to the front of the buffer, as many as there are and as fit.
fn copy_from(bytes: &[u8], at: u64, buf: &mut [u8]) -> usize
    ensures exact { result ≡ min (length buf.old) (length bytes.now - at) }
    ensures same { take result buf.new ≡ take result (drop at bytes.now) }
{
    let rest = &bytes[(at as usize).min(bytes.len())..];
    let count = buf.len().min(rest.len());
    buf[..count].copy_from_slice(&rest[..count]);
    count
}

// The bytes of the disk in memory with the piece written over those from `at` on.
fn written_over(alloc: Global, bytes: &[u8], at: u64, piece: &[u8]) -> Result<Vec<u8>, AllocError>
    requires within { at ≤ length bytes.now }
    requires inside { at + length piece.now ≤ DISK_END }
    ensures { IfOk result (λ next. next.items ≡ overwritten bytes.now at piece.now) }
{
    let at = at as usize;
    let behind = (at + piece.len()).min(bytes.len());
    let mut next = bytes[..at].to_vec(alloc)?;
    next.extend_from_slice(piece)?;
    next.extend_from_slice(&bytes[behind..])?;
    Ok(next)
}

// Notes a write to the disk in memory that is done, or changes nothing.
fn note_write(
    alloc: Global,
    done: &mut Vec<DiskCall>,
    at: u64,
    piece: &[u8],
) -> Result<(), AllocError>
    ensures ok { OnOk result (done.new.items ≡ done.old.items ++ DiskCall.Write at piece.now ∷ []) }
    ensures err { OnErr result (done.new.items ≡ done.old.items) }
{
    let piece = Piece {
        bytes: piece.to_vec(alloc)?,
    };
    done.push(DiskCall::Write(at, piece))?;
    Ok(())
}

// Notes a sync of the disk in memory that is done, or changes nothing.
fn note_sync(done: &mut Vec<DiskCall>) -> Result<(), AllocError>
    ensures ok { OnOk result (done.new.items ≡ done.old.items ++ DiskCall.Sync ∷ []) }
    ensures err { OnErr result (done.new.items ≡ done.old.items) }
{
    done.push(DiskCall::Sync)?;
    Ok(())
}
