//! A sink that passes bytes on to a file that is begun.
ghost use Rattle.std.specs.Prelude.{◌≡◌, ◌≢◌, ◌<◌, ◌≤◌, ◌+◌, ◌∷◌, ◌++◌, [], Err, IsSome, None, OnOk, length, replicate};
ghost use Rattle.std.specs.Io.KnownBytes.{Appends};
ghost use Rattle.synth_outside.specs.Files.{LeavesMap, begun_bytes, begun_name};
ghost use Rattle.synth_outside.specs.declared.faults.FilesFault.TheVariants.{NoFile};
ghost use Rattle.template_tree.specs.Listings.Listing.{Listing};
ghost use Rattle.template_tree.specs.Programs.Tree.{IsTree};
ghost use Rattle.file_store.specs.Private.Desk.{Sent, Written, desk};
ghost use Rattle.file_store.specs.declared.waiting.TheConstants.{MOST_WAITING};

use crate::waiting::{MOST_WAITING, Waiting};
use plcs_base::ByteOut;
use synth_outside::{Files, FilesFault};
use template_tree::Tree;

/// A sink that passes bytes on to the file that is begun. After a fault it drops them.
#[derive(Drop)]
pub(crate) struct FileOut<'a, F: Files> {
    pub(crate) files: &'a mut F,
    pub(crate) wait: Waiting,
    pub(crate) fault: Option<FilesFault>,
    ghost begun: { IsSome (F.begun files.now) },
}

impl<'a, F: Files> ByteOut for FileOut<'a, F> {
    ghost puts = { λ a b c. Sent
        (desk (F.told a.files.now) (F.begun a.files.now) a.wait a.fault)
        (b ∷ [])
        (desk (F.told c.files.now) (F.begun c.files.now) c.wait c.fault)
        × (c.files.ghost_name ≡ a.files.ghost_name) };

    fn put(&mut self, byte: u8) {
        if self.wait.is_full() {
            self.put_anew(byte);
        } else {
            self.wait.push(byte);
        }
    }

    fn put_repeated(&mut self, byte: u8, times: usize) {
        if self.wait.has_room_for_few(times) {
            self.wait.extend_repeated(byte, times);
        } else if times > 0 {
            self.put_many(byte, times);
        }
    }

    fn put_all(&mut self, bytes: &[u8]) {
        if self.wait.has_room_for(bytes) {
            self.wait.extend(bytes);
        } else {
            self.take_anew(bytes);
        }
    }
}

impl<'a, F: Files> FileOut<'a, F> {
    /// Passes the bytes of the whole listing on to the file that is begun, or keeps the fault that came.
    pub(crate) fn write_listing(&mut self, tree: &Tree)
        requires tree { IsTree tree.now }
        requires none { self.old.wait ≡ [] }
        requires fine { self.old.fault ≡ None }
        ensures written { Written
            (F.told self.old.files.now) (F.begun self.old.files.now)
            (Listing tree.now.items)
            (F.told self.new.files.now) (F.begun self.new.files.now) self.new.fault }
        ensures files { self.new.files.ghost_name ≡ self.old.files.ghost_name }
    {
        self.put_listing(tree);
        self.flush();
    }

    /// Puts the bytes of a tree's listing into this sink, which passes them on to the file that is begun.
    fn put_listing(&mut self, tree: &Tree)
        requires tree { IsTree tree.now }
        ensures sent { Sent
            (desk (F.told self.old.files.now) (F.begun self.old.files.now) self.old.wait self.old.fault)
            (Listing tree.now.items)
            (desk (F.told self.new.files.now) (F.begun self.new.files.now) self.new.wait self.new.fault) }
        ensures files { self.new.files.ghost_name ≡ self.old.files.ghost_name }
    {
        tree.put_listing(self);
    }

    /// Passes on the bytes that wait, and has one byte wait.
    #[inline(never)]
    fn put_anew(&mut self, byte: u8)
        ensures sent { Sent
            (desk (F.told self.old.files.now) (F.begun self.old.files.now) self.old.wait self.old.fault)
            (byte ∷ [])
            (desk (F.told self.new.files.now) (F.begun self.new.files.now) self.new.wait self.new.fault) }
        ensures files { self.new.files.ghost_name ≡ self.old.files.ghost_name }
    {
        self.flush();
        self.wait.push(byte);
    }

    /// Puts the byte so many times, one by one.
    #[inline(never)]
    fn put_many(&mut self, byte: u8, times: usize)
        ensures sent { Sent
            (desk (F.told self.old.files.now) (F.begun self.old.files.now) self.old.wait self.old.fault)
            (replicate times byte)
            (desk (F.told self.new.files.now) (F.begun self.new.files.now) self.new.wait self.new.fault) }
        ensures files { self.new.files.ghost_name ≡ self.old.files.ghost_name }
    {
        let mut done = 0;
        while done < times {
            self.put(byte);
            done += 1;
        }
    }

    /// Passes on the bytes that wait, and takes others into the sink, so many at a time as may wait.
    #[inline(never)]
    fn take_anew(&mut self, bytes: &[u8])
        ensures sent { Sent
            (desk (F.told self.old.files.now) (F.begun self.old.files.now) self.old.wait self.old.fault)
            bytes.now
            (desk (F.told self.new.files.now) (F.begun self.new.files.now) self.new.wait self.new.fault) }
        ensures files { self.new.files.ghost_name ≡ self.old.files.ghost_name }
    {
        self.flush();
        if bytes.len() <= MOST_WAITING {
            self.hold(bytes);
        } else {
            let (front, later) = bytes.split_at(MOST_WAITING);
            self.hold(front);
            self.take_anew(later);
        }
    }

    /// Has the bytes wait in the sink, which has room for them.
    fn hold(&mut self, bytes: &[u8])
        requires room { length self.old.wait + length bytes.now ≤ MOST_WAITING }
        ensures sent { Sent
            (desk (F.told self.old.files.now) (F.begun self.old.files.now) self.old.wait self.old.fault)
            bytes.now
            (desk (F.told self.new.files.now) (F.begun self.new.files.now) self.new.wait self.new.fault) }
        ensures files { self.new.files.ghost_name ≡ self.old.files.ghost_name }
    {
        self.wait.extend(bytes);
    }

    /// Passes on the bytes that wait, after which none waits.
    #[inline(never)]
    pub(crate) fn flush(&mut self)
        ensures sent { Sent
            (desk (F.told self.old.files.now) (F.begun self.old.files.now) self.old.wait self.old.fault)
            []
            (desk (F.told self.new.files.now) (F.begun self.new.files.now) self.new.wait self.new.fault) }
        ensures none { self.new.wait ≡ [] }
        ensures files { self.new.files.ghost_name ≡ self.old.files.ghost_name }
    {
        self.pass_on();
        self.wait.clear();
    }

    /// Passes on the bytes that wait, and leaves them there.
    fn pass_on(&mut self)
        ensures sent { Sent
            (desk (F.told self.old.files.now) (F.begun self.old.files.now) self.old.wait self.old.fault)
            []
            (desk (F.told self.new.files.now) (F.begun self.new.files.now) [] self.new.fault) }
        ensures files { self.new.files.ghost_name ≡ self.old.files.ghost_name }
    {
        if self.fault.is_some() {
            return;
        }
        match write_all(self.files, self.wait.as_slice()) {
            Ok(()) => {}
            Err(fault) => self.fault = Some(fault),
        }
    }
}

/// Passes a whole piece of bytes on to the file that is begun.
fn write_all<F: Files>(files: &mut F, piece: &[u8]) -> Result<(), FilesFault>
    requires { IsSome (F.begun files.old) }
    ensures told { OnOk result
        (Appends (begun_bytes (F.begun files.old)) (begun_bytes (F.begun files.new)) piece.now) }
    ensures files { LeavesMap (F.told files.old) (F.told files.new) result }
    ensures name { begun_name (F.begun files.new) ≡ begun_name (F.begun files.old) }
    ensures begun { IsSome (F.begun files.new) }
    ensures found { result ≢ Err NoFile }
{
    let mut rest = piece;
    while rest.len() > 0 {
        let count = files.write(rest)?;
        rest = &rest[count..];
    }
    Ok(())
}
