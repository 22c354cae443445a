//! Files in memory, and the count of wants of memory.

ghost use Rattle.std.specs.Prelude.{◌≡◌, ◌≢◌, ◌<◌, ◌≤◌, true, false, [], min, length, Some, None, Ok, Err, IsSome, is_some, option_copied, IfOk, IfSome, OnOk, OnErr, IsErrOf};
ghost use Rattle.std.specs.FinMap.{empty, get};
ghost use Rattle.plcs_base.specs.Count.{raised};
ghost use Rattle.synth_outside.specs.Files.{begun_bytes, begun_name, Opens, Lacks, BeginsContent, Commits};
ghost use Rattle.synth_outside.specs.MemFiles.{new_content, MakesFilesCall, ChangesLeft, ChangesBegun};
ghost use Rattle.synth_outside.specs.Sink.{TakesBytes};
ghost use Rattle.synth_outside.specs.Source.{GivesBytes};

use super::calls::Calls;
use super::entries::{Entries, Entry};
use super::unread::Unread;
use super::{Files, FilesFault};
use std::alloc::Global;
use std::marker::Model;

/// Files that lie in memory, and that fail where they are told to.
///
/// They are seen as the map of files, the bytes left of the one that is open, the name and the
/// bytes that were begun, the calls made with those that are to fail, and the count of wants of
/// memory. The bytes of a file are copied when it is opened.
#[derive(Debug, Drop)]
pub struct MemFiles {
    alloc: Global,
    entries: Entries,
    unread: Option<Unread>,
    begun: Option<Entry>,
    calls: Calls,
    wants: u64,
}

impl Model for MemFiles {
    ghost use Rattle.synth_outside.specs.MemFiles.{PlainMemFiles};
    ghost use Rattle.synth_outside.specs.Private.Entries.{file_map_code};
    ghost use Rattle.std.specs.Coded.{codes};

    ghost Value = { PlainMemFiles };

    ghost coded = { Prim.hlevel (codes, file_map_code) };

    ghost view = { λ files. record {
      stored = files.entries;
      left = files.unread;
      begun = files.begun;
      calls = files.calls;
      wants = files.wants;
    } };
}

impl MemFiles {
    /// Files in memory of which there is none yet; the calls whose numbers, from 1, are in `fails`
    /// are to fail.
    pub fn new(alloc: Global, fails: Vec<u64>) -> Self
        ensures { result ≡ record {
          stored = empty;
          left = None;
          begun = None;
          calls = record { fails = fails.items; made = 0; faults = 0 };
          wants = 0;
        } }
    {
        MemFiles {
            alloc,
            entries: Entries::new(alloc),
            unread: None,
            begun: None,
            calls: Calls::new(fails),
            wants: 0,
        }
    }

    /// The bytes of the file of this name in memory, if there is one.
    pub fn content(&self, name: &[u8]) -> Option<&[u8]>
        ensures { option_copied result ≡ get self.now.stored name.now }
    {
        self.entries.content(name)
    }
}

impl Files for MemFiles {
    ghost told = { λ files. record {
      stored = Some files.stored;
      faults = files.calls.faults;
      wants = files.wants;
    } };

    ghost is_open = { λ files. is_some files.left };

    ghost left = { λ files. files.left };

    ghost begun = { λ files. new_content files.begun };

    fn open_read(&mut self, name: &[u8]) -> Result<(), FilesFault>
        ensures whole { OnOk result (Opens (Some self.old.stored) name.now self.new.left) }
        ensures readable { OnOk result (is_some self.new.left ≡ true) }
        ensures missing { IsErrOf result FilesFault.NoFile →
            Lacks (Some self.old.stored) name.now }

        // Which answer comes, want of memory aside, and what is left, exactly.
        ensures call { MakesFilesCall self.old self.new result }
        ensures kept { OnErr result (self.new.left ≡ self.old.left) }
        ensures others { ChangesLeft self.old self.new }
    {
        if self.calls.next_fails() {
            return Err(FilesFault::Failed);
        }
        let Some(content) = self.entries.content(name) else {
            return Err(FilesFault::NoFile);
        };
        let Ok(bytes) = Vec::from_slice(self.alloc, content) else {
            return Err(counted_want(&mut self.wants));
        };
        self.unread = Some(Unread::new(bytes));
        Ok(())
    }

    fn read(&mut self, buf: &mut [u8]) -> Result<usize, FilesFault>
        requires open_file { is_some self.old.left ≡ true }
        requires room { 0 < length buf.old }

        ensures bytes { GivesBytes self.old.left self.new.left buf.new result }
        ensures readable { is_some self.new.left ≡ true }
        ensures found { result ≢ Err FilesFault.NoFile }

        // How many bytes are given, and what is left after a failure, exactly; memory is never
        // wanted.
        ensures call { MakesFilesCall self.old self.new result }
        ensures fitting { IfOk result
            (λ n. IfSome self.old.left (λ left. n ≡ min (length buf.old) (length left))) }
        ensures memory { result ≢ Err FilesFault.OutOfMemory }
        ensures kept { OnErr result (self.new.left ≡ self.old.left) }
        ensures others { self.new ≡
            record self.old { left = self.new.left; calls = self.new.calls } }
    {
        if self.calls.next_fails() {
            return Err(FilesFault::Failed);
        }
        match &mut self.unread {
            Some(unread) => Ok(unread.give(buf)),
            None => unreachable!(),
        }
    }

    fn begin(&mut self, name: &[u8]) -> Result<(), FilesFault>
        ensures empty { OnOk result
            (BeginsContent (Some self.old.stored) name.now (new_content self.new.begun)) }
        ensures found { result ≢ Err FilesFault.NoFile }

        // What is begun then, exactly; want of memory comes only in place of success.
        ensures call { MakesFilesCall self.old self.new result }
        ensures begun { OnOk result (self.new.begun ≡ Some (name.now, [])) }
        ensures kept { OnErr result (self.new.begun ≡ self.old.begun) }
        ensures others { ChangesBegun self.old self.new }
    {
        if self.calls.next_fails() {
            return Err(FilesFault::Failed);
        }
        match Entry::new(self.alloc, name) {
            Ok(entry) => {
                self.begun = Some(entry);
                Ok(())
            }
            Err(_) => Err(counted_want(&mut self.wants)),
        }
    }

    fn write(&mut self, piece: &[u8]) -> Result<usize, FilesFault>
        requires begun_content { IsSome (new_content self.old.begun) }
        requires some_byte { 0 < length piece.now }

        ensures bytes { TakesBytes (begun_bytes (new_content self.old.begun))
            (begun_bytes (new_content self.new.begun)) piece.now result }
        ensures same_name { begun_name (new_content self.new.begun) ≡
            begun_name (new_content self.old.begun) }
        ensures writable { IsSome (new_content self.new.begun) }
        ensures found { result ≢ Err FilesFault.NoFile }

        // The whole piece is taken or nothing of it; want of memory comes only in place of success.
        ensures call { MakesFilesCall self.old self.new result }
        ensures whole { IfOk result (λ n. n ≡ length piece.now) }
        ensures kept { OnErr result (self.new.begun ≡ self.old.begun) }
        ensures others { ChangesBegun self.old self.new }
    {
        if self.calls.next_fails() {
            return Err(FilesFault::Failed);
        }
        match &mut self.begun {
            Some(entry) => match entry.extend(piece) {
                Ok(()) => Ok(piece.len()),
                Err(_) => Err(counted_want(&mut self.wants)),
            },
            None => unreachable!(),
        }
    }

    fn commit(&mut self) -> Result<(), FilesFault>
        requires { IsSome (new_content self.old.begun) }

        ensures committed { OnOk result
            (Commits (Some self.old.stored) (Some self.new.stored) (new_content self.old.begun)) }
        ensures over { OnOk result (new_content self.new.begun ≡ None) }
        ensures found { result ≢ Err FilesFault.NoFile }

        // What an answer changes, exactly; want of memory comes only in place of success.
        ensures call { MakesFilesCall self.old self.new result }
        ensures done { OnOk result (self.new.begun ≡ None) }
        ensures kept { OnErr result
            (self.new ≡ record self.old { calls = self.new.calls; wants = self.new.wants }) }
        ensures others { self.new.left ≡ self.old.left }
    {
        if self.calls.next_fails() {
            return Err(FilesFault::Failed);
        }
        let Some(entry) = self.begun.take() else {
            unreachable!();
        };
        match self.entries.set(entry) {
            Ok(()) => Ok(()),
            Err(entry) => {
                self.begun = Some(entry);
                Err(counted_want(&mut self.wants))
            }
        }
    }
}

// Counts one more want of memory in a call on files, and answers it.
pub(crate) fn counted_want(wants: &mut u64) -> FilesFault
    ensures answer { result ≡ FilesFault.OutOfMemory }
    ensures counted { wants.new ≡ raised wants.old }
    ensures later { wants.old ≤ wants.new }
{
    *wants = wants.saturating_add(1);
    FilesFault::OutOfMemory
}
