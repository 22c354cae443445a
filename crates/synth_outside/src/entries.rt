//! The entries of files in memory: each name with its bytes.

ghost use Rattle.std.specs.Prelude.{◌≡◌, [], ◌++◌, IfOk, IfErr, OnOk, OnErr, option_copied, option_map, bytes_eq, position};
ghost use Rattle.std.specs.FinMap.{empty, get, insert};
ghost use Rattle.std.specs.List.{find};
ghost use Rattle.synth_outside.specs.Private.Entries.{is_named};

use std::alloc::{AllocError, Global};
use std::marker::Model;

/// The entries of files in memory, in the order in which their names came.
#[derive(Debug, Drop)]
pub(crate) struct Entries {
    list: Vec<Entry>,
}

impl Model for Entries {
    ghost use Rattle.std.specs.FinMap.{from_entries};
    ghost use Rattle.synth_outside.specs.Files.{FileMap};
    ghost use Rattle.synth_outside.specs.Private.Entries.{file_map_code};

    ghost Value = { FileMap };

    ghost coded = { file_map_code };

    ghost view = { λ entries. from_entries entries.list.items };
}

impl Entries {
    /// No entry, so that there is no file.
    pub(crate) fn new(alloc: Global) -> Self
        ensures { result ≡ empty }
    {
        Entries {
            list: Vec::new(alloc),
        }
    }

    /// The bytes of the entry of the name, if there is such a file.
    #[tactic(auto, using(crate::proofs::ListedFiles::content_in_map))]
    pub(crate) fn content(&self, name: &[u8]) -> Option<&[u8]>
        ensures { option_copied result ≡ get self.now name.now }
    {
        content_of(self.list.as_slice(), name)
    }

    /// Puts an entry in place of the one of its name, or behind all; or gives it back and changes
    /// nothing.
    #[tactic(auto, using(crate::proofs::ListedFiles::put_at_place, crate::proofs::ListedFiles::put_behind))]
    pub(crate) fn set(&mut self, entry: Entry) -> Result<(), Entry>
        ensures ok { OnOk result (self.new ≡ insert self.old entry.0 entry.1) }
        ensures err { OnErr result (self.new ≡ self.old) }
        ensures back { IfErr result (λ refused. refused ≡ entry) }
    {
        match index_of(self.list.as_slice(), &entry.name) {
            Some(place) => {
                self.list[place] = entry;
                Ok(())
            }
            None => match self.list.push(entry) {
                Ok(()) => Ok(()),
                Err(refused) => Err(refused.value),
            },
        }
    }
}

/// An entry of files in memory: a name with its bytes.
#[derive(Debug, Drop)]
pub(crate) struct Entry {
    name: Vec<u8>,
    bytes: Vec<u8>,
}

impl Model for Entry {
    ghost use Rattle.std.specs.Prelude.{ℕ, List};

    ghost Value = { List ℕ × List ℕ };

    ghost view = { λ entry. (entry.name.items, entry.bytes.items) };
}

impl Entry {
    /// The entry of a name with no byte yet.
    pub(crate) fn new(alloc: Global, name: &[u8]) -> Result<Self, AllocError>
        ensures { IfOk result (λ entry. entry ≡ (name.now, [])) }
    {
        Ok(Entry {
            name: Vec::from_slice(alloc, name)?,
            bytes: Vec::new(alloc),
        })
    }

    /// Whether an entry of files in memory has the name.
    fn is_named(&self, name: &[u8]) -> bool
        ensures { result ≡ bytes_eq self.now.0 name.now }
    {
        self.name.as_slice() == name
    }

    /// The bytes of an entry of files in memory.
    fn bytes(&self) -> &[u8]
        ensures { result.now ≡ self.now.1 }
    {
        self.bytes.as_slice()
    }

    /// Appends the piece to the bytes of the entry, or changes nothing.
    pub(crate) fn extend(&mut self, piece: &[u8]) -> Result<(), AllocError>
        ensures ok { OnOk result (self.new ≡ (self.old.0, self.old.1 ++ piece.now)) }
        ensures err { OnErr result (self.new ≡ self.old) }
    {
        self.bytes.extend_from_slice(piece)
    }
}

// The bytes of the first one of these entries that has the name, if there is one.
fn content_of<'a>(entries: &'a [Entry], name: &[u8]) -> Option<&'a [u8]>
    ensures { option_copied result ≡
        option_map (λ entry. entry.1) (find (is_named name.now) entries.now) }
{
    entries
        .iter()
        .find(|entry| entry.is_named(name))
        .map(|entry| entry.bytes())
}

// Where the first one of these entries stands that has the name, if there is one.
fn index_of(entries: &[Entry], name: &[u8]) -> Option<usize>
    ensures { result ≡ position (is_named name.now) entries.now }
{
    entries.iter().position(|entry| entry.is_named(name))
}
