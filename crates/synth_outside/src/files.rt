//! The trait of files by name.

ghost use Rattle.std.specs.Prelude.{◌≡◌, ◌≢◌, ℕ, ◌<◌, Bool, true, List, length, Option, None, Err, IsSome, OnOk, OnErr, IsErrOf};
ghost use Rattle.synth_outside.specs.Files.{NewContent, PlainFiles, CountsAnswer, LeavesMap, begun_bytes, begun_name, Opens, Lacks, BeginsContent, Commits, OwnContentIsSet, OtherContentsStay};
ghost use Rattle.synth_outside.specs.Sink.{TakesBytes};
ghost use Rattle.synth_outside.specs.Source.{GivesBytes};

use super::FilesFault;

/// Files by name: one can be open for reading, and a new content of one can be begun.
///
/// `told` is what they tell: `stored` is the map from names to bytes; where it is `None`, nothing is
/// claimed of it. `faults` counts the failures so far and `wants` the wants of memory. Neither ever
/// falls, and each stays at 2^64 - 1 once it is there.
///
/// `is_open` says that a file is open for reading, and `left` is its bytes that are left, where
/// they are told. `begun` is the new content that was begun, with its name, if there is one. It is
/// no part of the map before it is committed, and a commit changes nothing of what is open.
pub trait Files {
    ghost told: { Self → PlainFiles };

    ghost is_open: { Self → Bool };

    ghost left: { Self → Option (List ℕ) };

    ghost begun: { Self → Option NewContent };

    /// Opens the file of the name for reading from its first byte, in place of one that is open.
    ///
    /// Of the answers `Ok` and `NoFile` it is `NoFile` exactly where the map lacks the name. After
    /// an answer that isn't `Ok` it isn't told whether a file is open.
    fn open_read(&mut self, name: &[u8]) -> Result<(), FilesFault>
        ensures whole { OnOk result (Opens (told self.old).stored name.now (left self.new)) }
        ensures readable { OnOk result (is_open self.new ≡ true) }
        ensures missing { IsErrOf result FilesFault.NoFile → Lacks (told self.old).stored name.now }

        ensures files { LeavesMap (told self.old) (told self.new) result }
        ensures same_begun { begun self.new ≡ begun self.old };

    /// Moves the first bytes left of the open file into the front of the buffer, and answers how
    /// many.
    ///
    /// `Ok(0)` is the end. A read that isn't `Ok` may have lost some first bytes, at most as many
    /// as the buffer holds. What stands in the buffer behind the bytes given, or where the read
    /// isn't `Ok`, isn't told.
    fn read(&mut self, buf: &mut [u8]) -> Result<usize, FilesFault>
        requires open_file { is_open self.old ≡ true }
        requires room { 0 < length buf.old }

        ensures bytes { GivesBytes (left self.old) (left self.new) buf.new result }
        ensures readable { is_open self.new ≡ true }
        ensures found { result ≢ Err FilesFault.NoFile }

        ensures files { LeavesMap (told self.old) (told self.new) result }
        ensures same_begun { begun self.new ≡ begun self.old };

    /// Begins a new content for the name of a file, with no byte, and drops one that was begun before.
    ///
    /// After an answer that isn't `Ok` it isn't told whether a content is begun.
    fn begin(&mut self, name: &[u8]) -> Result<(), FilesFault>
        ensures empty { OnOk result (BeginsContent (told self.old).stored name.now (begun self.new)) }
        ensures found { result ≢ Err FilesFault.NoFile }

        ensures files { LeavesMap (told self.old) (told self.new) result }
        ensures same_readable { is_open self.new ≡ is_open self.old }
        ensures same_left { left self.new ≡ left self.old };

    /// Appends the first bytes of the piece to the new content of a file, at least one, and answers how many.
    ///
    /// A write that isn't `Ok` may have appended a prefix of the piece, and doesn't say how long it
    /// is.
    fn write(&mut self, piece: &[u8]) -> Result<usize, FilesFault>
        requires begun_content { IsSome (begun self.old) }
        requires some_byte { 0 < length piece.now }

        ensures bytes { TakesBytes (begun_bytes (begun self.old)) (begun_bytes (begun self.new))
            piece.now result }
        ensures same_name { begun_name (begun self.new) ≡ begun_name (begun self.old) }
        ensures writable { IsSome (begun self.new) }
        ensures found { result ≢ Err FilesFault.NoFile }

        ensures files { LeavesMap (told self.old) (told self.new) result }
        ensures same_readable { is_open self.new ≡ is_open self.old }
        ensures same_left { left self.new ≡ left self.old };

    /// Sets the name that was begun to the new content, and then none is begun.
    ///
    /// After an answer that isn't `Ok` the map and the new content are as they were.
    fn commit(&mut self) -> Result<(), FilesFault>
        requires { IsSome (begun self.old) }

        ensures committed { OnOk result
            (Commits (told self.old).stored (told self.new).stored (begun self.old)) }
        ensures over { OnOk result (begun self.new ≡ None) }
        ensures found { result ≢ Err FilesFault.NoFile }

        ensures same_stored { OnErr result ((told self.new).stored ≡ (told self.old).stored) }
        ensures same_begun { OnErr result (begun self.new ≡ begun self.old) }
        ensures same_readable { is_open self.new ≡ is_open self.old }
        ensures same_left { left self.new ≡ left self.old }
        ensures files { CountsAnswer (told self.old) (told self.new) result };
}

/// A law of files by name: a commit gives its own name the new content, and every other name keeps its own.
#[tactic(auto, using(crate::proofs::Maps::own_content, crate::proofs::Maps::other_content))]
pub fn commit_sets_one_name()
    ensures own { OwnContentIsSet }
    ensures others { OtherContentsStay }
{}
