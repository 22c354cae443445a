//! Files that are loaded.
ghost use Rattle.std.specs.Prelude.{◌≡◌, ◌≢◌, ◌<◌, ◌≤◌, ℕ, List, true, IfErr, IfOk, length};
ghost use Rattle.template_tree.specs.Programs.Limit.{deepest_path, most_slots};
ghost use Rattle.template_tree.specs.Listings.Listing.{Spells};
ghost use Rattle.template_tree.specs.Programs.PlainTree.{Forest};
ghost use Rattle.template_tree.specs.Programs.Slots.{count, depth};
ghost use Rattle.template_tree.specs.Programs.Tree.{IsTree};
ghost use Rattle.file_store.specs.declared.refusal.FileRefusal.{FileRefusal};
ghost use Rattle.file_store.specs.FileReading.{HasContent, HasNoContent, Holds, IsFileRefused, LoadingSays, LoadsOnly, OnlyReads, RefusesLoad};
ghost use Rattle.file_store.specs.Limit.{longest_input};
ghost use Rattle.file_store.specs.Loaded.{Refused};
ghost use Rattle.file_store.specs.Private.FilePart.{IsChunk, IsPartRead};

use crate::limit::{LONGEST_INPUT, LONGEST_LISTING};
use crate::line_laws::line_laws;
use crate::reader::read_listing;
use crate::refusal::FileRefusal;
use std::alloc::Global;
use std::vec::Vec;
use synth_outside::Files;
use template_tree::Tree;

/// The tree whose listing the file of the name is; a file that is too long is given up as soon as more
/// bytes came than may.
pub fn load<F: Files>(alloc: Global, name: &[u8], files: &mut F) -> Result<Tree, FileRefusal>
    ensures says { LoadingSays (F.told files.old).stored name.now result }
    // And the other way round, where the map is told: each content has its answer, and so has a name that
    // isn't there, unless a call failed or memory ran out.
    ensures only { (x : List ℕ) (items : Forest) → HasContent (F.told files.old).stored name.now x → Spells items x
        → depth items ≤ deepest_path → count items ≤ most_slots → LoadsOnly result items }
    ensures refused { (x : List ℕ) (refusal : FileRefusal) → HasContent (F.told files.old).stored name.now x
        → Refused x refusal → RefusesLoad result refusal }
    ensures missing { HasNoContent (F.told files.old).stored name.now → RefusesLoad result FileRefusal.NoFile }
    ensures tree { IfOk result IsTree }
    ensures files { OnlyReads result (F.told files.old) (F.told files.new) (F.begun files.old) (F.begun files.new) }
{
    line_laws();
    load_listing(alloc, name, files)
}

/// Loads the file of the name and has its bytes read as a listing.
fn load_listing<F: Files>(alloc: Global, name: &[u8], files: &mut F) -> Result<Tree, FileRefusal>
    ensures says { LoadingSays (F.told files.old).stored name.now result }
    ensures tree { IfOk result IsTree }
    ensures files { OnlyReads result (F.told files.old) (F.told files.new) (F.begun files.old) (F.begun files.new) }
{
    match read_file(alloc, name, files, LONGEST_LISTING) {
        Ok(bytes) => {
            let read = read_listing(alloc, &bytes);
            drop(bytes);
            read
        }
        Err(refusal) => Err(refusal),
    }
}

/// The bytes of a program's input, which is loaded from the file of the name.
pub fn load_input<F: Files>(
    alloc: Global,
    name: &[u8],
    files: &mut F,
) -> Result<Vec<u8>, FileRefusal>
    ensures bytes { IfOk result (λ bytes. Holds (F.told files.old).stored name.now (λ x. x ≡ bytes.items)) }
    ensures within { IfOk result (λ bytes. length bytes.items ≤ longest_input) }
    ensures refused { IfErr result (IsFileRefused longest_input (F.told files.old).stored name.now) }
    ensures files { OnlyReads result (F.told files.old) (F.told files.new) (F.begun files.old) (F.begun files.new) }
{
    read_file(alloc, name, files, LONGEST_INPUT)
}

/// Loads the bytes of the file of the name, if they are no more than so many.
fn read_file<F: Files>(
    alloc: Global,
    name: &[u8],
    files: &mut F,
    most: usize,
) -> Result<Vec<u8>, FileRefusal>
    ensures bytes { IfOk result (λ bytes. Holds (F.told files.old).stored name.now (λ x. x ≡ bytes.items)) }
    ensures within { IfOk result (λ bytes. length bytes.items ≤ most) }
    ensures refused { IfErr result (IsFileRefused most (F.told files.old).stored name.now) }
    ensures files { OnlyReads result (F.told files.old) (F.told files.new) (F.begun files.old) (F.begun files.new) }
{
    files.open_read(name)?;
    let mut bytes = Vec::new(alloc);
    while read_chunk(files, &mut bytes, most)? {}
    Ok(bytes)
}

/// Appends the next bytes of the file that is loaded, if any are left, and says whether there were some.
fn read_chunk<F: Files>(
    files: &mut F,
    bytes: &mut Vec<u8>,
    most: usize,
) -> Result<bool, FileRefusal>
    requires open_file { F.is_open files.old ≡ true }
    requires within { length bytes.old.items ≤ most }
    ensures chunk { IsChunk most (F.left files.old) (F.left files.new) bytes.old.items bytes.new.items result }
    ensures readable { F.is_open files.new ≡ true }
    ensures files { OnlyReads result (F.told files.old) (F.told files.new) (F.begun files.old) (F.begun files.new) }
{
    let mut buf = [0; 1024];
    let count = files.read(&mut buf)?;
    if count == 0 {
        return Ok(false);
    }
    if count > most - bytes.len() {
        return Err(FileRefusal::TooLong);
    }
    bytes.extend_from_slice(&buf[..count])?;
    Ok(true)
}
