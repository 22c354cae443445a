//! Programs that are read, and edits of them.
ghost use Rattle.template_tree.specs.Programs.Tree.{IsTree};
ghost use Rattle.unparse_layout.specs.Agreement.{IsLayoutOf};

use crate::lines::same_lines;
use crate::words::number_at;
use case_script::{Told, number_of};
use file_store::read_listing;
use plcs_base::{Counts, OutOfMemory, Slot};
use std::alloc::{AllocError, Global};
use std::mem;
use template_tree::{Path, Tree};
use unparse_layout::Layout;

/// Reads the lines as the program from which cases derive what they tell, in place of the one that was read
/// before.
pub fn read_program(alloc: Global, tree: &mut Tree, text: &[Vec<u8>], told: &mut Told) -> Option<()>
    requires { IsTree tree.old }
    ensures { IsTree tree.new }
{
    match listing_of(alloc, text) {
        Ok(listing) => {
            take_listing(alloc, tree, listing.as_slice(), told);
            drop(listing);
            Some(())
        }
        Err(AllocError) => None,
    }
}

/// The lines that are read as the program from which cases derive what they tell, as one text, each with its
/// end.
fn listing_of(alloc: Global, text: &[Vec<u8>]) -> Result<Vec<u8>, AllocError> {
    let mut listing = Vec::new(alloc);
    for line in text {
        listing.extend_from_slice(line.as_slice())?;
        listing.push(b'\n')?;
    }
    Ok(listing)
}

/// Reads the listing as the program that cases edit and from which they derive what they tell, unless it is
/// refused.
fn take_listing(alloc: Global, tree: &mut Tree, listing: &[u8], told: &mut Told)
    requires { IsTree tree.old }
    ensures { IsTree tree.new }
{
    match read_listing(alloc, listing) {
        Ok(read) => {
            drop(mem::replace(tree, read));
            told.value(&tree.slots());
            told.text(" slots");
        }
        Err(refusal) => told.value(&refusal),
    }
}

/// Edits the program that was read, from which cases derive what they tell: takes the node in the slot out.
pub fn take(alloc: Global, tree: &mut Tree, words: &[Vec<u8>], told: &mut Told) -> Option<()>
    requires { IsTree tree.old }
    ensures { IsTree tree.new }
{
    let path = path_to(tree, number_at(words, 0)?);
    match tree.take(alloc, &path) {
        Ok(taken) => {
            drop(taken);
            told.text("taken");
        }
        Err(fault) => told.value(&fault),
    }
    Some(())
}

/// The path in the program that was read, from which cases derive what they tell, to the node in the slot, or
/// one that leads nowhere where the slot isn't live.
pub fn path_to(tree: &Tree, slot: u32) -> Path
    requires { IsTree tree.now }
{
    tree.path_of(Slot(slot)).unwrap_or(Path::new())
}

/// Edits the program: turns the comments in these slots one after the other, and mends one layout each time.
pub fn elide(alloc: Global, tree: &mut Tree, words: &[Vec<u8>], told: &mut Told) -> Option<()>
    requires { IsTree tree.old }
    ensures { IsTree tree.new }
{
    match Layout::new(alloc, tree) {
        Ok(mut layout) => {
            let done = turn_each(alloc, &mut layout, tree, words, told);
            drop(layout);
            done
        }
        Err(OutOfMemory) => None,
    }
}

/// Edits a program that was read: turns the comments in these slots, and mends this layout.
fn turn_each(
    alloc: Global,
    layout: &mut Layout<Counts>,
    tree: &mut Tree,
    words: &[Vec<u8>],
    told: &mut Told,
) -> Option<()>
    requires tree { IsTree tree.old }
    requires agrees { IsLayoutOf layout.old tree.old }
    ensures { IsTree tree.new }
{
    for word in words {
        tell_turned(alloc, layout, tree, number_of(word.as_slice())?, told)?;
    }
    Some(())
}

/// Turns the comment in the slot of the program and mends the layout, and tells whether the refinement is hidden now,
/// how many lines there are, and whether a layout that is made anew has the same.
fn tell_turned(
    alloc: Global,
    layout: &mut Layout<Counts>,
    tree: &mut Tree,
    slot: u32,
    told: &mut Told,
) -> Option<()>
    requires tree { IsTree tree.old }
    requires agrees { IsLayoutOf layout.old tree.old }
    ensures tree { IsTree tree.new }
    ensures agrees { IsLayoutOf layout.new tree.new }
{
    let hidden = turn(layout, tree, slot);
    told.value(&hidden);
    told.text(", ");
    told.value(&layout.lines());
    told.text(" lines, same as made anew: ");
    told.value_line(&same_lines(alloc, layout, tree)?);
    Some(())
}

/// Turns the comment in the slot of the program, mends the layout, and tells whether the refinement is hidden now.
fn turn(layout: &mut Layout<Counts>, tree: &mut Tree, slot: u32) -> Option<bool>
    requires tree { IsTree tree.old }
    requires agrees { IsLayoutOf layout.old tree.old }
    ensures tree { IsTree tree.new }
    ensures agrees { IsLayoutOf layout.new tree.new }
{
    let path = path_to(tree, slot);
    let hidden = tree.elide(&path);
    layout.elided(tree, &path);
    hidden
}
