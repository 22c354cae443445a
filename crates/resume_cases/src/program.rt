//! The program of a bench: a new one, or one that is read.
ghost use Rattle.template_tree.specs.Programs.Tree.{IsTree};
ghost use Rattle.resume_cases.specs.Private.BenchRun.{IsBench};

use crate::bench::Bench;
use case_script::Told;
use file_store::read_listing;
use std::alloc::{AllocError, Global};
use std::mem;
use template_tree::Tree;

/// Makes the program of the bench a new one, of which no run stands, and tells its slots.
pub(crate) fn begin(bench: &mut Bench, told: &mut Told) -> Option<()>
    requires { IsBench bench.old }
    ensures { IsBench bench.new }
{
    match Tree::new(told.alloc()) {
        Ok(tree) => {
            take(bench, tree);
            tell_slots(bench, told);
            Some(())
        }
        Err(_) => None,
    }
}

/// Reads the lines of text as the program of the bench, and tells its slots, or why it isn't one.
pub(crate) fn read(bench: &mut Bench, text: &[Vec<u8>], told: &mut Told) -> Option<()>
    requires { IsBench bench.old }
    ensures { IsBench bench.new }
{
    match listing_of(told.alloc(), text) {
        Ok(listing) => {
            read_listed(bench, listing.as_slice(), told);
            drop(listing);
            Some(())
        }
        Err(_) => None,
    }
}

/// Reads the listing as the program of the bench, and tells its slots, or why it isn't one.
fn read_listed(bench: &mut Bench, listing: &[u8], told: &mut Told)
    requires { IsBench bench.old }
    ensures { IsBench bench.new }
{
    if let Some(()) = take_listing(bench, listing, told) {
        tell_slots(bench, told);
    }
}

/// Makes the program of the bench that of the listing, of which no run stands, or tells why it isn't one.
pub(crate) fn take_listing(bench: &mut Bench, listing: &[u8], told: &mut Told) -> Option<()>
    requires { IsBench bench.old }
    ensures { IsBench bench.new }
{
    match read_listing(told.alloc(), listing) {
        Ok(tree) => {
            take(bench, tree);
            Some(())
        }
        Err(refusal) => {
            told.value_line(&refusal);
            None
        }
    }
}

/// Makes the tree, a new one or one that is read, the program of the bench, of which no run stands.
fn take(bench: &mut Bench, tree: Tree)
    requires { IsTree tree }
    ensures { IsBench bench.new }
{
    drop(mem::replace(&mut bench.suspended, None));
    drop(mem::replace(&mut bench.tree, tree));
}

/// Tells how many slots the program of the bench has, the new one or the one that was read.
fn tell_slots(bench: &Bench, told: &mut Told)
    requires { IsBench bench.now }
{
    told.value(&bench.tree.slots());
    told.line(" slots");
}

/// The listing from which the program of a bench is read: the lines of text, each with its end.
pub(crate) fn listing_of(alloc: Global, text: &[Vec<u8>]) -> Result<Vec<u8>, AllocError> {
    let mut listing = Vec::new(alloc);
    match put_lines(&mut listing, text) {
        Ok(()) => Ok(listing),
        Err(AllocError) => {
            drop(listing);
            Err(AllocError)
        }
    }
}

/// Puts the lines of text, each with its end, at the end of a listing.
fn put_lines(listing: &mut Vec<u8>, text: &[Vec<u8>]) -> Result<(), AllocError> {
    for line in text {
        listing.extend_from_slice(line.as_slice())?;
        listing.push(b'\n')?;
    }
    Ok(())
}
