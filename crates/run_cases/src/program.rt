//! The program whose code is asked.
ghost use Rattle.template_tree.specs.Programs.Tree.{IsTree};

use case_script::{Told, number_of};
use file_store::read_listing;
use plcs_base::Slot;
use std::alloc::{AllocError, Global};
use template_tree::{Path, Tree};

/// Reads the lines of text as the program whose code is asked, in place of the one before.
pub(crate) fn read(tree: &mut Tree, text: &[Vec<u8>], told: &mut Told) -> Option<()>
    requires { IsTree tree.old }
    ensures { IsTree tree.new }
{
    let listing = listing_of(told.alloc(), text).ok()?;
    take_listing(tree, listing.as_slice(), told);
    Some(())
}

/// The listing of the program whose code is asked: the lines of text, each with its end.
fn listing_of(alloc: Global, text: &[Vec<u8>]) -> Result<Vec<u8>, AllocError> {
    let mut listing = Vec::new(alloc);
    for line in text {
        listing.extend_from_slice(line.as_slice())?;
        listing.push(b'\n')?;
    }
    Ok(listing)
}

/// Makes the program whose code is asked that of the listing, unless it is refused.
fn take_listing(tree: &mut Tree, listing: &[u8], told: &mut Told)
    requires { IsTree tree.old }
    ensures { IsTree tree.new }
{
    match read_listing(told.alloc(), listing) {
        Ok(read) => {
            *tree = read;
            told.value(&tree.slots());
            told.line(" slots");
        }
        Err(refusal) => told.value_line(&refusal),
    }
}

/// Hides the refinement of the comment in the slot of the program whose code is asked, or shows it again, and
/// tells which.
pub(crate) fn elide(tree: &mut Tree, slot: &[u8], told: &mut Told) -> Option<()>
    requires { IsTree tree.old }
    ensures { IsTree tree.new }
{
    let slot = Slot(number_of(slot)?);
    let path = tree.path_of(slot).unwrap_or(Path::new());
    told.value_line(&tree.elide(&path));
    Some(())
}
