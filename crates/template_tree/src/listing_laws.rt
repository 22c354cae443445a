//! The law of listings, a function that does nothing and whose contract states it.
ghost use Rattle.template_tree.specs.Listings.Listing.{ListingSplitsInLines};

use plcs_grammar::canonical_texts_show;

/// The listing of a tree, split at each byte 10, is the lines of its program.
pub fn listing_splits_in_lines()
    ensures { ListingSplitsInLines }
{
    canonical_texts_show();
}
