//! The laws of listings and of loading them, each a function that does nothing and whose contract states it.
ghost use Rattle.file_store.specs.FileReading.{LoadingIgnoresRoom};
ghost use Rattle.file_store.specs.ListingLaws.{ListedLinesAreLines, ListingsAreNotRefused, ListingsAreShort, NodesBeginInLines, OneListing, OneRefusal};

use crate::line_laws::line_laws;
use template_tree::room_is_not_shown;

/// A text is the listing of at most one program, whose slots, elision and room play no part.
pub fn one_listing()
    ensures { OneListing }
{
    line_laws();
}

/// A text is refused for one reason at most, and the listing of a program within the limits for none.
pub fn one_outcome()
    ensures refusal { OneRefusal }
    ensures listing { ListingsAreNotRefused }
{
    line_laws();
}

/// The listing of a program within the limits is no longer than a listing file may be.
#[tactic(auto, using(crate::proofs::ListingLengths::short_listing))]
pub fn listings_are_short()
    ensures { ListingsAreShort }
{}

/// The lines by which refusals are stated are those of the listing, and as many nodes begin in them as
/// there are.
#[tactic(auto, using(crate::proofs::ListedLines::program_lines, crate::proofs::ReadListings::program_opened))]
pub fn listed_lines_are_lines()
    ensures lines { ListedLinesAreLines }
    ensures opened { NodesBeginInLines }
{}

/// What a file is loaded as may be taken without its room.
pub fn loading_ignores_room()
    ensures { LoadingIgnoresRoom }
{
    room_is_not_shown();
}
