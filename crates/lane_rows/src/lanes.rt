//! How many elements are loaded as the lanes of one vector, and the first lane that is set in a mask.
ghost use Rattle.std.specs.Prelude.{◌≡◌};
ghost use Rattle.lane_rows.specs.Private.LaneRun.{first_set};

/// How many elements of a row are loaded at once, as the lanes of a vector.
pub(crate) const LANES: usize = 32;

/// The first lane that is set in the mask of a vector, or the number of lanes where none is.
pub(crate) fn first_set(mask: u64) -> usize
    ensures { result ≡ first_set mask }
{
    if mask == 0 {
        LANES
    } else {
        mask.trailing_zeros() as usize
    }
}
