//! The laws of the room of lists, which plays no part in what a tree shows and what edits make of it; each a function
//! that does nothing and whose contract states it.
ghost use Rattle.template_tree.specs.Laws.RoomLaws.{ChangesIgnoreRoom, CountsIgnoreRoom, DepthsIgnoreRoom, EditsIgnoreRoom, HidingIgnoresRoom, LinesIgnoreRoom, ListingIgnoresRoom, NodesIgnoreRoom, RoomGoesOnce, SlotsIgnoreRoom, StandingIgnoresRoom, StopsIgnoreRoom, TreesIgnoreRoom, TogglesIgnoreRoom, VisibleNodesIgnoreRoom};

/// The room of lists plays no part in what is a tree, in what stands at a path, in what is shown, and
/// in where the cursor may stand.
pub fn room_is_not_shown()
    ensures once { RoomGoesOnce }
    ensures trees { TreesIgnoreRoom }
    ensures counts { CountsIgnoreRoom }
    ensures nodes { NodesIgnoreRoom }
    ensures slots { SlotsIgnoreRoom }
    ensures visible { VisibleNodesIgnoreRoom }
    ensures standing { StandingIgnoresRoom }
    ensures stops { StopsIgnoreRoom }
    ensures lines { LinesIgnoreRoom }
    ensures listing { ListingIgnoresRoom }
    ensures turns { TogglesIgnoreRoom }
    ensures hiding { HidingIgnoresRoom }
{}

/// The room of lists plays no part in what edits make of trees, in how trees differ by them, and in how
/// deep trees are.
pub fn edits_ignore_room()
    ensures edits { EditsIgnoreRoom }
    ensures changes { ChangesIgnoreRoom }
    ensures depths { DepthsIgnoreRoom }
{}
