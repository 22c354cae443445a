//! The laws of the places of runs, each a function that does nothing and whose contract states it.
ghost use Rattle.tree_steps.specs.ListVerdict.{ListMarksFollowItems, ListVerdictsFollowItems};
ghost use Rattle.tree_steps.specs.PlaceLaws.{AgreementKeepsLoops, AgreementKeepsPlaces, AgreementKeepsStarts, OthersBeginThemselves, PlacesIgnoreElision, PlacesIgnoreRoom, RunsBegin, SitesAreOfSubstance, SitesStand, StandingSlotsHaveSites};

use template_tree::checks_ignore_room_and_elision;

/// Where a run begins, goes on and may stand doesn't depend on the room of lists, nor on which comments
/// are elided.
pub fn places_ignore_room_and_elision()
    ensures room { PlacesIgnoreRoom }
    ensures elision { PlacesIgnoreElision }
    ensures substance { SitesAreOfSubstance }
{
    checks_ignore_room_and_elision();
}

/// The site of a slot is of the node that stands there; a run that comes to a node at whose start it has a
/// place begins in the loops and the procedure in which that stands.
pub fn sites_stand()
    ensures found { SitesStand }
    ensures standing { StandingSlotsHaveSites }
    ensures begins { RunsBegin }
    ensures others { OthersBeginThemselves }
{}

/// Trees that agree by their slots have the same loops round them and the same places, as far as the
/// nodes in the slots allow it.
pub fn places_last()
    ensures loops { AgreementKeepsLoops }
    ensures starts { AgreementKeepsStarts }
    ensures places { AgreementKeepsPlaces }
{}

/// What is wrong with the list of variables in a GET, of which each is a point of it, depends on the
/// items of its procedure alone.
pub fn list_marks_follow_items()
    ensures verdict { ListVerdictsFollowItems }
    ensures mark { ListMarksFollowItems }
{}
