//! The laws of runs in programs that are alike, and of what is kept for them, each a function that does nothing and
//! whose contract states it.
ghost use Rattle.plcs_store.specs.RunsAlike.{KeptIsOne, RunsIgnoreElision, RunsIgnoreRoom, SubstanceKeepsAlike};

use template_tree::checks_ignore_room_and_elision;
use tree_steps::{edits_follow, places_ignore_room_and_elision};

/// Runs are alike in a program and in it without room, and in it with a comment turned. What is kept for a run is
/// the same in all programs of one substance.
pub fn runs_ignore_room_and_elision()
    ensures room { RunsIgnoreRoom }
    ensures elision { RunsIgnoreElision }
    ensures kept { SubstanceKeepsAlike }
{
    checks_ignore_room_and_elision();
    places_ignore_room_and_elision();
    edits_follow();
}

/// What is kept of a program for a run is told by the program and the run.
pub fn kept_is_one()
    ensures { KeptIsOne }
{}
