//! The laws of the machine, each a function that does nothing and whose contract states it.
ghost use Rattle.plcs_machine.specs.MachineLaws.{CodeBeginsAsTree, CodeStepsAsTree, FittingRunsExec};

use plcs_code::{
    addresses_hold_steps, bodies_begin, entries_are_headings, lengths_are_told, spans_hold_code,
    statements_go_on, steps_have_addresses,
};
use plcs_store::{callers_wait, what_fits_has_a_step};

/// The code of a tree begins a run as the tree does: with main's cells, none of them set, at main's first place.
pub fn code_begins_as_tree()
    ensures { CodeBeginsAsTree }
{
    bodies_begin();
}

/// What fits a tree has a step by the code of the tree, and that is its step by the tree alone: the same next
/// configuration, stop or end.
pub fn code_steps_as_tree()
    ensures defined { FittingRunsExec }
    ensures same { CodeStepsAsTree }
{
    lengths_are_told();
    spans_hold_code();
    statements_go_on();
    bodies_begin();
    steps_have_addresses();
    addresses_hold_steps();
    entries_are_headings();
    callers_wait();
    what_fits_has_a_step();
}
