//! The line of a listing at which a run stands.
ghost use Rattle.std.specs.Prelude.{◌≡◌, ◌<◌};
ghost use Rattle.plcs_store.specs.Configuration.{plain_configuration, plain_place};
ghost use Rattle.template_tree.specs.Programs.Tree.{IsTree};
ghost use Rattle.program_run.specs.StoppedLine.{line_at_place, line_numbered, line_of_run, line_told};

use crate::ending::Ending;
use crate::line_cut::cut_line;
use crate::line_search::lines_to_place;
use arrayvec::ArrayVec;
use plcs_base::Place;
use plcs_store::RunState;
use std::marker::Model;
use template_tree::Tree;

/// How many bytes of the line are shown at which a run stands.
pub const LONGEST_SHOWN: usize = 200;

/// A line of a listing at which a run stands.
#[derive(Debug, Drop)]
pub struct StoppedLine {
    number: u32,
    text: ArrayVec<u8, LONGEST_SHOWN>,
}

impl Model for StoppedLine {
    ghost use Rattle.program_run.specs.StoppedLine.{PlainStoppedLine};

    ghost Value = { PlainStoppedLine };

    ghost view = { λ line. record { number = line.number; text = line.text.items } };
}

impl StoppedLine {
    /// The number of the line at which the run stands, from 1.
    pub fn number(&self) -> u32
        ensures { result ≡ self.now.number }
    {
        self.number
    }

    /// The bytes of the line at which the run stands, or the first 200 of them.
    pub fn as_bytes(&self) -> &[u8]
        ensures { result.now ≡ self.now.text }
    {
        self.text.as_slice()
    }
}

/// The line that is told of a run of the tree, by how it ended.
pub(crate) fn line_told(tree: &Tree, ending: Ending, state: &RunState) -> Option<StoppedLine>
    requires { IsTree tree.now }
    ensures { result ≡ line_told ending tree.now.items (plain_configuration state.now) }
{
    match ending {
        Ending::Stopped(_) | Ending::StepsMade => line_of_run(tree, state),
        _ => None,
    }
}

/// The line of the tree's listing at which the newest frame of a run stands.
fn line_of_run(tree: &Tree, state: &RunState) -> Option<StoppedLine>
    requires { IsTree tree.now }
    ensures { result ≡ line_of_run tree.now.items (plain_configuration state.now) }
{
    match state.frames.place() {
        Some(place) => line_at_place(tree, place),
        None => None,
    }
}

/// The line of the tree's listing at which a run stands at this place, if its slot is there.
fn line_at_place(tree: &Tree, place: Place) -> Option<StoppedLine>
    requires { IsTree tree.now }
    ensures { result ≡ line_at_place tree.now.items (plain_place place) }
{
    match lines_to_place(tree, place) {
        Some(count) => line_numbered(tree, count),
        None => None,
    }
}

/// The line of this number of the tree's listing, counted from 0.
fn line_numbered(tree: &Tree, count: u32) -> Option<StoppedLine>
    requires tree { IsTree tree.now }
    requires few { count < 4294967295 }
    ensures { result ≡ line_numbered tree.now.items count }
{
    let text = cut_line(tree, count)?;
    Some(StoppedLine {
        number: count + 1,
        text,
    })
}
