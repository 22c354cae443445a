//! Where the window begins, so that a line is seen in it.
ghost use Rattle.std.specs.Prelude.{◌≡◌, ◌+◌, ◌≤◌, ◌<◌, ◌^◌, ◌*◌};
ghost use Rattle.template_tree.specs.Programs.Limit.{most_slots};
ghost use Rattle.synth_session.specs.Window.{top_showing};

/// The number of the first line of a window of so many rows that shows this line, where it began at `top`.
#[tactic(auto, unfolding(crate::specs::Window::top_showing))]
pub(crate) fn top_showing(rows: u16, top: u32, line: u32) -> u32
    requires rows { 1 ≤ rows }
    requires top { top ≤ 4 * most_slots }
    requires line { line ≤ 4 * most_slots }
    ensures value { result ≡ top_showing rows top line }
    ensures small { result ≤ 4 * most_slots }
    ensures from { result ≤ line }
    ensures to { line < result + rows }
{
    let rows = u32::from(rows);
    if line < top {
        line
    } else if top + rows <= line {
        line + 1 - rows
    } else {
        top
    }
}
