//! The law of painting.
ghost use Rattle.screen_window.specs.PaintShows.{PaintShows};

/// A terminal that shows a grid shows another of the same size after the bytes that paint the other
/// over the one.
#[tactic(auto, using(crate::proofs::PaintedTerminal::paint_shows))]
pub fn painted_terminal_shows()
    ensures { PaintShows }
{}
