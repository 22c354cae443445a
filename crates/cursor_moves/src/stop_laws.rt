//! The laws of stops, each a function that does nothing and whose contract states it.
ghost use Rattle.cursor_moves.specs.StopLaws.{StopsAreDistinct, StopsAreListed, StopsRise};

/// The cursor may stand at a stop exactly where that is one of the listed visible stops.
pub fn stops_are_listed()
    ensures { StopsAreListed }
{}

/// No visible stop is listed twice.
pub fn stops_are_distinct()
    ensures { StopsAreDistinct }
{}

/// Of two listed stops the later one is at the same node and on the same line, or else on a later line.
pub fn stops_rise()
    ensures { StopsRise }
{}
