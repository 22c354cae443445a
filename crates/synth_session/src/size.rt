//! The size of a screen.

ghost use Rattle.std.specs.Prelude.{◌≡◌, ◌≤◌};
ghost use Rattle.screen_window.specs.declared.limit.TheConstants.{FEWEST_COLS, FEWEST_ROWS, MOST_COLS, MOST_ROWS};
ghost use Rattle.synth_session.specs.PlainScreenSize.{IsScreenSize};

use std::marker::Model;

/// The size of a screen, within its bounds.
#[derive(Clone, Copy, Debug)]
pub struct ScreenSize {
    rows: u16,
    cols: u16,
}

impl Model for ScreenSize {
    ghost use Rattle.synth_session.specs.PlainScreenSize.{PlainScreenSize, IsScreenSize};

    ghost Value = { PlainScreenSize };

    ghost view = { λ size. record { rows = size.rows; cols = size.cols } };

    ghost invariant = { λ size. IsScreenSize (record { rows = size.rows; cols = size.cols }) };

    ghost inverse = { λ extent. record { rows = extent.rows; cols = extent.cols } };
}

impl ScreenSize {
    /// The size of a screen with that many rows and columns.
    pub fn new(rows: u16, cols: u16) -> Self
        requires { IsScreenSize (record { rows = rows; cols = cols }) }
        ensures { result ≡ record { rows = rows; cols = cols } }
    {
        ScreenSize { rows, cols }
    }

    /// The number of rows of a screen of this size.
    pub fn rows(self) -> u16
        ensures value { result ≡ self.rows }
        ensures least { FEWEST_ROWS ≤ result }
        ensures most { result ≤ MOST_ROWS }
    {
        self.rows
    }

    /// The number of columns of a screen of this size.
    pub fn cols(self) -> u16
        ensures value { result ≡ self.cols }
        ensures least { FEWEST_COLS ≤ result }
        ensures most { result ≤ MOST_COLS }
    {
        self.cols
    }
}
