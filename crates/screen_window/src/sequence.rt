//! Control sequences that a terminal takes byte by byte.

ghost use Rattle.std.specs.Prelude.{◌≡◌, ◌≤◌, ◌+◌, ◌*◌};
ghost use Rattle.screen_window.specs.Terminal.{longer, with_digit, with_separator};

/// What a terminal has taken of a control sequence.
#[derive(Clone, Copy)]
pub enum Sequence {
    /// Nothing: no sequence has begun.
    Absent,
    /// ESC, with which a sequence begins.
    Escape,
    /// `ESC [`, and these bytes behind it.
    Behind(Gathered),
}

/// Digits and `;` of a control sequence that were gathered behind `ESC [`. A number past 9999 counts as 9999.
#[derive(Clone, Copy)]
pub enum Gathered {
    /// No byte.
    Nothing,
    /// One digit.
    Digit(u16),
    /// A number of two or more digits.
    Number(u16),
    /// A number and `;`.
    Row(u16),
    /// Two numbers with `;` in between.
    Position(u16, u16),
    /// Something else.
    Other,
}

impl Gathered {
    /// What was gathered of a sequence, with one more digit of this value.
    pub fn with_digit(self, digit: u16) -> Self
        requires { digit ≤ 9 }
        ensures { result ≡ with_digit self digit }
    {
        match self {
            Gathered::Nothing => Gathered::Digit(digit),
            Gathered::Digit(value) | Gathered::Number(value) => {
                Gathered::Number(longer(value, digit))
            }
            Gathered::Row(row) => Gathered::Position(row, digit),
            Gathered::Position(row, col) => Gathered::Position(row, longer(col, digit)),
            Gathered::Other => Gathered::Other,
        }
    }

    /// What was gathered of a sequence, with a `;` more.
    pub fn with_separator(self) -> Self
        ensures { result ≡ with_separator self }
    {
        match self {
            Gathered::Digit(value) | Gathered::Number(value) => Gathered::Row(value),
            Gathered::Nothing | Gathered::Row(_) | Gathered::Position(_, _) | Gathered::Other => {
                Gathered::Other
            }
        }
    }
}

/// A number in a sequence with one more digit; past 9999 it counts as 9999.
fn longer(value: u16, digit: u16) -> u16
    requires { digit ≤ 9 }
    ensures { result ≡ longer value digit }
{
    value.saturating_mul(10).saturating_add(digit).min(9999)
}
