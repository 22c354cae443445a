//! The keys of a session.

/// A key of a session: what a person presses.
#[derive(Clone, Copy, Debug, PartialEq, Eq)]
pub enum Key {
    /// A printable byte, from 32 to 126.
    Char(u8),
    /// Carries out what was typed.
    Enter,
    /// Takes back the last byte typed.
    Erase,
    /// Takes back all that was typed.
    Clear,
    /// Takes the phrase at the cursor into the typed line.
    Tab,
    /// Moves to an earlier line.
    Up,
    /// Moves to a later line.
    Down,
    /// Moves to the stop before.
    Left,
    /// Moves to the next stop.
    Right,
    /// Any other key.
    Other,
}
