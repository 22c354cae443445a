//! The names of cases.

use crate::declarations::Question;

/// A case on what is derived from a program, by its name, without the words behind that.
#[derive(Clone, Copy)]
pub enum Case {
    /// Reads a program from the lines of text.
    Program,
    /// Takes a node out of the program.
    Take,
    /// Hides refinements of comments, or shows them.
    Elide,
    /// Edits the program, and mends its layout.
    Mend,
    /// Edits the program, and checks again what is due.
    Recheck,
    /// Tries a phrase in a part that is empty before and behind.
    Check,
    /// Marks a phrase by hand, or none.
    Mark,
    /// Asks the table of declarations.
    About(Question),
    /// Shows the marks of all phrases.
    Marks,
    /// Lays lines.
    Lines,
    /// Shows the line of each visible stop.
    Stops,
    /// Draws a view on a grid.
    Grid,
    /// Paints what the last two grids differ in.
    Paint,
    /// Paints random grids one over the other.
    Paintings,
    /// Has a terminal take bytes.
    Terminal,
    /// Edits random lists of numbers.
    Sums,
    /// Says where nodes stand.
    Homes,
}

/// The cases on what is derived from a program, with their names.
pub static CASES: [(&[u8], Case); 21] = [
    (b"program", Case::Program),
    (b"take", Case::Take),
    (b"elide", Case::Elide),
    (b"mend", Case::Mend),
    (b"recheck", Case::Recheck),
    (b"check", Case::Check),
    (b"mark", Case::Mark),
    (b"declared", Case::About(Question::Declared)),
    (b"type_of", Case::About(Question::TypeOf)),
    (b"signature", Case::About(Question::Signature)),
    (b"parameter", Case::About(Question::Parameter)),
    (b"uses", Case::About(Question::Uses)),
    (b"marks", Case::Marks),
    (b"lines", Case::Lines),
    (b"stops", Case::Stops),
    (b"grid", Case::Grid),
    (b"paint", Case::Paint),
    (b"paintings", Case::Paintings),
    (b"terminal", Case::Terminal),
    (b"sums", Case::Sums),
    (b"homes", Case::Homes),
];
