//! What is shown on a screen.

use plcs_base::{Place, Work};
use template_tree::{Stop, Tree};
use unparse_layout::Layout;

/// A view: what is shown on a screen. A byte outside 32 to 126 is shown as a blank, but that each byte 10
/// splits the output in lines.
#[derive(Drop)]
pub struct View<'a, W, M> {
    /// The program.
    pub tree: &'a Tree,
    /// Its layout.
    pub layout: &'a Layout<W>,
    /// The marks of its phrases.
    pub marks: &'a M,
    /// Where the cursor stands.
    pub stop: &'a Stop,
    /// The number of the line in the window's first row, counted from 0.
    pub top: u32,
    /// The place of a run that stands and isn't ended.
    pub run_place: Option<Place>,
    /// The output of the run.
    pub output: &'a [u8],
    /// The message.
    pub message: &'a [u8],
    /// The prompt with its `> `.
    pub prompt: &'a [u8],
    /// The typed line.
    pub typed: &'a [u8],
    /// The rows of code, where they are shown in place of the program.
    pub code: Option<&'a [Vec<u8>]>,
}
