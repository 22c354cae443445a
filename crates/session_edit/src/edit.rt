//! Edits at the stop of the cursor.

use clip_store::Fragment;
use plcs_grammar::{Phrase, Template};
use template_tree::Side;

/// An edit at the stop of the cursor.
#[derive(Drop)]
pub enum Edit {
    /// The hole at the cursor becomes the template.
    Fill(Template),
    /// Phrase text is entered: an assignment at a statement hole or an assignment, or a part.
    Enter(Phrase),
    /// The fragment comes into the hole at the cursor, or into the empty part.
    Insert(Fragment),
    /// The node or the phrase at the cursor is taken out, or the hole is dropped from its list.
    Delete,
    /// The node or the phrase at the cursor is taken out.
    Take,
    /// A hole comes on this side of the nearest list item that stands round the cursor.
    Beside(Side),
}
