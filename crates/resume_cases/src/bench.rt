//! A program with its run.

use crate::suspended::Suspended;
use template_tree::Tree;

/// A program, and the run of it that stands, if one does.
#[derive(Drop)]
pub(crate) struct Bench {
    /// The program.
    pub(crate) tree: Tree,
    /// The run.
    pub(crate) suspended: Option<Suspended>,
}
