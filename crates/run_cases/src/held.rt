//! What the script's cases hold from one to the next.
ghost use Rattle.std.specs.Prelude.{IfOk};
ghost use Rattle.template_tree.specs.Programs.Tree.{IsTree};

use crate::output::empty_state;
use plcs_store::RunState;
use std::alloc::{AllocError, Global};
use template_tree::Tree;

/// What is held from case to case on runs.
#[derive(Drop)]
pub(crate) struct Held {
    /// The state of a run, of which the output alone is asked.
    pub(crate) state: RunState,
    /// The program.
    pub(crate) tree: Tree,
    /// The lines of text before the next case.
    pub(crate) text: Vec<Vec<u8>>,
}

impl Held {
    /// What is held before the first case on runs: an empty output, and the new program.
    pub(crate) fn new(alloc: Global) -> Result<Held, AllocError>
        ensures { IfOk result (λ held. IsTree held.tree) }
    {
        let Ok(state) = empty_state(alloc) else {
            return Err(AllocError);
        };
        let Ok(tree) = Tree::new(alloc) else {
            return Err(AllocError);
        };
        Ok(Held {
            state,
            tree,
            text: Vec::new(alloc),
        })
    }
}
