//! What the script's cases hold from one to the next.
ghost use Rattle.std.specs.Prelude.{IfOk};
ghost use Rattle.template_tree.specs.Programs.Tree.{IsTree};

use crate::screens::Screens;
use crate::words::phrase_at;
use case_script::Told;
use plcs_base::{OutOfMemory, PhraseAt};
use std::alloc::{AllocError, Global};
use template_tree::Tree;

/// What the cases on a program hold from one to the next.
#[derive(Drop)]
pub struct Held {
    /// The program.
    pub tree: Tree,
    /// The lines of text before the next case.
    pub text: Vec<Vec<u8>>,
    /// The one marked phrase, or `None` where the marks are those of the program.
    pub marked: Option<PhraseAt>,
    /// The last two grids.
    pub screens: Screens,
}

impl Held {
    /// What is held before the first case: the new program, and blank grids.
    pub fn new(alloc: Global) -> Result<Held, AllocError>
        ensures { IfOk result (λ held. IsTree held.tree) }
    {
        let Ok(screens) = Screens::new(alloc) else {
            return Err(AllocError);
        };
        match Tree::new(alloc) {
            Ok(tree) => Ok(Held {
                tree,
                text: Vec::new(alloc),
                marked: None,
                screens,
            }),
            Err(OutOfMemory) => {
                drop(screens);
                Err(AllocError)
            }
        }
    }

    /// Puts into what the script's cases hold the one phrase that is marked, in the slot and the part that are
    /// named, or none where nothing is named.
    pub fn mark(&mut self, words: &[Vec<u8>], told: &mut Told) -> Option<()>
        requires { IsTree self.old.tree }
        ensures { IsTree self.new.tree }
    {
        self.marked = phrase_at(words);
        told.value(&self.marked);
        Some(())
    }
}
