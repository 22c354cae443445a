//! What the script's cases hold from one to the next.
ghost use Rattle.std.specs.Prelude.{IfSome};
ghost use Rattle.resume_cases.specs.Private.BenchRun.{IsBench};

use crate::bench::Bench;
use crate::scene::Scene;
use clip_store::Clips;
use std::alloc::Global;
use template_tree::Tree;

/// What is held from case to case on suspended runs.
#[derive(Drop)]
pub(crate) struct Held {
    /// The program with its run.
    pub(crate) bench: Bench,
    /// The scene that is set anew before it is edited.
    pub(crate) scene: Scene,
    /// The nodes that were copied.
    pub(crate) clips: Clips,
    /// The input of runs.
    pub(crate) input: Vec<u8>,
    /// The lines of text before the next case.
    pub(crate) text: Vec<Vec<u8>>,
}

impl Held {
    /// What is held before the first case on suspended runs: the new program, of which no run stands.
    pub(crate) fn new(alloc: Global) -> Option<Held>
        ensures { IfSome result (λ held. IsBench held.bench) }
    {
        match Clips::new(alloc) {
            Ok(clips) => Held::of(alloc, clips),
            Err(_) => None,
        }
    }

    /// What is held before the first case on suspended runs, with these clips.
    fn of(alloc: Global, clips: Clips) -> Option<Held>
        ensures { IfSome result (λ held. IsBench held.bench) }
    {
        match Tree::new(alloc) {
            Ok(tree) => Some(Held {
                bench: Bench {
                    tree,
                    suspended: None,
                },
                scene: Scene::new(alloc),
                clips,
                input: Vec::new(alloc),
                text: Vec::new(alloc),
            }),
            Err(_) => {
                drop(clips);
                None
            }
        }
    }
}
