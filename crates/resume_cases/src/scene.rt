//! The scene: a program whose run is made anew, as far as it goes, before each edit of a table.
ghost use Rattle.resume_cases.specs.Private.BenchRun.{IsBench};

use crate::bench::Bench;
use crate::edits::change_all;
use crate::held::Held;
use crate::program::{listing_of, take_listing};
use crate::resumption::resume;
use crate::steps::{run, step_most};
use case_script::{Told, number_of};
use std::alloc::Global;
use std::mem;

/// A program, and how many steps its run makes.
#[derive(Drop)]
pub(crate) struct Scene {
    listing: Vec<u8>,
    steps: u32,
}

impl Scene {
    /// A scene of no program.
    pub(crate) fn new(alloc: Global) -> Scene {
        Scene {
            listing: Vec::new(alloc),
            steps: 0,
        }
    }
}

/// Makes the scene of a table of edits: the program of the lines of text, of whose run this many steps are
/// made. Sets it, and tells where the run stands.
pub(crate) fn keep_scene(held: &mut Held, steps: &[u8], told: &mut Told) -> Option<()>
    requires { IsBench held.old.bench }
    ensures { IsBench held.new.bench }
{
    let steps = number_of(steps)?;
    match listing_of(told.alloc(), held.text.as_slice()) {
        Ok(listing) => {
            drop(mem::replace(&mut held.scene, Scene { listing, steps }));
            set_quietly(held, told)
        }
        Err(_) => None,
    }
}

/// Sets the scene, changes its program as the words say, and tells where its run goes on, or why it may not be
/// resumed.
pub(crate) fn after(held: &mut Held, words: &[Vec<u8>], told: &mut Told) -> Option<()>
    requires { IsBench held.old.bench }
    ensures { IsBench held.new.bench }
{
    let mut stood = Told::new(told.alloc());
    let set = set_quietly(held, &mut stood);
    drop(stood);
    set?;
    change_all(&mut held.bench, &mut held.clips, words, told)?;
    resume(&mut held.bench, told)
}

/// Sets the scene that is held on the bench, and tells where its run stands then, and nothing else.
fn set_quietly(held: &mut Held, told: &mut Told) -> Option<()>
    requires { IsBench held.old.bench }
    ensures { IsBench held.new.bench }
{
    let mut quiet = Told::new(told.alloc());
    let set = set(
        &mut held.bench,
        &held.scene,
        held.input.as_slice(),
        &mut quiet,
        told,
    );
    drop(quiet);
    set
}

/// Sets the scene on the bench: reads its program, begins a run of it, and makes its steps, and tells where the run
/// stands then.
fn set(
    bench: &mut Bench,
    scene: &Scene,
    input: &[u8],
    quiet: &mut Told,
    told: &mut Told,
) -> Option<()>
    requires { IsBench bench.old }
    ensures { IsBench bench.new }
{
    take_listing(bench, scene.listing.as_slice(), quiet)?;
    run(bench, quiet)?;
    step_most(bench, input, scene.steps, told)
}
