//! Cases that make a tree, hide and show refinements, note where slots stand, and compare a tree with one before.
ghost use Rattle.std.specs.Prelude.{IfOk, IfSome};
ghost use Rattle.template_tree.specs.Programs.Tree.{IsTree};

use crate::node_calls::tell_tree;
use crate::words::find;
use case_script::Told;
use clip_store::Clips;
use file_store::{FileRefusal, read_listing};
use std::alloc::Global;
use std::mem;
use template_tree::Tree;

/// The tree that a case makes, the nodes that are held beside it, and what a tree showed before.
#[derive(Drop)]
pub(crate) struct Trees {
    pub(crate) tree: Tree,
    pub(crate) held: Clips,
    pub(crate) kept: Told,
}

impl Trees {
    /// What cases that make a tree begin with: a new one, with no nodes held and none kept to compare it with.
    pub(crate) fn new(alloc: Global) -> Option<Trees>
        ensures { IfSome result (λ trees. IsTree trees.tree) }
    {
        match Clips::new(alloc) {
            Ok(held) => match new_tree(alloc) {
                Some(tree) => Some(Trees {
                    tree,
                    held,
                    kept: Told::new(alloc),
                }),
                None => {
                    drop(held);
                    None
                }
            },
            Err(_) => None,
        }
    }
}

/// The new tree that a case makes.
fn new_tree(alloc: Global) -> Option<Tree>
    ensures { IfSome result IsTree }
{
    Tree::new(alloc).ok()
}

/// A call of a case that makes a tree, hides or shows a refinement, notes slots, or compares a tree with one before.
#[derive(Clone, Copy)]
pub(crate) enum TreeCall {
    /// `new`: a new tree, with no nodes held.
    New,
    /// `read_listing`: the tree of the listing in the lines of text, or in a word.
    ReadListing,
    /// `keep`: keeps what the tree shows.
    Keep,
    /// `same`: tells whether it shows that again.
    Same,
    /// `elide AT`: hides the refinement of a comment, or shows it again.
    Elide,
    /// `enter_slots`: notes where all slots stand.
    EnterSlots,
}

/// Plays a case that makes a tree, hides or shows a refinement, notes slots, or compares a tree with one before.
pub(crate) fn play(
    alloc: Global,
    trees: &mut Trees,
    call: TreeCall,
    words: &[Vec<u8>],
    text: &[u8],
    told: &mut Told,
) -> Option<()>
    requires { IsTree trees.old.tree }
    ensures { IsTree trees.new.tree }
{
    match (call, words) {
        (TreeCall::New, []) => make_new(alloc, trees, told),
        (TreeCall::ReadListing, []) => read(alloc, &mut trees.tree, text, told),
        (TreeCall::ReadListing, [text]) => read(alloc, &mut trees.tree, text, told),
        (TreeCall::Keep, []) => keep(trees, told),
        (TreeCall::Same, []) => compare(trees, told),
        (TreeCall::Elide, [at]) => elide(&mut trees.tree, at, told),
        (TreeCall::EnterSlots, []) => enter_slots(alloc, &mut trees.tree, told),
        _ => None,
    }
}

/// Makes a new tree and lets go of the nodes that are held.
fn make_new(alloc: Global, trees: &mut Trees, told: &mut Told) -> Option<()>
    requires { IsTree trees.old.tree }
    ensures { IsTree trees.new.tree }
{
    match Clips::new(alloc) {
        Ok(held) => drop(mem::replace(&mut trees.held, held)),
        Err(_) => return None,
    }
    match new_tree(alloc) {
        Some(tree) => {
            drop(mem::replace(&mut trees.tree, tree));
            told.line("Done");
            Some(())
        }
        None => None,
    }
}

/// Makes the tree of the cases that of the listing, unless it is refused.
fn read(alloc: Global, tree: &mut Tree, text: &[u8], told: &mut Told) -> Option<()>
    requires { IsTree tree.old }
    ensures { IsTree tree.new }
{
    match tree_of(alloc, text) {
        Ok(read) => {
            drop(mem::replace(tree, read));
            told.line("Done");
        }
        Err(refusal) => told.value_line(&refusal),
    }
    Some(())
}

/// The tree that a case makes, read from its listing.
pub(crate) fn tree_of(alloc: Global, text: &[u8]) -> Result<Tree, FileRefusal>
    ensures { IfOk result IsTree }
{
    read_listing(alloc, text)
}

/// Keeps what the tree shows, so that another one is compared with it.
fn keep(trees: &mut Trees, told: &mut Told) -> Option<()>
    requires { IsTree trees.old.tree }
    ensures { IsTree trees.new.tree }
{
    trees.kept.clear();
    tell_tree(&trees.tree, &mut trees.kept);
    told.line("Done");
    Some(())
}

/// Tells whether the tree shows what was kept.
fn compare(trees: &Trees, told: &mut Told) -> Option<()>
    requires { IsTree trees.now.tree }
{
    let mut now = Told::new(told.alloc());
    tell_tree(&trees.tree, &mut now);
    told.value_line(&now.is_same(&trees.kept));
    drop(now);
    Some(())
}

/// Hides the refinement of the comment there in the tree of the cases, or shows it again, and tells whether it is
/// hidden now.
fn elide(tree: &mut Tree, at: &[u8], told: &mut Told) -> Option<()>
    requires { IsTree tree.old }
    ensures { IsTree tree.new }
{
    let at = find(tree, at)?;
    told.value_line(&tree.elide(&at));
    Some(())
}

/// Notes where all slots of the tree of the cases stand, where the tree has no places yet for so many.
fn enter_slots(alloc: Global, tree: &mut Tree, told: &mut Told) -> Option<()>
    requires { IsTree tree.old }
    ensures { IsTree tree.new }
{
    match tree.enter_slots(alloc) {
        Ok(()) => told.line("Done"),
        Err(fault) => told.value_line(&fault),
    }
    Some(())
}
