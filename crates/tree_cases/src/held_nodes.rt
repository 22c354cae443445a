//! Cases of nodes that are held beside the tree: taken out, copied, looked at, and put in again.
ghost use Rattle.std.specs.Prelude.{◌≤◌, IfOk, IfSome};
ghost use Rattle.clip_store.specs.ClipLimit.{IsClip};
ghost use Rattle.clip_store.specs.PlainFragment.{IsFragment, plain_fragment, slots_of};
ghost use Rattle.template_tree.specs.Programs.Program.{IsSubtree};
ghost use Rattle.template_tree.specs.Programs.Tree.{IsTree};

use crate::edit::tell_back;
use crate::edit_calls::tell_answer;
use crate::tell::{tell_change, tell_node};
use crate::tree_calls::Trees;
use crate::words::{find, path};
use case_script::{Told, number_of};
use clip_store::{Clips, Fragment};
use plcs_base::{ByteOut, Name};
use std::alloc::Global;
use template_tree::{Change, Node, Path, Tree, TreeFault};

/// Which case of nodes that are held beside the tree is played: taken out, copied, looked at, or put in again.
#[derive(Clone, Copy)]
pub(crate) enum HeldCall {
    /// `take_as AT NAME`: takes the node out and holds it.
    TakeAs,
    /// `copy_node AT NAME`: holds a copy of it.
    CopyNode,
    /// `copy NAME OTHER`: holds a copy of a held node.
    Copy,
    /// `insert AT NAME`: puts a copy of a held node in.
    Insert,
    /// `held NAME PATH`: tells what stands at the path below a held node.
    Held,
    /// `retake TIMES AT`: takes the node out and puts it in again, so many times.
    Retake,
}

/// Plays a case of nodes that are held, which has two words behind the first.
pub(crate) fn play(
    alloc: Global,
    trees: &mut Trees,
    call: HeldCall,
    words: &[Vec<u8>],
    told: &mut Told,
) -> Option<()>
    requires { IsTree trees.old.tree }
    ensures { IsTree trees.new.tree }
{
    let [first, second] = words else {
        return None;
    };
    match call {
        HeldCall::TakeAs => take_as(alloc, trees, first, second, told),
        HeldCall::CopyNode => copy_node(alloc, trees, first, second, told),
        HeldCall::Copy => copy(alloc, &mut trees.held, first, second, told),
        HeldCall::Insert => insert_at(alloc, trees, first, second, told),
        HeldCall::Held => tell_held(&trees.held, first, second, told),
        HeldCall::Retake => retake(alloc, &mut trees.tree, first, second, told),
    }
}

/// Takes the node at the path out and holds it under the name.
fn take_as(alloc: Global, trees: &mut Trees, at: &[u8], name: &[u8], told: &mut Told) -> Option<()>
    requires { IsTree trees.old.tree }
    ensures { IsTree trees.new.tree }
{
    let name = Name::read(name)?;
    let at = find(&trees.tree, at)?;
    match taken(alloc, &mut trees.tree, &at) {
        Ok((node, change)) => {
            tell_change(change, told);
            told.put(b'\n');
            hold(&mut trees.held, name, node, told);
        }
        Err(fault) => told.value_line(&fault),
    }
    Some(())
}

/// Takes the node at the path out, to be held.
fn taken(alloc: Global, tree: &mut Tree, at: &Path) -> Result<(Fragment, Change), TreeFault>
    requires { IsTree tree.old }
    ensures tree { IsTree tree.new }
    ensures fragment { IfOk result (λ taken. IsFragment (plain_fragment taken.0)) }
    ensures few { IfOk result (λ taken. slots_of (plain_fragment taken.0) ≤ 4294967295) }
{
    let Some(_) = tree.slots_at(at) else {
        return Err(TreeFault::NotHere);
    };
    match tree.take(alloc, at) {
        Ok((node, receipt)) => {
            let change = receipt.change();
            drop(receipt);
            Ok((Fragment::Node(node), change))
        }
        Err(fault) => Err(fault),
    }
}

/// Holds a copy of the node at the path beside the tree, under the name.
fn copy_node(
    alloc: Global,
    trees: &mut Trees,
    at: &[u8],
    name: &[u8],
    told: &mut Told,
) -> Option<()>
    requires { IsTree trees.old.tree }
    ensures { IsTree trees.new.tree }
{
    let name = Name::read(name)?;
    let at = find(&trees.tree, at)?;
    match copied(alloc, &trees.tree, &at) {
        Ok(copy) => hold(&mut trees.held, name, copy, told),
        Err(fault) => told.value_line(&fault),
    }
    Some(())
}

/// A copy of the node at the path, to be held.
fn copied(alloc: Global, tree: &Tree, at: &Path) -> Result<Fragment, TreeFault>
    requires { IsTree tree.now }
    ensures fragment { IfOk result (λ copy. IsFragment (plain_fragment copy)) }
    ensures few { IfOk result (λ copy. slots_of (plain_fragment copy) ≤ 4294967295) }
{
    let Some(_) = tree.slots_at(at) else {
        return Err(TreeFault::NotHere);
    };
    match tree.copy_node(alloc, at) {
        Ok(copy) => Ok(Fragment::Node(copy)),
        Err(fault) => Err(fault),
    }
}

/// Copies the node that is held beside the tree under a name, and holds the copy under another one.
fn copy(alloc: Global, held: &mut Clips, name: &[u8], other: &[u8], told: &mut Told) -> Option<()> {
    let other = Name::read(other)?;
    match copy_of(alloc, held, name) {
        Some(copy) => {
            hold(held, other, copy, told);
            Some(())
        }
        None => None,
    }
}

/// Holds a node beside the tree under the name, and tells how many slots it has.
fn hold(held: &mut Clips, name: Name, fragment: Fragment, told: &mut Told)
    requires fragment { IsFragment (plain_fragment fragment) }
    requires few { slots_of (plain_fragment fragment) ≤ 4294967295 }
{
    let slots = fragment.slots();
    match held.put(name, fragment) {
        Ok(old) => {
            told.text("held, ");
            told.value(&slots);
            told.line(" slots");
            drop(old);
        }
        Err((fault, own)) => {
            told.value(&fault);
            told.line(", NOT HELD");
            drop(own);
        }
    }
}

/// A copy of what is held under the name beside the tree.
pub(crate) fn copy_of(alloc: Global, held: &Clips, name: &[u8]) -> Option<Fragment>
    ensures { IfSome result (λ fragment. IsClip (plain_fragment fragment)) }
{
    let name = Name::read(name)?;
    let fragment = held.get(&name)?.copy(alloc).ok()?;
    Some(fragment)
}

/// Puts a copy of the node that is held under the name in place of the hole at the path.
fn insert_at(
    alloc: Global,
    trees: &mut Trees,
    at: &[u8],
    name: &[u8],
    told: &mut Told,
) -> Option<()>
    requires { IsTree trees.old.tree }
    ensures { IsTree trees.new.tree }
{
    let at = find(&trees.tree, at)?;
    match copy_of(alloc, &trees.held, name) {
        Some(Fragment::Node(node)) => {
            insert(alloc, &mut trees.tree, &at, node, told);
            Some(())
        }
        Some(Fragment::Phrase(phrase)) => {
            drop(phrase);
            None
        }
        None => None,
    }
}

/// Puts the node, which was held, in place of the hole at the path.
fn insert(alloc: Global, tree: &mut Tree, at: &Path, node: Node, told: &mut Told)
    requires tree { IsTree tree.old }
    requires node { IsSubtree node }
    ensures { IsTree tree.new }
{
    let mut back = Told::new(alloc);
    let answer = inserted(tree, at, node, &mut back);
    tell_answer(answer, &back, told);
    drop(back);
}

/// Puts the node, which was held, in place of the hole at the path. Where it is refused, what comes back is told.
fn inserted(tree: &mut Tree, at: &Path, node: Node, back: &mut Told) -> Result<Change, TreeFault>
    requires tree { IsTree tree.old }
    requires node { IsSubtree node }
    ensures { IsTree tree.new }
{
    match tree.insert(at, node) {
        Ok(receipt) => {
            let change = receipt.change();
            drop(receipt);
            Ok(change)
        }
        Err((fault, own)) => {
            tell_back(&own, back);
            drop(own);
            Err(fault)
        }
    }
}

/// Tells what stands at the path below the node that is held beside the tree under the name.
fn tell_held(held: &Clips, name: &[u8], below: &[u8], told: &mut Told) -> Option<()> {
    let below = path(below)?;
    let name = Name::read(name)?;
    match held.get(&name)? {
        Fragment::Node(node) => tell_below(node, below.as_slice(), told),
        Fragment::Phrase(_) => return None,
    }
    Some(())
}

/// Tells what stands at the path below the node that is held.
fn tell_below(node: &Node, below: &[u32], told: &mut Told) {
    match node_below(node, below) {
        Some(node) => tell_node(node, told),
        None => told.text("None"),
    }
    told.put(b'\n');
}

/// The node at the path below the node that is held.
fn node_below<'a>(node: &'a Node, below: &[u32]) -> Option<&'a Node> {
    let mut there = node;
    for k in below {
        there = there.child(*k)?;
    }
    Some(there)
}

/// Takes the node at the path out, holds it and puts it in again, so many times. Tells how many times it was put in.
fn retake(alloc: Global, tree: &mut Tree, times: &[u8], at: &[u8], told: &mut Told) -> Option<()>
    requires { IsTree tree.old }
    ensures { IsTree tree.new }
{
    let times = number_of(times)?;
    let at = find(tree, at)?;
    let made = retaken(alloc, tree, &at, times);
    told.value(&made);
    told.line(" times");
    Some(())
}

/// Takes the node at the path out, holds it and puts it in again, so many times; where it is refused at last, it
/// comes back. Says how many times it was put in.
fn retaken(alloc: Global, tree: &mut Tree, at: &Path, times: u32) -> u32
    requires { IsTree tree.old }
    ensures { IsTree tree.new }
{
    for k in 0..times {
        if !is_retaken(alloc, tree, at) {
            return k;
        }
    }
    times
}

/// Takes the node at the path out, holds it and puts it in again, or gives the tree back as it was.
fn is_retaken(alloc: Global, tree: &mut Tree, at: &Path) -> bool
    requires { IsTree tree.old }
    ensures { IsTree tree.new }
{
    match tree.take(alloc, at) {
        Ok((node, taken)) => match tree.insert(at, node) {
            Ok(inserted) => {
                drop(inserted);
                drop(taken);
                true
            }
            Err((_, node)) => {
                tree.undo(taken, Some(node));
                false
            }
        },
        Err(_) => false,
    }
}
