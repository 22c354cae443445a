//! Edits that are made one after the other and undone in reverse order.
ghost use Rattle.std.specs.Prelude.{◌≡◌, ◌<◌, IfNone, IfSome};
ghost use Rattle.template_tree.specs.Programs.PlainTree.{roomless_tree};
ghost use Rattle.template_tree.specs.Edits.Receipt.{CanUndo, NeedsNoRoom, undone};
ghost use Rattle.template_tree.specs.Programs.Tree.{IsTree};

use crate::edit::{Edit, Step, made};
use crate::edit_calls::tell_answer;
use crate::node_calls::tell_tree;
use crate::words::At;
use case_script::Told;
use plcs_base::ByteOut;
use plcs_grammar::{Category, Template};
use std::alloc::{AllocError, Global};
use template_tree::{Node, Path, Receipt, Side, Tree, TreeFault};

/// What is found on a walk of edits: the answer to each, how many were made, and whether the tree before each
/// came again.
#[derive(Drop)]
pub(crate) struct Walked {
    /// The answer to each edit.
    pub(crate) answers: Told,
    /// How many edits were made.
    pub(crate) made: u32,
    /// Whether the tree before each of them came again when it was undone.
    pub(crate) same: bool,
}

impl Walked {
    /// A walk that begins.
    pub(crate) fn new(alloc: Global) -> Walked {
        Walked {
            answers: Told::new(alloc),
            made: 0,
            same: true,
        }
    }

    /// Tells whether the tree before each edit of the walk came again.
    pub(crate) fn tell(&self, told: &mut Told) {
        told.line(if self.same {
            "undone, each step back the same"
        } else {
            "UNDONE, NOT THE SAME"
        });
    }
}

/// Makes the last so many of the edits one after the other, as far as they aren't refused, and undoes them in
/// reverse order.
pub(crate) fn walk(
    alloc: Global,
    tree: &mut Tree,
    steps: &[Step<'_>],
    left: usize,
    walked: &mut Walked,
)
    requires tree { IsTree tree.old }
    ensures tree { IsTree tree.new }
    ensures same { roomless_tree tree.new ≡ roomless_tree tree.old }
{
    let before = picture_of(alloc, tree);
    let Some((receipt, node, rest)) = first_made(alloc, tree, steps, left, walked) else {
        return;
    };
    walk(alloc, tree, steps, rest, walked);
    tree.undo(receipt, node);
    compare(alloc, tree, &before, walked);
}

/// All that a tree shows on a walk of edits.
pub(crate) fn picture_of(alloc: Global, tree: &Tree) -> Told
    requires { IsTree tree.now }
{
    let mut picture = Told::new(alloc);
    tell_tree(tree, &mut picture);
    picture
}

/// Keeps whether a tree that came again on a walk looks as it did before.
fn compare(alloc: Global, tree: &Tree, before: &Told, walked: &mut Walked)
    requires { IsTree tree.now }
{
    walked.same = looks_like(alloc, tree, before) && walked.same;
}

/// Whether a tree that came again looks as it did before.
pub(crate) fn looks_like(alloc: Global, tree: &Tree, before: &Told) -> bool
    requires { IsTree tree.now }
{
    let after = picture_of(alloc, tree);
    let same = after.is_same(before);
    drop(after);
    same
}

/// Makes the first of the last so many edits of a walk that isn't refused and drops no hole. Gives its receipt, the
/// node that it took out, if it took one, and how many steps are left behind it.
fn first_made(
    alloc: Global,
    tree: &mut Tree,
    steps: &[Step<'_>],
    left: usize,
    walked: &mut Walked,
) -> Option<(Receipt, Option<Node>, usize)>
    requires tree { IsTree tree.old }
    ensures tree { IsTree tree.new }
    ensures can_undo { IfSome result (λ r. CanUndo r.0 r.1 tree.new) }
    ensures undone { IfSome result (λ r. undone r.0 r.1 (roomless_tree tree.new) ≡ roomless_tree tree.old) }
    ensures no_room { IfSome result (λ r. NeedsNoRoom r.0) }
    ensures fewer { IfSome result (λ r. r.2 < left) }
    ensures same { IfNone result (roomless_tree tree.new ≡ roomless_tree tree.old) }
{
    let mut rest = left;
    while rest > 0 {
        let Some(step) = steps.get(steps.len().saturating_sub(rest)) else {
            return None;
        };
        rest -= 1;
        if let Some((receipt, node)) = made_at(alloc, tree, *step, walked) {
            return Some((receipt, node, rest));
        }
    }
    None
}

/// Makes the edit of a walk, unless it is refused. Gives its receipt, and the node that it took out, if it took one.
/// A hole that is dropped comes back at once, since its room may be gone later.
fn made_at(
    alloc: Global,
    tree: &mut Tree,
    step: Step<'_>,
    walked: &mut Walked,
) -> Option<(Receipt, Option<Node>)>
    requires tree { IsTree tree.old }
    ensures tree { IsTree tree.new }
    ensures can_undo { IfSome result (λ r. CanUndo r.0 r.1 tree.new) }
    ensures undone { IfSome result (λ r. undone r.0 r.1 (roomless_tree tree.new) ≡ roomless_tree tree.old) }
    ensures no_room { IfSome result (λ r. NeedsNoRoom r.0) }
    ensures same { IfNone result (roomless_tree tree.new ≡ roomless_tree tree.old) }
{
    let (edit, at) = step;
    let at = at.find(tree)?;
    if let Edit::DropHole = edit {
        drop_and_undo(alloc, tree, &at, walked);
        return None;
    }
    let mut back = Told::new(alloc);
    match made(alloc, tree, edit, &at, &mut back) {
        Ok((receipt, node)) => {
            tell_answer(Ok(receipt.change()), &back, &mut walked.answers);
            walked.made = walked.made.saturating_add(1);
            drop(back);
            Some((receipt, node))
        }
        Err(fault) => {
            tell_answer(Err(fault), &back, &mut walked.answers);
            drop(back);
            None
        }
    }
}

/// Drops the hole at the path, as a step of a walk, unless that is refused, and undoes that.
fn drop_and_undo(alloc: Global, tree: &mut Tree, at: &Path, walked: &mut Walked)
    requires tree { IsTree tree.old }
    ensures tree { IsTree tree.new }
    ensures same { roomless_tree tree.new ≡ roomless_tree tree.old }
{
    let before = picture_of(alloc, tree);
    let nothing = Told::new(alloc);
    drop_and_compare(alloc, tree, at, &before, &nothing, walked);
    drop(nothing);
    drop(before);
}

/// Drops the hole at the path, as a step of a walk, unless that is refused, undoes that, and compares what the tree
/// shows with what it showed before. Nothing comes back.
fn drop_and_compare(
    alloc: Global,
    tree: &mut Tree,
    at: &Path,
    before: &Told,
    nothing: &Told,
    walked: &mut Walked,
)
    requires tree { IsTree tree.old }
    ensures tree { IsTree tree.new }
    ensures same { roomless_tree tree.new ≡ roomless_tree tree.old }
{
    match tree.drop_hole(at) {
        Ok(receipt) => {
            tell_answer(Ok(receipt.change()), nothing, &mut walked.answers);
            tree.undo(receipt, None);
            walked.made = walked.made.saturating_add(1);
            compare(alloc, tree, before, walked);
        }
        Err(fault) => tell_answer(Err(fault), nothing, &mut walked.answers),
    }
}

/// The templates of which a walk draws.
static TEMPLATES: [Template; 17] = [
    Template::Fixed,
    Template::Bit,
    Template::Char,
    Template::If,
    Template::IfElse,
    Template::While,
    Template::For,
    Template::Until,
    Template::Group,
    Template::Get,
    Template::Put,
    Template::PutSkip,
    Template::Call,
    Template::Return,
    Template::Comment,
    Template::Proc,
    Template::ProcP,
];

/// Categories of first parts, of which a walk draws.
static CATEGORIES: [Category; 4] = [
    Category::Condition,
    Category::DeclaredList,
    Category::Variable,
    Category::ExpressionList,
];

/// So many steps of a walk, drawn by a generator of pseudo-random numbers that begins with this one.
pub(crate) fn drawn_steps(
    alloc: Global,
    first: u32,
    count: u32,
) -> Result<Vec<Step<'static>>, AllocError> {
    let mut steps = Vec::new(alloc);
    let mut number = first;
    for _ in 0..count {
        number = number.wrapping_mul(1_664_525).wrapping_add(1_013_904_223);
        steps.push(step(number / 256))?;
    }
    Ok(steps)
}

/// The step of a walk that a number of 24 bits stands for, at one of the first 32 slots.
fn step(number: u32) -> Step<'static> {
    let slot = At::Slot(number % 32);
    let other = At::Slot((number / 32) % 32);
    let k = (number / 1024) % 17;
    let edit = match (number / 16384) % 16 {
        0 => Edit::Take,
        1 => Edit::DropHole,
        2 => Edit::SetEmpty(Some(0)),
        3 => Edit::FillAssign(Category::Assignment, b"x = y"),
        4 | 5 => Edit::InsertCopy(other),
        6 => Edit::AddHole(Side::Before),
        7 => Edit::AddHole(Side::After),
        8 | 9 => Edit::SetPhrase(Some(0), CATEGORIES[(k % 4) as usize], b"z"),
        _ => Edit::Fill(TEMPLATES[k as usize]),
    };
    (edit, slot)
}
