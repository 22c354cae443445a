//! Cases of edits: one alone, many times over, further and further inside, or many that are undone.
ghost use Rattle.template_tree.specs.Programs.Tree.{IsTree};

use crate::edit::{Edit, EditWord, Step, made, step_of, step_with};
use crate::tell::tell_change;
use crate::undo_calls;
use crate::walk::{Walked, drawn_steps, walk};
use crate::words::{TEMPLATES, path};
use case_script::{Told, meaning, number_of, words_of};
use plcs_base::ByteOut;
use plcs_grammar::Template;
use std::alloc::Global;
use template_tree::{Change, Path, Tree, TreeFault};

/// Which case of many edits is played: one edit many times over, edits further and further inside, or many that
/// are undone.
#[derive(Clone, Copy)]
pub(crate) enum EditsCall {
    /// `repeat TIMES ..` with an edit behind: that edit so many times, as far as it isn't refused.
    Repeat,
    /// `nest TIMES PATH TEMPLATE`: fills the hole at the path, then the first one inside, and so on.
    Nest,
    /// `walk`: makes the edits of the lines of text, and undoes them in reverse order.
    Walk,
    /// `random_walk SEED TIMES LEAST`: so too with so many edits drawn at random, of which more than the least
    /// number are to be made.
    RandomWalk,
    /// `noted`: makes the edits of the lines of text at stops, notes them, and undoes them as the lines say.
    Noted,
}

/// Plays a case of many edits.
pub(crate) fn play(
    alloc: Global,
    tree: &mut Tree,
    call: EditsCall,
    words: &[Vec<u8>],
    text: &[u8],
    told: &mut Told,
) -> Option<()>
    requires { IsTree tree.old }
    ensures { IsTree tree.new }
{
    match (call, words) {
        (EditsCall::Repeat, [times, words @ ..]) => repeat(alloc, tree, times, words, told),
        (EditsCall::Nest, [times, at, template]) => nest(alloc, tree, times, at, template, told),
        (EditsCall::Walk, _) => walk_lines(alloc, tree, text, told),
        (EditsCall::Noted, []) => undo_calls::noted(alloc, tree, text, told),
        (EditsCall::RandomWalk, [seed, times, least]) => {
            walk_at_random(alloc, tree, seed, times, least, told)
        }
        _ => None,
    }
}

/// Plays a case of one edit: `fill AT TEMPLATE`, `fill_assign AT CATEGORY TEXT`, `set_phrase AT PART CATEGORY TEXT`,
/// `set_empty AT PART`, `insert_copy AT FROM`, `take AT`, `add_hole AT SIDE`, `drop_hole AT`.
pub(crate) fn edit(
    alloc: Global,
    tree: &mut Tree,
    word: EditWord,
    words: &[Vec<u8>],
    told: &mut Told,
) -> Option<()>
    requires { IsTree tree.old }
    ensures { IsTree tree.new }
{
    let step = step_with(word, words)?;
    match is_made(alloc, tree, step, told) {
        Some(_) => Some(()),
        None => None,
    }
}

/// Makes the edit of a case, and tells its answer. Says whether it was made, or nothing where no path is meant.
fn is_made(alloc: Global, tree: &mut Tree, step: Step<'_>, told: &mut Told) -> Option<bool>
    requires { IsTree tree.old }
    ensures { IsTree tree.new }
{
    let (edit, at) = step;
    let at = at.find(tree)?;
    let mut back = Told::new(alloc);
    let answer = match edit {
        Edit::DropHole => dropped(tree, &at),
        other => changed(alloc, tree, other, &at, &mut back),
    };
    tell_answer(answer, &back, told);
    drop(back);
    Some(answer.is_ok())
}

/// In a case of one edit alone, or of one made many times over, drops the hole at the path, and says what was
/// changed.
fn dropped(tree: &mut Tree, at: &Path) -> Result<Change, TreeFault>
    requires { IsTree tree.old }
    ensures { IsTree tree.new }
{
    match tree.drop_hole(at) {
        Ok(receipt) => {
            let change = receipt.change();
            drop(receipt);
            Ok(change)
        }
        Err(fault) => Err(fault),
    }
}

/// In a case of edits, one alone or many times over, makes one at the path that drops no hole, and says what
/// was changed.
fn changed(
    alloc: Global,
    tree: &mut Tree,
    edit: Edit<'_>,
    at: &Path,
    back: &mut Told,
) -> Result<Change, TreeFault>
    requires { IsTree tree.old }
    ensures { IsTree tree.new }
{
    match made(alloc, tree, edit, at, back) {
        Ok((receipt, node)) => {
            let change = receipt.change();
            drop(receipt);
            drop(node);
            Ok(change)
        }
        Err(fault) => Err(fault),
    }
}

/// Answers a case of edits: tells what the edit changed, or why it is refused, and what comes back then.
pub(crate) fn tell_answer(answer: Result<Change, TreeFault>, back: &Told, told: &mut Told) {
    match answer {
        Ok(change) => tell_change(change, told),
        Err(fault) => {
            told.value(&fault);
            told.text(back.as_str());
        }
    }
    told.put(b'\n');
}

/// Makes an edit so many times, as far as it isn't refused. Tells how many times it was made, and the last
/// answer.
fn repeat(
    alloc: Global,
    tree: &mut Tree,
    times: &[u8],
    words: &[Vec<u8>],
    told: &mut Told,
) -> Option<()>
    requires { IsTree tree.old }
    ensures { IsTree tree.new }
{
    let times = number_of(times)?;
    let step = step_of(words)?;
    let mut last = Told::new(alloc);
    let made = repeated(alloc, tree, times, step, &mut last)?;
    told.value(&made);
    told.line(" times");
    told.text(last.as_str());
    Some(())
}

/// How many times the edit was made, of so many times, and its last answer.
fn repeated(
    alloc: Global,
    tree: &mut Tree,
    times: u32,
    step: Step<'_>,
    last: &mut Told,
) -> Option<u32>
    requires { IsTree tree.old }
    ensures { IsTree tree.new }
{
    for k in 0..times {
        last.clear();
        if !is_made(alloc, tree, step, last)? {
            return Some(k);
        }
    }
    Some(times)
}

/// Fills the hole at the path with the template, then the first one inside, and so on. Tells how many times.
fn nest(
    alloc: Global,
    tree: &mut Tree,
    times: &[u8],
    at: &[u8],
    template: &[u8],
    told: &mut Told,
) -> Option<()>
    requires { IsTree tree.old }
    ensures { IsTree tree.new }
{
    let times = number_of(times)?;
    let template = meaning(&TEMPLATES, template)?;
    let made = nested(alloc, tree, times, path(at)?, template);
    told.value(&made);
    told.line(" times");
    Some(())
}

/// How many times the hole inside was filled, of so many times.
fn nested(alloc: Global, tree: &mut Tree, times: u32, at: Path, template: Template) -> u32
    requires { IsTree tree.old }
    ensures { IsTree tree.new }
{
    let mut hole = at;
    for k in 0..times {
        if !is_filled(alloc, tree, &hole, template) || hole.try_push(0).is_err() {
            return k;
        }
    }
    times
}

/// Fills the hole at the path with the template, unless it is refused, and says whether it was filled.
fn is_filled(alloc: Global, tree: &mut Tree, at: &Path, template: Template) -> bool
    requires { IsTree tree.old }
    ensures { IsTree tree.new }
{
    match tree.fill(alloc, at, template) {
        Ok(receipt) => {
            drop(receipt);
            true
        }
        Err(_) => false,
    }
}

/// Plays a case of many edits that are undone: those that the lines of text say. Tells each answer, and whether
/// each step back led to the tree before it.
fn walk_lines(alloc: Global, tree: &mut Tree, text: &[u8], told: &mut Told) -> Option<()>
    requires { IsTree tree.old }
    ensures { IsTree tree.new }
{
    let lines = lines_of(alloc, text)?;
    let steps = steps_of(alloc, lines.as_slice())?;
    let mut walked = Walked::new(alloc);
    walk(alloc, tree, steps.as_slice(), steps.len(), &mut walked);
    told.text(walked.answers.as_str());
    walked.tell(told);
    Some(())
}

/// For a case of many edits that are undone, the words of each line of its text; a line says one edit.
pub(crate) fn lines_of(alloc: Global, text: &[u8]) -> Option<Vec<Vec<Vec<u8>>>> {
    let mut lines = Vec::new(alloc);
    match push_lines(alloc, text, &mut lines) {
        Some(()) => Some(lines),
        None => {
            drop(lines);
            None
        }
    }
}

/// For a case of many edits that are undone, puts the words of each line of its text behind the lines.
fn push_lines(alloc: Global, text: &[u8], lines: &mut Vec<Vec<Vec<u8>>>) -> Option<()> {
    for line in text.split(|byte| *byte == b'\n') {
        push_line(alloc, line, lines)?;
    }
    Some(())
}

/// For a case of many edits that are undone, puts the words of a line of its text behind the lines, if it has some.
fn push_line(alloc: Global, line: &[u8], lines: &mut Vec<Vec<Vec<u8>>>) -> Option<()> {
    match words_of(alloc, line) {
        Ok(Some(words)) => push_words(words, lines),
        _ => None,
    }
}

/// For a case of many edits that are undone, puts the words behind the lines, if there are some.
fn push_words(words: Vec<Vec<u8>>, lines: &mut Vec<Vec<Vec<u8>>>) -> Option<()> {
    if words.is_empty() {
        drop(words);
        return Some(());
    }
    match lines.push(words) {
        Ok(()) => Some(()),
        Err(_) => None,
    }
}

/// The edits of a case of many, of which each line of its text says one.
fn steps_of(alloc: Global, lines: &[Vec<Vec<u8>>]) -> Option<Vec<Step<'_>>> {
    let mut steps = Vec::new(alloc);
    for words in lines {
        steps.push(step_of(words.as_slice())?).ok()?;
    }
    Some(steps)
}

/// Plays a case of edits, many that are drawn at random and undone. Tells whether more than the least number
/// were made, and whether each step back led to the tree before it.
fn walk_at_random(
    alloc: Global,
    tree: &mut Tree,
    seed: &[u8],
    times: &[u8],
    least: &[u8],
    told: &mut Told,
) -> Option<()>
    requires { IsTree tree.old }
    ensures { IsTree tree.new }
{
    let least = number_of(least)?;
    let steps = drawn_steps(alloc, number_of(seed)?, number_of(times)?).ok()?;
    let mut walked = Walked::new(alloc);
    walk(alloc, tree, steps.as_slice(), steps.len(), &mut walked);
    tell_made(&walked, least, told);
    Some(())
}

/// Tells the answer of a case of edits, many that are drawn at random and undone: whether more than the least
/// number were made, and whether each step back led to the tree before it.
fn tell_made(walked: &Walked, least: u32, told: &mut Told) {
    told.text(if walked.made > least {
        "more than "
    } else {
        "NO MORE THAN "
    });
    told.value(&least);
    told.text(" made, ");
    walked.tell(told);
}
