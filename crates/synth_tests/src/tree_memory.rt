//! Edits of a tree, assignments and lists of nodes that are refused for want of memory. The tests pass with each
//! allocation refused in turn.
ghost use Rattle.std.specs.Prelude.{◌≡◌, IfOk, IfSome, Some};
ghost use Rattle.plcs_grammar.specs.PlainPhrase.{plain_phrase};
ghost use Rattle.template_tree.specs.Programs.Part.{IsPhrasePlace};
ghost use Rattle.template_tree.specs.Programs.PlainPhrasePlace.{plain_phrase_place};
ghost use Rattle.template_tree.specs.Programs.Tree.{IsTree};

use arrayvec::ArrayVec;
use phrase_parser::parse;
use plcs_base::{ByteOut, Slot};
use plcs_grammar::{Category, NodeKind, Phrase, Template, same_phrase, shown_len};
use std::alloc::Global;
use std::test::Fail;
use template_tree::{
    LONGEST_PHRASE, Node, Nodes, Path, PhrasePlace, Side, Stop, Tree, TreeFault, copy_path,
};

/// An edit of a row, which is refused for want of memory.
#[derive(Clone, Copy)]
enum Edit {
    /// A hole is filled.
    Fill(Template),
    /// A statement hole or an assignment becomes this assignment.
    Assign(&'static [u8]),
    /// A part is set to the phrase of the category.
    Set(u8, Category, &'static [u8]),
    /// A part is emptied.
    Empty(u8),
    /// A hole becomes a copy of the node in this slot.
    Copy(u32),
    /// A node is taken out.
    Take,
    /// A hole is added on this side.
    Add(Side),
    /// A hole is dropped.
    Drop,
}

/// An edit that is refused for want of memory, and the numbers of the path at which it is made.
type Row = (Edit, &'static [u32]);

/// Edits of each kind that are refused for want of memory. The second copy is one of a group with phrases and with a
/// comment in it.
static ROWS: [Row; 24] = [
    (Edit::Add(Side::After), &[0, 0]),
    (Edit::Add(Side::Before), &[0, 2]),
    (Edit::Add(Side::After), &[1]),
    (Edit::Fill(Template::Char), &[0, 0]),
    (Edit::Fill(Template::IfElse), &[0, 2]),
    (Edit::Fill(Template::For), &[0, 2, 1]),
    (Edit::Set(1, Category::Expression, b"a"), &[0, 2, 1]),
    (Edit::Set(0, Category::DeclaredList, b"b"), &[0, 0]),
    (Edit::Assign(b"x = c"), &[0, 2, 0]),
    (Edit::Copy(5), &[0, 3]),
    (Edit::Drop, &[0, 1]),
    (Edit::Fill(Template::ProcP), &[1]),
    (Edit::Empty(0), &[0, 0]),
    (Edit::Take, &[0, 1]),
    (Edit::Fill(Template::Group), &[0, 1]),
    (Edit::Add(Side::After), &[0, 1, 0]),
    (Edit::Fill(Template::Put), &[0, 1, 0]),
    (Edit::Set(0, Category::ExpressionList, b"d"), &[0, 1, 0]),
    (Edit::Fill(Template::Comment), &[0, 1, 1]),
    (Edit::Set(0, Category::CommentText, b"e"), &[0, 1, 1]),
    (Edit::Assign(b"x = f"), &[0, 1, 1, 0]),
    (Edit::Assign(b"x = g"), &[0, 1, 1, 0]),
    (Edit::Add(Side::Before), &[0, 1]),
    (Edit::Copy(5), &[0, 1]),
];

#[test]
fn an_edit_without_memory_changes_nothing(rt: HostRuntime) -> Result<(), Fail> {
    let alloc = rt.alloc();
    let mut tree = new_at_last(alloc)?;
    assert!(rt; all_come_at_last(alloc, &mut tree, &ROWS)?);
    assert!(rt; tree.slots() == 18 && seen_of(&tree).whole);
    assert!(rt; tree.path_of(Slot(LAST_SLOT)).is_some());
    assert!(rt; tree.path_of(Slot(LAST_SLOT + 1)).is_none());
    Ok(())
}

/// The last slot that the rows draw.
const LAST_SLOT: u32 = 21;

/// A new tree, at the second try where memory is wanting at the first.
fn new_at_last(alloc: Global) -> Result<Tree, Fail>
    ensures { IfOk result IsTree }
{
    if let Ok(tree) = Tree::new(alloc) {
        return Ok(tree);
    }
    let tree = Tree::new(alloc).map_err(|_| "a tree")?;
    Ok(tree)
}

/// Whether the edits of the rows are made, one after the other, once they were refused for want of memory.
fn all_come_at_last(alloc: Global, tree: &mut Tree, rows: &[Row]) -> Result<bool, Fail>
    requires { IsTree tree.old }
    ensures { IsTree tree.new }
{
    for (edit, numbers) in rows {
        let at = path(numbers)?;
        if !comes_at_last(alloc, tree, *edit, &at) {
            return Ok(false);
        }
    }
    Ok(true)
}

/// The path of a row's numbers.
fn path(numbers: &[u32]) -> Result<Path, Fail> {
    let mut path = Path::new();
    path.try_extend_from_slice(numbers).map_err(|_| "a path")?;
    Ok(path)
}

/// Whether the edit is made, at the second try where memory is wanting at the first, which changes
/// nothing.
fn comes_at_last(alloc: Global, tree: &mut Tree, edit: Edit, at: &Path) -> bool
    requires { IsTree tree.old }
    ensures { IsTree tree.new }
{
    let before = seen_of(tree);
    match fault_of(alloc, tree, edit, at) {
        None => true,
        Some(TreeFault::OutOfMemory) => {
            is_as_before(tree, &before) && fault_of(alloc, tree, edit, at).is_none()
        }
        Some(_) => false,
    }
}

/// The listing of a tree, up to 2,000 bytes, and how many slots are live. It takes no memory.
#[derive(Drop)]
struct Seen {
    text: ArrayVec<u8, 2000>,
    whole: bool,
    slots: u32,
}

impl ByteOut for Seen {
    ghost puts = { λ _ _ _. Unit {0} };

    fn put(&mut self, byte: u8) {
        if self.text.try_push(byte).is_err() {
            self.whole = false;
        }
    }
}

/// What is seen of the tree before and after an edit is refused.
fn seen_of(tree: &Tree) -> Seen
    requires { IsTree tree.now }
{
    let mut seen = Seen {
        text: ArrayVec::new(),
        whole: true,
        slots: tree.slots(),
    };
    tree.put_listing(&mut seen);
    seen
}

/// Whether what is seen of the tree, once an edit was refused, is what was seen before, in each byte.
fn is_as_before(tree: &Tree, before: &Seen) -> bool
    requires { IsTree tree.now }
{
    let now = seen_of(tree);
    let same = now.text.as_slice() == before.text.as_slice();
    same && now.whole && before.whole && now.slots == before.slots
}

/// Makes the edit of a tree that a row names, at the path, and says why it is refused, if it is, as for want of
/// memory.
fn fault_of(alloc: Global, tree: &mut Tree, edit: Edit, at: &Path) -> Option<TreeFault>
    requires { IsTree tree.old }
    ensures { IsTree tree.new }
{
    match edit {
        Edit::Fill(template) => tree.fill(alloc, at, template).err(),
        Edit::Assign(text) => {
            let Some(phrase) = phrase(alloc, Category::Assignment, text) else {
                return Some(TreeFault::OutOfMemory);
            };
            fault_alone(assign(alloc, tree, at, phrase))
        }
        Edit::Set(part, category, text) => {
            let Some(phrase) = phrase(alloc, category, text) else {
                return Some(TreeFault::OutOfMemory);
            };
            set(tree, at, part, PhrasePlace::Filled(phrase))
        }
        Edit::Empty(part) => set(tree, at, part, PhrasePlace::Empty),
        Edit::Copy(slot) => copy(alloc, tree, Slot(slot), at),
        Edit::Take => tree.take(alloc, at).err(),
        Edit::Add(side) => tree.add_hole(alloc, at, side).err(),
        Edit::Drop => tree.drop_hole(at).err(),
    }
}

/// In a test of edits that are refused for want of memory, the fault alone with which one was refused.
fn fault_alone(refused: Option<(TreeFault, Phrase)>) -> Option<TreeFault> {
    match refused {
        Some((fault, _)) => Some(fault),
        None => None,
    }
}

/// For a test of edits that are refused for want of memory, the phrase of the category that the text reads as,
/// unless memory is wanting for that.
fn phrase(alloc: Global, category: Category, text: &[u8]) -> Option<Phrase>
    ensures { IfSome result (λ phrase. IsPhrasePlace (Some (plain_phrase phrase))) }
{
    if text.len() > 400 {
        return None;
    }
    let phrase = parse(alloc, category, text).ok()?;
    if shown_len(&phrase) > LONGEST_PHRASE {
        return None;
    }
    Some(phrase)
}

/// Sets a part of the node at the path, as a test of want of memory does, and says why that edit of the tree is
/// refused, if it is.
fn set(tree: &mut Tree, at: &Path, part: u8, place: PhrasePlace) -> Option<TreeFault>
    requires tree { IsTree tree.old }
    requires place { IsPhrasePlace (plain_phrase_place place) }
    ensures { IsTree tree.new }
{
    let stop = Stop {
        path: copy_path(at),
        part: Some(part),
    };
    match tree.set_phrase(&stop, place) {
        Ok(_) => None,
        Err((fault, _)) => Some(fault),
    }
}

/// In a test whose allocations are refused in turn, puts a copy of the node in the slot in place of the hole at
/// the path, and says why that is refused, if it is.
fn copy(alloc: Global, tree: &mut Tree, slot: Slot, at: &Path) -> Option<TreeFault>
    requires { IsTree tree.old }
    ensures { IsTree tree.new }
{
    let Some(from) = tree.path_of(slot) else {
        return Some(TreeFault::NotHere);
    };
    let node = match tree.copy_node(alloc, &from) {
        Ok(node) => node,
        Err(fault) => return Some(fault),
    };
    match tree.insert(at, node) {
        Ok(_) => None,
        Err((fault, _)) => Some(fault),
    }
}

#[test]
fn an_assignment_without_memory_comes_back(rt: HostRuntime) -> Result<(), Fail> {
    let alloc = rt.alloc();
    let mut tree = new_at_last(alloc)?;
    let at = path(&[0, 1])?;
    assert!(rt; is_assigned_at_last(alloc, &mut tree, b"x = a", &at)?);
    assert!(rt; is_assigned_at_last(alloc, &mut tree, b"x = b", &at)?);
    assert!(rt; tree.slots() == 4);
    Ok(())
}

/// Whether what stands at the path becomes the assignment, at the second try where memory is wanting at the
/// first, which changes nothing and gives the same phrase back.
fn is_assigned_at_last(alloc: Global, tree: &mut Tree, text: &[u8], at: &Path) -> Result<bool, Fail>
    requires { IsTree tree.old }
    ensures { IsTree tree.new }
{
    let before = seen_of(tree);
    let first = assignment_at_last(alloc, text).ok_or("an assignment")?;
    let own = assignment_at_last(alloc, text).ok_or("an assignment")?;
    let Some((fault, back)) = assign(alloc, tree, at, first) else {
        return Ok(true);
    };
    let is_wanting = fault == TreeFault::OutOfMemory;
    let is_unchanged = is_as_before(tree, &before);
    let is_own = same_phrase(&back, &own);
    let is_assigned = assign(alloc, tree, at, back).is_none();
    Ok(is_wanting && is_unchanged && is_own && is_assigned)
}

/// The assignment of the text, at the second try where memory is wanting at the first.
fn assignment_at_last(alloc: Global, text: &[u8]) -> Option<Phrase>
    ensures { IfSome result (λ phrase. IsPhrasePlace (Some (plain_phrase phrase))) }
{
    if let Some(first) = phrase(alloc, Category::Assignment, text) {
        return Some(first);
    }
    phrase(alloc, Category::Assignment, text)
}

/// Puts the assignment of a test at the path. Where that is refused, as for want of memory, says why, and gives
/// back what came back.
fn assign(alloc: Global, tree: &mut Tree, at: &Path, phrase: Phrase) -> Option<(TreeFault, Phrase)>
    requires tree { IsTree tree.old }
    requires phrase { IsPhrasePlace (Some (plain_phrase phrase)) }
    ensures tree { IsTree tree.new }
    ensures back { IfSome result (λ refused. refused.1 ≡ phrase) }
{
    let answer = tree.fill_assign(alloc, at, phrase);
    answer.err()
}

#[test]
fn a_node_without_memory_comes_back(rt: HostRuntime) -> Result<(), Fail> {
    let alloc = rt.alloc();
    let mut list = Nodes::new(alloc);
    for _ in 0..9 {
        let hole = Node::built(NodeKind::StatementHole, Vec::new(alloc), Nodes::new(alloc));
        assert!(rt; is_pushed_at_last(&mut list, hole));
    }
    let group = Node::built(NodeKind::Filled(Template::Group), Vec::new(alloc), list);
    assert!(rt; group.child(8).is_some() && group.child(9).is_none());
    Ok(())
}

/// Whether the node comes to the end of the list, at the second try where memory is wanting at the first, which
/// gives the node back.
fn is_pushed_at_last(list: &mut Nodes, node: Node) -> bool {
    let kind = node.kind();
    match list.push(node) {
        Ok(()) => true,
        Err(back) => back.kind() == kind && list.push(back).is_ok(),
    }
}
