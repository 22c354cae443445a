//! Words of cases over trees, and what they stand for.
ghost use Rattle.std.specs.Prelude.{◌≡◌, ◌<◌, ◌^◌, length, IfSome, Some};
ghost use Rattle.plcs_grammar.specs.Canon.{IsWellFormed};
ghost use Rattle.plcs_grammar.specs.PlainPhrase.{category_of, plain_phrase};
ghost use Rattle.template_tree.specs.Programs.Part.{IsPhrasePlace};
ghost use Rattle.template_tree.specs.Programs.Tree.{IsTree};

use case_script::{meaning, number_of};
use phrase_parser::parse;
use plcs_base::Slot;
use plcs_grammar::{Category, Phrase, Template, shown_len};
use std::alloc::Global;
use template_tree::{LONGEST_PHRASE, Path, Side, Tree};

/// The words of cases for templates.
pub(crate) static TEMPLATES: [(&[u8], Template); 17] = [
    (b"fixed", Template::Fixed),
    (b"bit", Template::Bit),
    (b"char", Template::Char),
    (b"if", Template::If),
    (b"ifelse", Template::IfElse),
    (b"while", Template::While),
    (b"for", Template::For),
    (b"until", Template::Until),
    (b"group", Template::Group),
    (b"get", Template::Get),
    (b"put", Template::Put),
    (b"putskip", Template::PutSkip),
    (b"call", Template::Call),
    (b"return", Template::Return),
    (b"comment", Template::Comment),
    (b"proc", Template::Proc),
    (b"procp", Template::ProcP),
];

/// The words of cases for categories.
pub(crate) static CATEGORIES: [(&[u8], Category); 12] = [
    (b"assignment", Category::Assignment),
    (b"condition", Category::Condition),
    (b"expression", Category::Expression),
    (b"expression_list", Category::ExpressionList),
    (b"variable_list", Category::VariableList),
    (b"variable", Category::Variable),
    (b"call_ref", Category::CallRef),
    (b"declared_list", Category::DeclaredList),
    (b"procedure_name", Category::ProcedureName),
    (b"name_list", Category::NameList),
    (b"length", Category::Length),
    (b"comment_text", Category::CommentText),
];

/// The words of cases for sides.
pub(crate) static SIDES: [(&[u8], Side); 2] = [(b"before", Side::Before), (b"after", Side::After)];

/// The phrase of the category for which a word of a case over trees stands as its text, if it may stand in a
/// part.
pub(crate) fn phrase(alloc: Global, category: Category, text: &[u8]) -> Option<Phrase>
    ensures { IfSome result (λ phrase. IsPhrasePlace (Some (plain_phrase phrase))) }
{
    if text.len() > 1000 {
        return None;
    }
    match parsed(alloc, category, text) {
        Some(phrase) => {
            if shown_len(&phrase) <= LONGEST_PHRASE {
                Some(phrase)
            } else {
                drop(phrase);
                None
            }
        }
        None => None,
    }
}

/// The phrase of the category for which a word of a case over trees stands as its text, whether or not it may
/// stand in a part.
fn parsed(alloc: Global, category: Category, text: &[u8]) -> Option<Phrase>
    requires { length text.now < 2 ^ 32 }
    ensures well_formed { IfSome result (λ phrase. IsWellFormed category (plain_phrase phrase)) }
    ensures category { IfSome result (λ phrase. category_of (plain_phrase phrase) ≡ category) }
{
    match parse(alloc, category, text) {
        Ok(phrase) => Some(phrase),
        Err(_) => None,
    }
}

/// What a word of a case stands for that says where the case is played: a path, or the node in a slot.
#[derive(Clone, Copy)]
pub(crate) enum At<'a> {
    Path(&'a [u8]),
    Slot(u32),
}

impl At<'_> {
    /// What the word says: `#` and a slot, or a path.
    pub(crate) fn of(word: &[u8]) -> Option<At<'_>> {
        match word {
            [b'#', number @ ..] => Some(At::Slot(number_of(number)?)),
            word => Some(At::Path(word)),
        }
    }

    /// The path in the tree for which this word of a case stands, the one that it spells or that of the node in
    /// its slot, if there is one.
    pub(crate) fn find(self, tree: &Tree) -> Option<Path>
        requires { IsTree tree.now }
    {
        match self {
            At::Path(word) => path(word),
            At::Slot(slot) => tree.path_of(Slot(slot)),
        }
    }
}

/// The path in the tree for which the word of a case stands, if it stands for one.
pub(crate) fn find(tree: &Tree, word: &[u8]) -> Option<Path>
    requires { IsTree tree.now }
{
    At::of(word)?.find(tree)
}

/// The phrase that two words of a case over trees stand for, the one for its category, the other for its text.
pub(crate) fn phrase_of(alloc: Global, category: &[u8], text: &[u8]) -> Option<Phrase>
    ensures { IfSome result (λ phrase. IsPhrasePlace (Some (plain_phrase phrase))) }
{
    phrase(alloc, meaning(&CATEGORIES, category)?, text)
}

/// The path of the word: numbers with a comma between them, each with `*` and a number behind it where it
/// stands so many times; `-` for none.
pub(crate) fn path(word: &[u8]) -> Option<Path> {
    let mut path = Path::new();
    if word == b"-".as_slice() {
        return Some(path);
    }
    for piece in word.split(|byte| *byte == b',') {
        push_piece(&mut path, piece)?;
    }
    Some(path)
}

/// Puts the numbers of a piece of the path's word at the end of the path, if they fit.
fn push_piece(path: &mut Path, piece: &[u8]) -> Option<()> {
    let mut halves = piece.split(|byte| *byte == b'*');
    let number = number_of(halves.next()?)?;
    let times = match halves.next() {
        Some(times) => number_of(times)?,
        None => 1,
    };
    for _ in 0..times {
        path.try_push(number).ok()?;
    }
    Some(())
}
