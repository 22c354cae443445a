//! What the table of declarations answers.
ghost use Rattle.template_tree.specs.Programs.Tree.{IsTree};

use crate::words::{number_at, word_at};
use case_script::{Told, number_of};
use decl_table::Decls;
use plcs_base::{ByteOut, Declared, Name, OutOfMemory, PhraseAt, Scope, Slot};
use std::alloc::Global;
use template_tree::Tree;

/// What the table of declarations is asked.
#[derive(Clone, Copy)]
pub enum Question {
    /// The effective items of a procedure, in order.
    Declared,
    /// The effective item of a name in a procedure.
    TypeOf,
    /// The effective heading of a name.
    Signature,
    /// The item of a parameter.
    Parameter,
    /// The phrases that mention a name.
    Uses,
}

/// Makes the table of declarations of the program, and asks it.
pub fn declarations(
    alloc: Global,
    tree: &Tree,
    question: Question,
    words: &[Vec<u8>],
    told: &mut Told,
) -> Option<()>
    requires { IsTree tree.now }
{
    match Decls::new(alloc, tree) {
        Ok(decls) => {
            let answered = answer(alloc, &decls, question, words, told);
            drop(decls);
            answered
        }
        Err(OutOfMemory) => None,
    }
}

/// Asks the table of declarations.
fn answer(
    alloc: Global,
    decls: &Decls,
    question: Question,
    words: &[Vec<u8>],
    told: &mut Told,
) -> Option<()> {
    match question {
        Question::Declared => {
            tell_items(decls, Slot(number_at(words, 0)?), told);
            Some(())
        }
        Question::TypeOf => tell_type(decls, words, told),
        Question::Signature => tell_signature(decls, words, told),
        Question::Parameter => tell_parameter(alloc, decls, words, told),
        Question::Uses => tell_uses(decls, words, told),
    }
}

/// Tells the effective item that the table of declarations has of a name in a procedure.
fn tell_type(decls: &Decls, words: &[Vec<u8>], told: &mut Told) -> Option<()> {
    let name = Name::read(word_at(words, 1))?;
    tell_item(decls.type_of(Slot(number_at(words, 0)?), &name), told);
    Some(())
}

/// Tells the effective heading that the table of declarations has of a name.
fn tell_signature(decls: &Decls, words: &[Vec<u8>], told: &mut Told) -> Option<()> {
    let name = Name::read(word_at(words, 0))?;
    told.value(&decls.signature(&name));
    Some(())
}

/// Tells the places of the phrases that mention a name, as the table of declarations has them.
fn tell_uses(decls: &Decls, words: &[Vec<u8>], told: &mut Told) -> Option<()> {
    let name = Name::read(word_at(words, 0))?;
    tell_places(decls.uses(&name), told);
    told.put(b'\n');
    Some(())
}

/// Tells the effective items that the table of declarations has of the procedure in the slot.
fn tell_items(decls: &Decls, slot: Slot, told: &mut Told) {
    for k in 0..u32::MAX {
        let Some(item) = decls.declared(slot, k) else {
            break;
        };
        tell_item(Some(item), told);
    }
    tell_item(None, told);
}

/// Tells an effective item that the table of declarations has: its name and its type, and the cells of an array.
fn tell_item(item: Option<Declared>, told: &mut Told) {
    let Some(item) = item else {
        told.line("None");
        return;
    };
    told.word(item.name.as_bytes());
    told.put(b' ');
    told.value(&item.ty);
    if item.size > 0 {
        told.put(b' ');
        told.value(&item.size);
        told.text(" cells");
    }
    told.put(b'\n');
}

/// Tells the item that the table of declarations has of a parameter of the procedure in the slot, behind the earlier
/// ones that are named.
fn tell_parameter(alloc: Global, decls: &Decls, words: &[Vec<u8>], told: &mut Told) -> Option<()> {
    let [slot, name, earlier @ ..] = words else {
        return None;
    };
    let slot = Slot(number_of(slot.as_slice())?);
    let name = Name::read(name.as_slice())?;
    match names_of(alloc, earlier) {
        Some(earlier) => {
            tell_item(decls.parameter_item(slot, earlier.as_slice(), &name), told);
            drop(earlier);
            Some(())
        }
        None => None,
    }
}

/// The names that the words are, of which the table of declarations is asked.
pub fn names_of(alloc: Global, words: &[Vec<u8>]) -> Option<Vec<Name>> {
    let mut names = Vec::new(alloc);
    match read_names(words, &mut names) {
        Some(()) => Some(names),
        None => {
            drop(names);
            None
        }
    }
}

/// Puts the names that the words are, of which the table of declarations is asked, behind these.
fn read_names(words: &[Vec<u8>], names: &mut Vec<Name>) -> Option<()> {
    for word in words {
        names.push(Name::read(word.as_slice())?).ok()?;
    }
    Some(())
}

/// Tells places that the table of declarations has of phrases, as the uses of a name: the slots and the parts.
pub fn tell_places(places: &[PhraseAt], told: &mut Told) {
    for (number, at) in places.iter().enumerate() {
        if number > 0 {
            told.put(b' ');
        }
        tell_place(*at, told);
    }
}

/// Tells the place of a use that the table of declarations has: the slot and the part of a phrase.
pub fn tell_place(at: PhraseAt, told: &mut Told) {
    told.value(&at.slot.0);
    told.put(b'.');
    told.value(&at.part);
}
