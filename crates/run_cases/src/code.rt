//! The code of the program, and runs by it.
ghost use Rattle.std.specs.Prelude.{IfSome};
ghost use Rattle.decl_table.specs.Agreement.{IsDeclsOf};
ghost use Rattle.template_tree.specs.Checks.Marks.{offences};
ghost use Rattle.template_tree.specs.Checks.ProgramMaps.{MarksTell};
ghost use Rattle.template_tree.specs.Programs.Tree.{IsTree};
ghost use Rattle.run_cases.specs.RunOfProgram.{IsProgramCode};

use crate::run::{self, Telling};
use case_script::{Told, number_of};
use decl_table::Decls;
use plcs_base::{ByteOut, Counts, Name, Place, Point, Slot};
use plcs_code::{CodeView, FlatCode, generate, show_instr};
use std::alloc::Global;
use template_tree::Tree;
use type_marks::Marks;

/// What a case asks of the code of the program.
#[derive(Clone, Copy)]
pub(crate) enum Question {
    /// All of its instructions.
    Code,
    /// What was counted as it was made and fetched.
    Counted,
    /// Where a procedure is entered.
    Entry,
    /// The slot of a procedure that may be called.
    Procedure,
    /// The address of a place.
    Address,
    /// Where the code of a slot stands.
    Span,
    /// All places with their addresses.
    Places,
    /// Where the code of each slot stands.
    Spans,
    /// What comes of a run by it.
    Run(Telling),
}

/// Answers what a case asks of the code of the program, or runs that code, which is made under the program's
/// own marks.
pub(crate) fn ask(tree: &Tree, question: Question, words: &[Vec<u8>], told: &mut Told) -> Option<()>
    requires { IsTree tree.now }
{
    let decls = Decls::new(told.alloc(), tree).ok()?;
    ask_by(tree, &decls, question, words, told)
}

/// Asks the code of the program, whose table of declarations this is.
fn ask_by(
    tree: &Tree,
    decls: &Decls,
    question: Question,
    words: &[Vec<u8>],
    told: &mut Told,
) -> Option<()>
    requires tree { IsTree tree.now }
    requires decls { IsDeclsOf decls.now tree.now.items }
{
    let marks = Marks::new(told.alloc(), tree, decls, &mut Counts::default()).ok()?;
    ask_under(tree, decls, &marks, question, words, told)
}

/// Asks the code of the program under these marks.
fn ask_under(
    tree: &Tree,
    decls: &Decls,
    marks: &Marks<Counts>,
    question: Question,
    words: &[Vec<u8>],
    told: &mut Told,
) -> Option<()>
    requires tree { IsTree tree.now }
    requires decls { IsDeclsOf decls.now tree.now.items }
    requires marks { MarksTell (offences marks.now.verdicts) tree.now.items }
{
    let mut work = Counts::default();
    let code = generated(told.alloc(), tree, decls, marks, &mut work)?;
    match question {
        Question::Run(telling) => run::play(decls, &code, telling, words, told),
        question => answer(&code, tree.slots(), &mut work, question, words, told),
    }
}

/// The code of the program under its own marks, if there is memory for it.
fn generated(
    alloc: Global,
    tree: &Tree,
    decls: &Decls,
    marks: &Marks<Counts>,
    work: &mut Counts,
) -> Option<FlatCode<Counts>>
    requires tree { IsTree tree.now }
    requires decls { IsDeclsOf decls.now tree.now.items }
    requires marks { MarksTell (offences marks.now.verdicts) tree.now.items }
    ensures { IfSome result (λ code. IsProgramCode code) }
{
    match generate(alloc, tree, marks, decls, work) {
        Ok(code) => Some(code),
        Err(_) => None,
    }
}

/// Answers the question about the code of a program of so many slots, which was made with this work, if it takes
/// these words.
fn answer(
    code: &FlatCode<Counts>,
    slots: u32,
    work: &mut Counts,
    question: Question,
    words: &[Vec<u8>],
    told: &mut Told,
) -> Option<()> {
    match (question, words) {
        (Question::Code, []) => tell_code(code, work, told),
        (Question::Counted, []) => tell_counts(code, work, told),
        (Question::Entry, [name]) => told.value_line(&code.entry(&Name::read(name.as_slice())?)),
        (Question::Procedure, [name]) => {
            told.value_line(&code.procedure(&Name::read(name.as_slice())?));
        }
        (Question::Address, [slot, point]) => {
            told.value_line(&code.address(place_of(slot.as_slice(), point.as_slice())?));
        }
        (Question::Span, [slot]) => {
            told.value_line(&code.span(Slot(number_of(slot.as_slice())?)));
        }
        (Question::Places, []) => tell_places(code, slots, told),
        (Question::Spans, []) => tell_spans(code, slots, told),
        _ => return None,
    }
    Some(())
}

/// Tells each instruction of the code behind its address.
fn tell_code(code: &FlatCode<Counts>, work: &mut Counts, told: &mut Told) {
    for address in 0..code.length() {
        told.value(&address);
        told.put(b' ');
        show_instr(code.fetch(address, work).instr(), told);
        told.put(b'\n');
    }
}

/// Tells what was counted when the code was made, and what is counted once each of its instructions was fetched,
/// too.
fn tell_counts(code: &FlatCode<Counts>, work: &mut Counts, told: &mut Told) {
    told.value_line(work);
    for address in 0..code.length() {
        // What is fetched is dropped: the count alone is told.
        let _ = code.fetch(address, work);
    }
    told.value_line(work);
}

/// Tells the places in the code of the slots below this number, and the address of each.
fn tell_places(code: &FlatCode<Counts>, slots: u32, told: &mut Told) {
    for slot in 0..slots {
        tell_points(code, slot, told);
    }
}

/// Tells the places in the code of the slot, of points up to 255, and the address of each.
fn tell_points(code: &FlatCode<Counts>, slot: u32, told: &mut Told) {
    for point in 0..=255 {
        let place = Place {
            slot: Slot(slot),
            point: Point(point),
        };
        if let Some(address) = code.address(place) {
            told.value(&slot);
            told.put(b' ');
            told.value(&point);
            told.text(" at ");
            told.value_line(&address);
        }
    }
}

/// Tells where the code of each slot below this number stands, if it has code.
fn tell_spans(code: &FlatCode<Counts>, slots: u32, told: &mut Told) {
    for slot in 0..slots {
        if let Some((address, length)) = code.span(Slot(slot)) {
            told.value(&slot);
            told.text(" at ");
            told.value(&address);
            told.text(", ");
            told.value(&length);
            told.line(" long");
        }
    }
}

/// The place in the code of the program that the words of a case say, a slot and a point.
fn place_of(slot: &[u8], point: &[u8]) -> Option<Place> {
    let slot = Slot(number_of(slot)?);
    let point = Point(u16::try_from(number_of(point)?).ok()?);
    Some(Place { slot, point })
}
