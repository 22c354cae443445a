//! What words say of a view.

use crate::words::{number_at, word_at};
use case_script::meaning;
use plcs_base::{Place, Point, Slot};

/// What a view shows beside the program, its marks and the code.
#[derive(Clone, Copy)]
pub struct ViewWords<'a> {
    /// The slot at which the cursor stands, and its part.
    pub slot: u32,
    pub part: Option<u8>,
    /// The number of the first line in the window.
    pub top: u32,
    /// The slot of the run's place, and its point.
    pub run: Option<u32>,
    pub point: u16,
    pub output: &'a [u8],
    pub message: &'a [u8],
    pub prompt: &'a [u8],
    pub typed: &'a [u8],
}

impl ViewWords<'_> {
    /// The place of the run that the words of a view say.
    pub fn run_place(&self) -> Option<Place> {
        let slot = self.run?;
        Some(Place {
            slot: Slot(slot),
            point: Point(self.point),
        })
    }
}

/// What a pair of words of a view is about.
#[derive(Clone, Copy)]
enum Field {
    Slot,
    Part,
    Top,
    Run,
    Point,
    Output,
    Message,
    Prompt,
    Typed,
}

/// The names of a view's fields, as the words say them.
static FIELDS: [(&[u8], Field); 9] = [
    (b"at", Field::Slot),
    (b"part", Field::Part),
    (b"top", Field::Top),
    (b"run", Field::Run),
    (b"point", Field::Point),
    (b"output", Field::Output),
    (b"message", Field::Message),
    (b"prompt", Field::Prompt),
    (b"typed", Field::Typed),
];

/// What the words say of a view, from the third on: pairs of a name and a value.
pub fn view_words(words: &[Vec<u8>]) -> Option<ViewWords<'_>> {
    let mut view = ViewWords {
        slot: 0,
        part: None,
        top: 0,
        run: None,
        point: 0,
        output: &[],
        message: &[],
        prompt: b"statement> ",
        typed: &[],
    };
    let mut k = 2;
    while k < words.len() {
        view = with_field(view, meaning(&FIELDS, word_at(words, k))?, words, k + 1)?;
        k += 2;
    }
    Some(view)
}

/// The view with the word of this number in its field.
fn with_field<'a>(
    view: ViewWords<'a>,
    field: Field,
    words: &'a [Vec<u8>],
    k: usize,
) -> Option<ViewWords<'a>> {
    let mut view = view;
    let text = word_at(words, k);
    let number = number_at(words, k);
    match field {
        Field::Slot => view.slot = number?,
        Field::Part => view.part = Some(u8::try_from(number?).ok()?),
        Field::Top => view.top = number?.min(1_000_000),
        Field::Run => view.run = Some(number?),
        Field::Point => view.point = u16::try_from(number?).ok()?,
        Field::Output => view.output = text,
        Field::Message => view.message = text,
        Field::Prompt => view.prompt = text,
        Field::Typed => view.typed = text,
    }
    Some(view)
}
