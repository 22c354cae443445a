//! How paths, stops, changes, phrases and nodes are told.

use case_script::Told;
use plcs_base::ByteOut;
use plcs_grammar::{Phrase, show};
use template_tree::{Change, Node, PhrasePlace, Stop};

/// Tells a path: numbers with a comma between them; none are `-`.
pub(crate) fn tell_path(numbers: &[u32], told: &mut Told) {
    if numbers.is_empty() {
        told.put(b'-');
    }
    for (place, number) in numbers.iter().enumerate() {
        if place > 0 {
            told.put(b',');
        }
        told.value(number);
    }
}

/// Tells a stop: its path, and behind a colon its part.
pub(crate) fn tell_stop(stop: &Stop, told: &mut Told) {
    tell_path(stop.path.as_slice(), told);
    if let Some(part) = stop.part {
        told.put(b':');
        told.value(&part);
    }
}

/// Tells what an edit changed.
pub(crate) fn tell_change(change: Change, told: &mut Told) {
    told.text("slot ");
    told.value(&change.slot.0);
    told.text(" of procedure ");
    told.value(&change.procedure.0);
    told.text(": ");
    told.value(&change.what);
}

/// Tells a phrase, as that of a node or of a clip: its text, in quotes.
pub(crate) fn tell_phrase(phrase: &Phrase, told: &mut Told) {
    let mut shown = Told::new(told.alloc());
    show(phrase, &mut shown);
    told.word(shown.as_bytes());
    drop(shown);
}

/// Tells what stands in a part of a tree's node: a phrase, or `-` for nothing.
pub(crate) fn tell_place(place: &PhrasePlace, told: &mut Told) {
    match place {
        PhrasePlace::Empty => told.put(b'-'),
        PhrasePlace::Filled(phrase) => tell_phrase(phrase, told),
    }
}

/// Tells a node's kind, what stands in its parts, and which slots the nodes inside have.
pub(crate) fn tell_node(node: &Node, told: &mut Told) {
    told.value(&node.kind());
    for part in 0..=255 {
        let Some(place) = node.part(part) else {
            break;
        };
        told.put(b' ');
        tell_place(place, told);
    }
    if node.is_elided() {
        told.text(", elided");
    }
}
