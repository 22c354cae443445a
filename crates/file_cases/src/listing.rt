//! Texts read as listings.

ghost use Rattle.template_tree.specs.Programs.Tree.{IsTree};

use crate::call::Way;
use case_script::{Told, number_of};
use file_store::{FileRefusal, read_listing};
use plcs_base::ByteOut;
use std::alloc::Global;
use template_tree::Tree;

/// Puts a line behind the text of a listing so many times, at these levels.
pub(crate) fn lengthen(
    text: &mut Vec<u8>,
    way: Way,
    times: &[u8],
    line: &[u8],
    told: &mut Told,
) -> Option<()> {
    let times = number_of(times)?;
    for k in 0..times {
        let level = match way {
            Way::Level => 1,
            Way::Deeper => k.saturating_add(1),
            Way::Higher => times - k,
        };
        push_at(text, level, line)?;
    }
    told.value(&times);
    told.line(" lines");
    Some(())
}

/// Puts a line of the level behind the text of a listing.
fn push_at(text: &mut Vec<u8>, level: u32, line: &[u8]) -> Option<()> {
    for _ in 0..level {
        text.extend_from_slice(b"  ").ok()?;
    }
    text.extend_from_slice(line).ok()?;
    text.push(b'\n').ok()
}

/// Reads the text, with these pieces behind it, as a listing.
pub(crate) fn read(text: &[u8], pieces: &[Vec<u8>], told: &mut Told) -> Option<()> {
    match with_pieces(told.alloc(), text, pieces) {
        Some(bytes) => {
            tell_reading(reading_of(told.alloc(), bytes.as_slice()), told);
            drop(bytes);
            Some(())
        }
        None => None,
    }
}

/// The text that is read as a listing, with these pieces behind it.
fn with_pieces(alloc: Global, text: &[u8], pieces: &[Vec<u8>]) -> Option<Vec<u8>> {
    match text.to_vec(alloc) {
        Ok(mut bytes) => match push_pieces(&mut bytes, pieces) {
            Some(()) => Some(bytes),
            None => {
                drop(bytes);
                None
            }
        },
        Err(_) => None,
    }
}

/// Puts these pieces behind the text that is read as a listing.
fn push_pieces(text: &mut Vec<u8>, pieces: &[Vec<u8>]) -> Option<()> {
    for piece in pieces {
        text.extend_from_slice(piece.as_slice()).ok()?;
    }
    Some(())
}

/// Tells what a text is read as that may be a listing.
fn tell_reading(reading: Reading, told: &mut Told) {
    match reading {
        Reading::Same(slots) => {
            told.value(&slots);
            told.line(" slots, listed as it was read");
        }
        Reading::Other => told.line("listed otherwise than it was read"),
        Reading::Refused(refusal) => told.value_line(&refusal),
    }
}

/// What a case finds that a text is read as which may be a listing.
#[derive(Clone, Copy)]
pub(crate) enum Reading {
    /// A tree of so many slots, whose listing it is.
    Same(u32),
    /// A tree with another listing.
    Other,
    /// No tree.
    Refused(FileRefusal),
}

/// Reads the text as a listing, and lists what was read.
pub(crate) fn reading_of(alloc: Global, text: &[u8]) -> Reading {
    match read_listing(alloc, text) {
        Ok(tree) => {
            let reading = compared(&tree, text);
            drop(tree);
            reading
        }
        Err(refusal) => Reading::Refused(refusal),
    }
}

/// What a text that may be a listing is read as, where that is this tree.
fn compared(tree: &Tree, text: &[u8]) -> Reading
    requires { IsTree tree.now }
{
    let mut out = Listed {
        left: text,
        same: true,
    };
    tree.put_listing(&mut out);
    if out.same && out.left.is_empty() {
        Reading::Same(tree.slots())
    } else {
        Reading::Other
    }
}

/// Compares a listing, as it is put, with the text that was read as that listing.
#[derive(Drop)]
struct Listed<'a> {
    left: &'a [u8],
    same: bool,
}

impl ByteOut for Listed<'_> {
    ghost puts = { λ _ _ _. Unit {0} };

    fn put(&mut self, byte: u8) {
        match self.left {
            [first, rest @ ..] if *first == byte => self.left = rest,
            _ => self.same = false,
        }
    }
}
