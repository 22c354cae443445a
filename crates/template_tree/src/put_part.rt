//! Parts of nodes that are set, and what may be set in them.
ghost use Rattle.std.specs.Prelude.{◌≡◌, ◌↔◌, IsOk, IfOk, IfErr, IsTrue, Some, map, slice_get};
ghost use Rattle.plcs_grammar.specs.Template.{plain_segment};
ghost use Rattle.template_tree.specs.Programs.Part.{IsPhrasePlace, Takes, part_category, with_part};
ghost use Rattle.template_tree.specs.Programs.PlainPhrasePlace.{plain_phrase_place};
ghost use Rattle.template_tree.specs.Programs.Program.{IsSubtree, may_be_empty, parts_of};

use crate::node::Node;
use crate::phrase_place::PhrasePlace;
use plcs_grammar::{Category, NodeKind, Segment};
use std::mem;

impl Node {
    /// Sets the part of the node to this and gives back what was there. What doesn't fit is given back:
    /// where there is no such part, where the phrase is of another category, and where an assignment
    /// would be empty. It takes no memory.
    pub fn put_part(&mut self, part: u8, place: PhrasePlace) -> Result<PhrasePlace, PhrasePlace>
        requires node { IsSubtree self.old }
        requires phrase { IsPhrasePlace (plain_phrase_place place) }
        ensures fits { IsOk result ↔ (Takes (part_category self.old.label.kind part) (plain_phrase_place place)) }
        ensures set { IfOk result (λ old. (slice_get self.old.label.parts part ≡ Some (plain_phrase_place old))
            × (self.new ≡ with_part part (plain_phrase_place place) self.old)) }
        ensures refused { IfErr result (λ back. (back ≡ place) × (self.new ≡ self.old)) }
    {
        if !takes(self.kind, part, &place) {
            return Err(place);
        }
        let Some(there) = self.parts.get_mut(part as usize) else {
            return Err(place);
        };
        Ok(mem::replace(there, place))
    }
}

/// Whether the part of a node of the kind takes this, a phrase or nothing.
fn takes(kind: NodeKind, part: u8, place: &PhrasePlace) -> bool
    ensures { IsTrue result ↔ (Takes (part_category kind part) (plain_phrase_place place.now)) }
{
    let Some(category) = part_category(kind, part) else {
        return false;
    };
    match place {
        PhrasePlace::Empty => may_be_empty(category),
        PhrasePlace::Filled(phrase) => phrase.category() == category,
    }
}

/// Whether a part of the category may be set to nothing.
fn may_be_empty(category: Category) -> bool
    ensures { result ≡ may_be_empty category }
{
    category != Category::Assignment
}

/// The category of what may be set in a part of a node of the kind, parts counted from 0, or `None` where it
/// has no such part. It takes no memory.
pub fn part_category(kind: NodeKind, part: u8) -> Option<Category>
    ensures { result ≡ part_category kind part }
{
    part_of(kind.row().line, part)
}

/// The category of what may be set in a node's part of this number, as the line of its row has it, or `None`
/// where the line has no such part.
fn part_of(line: &[Segment], part: u8) -> Option<Category>
    ensures { result ≡ slice_get (parts_of (map plain_segment line.now)) part }
{
    let Some((segment, rest)) = line.split_first() else {
        return None;
    };
    match segment {
        Segment::Words(_) => part_of(rest, part),
        Segment::Part(category) if part == 0 => Some(*category),
        Segment::Part(_) => part_of(rest, part - 1),
    }
}
