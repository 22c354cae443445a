//! The words that cases begin with.

use crate::clip_calls::ClipCall;
use crate::edit::EditWord;
use crate::edit_calls::EditsCall;
use crate::held_nodes::HeldCall;
use crate::node_calls::Reader;
use crate::stop_calls::StopsCall;
use crate::stop_edits::StopCall;
use crate::tree_calls::TreeCall;

/// What a case on trees asks for, by its first word.
#[derive(Clone, Copy)]
pub(crate) enum Case {
    /// An edit.
    Edit(EditWord),
    /// Many edits.
    Edits(EditsCall),
    /// An edit at a stop of the cursor, or what may be done there.
    AtStop(StopCall),
    /// Another tree, or what the tree shows.
    Tree(TreeCall),
    /// A node that is held beside the tree.
    Held(HeldCall),
    /// A part of a node that is lent for writing.
    PutPart,
    /// What is read of the tree.
    Node(Reader),
    /// The visible stops.
    Stops(StopsCall),
    /// Clips.
    Clips(ClipCall),
}

/// Each word that a case on trees begins with, with its case.
pub(crate) static CASES: [(&[u8], Case); 48] = [
    (b"fill", Case::Edit(EditWord::Fill)),
    (b"fill_assign", Case::Edit(EditWord::FillAssign)),
    (b"set_phrase", Case::Edit(EditWord::SetPhrase)),
    (b"set_empty", Case::Edit(EditWord::SetEmpty)),
    (b"insert_copy", Case::Edit(EditWord::InsertCopy)),
    (b"take", Case::Edit(EditWord::Take)),
    (b"add_hole", Case::Edit(EditWord::AddHole)),
    (b"drop_hole", Case::Edit(EditWord::DropHole)),
    (b"repeat", Case::Edits(EditsCall::Repeat)),
    (b"nest", Case::Edits(EditsCall::Nest)),
    (b"walk", Case::Edits(EditsCall::Walk)),
    (b"random_walk", Case::Edits(EditsCall::RandomWalk)),
    (b"noted", Case::Edits(EditsCall::Noted)),
    (b"apply", Case::AtStop(StopCall::Apply)),
    (b"try", Case::AtStop(StopCall::Try)),
    (b"move", Case::AtStop(StopCall::Move)),
    (b"wants", Case::AtStop(StopCall::Wants)),
    (b"shown", Case::AtStop(StopCall::Shown)),
    (b"new", Case::Tree(TreeCall::New)),
    (b"read_listing", Case::Tree(TreeCall::ReadListing)),
    (b"keep", Case::Tree(TreeCall::Keep)),
    (b"same", Case::Tree(TreeCall::Same)),
    (b"elide", Case::Tree(TreeCall::Elide)),
    (b"enter_slots", Case::Tree(TreeCall::EnterSlots)),
    (b"take_as", Case::Held(HeldCall::TakeAs)),
    (b"copy_node", Case::Held(HeldCall::CopyNode)),
    (b"copy", Case::Held(HeldCall::Copy)),
    (b"insert", Case::Held(HeldCall::Insert)),
    (b"held", Case::Held(HeldCall::Held)),
    (b"retake", Case::Held(HeldCall::Retake)),
    (b"put_part", Case::PutPart),
    (b"listing", Case::Node(Reader::Listing)),
    (b"nodes", Case::Node(Reader::Nodes)),
    (b"slots", Case::Node(Reader::Slots)),
    (b"procedures", Case::Node(Reader::Procedures)),
    (b"node", Case::Node(Reader::Node)),
    (b"slots_at", Case::Node(Reader::SlotsAt)),
    (b"path_of", Case::Node(Reader::PathOf)),
    (b"paths_below", Case::Node(Reader::PathsBelow)),
    (b"stops", Case::Stops(StopsCall::Stops)),
    (b"top", Case::Stops(StopsCall::Top)),
    (b"bottom", Case::Stops(StopsCall::Bottom)),
    (b"no_clips", Case::Clips(ClipCall::New)),
    (b"put", Case::Clips(ClipCall::Put)),
    (b"put_phrase", Case::Clips(ClipCall::PutPhrase)),
    (b"get", Case::Clips(ClipCall::Get)),
    (b"would_hold", Case::Clips(ClipCall::WouldHold)),
    (b"reserve", Case::Clips(ClipCall::Reserve)),
];
