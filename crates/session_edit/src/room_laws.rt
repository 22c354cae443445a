//! The laws of room on which edits at the stop of the cursor stand, in one.
ghost use Rattle.session_edit.specs.Private.RoomLaws.{RoomLaws};

use template_tree::{edits_ignore_room, room_is_not_shown};

/// The laws of room that edits at the cursor stand on: the room of lists plays no part in nodes, in
/// stops and in what edits make of trees.
pub(crate) fn room_laws()
    ensures { RoomLaws }
{
    room_is_not_shown();
    edits_ignore_room();
}
