//! The laws of clips, each a function that does nothing and whose contract states it.
ghost use Rattle.clip_store.specs.ClipRoomLaws.{ClipsIgnoreRoom, FragmentRoomGoesOnce, FragmentSlotsIgnoreRoom, FullnessIgnoresRoom, PutsIgnoreRoom, WholenessBringsNoRoom, WholenessIgnoresRoom};
ghost use Rattle.clip_store.specs.KeptClipLaws.{ClipsAreKeptWhole, FragmentSlotsAreKept, FullnessIsKept, PutsAreKeptWhole, WholenessGoesOnce};

use template_tree::room_is_not_shown;

/// The room of lists plays no part in which fragment is under a name, in what is put there, in how many
/// slots count, and in what a fragment is with nothing elided.
pub fn room_is_not_clipped()
    ensures once { FragmentRoomGoesOnce }
    ensures clips { ClipsIgnoreRoom }
    ensures puts { PutsIgnoreRoom }
    ensures fullness { FullnessIgnoresRoom }
    ensures slots { FragmentSlotsIgnoreRoom }
    ensures whole { WholenessIgnoresRoom }
    ensures whole_once { WholenessBringsNoRoom }
{
    room_is_not_shown();
}

/// A clip keeps its whole fragment: which fragment is under a name, what is put there and how many slots
/// count is the same of the plain form in which nothing is elided, and lists have no room.
pub fn clips_are_kept_whole()
    ensures once { WholenessGoesOnce }
    ensures clips { ClipsAreKeptWhole }
    ensures puts { PutsAreKeptWhole }
    ensures fullness { FullnessIsKept }
    ensures slots { FragmentSlotsAreKept }
{
    room_is_not_shown();
}
