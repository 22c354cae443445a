//! The laws of checking; each a function that does nothing and whose contract states it.
ghost use Rattle.template_tree.specs.Laws.CheckLaws.{ChecksIgnoreAllElision, ChecksIgnoreElision, ChecksIgnoreRoom};

/// What a program declares and mentions, and the verdicts of its phrases, don't depend on the room of its
/// lists, nor on which comments are elided.
pub fn checks_ignore_room_and_elision()
    ensures room { ChecksIgnoreRoom }
    ensures elision { ChecksIgnoreElision }
    ensures all_elision { ChecksIgnoreAllElision }
{}
