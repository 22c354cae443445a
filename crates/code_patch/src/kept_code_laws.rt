//! The laws of kept code, each in a function that does nothing and whose contract states it.
ghost use Rattle.code_patch.specs.KeptCodeLaws.{BillsIgnoreRoom, KeptCodeIgnoresElision, KeptCodeIgnoresRoom, KeptCodeIsOfProgram, KeptCodeIsTold};

use plcs_code::{lengths_are_told, programs_have_one_code};
use template_tree::checks_ignore_room_and_elision;

/// What is kept of the code of a program tells that code, whatever the room of its lists. By any marks and items that
/// tell of the program the same is kept.
pub fn kept_code_is_told()
    ensures kept { KeptCodeIsTold }
    ensures program { KeptCodeIsOfProgram }
{
    lengths_are_told();
    programs_have_one_code();
}

/// What is kept of the code of a program depends neither on the room of its lists nor on what is elided, and the bill
/// of an edit doesn't depend on room.
pub fn kept_code_ignores_room_and_elision()
    ensures room { KeptCodeIgnoresRoom }
    ensures elision { KeptCodeIgnoresElision }
    ensures bills { BillsIgnoreRoom }
{
    checks_ignore_room_and_elision();
    programs_have_one_code();
}
