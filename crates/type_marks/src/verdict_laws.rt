//! The law of verdicts: a function that does nothing and whose contract states it.
ghost use Rattle.type_marks.specs.VerdictLaws.{VerdictsStayUnlessDue};

use template_tree::checks_ignore_room_and_elision;

/// The verdict of a phrase that isn't due for a check after an edit, and didn't go in it, stays.
pub fn verdicts_stay_unless_due()
    ensures { VerdictsStayUnlessDue }
{
    checks_ignore_room_and_elision();
}
