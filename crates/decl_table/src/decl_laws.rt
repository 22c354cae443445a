//! The laws of tables of declarations, each a function that does nothing and whose contract states it.
ghost use Rattle.decl_table.specs.DeclLaws.{PutInPlaceAgrees, TablesIgnoreElision, TablesIgnoreProgramRoom, TablesIgnoreRoom};
ghost use Rattle.decl_table.specs.DueLaws.{DueAreCounted, DueAreFew, DueCountIgnoresRoom, DueIgnoresRoom, DueIsOne};
ghost use Rattle.decl_table.specs.ListOffences.{ListOffencesAreVerdicts};

use template_tree::checks_ignore_room_and_elision;

/// A prepared edit that is put in place leaves the table of the edited program.
pub fn put_in_place_agrees()
    ensures { PutInPlaceAgrees }
{}

/// Neither room nor elision plays a part in which table is that of a program: not the room of the table, nor that of
/// the program's lists, nor which comments are elided.
pub fn tables_ignore_room_and_elision()
    ensures table { TablesIgnoreRoom }
    ensures program { TablesIgnoreProgramRoom }
    ensures elision { TablesIgnoreElision }
{
    checks_ignore_room_and_elision();
}

/// No more phrases are due for a check after an edit than the program has.
pub fn due_are_few()
    ensures { DueAreFew }
{}

/// Just as many phrases are due for a check after an edit as are counted by what it did in its slot, whatever the room
/// of lists.
pub fn due_are_counted()
    ensures counted { DueAreCounted }
    ensures room { DueCountIgnoresRoom }
{
    checks_ignore_room_and_elision();
}

/// There is one list of the phrases that are due for a check after an edit.
pub fn due_is_one()
    ensures { DueIsOne }
{}

/// Which phrases are due for a check after an edit doesn't depend on the room of lists.
pub fn due_ignores_room()
    ensures { DueIgnoresRoom }
{
    checks_ignore_room_and_elision();
}

/// The offences of the declared lists of a procedure, one after the other, are their verdicts.
pub fn list_offences_are_verdicts()
    ensures { ListOffencesAreVerdicts }
{}
