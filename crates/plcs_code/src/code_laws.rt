//! The laws of code, each a function that does nothing and whose contract states it.
ghost use Rattle.plcs_code.specs.CodeLaws.{AddressesHoldSteps, CallsComeBack, EntriesAreHeadings, EntriesBeginProcedures, JumpsStayInNodes, JumpsStayInside, LengthsAreTold, OwnCodesAddUp, OwnCodesAreTold, OwnLengthsStay, PassedStartsStand, PlacesHaveAddresses, SpansHoldCode};
ghost use Rattle.plcs_code.specs.Landing.{BodiesBegin, SecondBodiesBegin, StatementsGoOn, StepsHaveAddresses};
ghost use Rattle.plcs_code.specs.OwnCode.{JumpsAreFew, OwnStepsEndInSlot};
ghost use Rattle.plcs_code.specs.ProgramCode.{CodeAsksItems, CodeIgnoresElision, CodeIgnoresRoom, CodeIsOfProgram, ProgramCodeIgnoresAllElision, ProgramCodeIgnoresElision, ProgramCodeIgnoresRoom, ProgramItemsTell};

use template_tree::checks_ignore_room_and_elision;

/// How many instructions the code of each node has is told without that code: jumps don't change it. The own
/// code of a node is as long, whatever stands inside it.
pub fn lengths_are_told()
    ensures told { LengthsAreTold }
    ensures own { OwnLengthsStay }
{}

/// The own code of a slot is as long as its node says, and the code of a program as long as the own codes of
/// all its nodes together.
pub fn own_codes_add_up()
    ensures slot { OwnCodesAreTold }
    ensures program { OwnCodesAddUp }
{}

/// Each jump of a code goes to an address in it or to its end: in the code of a program, and in that of each node
/// of one.
pub fn jumps_stay_inside()
    ensures program { JumpsStayInside }
    ensures nodes { JumpsStayInNodes }
{}

/// The code of what stands in a slot is what the span of the slot tells of the program's code; only a slot of a
/// node that has code has a span.
pub fn spans_hold_code()
    ensures { SpansHoldCode }
{}

/// The law that a place of a run exists exactly where code has an address for it.
pub fn places_have_addresses()
    ensures { PlacesHaveAddresses }
{}

/// At the address of a place stands the step that ends there. A group, a comment or an Until begins where its
/// first item does, and a call comes back at the end of its code.
pub fn addresses_hold_steps()
    ensures steps { AddressesHoldSteps }
    ensures starts { PassedStartsStand }
    ensures calls { CallsComeBack }
{}

/// The headings that code knows are the effective ones; the procedure of each is entered where its code begins.
pub fn entries_are_headings()
    ensures headings { EntriesAreHeadings }
    ensures addresses { EntriesBeginProcedures }
{}

/// At the end of the code of a statement a run comes by jumps alone to where it goes on once the statement is done.
pub fn statements_go_on()
    ensures { StatementsGoOn }
{}

/// The code of what stands inside a node begins with the step at which a run begins that comes to it.
pub fn bodies_begin()
    ensures first { BodiesBegin }
    ensures second { SecondBodiesBegin }
{}

/// A step that ends at a place has the address of that place.
pub fn steps_have_addresses()
    ensures { StepsHaveAddresses }
{}

/// The steps of a node's own code end at places of the node's slot, and two jumps at most are among it.
pub fn own_codes_stay_in_slots()
    ensures steps { OwnStepsEndInSlot }
    ensures jumps { JumpsAreFew }
{}

/// Code doesn't depend on the room of lists, nor on which comments are elided, and of the map of items it asks only
/// which items a slot has.
pub fn code_ignores_room_and_elision()
    ensures room { CodeIgnoresRoom }
    ensures elision { CodeIgnoresElision }
    ensures items { CodeAsksItems }
{}

/// A program has one code: that by any marks and items that tell of it, whatever the room of its lists, and
/// whichever of its comments are elided.
pub fn programs_have_one_code()
    ensures items { ProgramItemsTell }
    ensures made { CodeIsOfProgram }
    ensures room { ProgramCodeIgnoresRoom }
    ensures elision { ProgramCodeIgnoresElision }
    ensures all_elision { ProgramCodeIgnoresAllElision }
{
    checks_ignore_room_and_elision();
}
