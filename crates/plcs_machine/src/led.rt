//! What an instruction leads to.
ghost use Rattle.std.specs.Prelude.{◌≡◌};
ghost use Rattle.plcs_machine.specs.Private.PlainLed.{going_to};

use crate::step_act::StepAct;
use plcs_base::{Place, Value};
use plcs_code::HeadingEntry;
use plcs_store::{Location, Reason};

/// What an instruction leads to: it writes, reads, or something else.
#[derive(Drop)]
pub(crate) enum Doing {
    /// So many newest operands are written, on a new line or not.
    Writes(bool, u32),
    /// This value is stored into the cell at a location; it took so many bytes of the input.
    Reads(Location, Value, u32),
    /// Anything else.
    Leads(Led),
}

/// What an instruction that neither writes nor reads leads to. Its operands and arguments stand in the room for them.
#[derive(Drop)]
pub(crate) enum Led {
    /// The instruction at this address comes next.
    GoesOn(u32),
    /// This act is done, and the run goes on at this address.
    Acts(StepAct, u32),
    /// The procedure of this heading is called, with so many newest arguments.
    Enters(HeadingEntry, u32),
    /// The step ends at this place.
    Arrives(Place),
    /// The run is over.
    Ends,
    /// The step stops for this reason.
    Stops(Reason),
}

/// The address at which an instruction comes next, or `None` where none does.
pub(crate) fn next_address(doing: &Doing) -> Option<u32>
    ensures { result ≡ going_to doing.now }
{
    match doing {
        Doing::Writes(_, _) => None,
        Doing::Reads(_, _, _) => None,
        Doing::Leads(led) => match led {
            Led::GoesOn(address) => Some(*address),
            Led::Acts(_, _) => None,
            Led::Enters(_, _) => None,
            Led::Arrives(_) => None,
            Led::Ends => None,
            Led::Stops(_) => None,
        },
    }
}

/// What an instruction leads to that goes on to no other, with the address behind it, and how many fetches are
/// left.
#[derive(Drop)]
pub(crate) struct Walked {
    /// What the instruction leads to.
    pub(crate) doing: Doing,
    /// The address behind it.
    pub(crate) next: u32,
    /// How many fetches are left.
    pub(crate) left: u32,
}
