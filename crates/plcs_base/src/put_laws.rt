//! The law of bytes that are put, a function that does nothing and whose contract states it.
ghost use Rattle.plcs_base.specs.Put.{PutsInTurn};

use crate::byte_out::ByteOut;

/// The law that putting some bytes and then some more is putting the ones followed by the others.
pub fn puts_in_turn<O: ByteOut>()
    ensures { PutsInTurn O.puts }
{}
