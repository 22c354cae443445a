//! Code in one list, with where everything stands in it.
ghost use Rattle.std.specs.Prelude.{◌≡◌};

use crate::addresses::Addresses;
use crate::block::{Block, Emitted};
use crate::code_view::CodeView;
use crate::headings::Headings;
use crate::spans::Spans;
use plcs_base::{Name, Place, Slot, Work};
use std::marker::Model;

/// The code of a program in one list of instructions that were emitted, with its places, effective headings
/// and slots. Contracts see it as code.
#[derive(Drop)]
pub struct FlatCode<W> {
    pub(crate) block: Block<W>,
    pub(crate) addresses: Addresses,
    pub(crate) headings: Headings,
    pub(crate) spans: Spans,
}

impl<W> Model for FlatCode<W> {
    ghost use Rattle.plcs_code.specs.Gen.{PlainCode};
    ghost use Rattle.plcs_code.specs.Private.InstrCode.{plain_code_code};

    ghost Value = { PlainCode };

    ghost coded = { plain_code_code };

    ghost view = { λ a. record { instrs = a.block; addresses = a.addresses; headings = a.headings; spans = a.spans } };
}

impl<W: Work> CodeView<W> for FlatCode<W> {
    ghost code = { λ flat. flat };

    fn length(&self) -> u32 {
        self.block.length()
    }

    fn fetch(&self, address: u32, work: &mut W) -> &Emitted<W> {
        work.fetched();
        self.block.get(address)
    }

    fn address(&self, place: Place) -> Option<u32> {
        self.addresses.get(place)
    }

    fn entry(&self, name: &Name) -> Option<u32> {
        match self.headings.get(name) {
            Some(entry) => Some(entry.address),
            None => None,
        }
    }

    fn procedure(&self, name: &Name) -> Option<Slot> {
        match self.headings.get(name) {
            Some(entry) => Some(entry.slot),
            None => None,
        }
    }

    fn span(&self, slot: Slot) -> Option<(u32, u32)> {
        self.spans.get(slot)
    }
}
