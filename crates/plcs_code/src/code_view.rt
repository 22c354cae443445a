//! Views of code: what it tells to the machine that runs it and to the screen.
use crate::block::Emitted;
use plcs_base::{Name, Place, Slot, Work};

/// A view of the code of a program: its instructions in order, where the places of a run and the code of
/// each slot stand among them, and the procedures that may be called. No call takes memory.
///
/// Contracts see it as that: a list of instructions, and finite maps from places to addresses, from names
/// to effective headings, and from slots to where their code stands. Addresses count from 0.
pub trait CodeView<W: Work> {
    ghost use Rattle.std.specs.Prelude.{◌≡◌, ◌<◌, Some, length, option_map, slice_get};
    ghost use Rattle.std.specs.FinMap.{get};
    ghost use Rattle.plcs_base.specs.PlainCounts.{FetchesOne};
    ghost use Rattle.plcs_code.specs.Gen.{PlainCode};

    ghost code: { Self → PlainCode };

    /// How many instructions the viewed code has.
    fn length(&self) -> u32
        ensures { result ≡ length (code self.now).instrs };

    /// The instruction of the viewed code at the address, which is counted as fetched.
    fn fetch(&self, address: u32, work: &mut W) -> &Emitted<W>
        requires { address < length (code self.now).instrs }
        ensures fetched { Some result.now ≡ slice_get (code self.now).instrs address }
        ensures counted { FetchesOne (W.counts work.old) (W.counts work.new) };

    /// The address of the place in the viewed code, or `None` where it doesn't exist.
    fn address(&self, place: Place) -> Option<u32>
        ensures { result ≡ get (code self.now).addresses place };

    /// The address in the viewed code of the first instruction of the procedure whose effective heading has the name,
    /// or `None` where none has it.
    fn entry(&self, name: &Name) -> Option<u32>
        ensures { result ≡ option_map (λ entry. entry.address) (get (code self.now).headings name.now) };

    /// The slot that the viewed code has of the effective heading that has the name, or `None` where none has it.
    fn procedure(&self, name: &Name) -> Option<Slot>
        ensures { result ≡ option_map (λ entry. entry.slot) (get (code self.now).headings name.now) };

    /// In the viewed code, where the code of what stands in the slot is, inner nodes included: the address of
    /// the first instruction and the number of instructions, or `None` where the slot isn't live or has no
    /// code: where a declaration or a hole for a procedure stands.
    fn span(&self, slot: Slot) -> Option<(u32, u32)>
        ensures { result ≡ get (code self.now).spans slot.0 };
}
