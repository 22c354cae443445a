//! Blocks of instructions that were emitted, each of which is counted.
ghost use Rattle.std.specs.Prelude.{◌≡◌, ◌<◌, ◌≤◌, ◌∷◌, ◌++◌, [], OnErr, OnOk, Some, length, slice_get};
ghost use Rattle.plcs_base.specs.PlainCounts.{CountsNothing, EmitsOne};
ghost use Rattle.plcs_code.specs.BlockLimit.{most_instrs};
ghost use Rattle.plcs_code.specs.PlainInstr.{plain_instr};

use crate::instr::Instr;
use crate::limit::MOST_INSTRS;
use plcs_base::{OutOfMemory, Work};
use std::alloc::Global;
use std::marker::{Model, PhantomData};

/// An instruction that was emitted, which contracts see as that instruction.
///
/// Only `Block::emit` makes one, which is counted as work of `W`. It can't be copied.
#[derive(Drop)]
pub struct Emitted<W> {
    instr: Instr,
    of: PhantomData<W>,
}

impl<W> Model for Emitted<W> {
    ghost use Rattle.plcs_code.specs.PlainInstr.{PlainInstr, plain_instr};
    ghost use Rattle.plcs_code.specs.Private.InstrCode.{instr_code};

    ghost Value = { PlainInstr };

    ghost coded = { instr_code };

    ghost view = { λ a. plain_instr a.instr };
}

impl<W> Emitted<W> {
    /// The instruction that was emitted. It takes no memory.
    pub fn instr(&self) -> &Instr
        ensures { plain_instr result.now ≡ self.now }
    {
        &self.instr
    }
}

/// Instructions that were emitted, one behind the other, which contracts see as a list. It can't be
/// copied.
#[derive(Drop)]
pub struct Block<W> {
    list: Vec<Emitted<W>>,
}

impl<W> Model for Block<W> {
    ghost use Rattle.std.specs.Prelude.{List, length, ◌≤◌};
    ghost use Rattle.plcs_code.specs.BlockLimit.{most_instrs};
    ghost use Rattle.plcs_code.specs.PlainInstr.{PlainInstr};
    ghost use Rattle.plcs_code.specs.Private.InstrCode.{block_code};

    ghost Value = { List PlainInstr };

    ghost coded = { block_code };

    ghost view = { λ a. a.list.items };

    ghost invariant = { λ a. length a.list.items ≤ most_instrs };
}

impl<W> Block<W> {
    /// A block of no instructions. It takes no memory.
    pub fn new(alloc: Global) -> Block<W>
        ensures { result ≡ [] }
    {
        Block {
            list: Vec::new(alloc),
        }
    }

    /// How many instructions the block has. It takes no memory.
    pub fn length(&self) -> u32
        ensures length { result ≡ length self.now }
        ensures few { length self.now ≤ most_instrs }
    {
        self.list.len() as u32
    }

    /// The instruction of this number in the block, counted from 0. It takes no memory.
    pub fn get(&self, k: u32) -> &Emitted<W>
        requires { k < length self.now }
        ensures { Some result.now ≡ slice_get self.now k }
    {
        &self.list[k as usize]
    }
}

impl<W: Work> Block<W> {
    /// Puts an instruction behind those of the block, and counts it as emitted. It is the only way into a
    /// block.
    ///
    /// A block that has 2,147,483,647 instructions has no room for more, whatever memory there is, since
    /// no jump goes further.
    pub fn emit(&mut self, instr: Instr, work: &mut W) -> Result<(), OutOfMemory>
        ensures emitted { OnOk result (self.new ≡ self.old ++ (plain_instr instr ∷ [])) }
        ensures counted { OnOk result (EmitsOne (W.counts work.old) (W.counts work.new)) }
        ensures refused { OnErr result (self.new ≡ self.old) }
        ensures uncounted { OnErr result (CountsNothing (W.counts work.old) (W.counts work.new)) }
    {
        if self.list.len() >= MOST_INSTRS {
            drop(instr);
            return Err(OutOfMemory);
        }
        let Ok(()) = self.list.reserve(1) else {
            drop(instr);
            return Err(OutOfMemory);
        };
        work.emitted();
        self.list.push_reserved(Emitted {
            instr,
            of: PhantomData,
        });
        Ok(())
    }
}
