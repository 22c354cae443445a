//! What instructions are laid into: a draft, or a tally, which counts them ahead.
ghost use Rattle.std.specs.Prelude.{◌≡◌, ◌+◌, ◌≤◌, [], false, IfOk, OnOk, box_value, length};
ghost use Rattle.plcs_base.specs.PlainCounts.{PlainCounts};
ghost use Rattle.plcs_code.specs.BlockLimit.{most_instrs};
ghost use Rattle.plcs_code.specs.PlainInstr.{PlainInstr, plain_instr};

use crate::block::Block;
use crate::instr::Instr;
use crate::limit::MOST_INSTRS;
use plcs_base::{OutOfMemory, TextValue, Work};
use std::alloc::Global;
use std::marker::Model;

/// Something that instructions are laid into, one behind the other.
///
/// Where memory runs out it takes no more of them, which is told at the end.
pub(crate) trait InstrOut<W: Work> {
    /// What it is before, the counts then, the instruction, and what it and the counts may be after.
    ghost lays: { Self → PlainCounts → PlainInstr → Self → PlainCounts → Type 0 };

    /// Lays an instruction behind those that were laid before.
    fn put(&mut self, instr: Instr, work: &mut W)
        ensures { lays self.old (W.counts work.old) (plain_instr instr) self.new (W.counts work.new) };

    /// Takes no more instructions from now on, as if memory had run out. For code that has too many of
    /// something, which no program within the limits has.
    fn refuse(&mut self, work: &mut W)
        ensures { (instr : PlainInstr) → lays self.old (W.counts work.old) instr self.new (W.counts work.new) };

    /// Lays the instruction that pushes a text.
    fn put_text(&mut self, alloc: Global, text: &TextValue, work: &mut W)
        ensures { lays self.old (W.counts work.old) (PlainInstr.push_text text.now) self.new (W.counts work.new) };
}

/// Code while it is laid, which contracts see as its instructions, and whether memory ran out.
#[derive(Drop)]
pub(crate) struct Draft<W> {
    block: Block<W>,
    failed: bool,
}

impl<W> Model for Draft<W> {
    ghost use Rattle.plcs_code.specs.Private.PlainDraft.{PlainDraft, draft_code};

    ghost Value = { PlainDraft };

    ghost coded = { draft_code };

    ghost view = { λ a. record { instrs = a.block; failed = a.failed } };
}

impl<W> Draft<W> {
    /// A draft of no instructions. It takes no memory.
    pub(crate) fn new(alloc: Global) -> Draft<W>
        ensures { result ≡ record { instrs = []; failed = false } }
    {
        Draft {
            block: Block::new(alloc),
            failed: false,
        }
    }

    /// How many instructions the draft has so far.
    pub(crate) fn length(&self) -> u32
        ensures { result ≡ length self.now.instrs }
    {
        self.block.length()
    }

    /// How many instructions the draft has, if memory didn't run out.
    pub(crate) fn end(&self) -> Result<u32, OutOfMemory>
        ensures length { IfOk result (λ n. n ≡ length self.now.instrs) }
        ensures whole { OnOk result (self.now.failed ≡ false) }
    {
        if self.failed {
            return Err(OutOfMemory);
        }
        Ok(self.block.length())
    }

    /// The instructions of the draft.
    pub(crate) fn into_block(self) -> Block<W>
        ensures { result ≡ self.instrs }
    {
        self.block
    }

    /// The instructions of the draft, if memory didn't run out.
    pub(crate) fn into_whole(self) -> Result<Block<W>, OutOfMemory>
        ensures instrs { IfOk result (λ block. block ≡ self.instrs) }
        ensures whole { OnOk result (self.failed ≡ false) }
    {
        if self.failed {
            drop(self);
            return Err(OutOfMemory);
        }
        Ok(self.block)
    }
}

impl<W: Work> InstrOut<W> for Draft<W> {
    ghost use Rattle.plcs_code.specs.Private.PlainDraft.{DraftsOne};

    ghost lays = { DraftsOne };

    fn put(&mut self, instr: Instr, work: &mut W) {
        if self.failed {
            drop(instr);
            return;
        }
        if let Err(_) = self.block.emit(instr, work) {
            self.failed = true;
        }
    }

    fn refuse(&mut self, _work: &mut W) {
        self.failed = true;
    }

    fn put_text(&mut self, alloc: Global, text: &TextValue, work: &mut W) {
        if self.failed {
            return;
        }
        match boxed(alloc, text) {
            Ok(text) => self.put(Instr::PushText(text), work),
            Err(_) => self.failed = true,
        }
    }
}

/// What is laid into a draft of the text of an instruction: a copy in a box.
fn boxed(alloc: Global, text: &TextValue) -> Result<Box<TextValue>, OutOfMemory>
    ensures { IfOk result (λ copy. box_value copy ≡ text.now) }
{
    Ok(Box::new(alloc, text.clone()?)?)
}

/// How many instructions code will have, while they are counted ahead, and whether there are too many.
#[derive(Drop)]
pub(crate) struct Tally {
    count: u32,
    failed: bool,
}

impl Model for Tally {
    ghost use Rattle.std.specs.Prelude.{◌≤◌};
    ghost use Rattle.plcs_code.specs.BlockLimit.{most_instrs};
    ghost use Rattle.plcs_code.specs.Private.PlainDraft.{PlainTally, tally_code};

    ghost Value = { PlainTally };

    ghost coded = { tally_code };

    ghost view = { λ a. record { count = a.count; failed = a.failed } };

    ghost invariant = { λ a. a.count ≤ most_instrs };
}

impl Tally {
    /// A tally of no instructions.
    pub(crate) fn new() -> Tally
        ensures { result ≡ record { count = 0; failed = false } }
    {
        Tally {
            count: 0,
            failed: false,
        }
    }

    /// How many instructions were laid into the tally, if there aren't too many.
    pub(crate) fn end(&self) -> Result<u32, OutOfMemory>
        ensures count { IfOk result (λ n. n ≡ self.now.count) }
        ensures short { IfOk result (λ n. n ≤ most_instrs) }
        ensures whole { OnOk result (self.now.failed ≡ false) }
    {
        if self.failed {
            return Err(OutOfMemory);
        }
        Ok(self.count)
    }

    /// Counts one instruction more in the tally.
    fn raise(&mut self)
        ensures { (self.new.failed ≡ false → self.old.failed ≡ false) ×
            (self.new.failed ≡ false → self.new.count ≡ self.old.count + 1) }
    {
        if self.count >= MOST_INSTRS as u32 {
            self.failed = true;
            return;
        }
        self.count += 1;
    }
}

impl<W: Work> InstrOut<W> for Tally {
    ghost use Rattle.plcs_code.specs.Private.PlainDraft.{TalliesOne};

    ghost lays = { TalliesOne };

    fn put(&mut self, instr: Instr, _work: &mut W) {
        self.raise();
        drop(instr);
    }

    fn refuse(&mut self, _work: &mut W) {
        self.failed = true;
    }

    fn put_text(&mut self, _alloc: Global, _text: &TextValue, _work: &mut W) {
        self.raise();
    }
}
