//! The command that takes back the newest edit that is kept.
ghost use Rattle.std.specs.Prelude.{true};
ghost use Rattle.synth_session.specs.SessionView.{CountsOutcome, Does, IsReadyForKey, plain_session};
ghost use Rattle.synth_session.specs.UndoCommand.{undo_outcome};

use crate::answer::{Answer, Refusal};
use crate::session::Session;
use edit_undo::{UndoFault, undone_trees_check_alike};
use plcs_base::{OutOfMemory, Work};
use std::alloc::Global;
use tree_steps::agreement_lasts;

impl<W: Work> Session<W> {
    /// Does what `.undo` asks for: takes the newest edit back that is kept, with the cursor where it stood before.
    pub(crate) fn undo_edit(&mut self, alloc: Global, work: &mut W) -> Result<Answer, OutOfMemory>
        requires session { IsReadyForKey self.old }
        ensures does { Does true (undo_outcome (plain_session self.old)) self.old self.new result }
        ensures counts { CountsOutcome (undo_outcome (plain_session self.old))
            (W.counts work.old) (W.counts work.new) result }
    {
        agreement_lasts();
        undone_trees_check_alike();
        if self.edits.held() == 0 {
            return Ok(self.refuse(Refusal::NothingToUndo));
        }
        match self.keep_for_run(alloc) {
            Ok(()) => match self.program.undo(alloc, &mut self.edits, work) {
                Ok(stop) => {
                    self.run.forget();
                    self.stop = stop;
                    Ok(self.accept_line())
                }
                Err(UndoFault::OutOfMemory) => Err(OutOfMemory),
                Err(UndoFault::NothingToUndo) => unreachable!(),
            },
            Err(OutOfMemory) => Err(OutOfMemory),
        }
    }
}
