//! The commands that edit the program at the cursor.
ghost use Rattle.std.specs.Prelude.{◌≡◌, ◌*◌, ◌≤◌, true, OnOk};
ghost use Rattle.template_tree.specs.Programs.Limit.{most_slots};
ghost use Rattle.template_tree.specs.Positions.Stop.{IsStop, plain_stop};
ghost use Rattle.session_edit.specs.PlainEdit.{BringsWhatMayStand, plain_edit};
ghost use Rattle.synth_session.specs.EditCommands.{edit_refusal, edited_by, session_with};
ghost use Rattle.synth_session.specs.KeyOutcome.{line_acceptance_outcome};
ghost use Rattle.synth_session.specs.Private.EditedProgram.{CameFrom, noted_trees, program_before};
ghost use Rattle.synth_session.specs.Private.KeptRun.{HasForgottenRun, HasKeptRun};
ghost use Rattle.synth_session.specs.Private.MemorylessKey.{HasOutcome};
ghost use Rattle.synth_session.specs.SessionView.{Agrees, CountsOutcome, Does, HasProgramCode, IsReadyForKey, plain_session};

use crate::answer::{Answer, Refusal};
use crate::session::Session;
use edit_undo::{EditRecord, edits_are_noted, undone_trees_check_alike};
use plcs_base::{OutOfMemory, Work};
use plcs_store::{kept_is_one, runs_ignore_room_and_elision};
use session_edit::{Applied, Edit};
use std::alloc::Global;
use std::mem;
use template_tree::{TreeFault, room_is_not_shown};
use tree_steps::{agreement_lasts, edits_follow};

impl<W: Work> Session<W> {
    /// Edits the program at the cursor, as a command or phrase text asks for, and takes the typed line.
    pub(crate) fn edit(
        &mut self,
        alloc: Global,
        edit: Edit,
        work: &mut W,
    ) -> Result<Answer, OutOfMemory>
        requires session { IsReadyForKey self.old }
        requires edit { BringsWhatMayStand edit }
        ensures does { Does true (edited_by (plain_session self.old) (plain_edit edit)) self.old self.new result }
        ensures counts { CountsOutcome (edited_by (plain_session self.old) (plain_edit edit))
            (W.counts work.old) (W.counts work.new) result }
    {
        room_is_not_shown();
        edits_follow();
        agreement_lasts();
        undone_trees_check_alike();
        match self.keep_for_run(alloc) {
            Ok(()) => match self.program.change(alloc, &self.stop, edit, work) {
                Ok(applied) => Ok(self.accept_edit(applied)),
                Err(fault) => match fault {
                    TreeFault::OutOfMemory => Err(OutOfMemory),
                    _ => Ok(self.refuse(edit_refusal(fault))),
                },
            },
            Err(OutOfMemory) => {
                drop(edit);
                Err(OutOfMemory)
            }
        }
    }

    /// Keeps of the program, before it is edited, what is asked for when the run that stands goes on.
    pub(crate) fn keep_for_run(&mut self, alloc: Global) -> Result<(), OutOfMemory>
        requires ready { IsReadyForKey self.old }
        ensures ready { IsReadyForKey self.new }
        ensures kept { OnOk result (HasKeptRun self.new) }
        ensures plain { plain_session self.new ≡ plain_session self.old }
        ensures program { self.new.program ≡ self.old.program }
        ensures clips { self.new.clips ≡ self.old.clips }
        ensures screens { self.new.screens ≡ self.old.screens }
        ensures undos { self.new.run.undos ≡ self.old.run.undos }
        ensures edits { self.new.edits ≡ self.old.edits }
    {
        room_is_not_shown();
        edits_follow();
        runs_ignore_room_and_elision();
        kept_is_one();
        agreement_lasts();
        undone_trees_check_alike();
        self.run
            .keep(alloc, &self.program.tree, &self.program.dependents.decls)
    }

    /// Accepts a key that edited the program, as was applied, and notes the edit so that it can be undone.
    pub(crate) fn accept_edit(&mut self, applied: Applied) -> Answer
        requires agrees { Agrees self.old.program }
        requires stop { IsStop (plain_session self.old).tree.items (plain_stop applied.stop) }
        requires top { self.old.top ≤ 4 * most_slots }
        requires code { HasProgramCode self.old }
        requires came { CameFrom self.old.edits (plain_session self.old).stop (plain_session self.old).tree applied }
        requires run { HasForgottenRun self.old (noted_trees (program_before applied (plain_session self.old).tree)
            self.old.edits (plain_session self.old).stop (plain_session self.old).tree applied) }
        ensures { HasOutcome (line_acceptance_outcome
            (record (session_with (plain_session self.old) (plain_session self.old).tree (plain_stop applied.stop)) {
              earlier = noted_trees (program_before applied (plain_session self.old).tree) self.old.edits
                  (plain_session self.old).stop (plain_session self.old).tree applied;
            })) self.old self.new result }
    {
        edits_are_noted();
        undone_trees_check_alike();
        agreement_lasts();
        room_is_not_shown();
        self.run.forget();
        let stop = mem::replace(&mut self.stop, applied.stop);
        self.edits.note(EditRecord {
            receipt: applied.receipt,
            back: applied.taken,
            stop,
        });
        self.accept_line()
    }
}

/// The refusal of a command that edits the program at the cursor, where the edit isn't made for this fault.
pub(crate) fn edit_refusal(fault: TreeFault) -> Refusal
    ensures { result ≡ edit_refusal fault }
{
    match fault {
        TreeFault::NotHere => Refusal::NotHere,
        fault => Refusal::Tree(fault),
    }
}
