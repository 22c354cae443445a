//! The commands of files, `.save` and `.load`, and the copy that is saved where memory ran out.
ghost use Rattle.std.specs.Prelude.{◌≡◌, ◌≤◌, codes, true};
ghost use Rattle.template_tree.specs.Listings.Listing.{Listing};
ghost use Rattle.template_tree.specs.Programs.PlainTree.{roomless_tree};
ghost use Rattle.template_tree.specs.Programs.Tree.{IsTree};
ghost use Rattle.file_store.specs.Saved.{Saves};
ghost use Rattle.synth_session.specs.FileCommands.{load_outcome, save_outcome};
ghost use Rattle.synth_session.specs.KeyReply.{Reply, Request};
ghost use Rattle.synth_session.specs.Private.UncountedKey.{DoesUncounted};
ghost use Rattle.synth_session.specs.SessionView.{CountsOutcome, Does, DoesByReply, IsReadyForKey, IsSession, plain_session};

use crate::answer::{Answer, Refusal};
use crate::program::Program;
use crate::session::Session;
use cursor_moves::top;
use file_store::{FileRefusal, load, loading_ignores_room, rescue, save};
use plcs_base::{OutOfMemory, Work};
use session_words::Notice;
use std::alloc::Global;
use synth_outside::Files;
use template_tree::{Tree, room_is_not_shown};

impl<W: Work> Session<W> {
    /// Does what `.save` asks for: saves the listing of the program under the name. It takes no memory of its
    /// own.
    pub(crate) fn save<F: Files>(
        &mut self,
        name: &[u8],
        files: &mut F,
    ) -> Result<Answer, OutOfMemory>
        requires { IsReadyForKey self.old }
        ensures { DoesUncounted true (Request.Save name.now (Listing (plain_session self.old).tree.items))
            (save_outcome (plain_session self.old)) self.old self.new
            (F.told files.old) (F.told files.new) result }
    {
        room_is_not_shown();
        match save(&self.program.tree, name, files) {
            Ok(()) => Ok(self.accept_line_with(Notice::Saved)),
            Err(refusal) => match refusal {
                FileRefusal::OutOfMemory => Err(OutOfMemory),
                _ => Ok(self.refuse(Refusal::File(refusal))),
            },
        }
    }

    /// Does what `.load` asks for: loads the program of the name in place of the one that is edited.
    pub(crate) fn load<F: Files>(
        &mut self,
        alloc: Global,
        name: &[u8],
        files: &mut F,
        work: &mut W,
    ) -> Result<Answer, OutOfMemory>
        requires session { IsReadyForKey self.old }
        ensures does { DoesByReply true (Request.Load name.now)
            (load_outcome (plain_session self.old)) self.old self.new
            (F.told files.old) (F.told files.new) (W.counts work.old) (W.counts work.new) result }
    {
        room_is_not_shown();
        loading_ignores_room();
        match load(alloc, name, files) {
            Ok(tree) => self.take_program(alloc, tree, work),
            Err(refusal) => match refusal {
                FileRefusal::OutOfMemory => Err(OutOfMemory),
                _ => Ok(self.refuse(Refusal::File(refusal))),
            },
        }
    }

    /// What `.load` does with the program that was loaded: takes it in place of the one that is edited, with
    /// the cursor at main. All memory is taken before anything is changed.
    fn take_program(
        &mut self,
        alloc: Global,
        tree: Tree,
        work: &mut W,
    ) -> Result<Answer, OutOfMemory>
        requires session { IsReadyForKey self.old }
        requires tree { IsTree tree }
        ensures does { Does true (load_outcome (plain_session self.old) (Reply.Loaded (roomless_tree tree)))
            self.old self.new result }
        ensures counts { CountsOutcome (load_outcome (plain_session self.old) (Reply.Loaded (roomless_tree tree)))
            (W.counts work.old) (W.counts work.new) result }
    {
        match Program::new(alloc, tree, work) {
            Ok(program) => {
                self.stop = top(&program.tree);
                self.program.give_way(program);
                self.run.end();
                self.edits.clear();
                self.top = 0;
                Ok(self.accept_line())
            }
            Err(OutOfMemory) => Err(OutOfMemory),
        }
    }

    /// Saves the listing of the session's program under the name `RESCUE`, where memory ran out. It takes no
    /// memory of its own.
    pub fn rescue<F: Files>(&self, files: &mut F) -> Result<(), FileRefusal>
        requires { IsSession self.now }
        ensures { Saves (codes "RESCUE") (Listing (plain_session self.now).tree.items) result
            (F.told files.old) (F.told files.new) }
    {
        room_is_not_shown();
        rescue(&self.program.tree, files)
    }
}
