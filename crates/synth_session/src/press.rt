//! Keys pressed in a session, and the laws of refused keys and of phrase text.
ghost use Rattle.std.specs.Prelude.{◌≡◌, ◌≤◌};
ghost use Rattle.synth_session.specs.KeyReply.{RunsHaveOneReply, TextsHaveOneReply};
ghost use Rattle.synth_session.specs.KeyRequest.{request};
ghost use Rattle.synth_session.specs.MemoryTaken.{key_takes_memory};
ghost use Rattle.synth_session.specs.Press.{RefusedKeysChangeTheMessage, RefusedKeysCostNothing, RunningKeysHaveRuns, StillKeysFetchNothing, key_outcome, press};
ghost use Rattle.synth_session.specs.UndoLaw.{EditsAreKept, UndoComesBack};
ghost use Rattle.synth_session.specs.SessionView.{DoesByReply, IsReadyForKey, plain_session};

use crate::answer::{Answer, Refusal};
use crate::key::Key;
use crate::session::Session;
use edit_undo::undone_trees_check_alike;
use phrase_parser::one_standing;
use plcs_base::{OutOfMemory, Work};
use plcs_code::programs_have_one_code;
use resume_rule::{answers_follow_frames, answers_ignore_room_and_elision};
use std::alloc::Global;
use synth_outside::Files;
use template_tree::checks_ignore_room_and_elision;

impl<W: Work> Session<W> {
    /// Does what a key asks for, with the files where it asks something of them. Where memory runs out, the
    /// session and the map of the files are as they were.
    #[tactic(auto, unfolding(crate::specs::Press::press))]
    pub fn press<F: Files>(
        &mut self,
        alloc: Global,
        key: Key,
        files: &mut F,
        work: &mut W,
    ) -> Result<Answer, OutOfMemory>
        requires { IsReadyForKey self.old }
        ensures pressed { DoesByReply (key_takes_memory (plain_session self.old) key)
            (request (plain_session self.old) key) (press (plain_session self.old) key) self.old self.new
            (F.told files.old) (F.told files.new) (W.counts work.old) (W.counts work.new) result }
    {
        let shown = self.code_from;
        self.code_from = None;
        let answer = self.press_plain(alloc, key, files, work);
        if let Err(OutOfMemory) = answer {
            self.code_from = shown;
        }
        answer
    }

    /// Does what a key asks for in a session that shows no code.
    fn press_plain<F: Files>(
        &mut self,
        alloc: Global,
        key: Key,
        files: &mut F,
        work: &mut W,
    ) -> Result<Answer, OutOfMemory>
        requires ready { IsReadyForKey self.old }
        ensures pressed { DoesByReply (key_takes_memory (plain_session self.old) key)
            (request (plain_session self.old) key) (key_outcome (plain_session self.old) key) self.old self.new
            (F.told files.old) (F.told files.new) (W.counts work.old) (W.counts work.new) result }
    {
        match key {
            Key::Char(byte) => Ok(self.type_char(byte)),
            Key::Enter => self.enter(alloc, files, work),
            Key::Erase => Ok(self.erase()),
            Key::Clear => Ok(self.accept_line()),
            Key::Tab => Ok(self.type_phrase()),
            Key::Up => Ok(self.move_up()),
            Key::Down => Ok(self.move_down()),
            Key::Left => Ok(self.move_left()),
            Key::Right => Ok(self.move_right()),
            Key::Other => Ok(self.refuse(Refusal::UnknownCommand)),
        }
    }
}

/// The law of refused keys: such a key changes the message alone, but for a display of code, which it ends, and
/// nothing is counted in it, whatever is replied.
pub fn refused_keys_change_the_message()
    ensures message { RefusedKeysChangeTheMessage }
    ensures work { RefusedKeysCostNothing }
{}

/// The law of keys in which the run goes on: then a run stands, and its key made no more steps than it asks for. No
/// instruction is fetched in any other key.
pub fn running_keys_have_runs()
    ensures runs { RunningKeysHaveRuns }
    ensures still { StillKeysFetchNothing }
{}

/// The law of `.undo`: it comes back to the program before the latest edit that is kept, with its slots, marks and
/// code, and with the cursor where it stood; a run may be resumed where it might be before. An edit is kept where it
/// took out no more than may be held.
pub fn undo_comes_back()
    ensures back { UndoComesBack }
    ensures kept { EditsAreKept }
{
    undone_trees_check_alike();
    checks_ignore_room_and_elision();
    programs_have_one_code();
    answers_follow_frames();
    answers_ignore_room_and_elision();
}

/// The law of resumption: at most one thing can be replied to whether a run may go on.
pub fn runs_have_one_reply()
    ensures { RunsHaveOneReply }
{}

/// The law of phrase text: exactly one thing can be replied to a text in a category, which is what it is there.
pub fn texts_have_one_reply()
    ensures { TextsHaveOneReply }
{
    one_standing();
}
