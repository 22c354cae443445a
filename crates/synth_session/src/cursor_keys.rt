//! The keys and commands that move the cursor.
ghost use Rattle.std.specs.Prelude.{◌≡◌, ◌==◌, IfSome, length, if◌then◌else◌};
ghost use Rattle.template_tree.specs.Positions.Stop.{IsStop, plain_stop};
ghost use Rattle.cursor_moves.specs.Move.{moved_to, stop_down, stop_left, stop_right, stop_up};
ghost use Rattle.synth_session.specs.CursorKeys.{cursor_goes, cursor_moved};
ghost use Rattle.synth_session.specs.KeyOutcome.{line_acceptance_outcome, refusal_outcome};
ghost use Rattle.synth_session.specs.Private.MemorylessKey.{HasOutcome};
ghost use Rattle.synth_session.specs.SessionView.{IsReadyForKey, plain_session};

use crate::answer::{Answer, Refusal};
use crate::session::Session;
use cursor_moves::{Move, down, left, right, up};
use plcs_base::Work;
use template_tree::Stop;

impl<W: Work> Session<W> {
    /// Does what Up asks for: moves the cursor to an earlier line.
    pub(crate) fn move_up(&mut self) -> Answer
        requires { IsReadyForKey self.old }
        ensures { HasOutcome (cursor_moved (plain_session self.old) stop_up) self.old self.new result }
    {
        let to = up(&self.program.tree, &self.stop);
        self.go(to)
    }

    /// Does what Down asks for: moves the cursor to a later line.
    pub(crate) fn move_down(&mut self) -> Answer
        requires { IsReadyForKey self.old }
        ensures { HasOutcome (cursor_moved (plain_session self.old) stop_down) self.old self.new result }
    {
        let to = down(&self.program.tree, &self.stop);
        self.go(to)
    }

    /// Does what Left asks for: moves the cursor to the stop before.
    pub(crate) fn move_left(&mut self) -> Answer
        requires { IsReadyForKey self.old }
        ensures { HasOutcome (cursor_moved (plain_session self.old) stop_left) self.old self.new result }
    {
        let to = left(&self.program.tree, &self.stop);
        self.go(to)
    }

    /// Does what Right asks for: moves the cursor to the next stop.
    pub(crate) fn move_right(&mut self) -> Answer
        requires { IsReadyForKey self.old }
        ensures { HasOutcome (cursor_moved (plain_session self.old) stop_right) self.old self.new result }
    {
        let to = right(&self.program.tree, &self.stop);
        self.go(to)
    }

    /// Does what `.top` and `.bottom` ask for: moves the cursor to the stop.
    pub(crate) fn go_to(&mut self, stop: Stop) -> Answer
        requires session { IsReadyForKey self.old }
        requires stop { IsStop (plain_session self.old).tree.items (plain_stop stop) }
        ensures { HasOutcome
            (line_acceptance_outcome (record (plain_session self.old) { stop = plain_stop stop }))
            self.old self.new result }
    {
        self.stop = stop;
        self.accept_line()
    }

    /// Lets the cursor go where a move leads, where nothing is typed.
    fn go(&mut self, to: Move) -> Answer
        requires session { IsReadyForKey self.old }
        requires stop { IfSome (moved_to to) (IsStop (plain_session self.old).tree.items) }
        ensures { HasOutcome
            (if length self.old.typed.items == 0 then cursor_goes (plain_session self.old) (moved_to to)
            else refusal_outcome (plain_session self.old) Refusal.NotHere)
            self.old self.new result }
    {
        if !self.typed.is_empty() {
            return self.refuse(Refusal::NotHere);
        }
        match to {
            Move::Moved(stop) => {
                self.stop = stop;
                self.accept()
            }
            Move::AtEdge => self.refuse(Refusal::AtEdge),
        }
    }
}
