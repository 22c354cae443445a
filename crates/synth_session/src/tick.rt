//! Ticks: the steps that a key makes in the run of a session.

ghost use Rattle.std.specs.Prelude.{◌≡◌, ◌<◌, false, IfOk, IsSome, OnErr, OnOk};
ghost use Rattle.plcs_machine.specs.Fetched.{FetchesAtMost, FetchesBy};
ghost use Rattle.synth_session.specs.Private.ProgramSteps.{StepsOfPrograms};
ghost use Rattle.synth_session.specs.Private.TickDone.{DoesTicked, HasTried};
ghost use Rattle.synth_session.specs.PlainSession.{PlainSession};
ghost use Rattle.synth_session.specs.Press.{RunningKeysFit};
ghost use Rattle.synth_session.specs.RunStop.{with_cursor_at_run};
ghost use Rattle.synth_session.specs.SessionView.{Agrees, HasFittingRun, HasProgramCode, IsPlaced, IsReadyForKey, IsSession, own_steps, plain_session};
ghost use Rattle.synth_session.specs.Tick.{AreDefined, CallsNext, CountsTick, DoesTick, IsFirstDefined, IsRunning, IsTickDefined, RunFits, ShownTicksGoOn, TicksKeepProgram, WantsInTick, all_steps, next_answer, one_step, program_steps, rested_in, settled, steps_left, tick, tried};

use crate::run_notice::reason_notice;
use crate::session::Session;
use plcs_base::{OutOfMemory, Work};
use plcs_code::programs_have_one_code;
use plcs_machine::code_steps_as_tree;
use plcs_store::{RunReason, new_runs_fit, steps_keep_fit};
use resume_rule::{fitting_runs_are_resolved, resumed_runs_fit};
use session_edit::shown_stop;
use session_words::Message;
use std::alloc::Global;
use std::mem;
use template_tree::room_is_not_shown;

/// What came of a tick.
#[derive(Clone, Copy, Debug, PartialEq, Eq)]
pub enum Tick {
    /// A step was made and is to be shown; there may be more.
    Again,
    /// The run stands still.
    Over,
}

impl<W: Work> Session<W> {
    /// Makes steps of the run that stands, after a key that was answered with `Running`: where each is shown one, and
    /// else all that the key asked for. Each is a step by the code that the session has. Where a step wants memory,
    /// those before it stand.
    #[tactic(auto, unfolding(crate::specs::Tick::tick))]
    pub fn tick(&mut self, alloc: Global, work: &mut W) -> Result<Tick, OutOfMemory>
        requires session { IsSession self.old }
        requires running { IsRunning (plain_session self.old) }
        requires defined { IsTickDefined (own_steps self.old) (plain_session self.old) }
        ensures does { DoesTick (own_steps self.old) (plain_session self.old) (plain_session self.new) result }
        ensures counted { CountsTick (tick (own_steps self.old) (plain_session self.old)).fetches
            (W.counts work.old) (W.counts work.new) result }
        ensures session { IsSession self.new }
        ensures program { self.new.program ≡ self.old.program }
        ensures edits { self.new.edits ≡ self.old.edits }
        ensures screens { self.new.screens ≡ self.old.screens }
        ensures fits { HasProgramCode self.old → RunFits (plain_session self.old)
            → HasFittingRun self.old → HasFittingRun self.new }
        ensures stays_fit { HasProgramCode self.old → RunFits (plain_session self.old)
            → RunFits (plain_session self.new) }
    {
        if self.trace {
            self.show_step(alloc, work)
        } else {
            self.make_steps(alloc, work)
        }
    }

    /// Says of a session with a run that goes on, before a tick, that each step of the tick is defined, and is the step
    /// of the program itself, also where memory runs out in it. It does nothing.
    pub fn steps_are_the_programs(&self)
        requires ready { IsReadyForKey self.now }
        requires running { IsRunning (plain_session self.now) }
        requires fits { RunFits (plain_session self.now) }
        ensures defined { IsTickDefined (own_steps self.now) (plain_session self.now) }
        ensures same { tick (own_steps self.now) (plain_session self.now)
            ≡ tick (program_steps (plain_session self.now).tree (plain_session self.now).input)
            (plain_session self.now) }
        ensures wanted { (now : PlainSession) → WantsInTick (own_steps self.now) (plain_session self.now) now
            → WantsInTick (program_steps (plain_session self.now).tree (plain_session self.now).input)
            (plain_session self.now) now }
    {
        steps_of_programs();
    }

    /// Says of a session before a key that the run fits the program after it, where it goes on in the key. It does
    /// nothing.
    pub fn running_keys_fit(&self)
        requires { IsReadyForKey self.now }
        ensures { RunningKeysFit (plain_session self.now) }
    {
        new_runs_fit();
        resumed_runs_fit();
        fitting_runs_are_resolved();
        room_is_not_shown();
    }

    /// Makes a step that is shown, where the key asked for one more.
    #[tactic(auto, unfolding(crate::specs::Tick::tried))]
    fn show_step(&mut self, alloc: Global, work: &mut W) -> Result<Tick, OutOfMemory>
        requires session { IsSession self.old }
        requires running { IsRunning (plain_session self.old) }
        requires defined { IsFirstDefined (own_steps self.old) (steps_left (plain_session self.old))
            (plain_session self.old) }
        ensures does { DoesTicked
            (one_step (own_steps self.old) (steps_left (plain_session self.old)) (plain_session self.old))
            (own_steps self.old) (plain_session self.old) (plain_session self.new) result }
        ensures counted { CountsTick
            (one_step (own_steps self.old) (steps_left (plain_session self.old)) (plain_session self.old)).fetches
            (W.counts work.old) (W.counts work.new) result }
        ensures session { IsSession self.new }
        ensures program { self.new.program ≡ self.old.program }
        ensures edits { self.new.edits ≡ self.old.edits }
        ensures screens { self.new.screens ≡ self.old.screens }
        ensures fits { HasProgramCode self.old → RunFits (plain_session self.old)
            → HasFittingRun self.old → HasFittingRun self.new }
        ensures stays_fit { HasProgramCode self.old → RunFits (plain_session self.old)
            → RunFits (plain_session self.new) }
    {
        if self.made == self.asked {
            return Ok(self.rest(RunReason::Paused));
        }
        let Ok(tried) = self.try_step(alloc, work) else {
            return Err(OutOfMemory);
        };
        match tried {
            None => {
                self.message = None;
                self.settle();
                Ok(Tick::Again)
            }
            Some(reason) => Ok(self.rest(reason)),
        }
    }

    /// Makes all steps that the key asked for, as far as the run goes.
    fn make_steps(&mut self, alloc: Global, work: &mut W) -> Result<Tick, OutOfMemory>
        requires session { IsSession self.old }
        requires running { IsRunning (plain_session self.old) }
        requires unshown { self.old.trace ≡ false }
        requires defined { AreDefined (own_steps self.old) (steps_left (plain_session self.old))
            (plain_session self.old) }
        ensures does { DoesTicked
            (all_steps (own_steps self.old) (steps_left (plain_session self.old)) (plain_session self.old))
            (own_steps self.old) (plain_session self.old) (plain_session self.new) result }
        ensures counted { CountsTick
            (all_steps (own_steps self.old) (steps_left (plain_session self.old)) (plain_session self.old)).fetches
            (W.counts work.old) (W.counts work.new) result }
        ensures session { IsSession self.new }
        ensures program { self.new.program ≡ self.old.program }
        ensures edits { self.new.edits ≡ self.old.edits }
        ensures screens { self.new.screens ≡ self.old.screens }
        ensures fits { HasProgramCode self.old → RunFits (plain_session self.old)
            → HasFittingRun self.old → HasFittingRun self.new }
        ensures stays_fit { HasProgramCode self.old → RunFits (plain_session self.old)
            → RunFits (plain_session self.new) }
    {
        while self.made < self.asked {
            let Ok(tried) = self.try_step(alloc, work) else {
                return Err(OutOfMemory);
            };
            if let Some(reason) = tried {
                return Ok(self.rest(reason));
            }
        }
        Ok(self.rest(RunReason::Paused))
    }

    /// Tries the next step of the run: `None` where it was made, and else why the run stands still.
    fn try_step(&mut self, alloc: Global, work: &mut W) -> Result<Option<RunReason>, OutOfMemory>
        requires session { IsSession self.old }
        requires running { IsRunning (plain_session self.old) }
        requires left { self.old.made < self.old.asked }
        requires defined { IsSome (next_answer (own_steps self.old) (plain_session self.old)) }
        ensures tried { IfOk result (λ reason. HasTried (tried (own_steps self.old) (plain_session self.old))
            (plain_session self.old) (plain_session self.new) reason) }
        ensures counted { OnOk result (FetchesBy (tried (own_steps self.old) (plain_session self.old)).fetches
            (W.counts work.old) (W.counts work.new)) }
        ensures counts { FetchesAtMost (tried (own_steps self.old) (plain_session self.old)).fetches
            (W.counts work.old) (W.counts work.new) }
        ensures refused { OnErr result (plain_session self.new ≡ plain_session self.old) }
        ensures calls { OnErr result (CallsNext (own_steps self.old) (plain_session self.old)) }
        ensures session { IsSession self.new }
        ensures program { self.new.program ≡ self.old.program }
        ensures edits { self.new.edits ≡ self.old.edits }
        ensures input { self.new.input ≡ self.old.input }
        ensures screens { self.new.screens ≡ self.old.screens }
        ensures fits { HasProgramCode self.old → RunFits (plain_session self.old)
            → HasFittingRun self.old → HasFittingRun self.new }
        ensures stays_fit { HasProgramCode self.old → RunFits (plain_session self.old)
            → RunFits (plain_session self.new) }
    {
        steps_of_programs();
        let Ok(tried) = self.run.try_step(
            alloc,
            &self.program.dependents.code,
            self.input.as_slice(),
            work,
        )
        else {
            return Err(OutOfMemory);
        };
        match tried {
            None => {
                self.made += 1;
                Ok(None)
            }
            Some(reason) => Ok(Some(reason)),
        }
    }

    /// Lets the run stand still for a reason, which is told.
    fn rest(&mut self, reason: RunReason) -> Tick
        requires session { IsSession self.old }
        requires stands { IsSome (plain_session self.old).run }
        ensures over { result ≡ Tick.Over }
        ensures rested { plain_session self.new
            ≡ settled (rested_in (plain_session self.old) reason (plain_session self.old).run) }
        ensures session { IsSession self.new }
        ensures program { self.new.program ≡ self.old.program }
        ensures edits { self.new.edits ≡ self.old.edits }
        ensures screens { self.new.screens ≡ self.old.screens }
        ensures fits { HasFittingRun self.old → HasFittingRun self.new }
        ensures stays_fit { RunFits (plain_session self.old) → RunFits (plain_session self.new) }
    {
        self.run.rest(reason);
        self.message = Some(Message::Notice(reason_notice(reason)));
        self.settle();
        Tick::Over
    }

    /// Puts the cursor where the run's place is shown, and the window so that the cursor is seen.
    fn settle(&mut self)
        requires session { IsSession self.old }
        ensures settled { plain_session self.new ≡ settled (plain_session self.old) }
        ensures session { IsSession self.new }
        ensures program { self.new.program ≡ self.old.program }
        ensures edits { self.new.edits ≡ self.old.edits }
        ensures run { self.new.run ≡ self.old.run }
        ensures screens { self.new.screens ≡ self.old.screens }
    {
        self.go_to_run();
        self.follow();
    }

    /// Puts the cursor where the run's place is shown, if a run stands and its place is live.
    #[tactic(auto, unfolding(crate::specs::RunStop::with_cursor_at_run))]
    pub(crate) fn go_to_run(&mut self)
        requires agrees { Agrees self.old.program }
        requires placed { IsPlaced (plain_session self.old) }
        ensures gone { plain_session self.new ≡ with_cursor_at_run (plain_session self.old) }
        ensures placed { IsPlaced (plain_session self.new) }
        ensures program { self.new.program ≡ self.old.program }
        ensures edits { self.new.edits ≡ self.old.edits }
        ensures run { self.new.run ≡ self.old.run }
        ensures screens { self.new.screens ≡ self.old.screens }
    {
        let Some(place) = self.run.place() else {
            return;
        };
        if let Some(stop) = shown_stop(&self.program.tree, place.slot) {
            drop(mem::replace(&mut self.stop, stop));
        }
    }
}

/// The law of steps by the code of a program, whatever the room of its lists: what fits the program has a step, which
/// is its step by the program alone, and fits after it.
fn steps_of_programs()
    ensures { StepsOfPrograms }
{
    code_steps_as_tree();
    programs_have_one_code();
    steps_keep_fit();
    room_is_not_shown();
}

/// The laws of ticks: what they leave of a session, and that the run goes on after one that shows a step, with one step
/// less to be made.
pub fn ticks_go_on()
    ensures kept { TicksKeepProgram }
    ensures shown { ShownTicksGoOn }
{}
