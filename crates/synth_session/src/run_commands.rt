//! The commands of runs, `.run`, `.step`, `.resume`, `.back`, `.trace` and `.input`.
ghost use Rattle.std.specs.Prelude.{◌≡◌, ℕ, ◌<◌, ◌^◌, ◌≤◌, IsSome, Some, true, is_none, length, option_map};
ghost use Rattle.synth_session.specs.PlainRun.{PlainRun};
ghost use Rattle.synth_session.specs.RunCommands.{back_outcome, begun_outcome, going_outcome, input_outcome, most_steps, resume_outcome, run_outcome, running_outcome, step_outcome, trace_outcome};
ghost use Rattle.synth_session.specs.Private.MemorylessKey.{HasOutcome};
ghost use Rattle.synth_session.specs.Private.RunReply.{HasOutcomeByReply, DoesByRun};
ghost use Rattle.synth_session.specs.SessionView.{Agrees, CountsOutcome, Does, HasFittingEdits, HasFittingRun, HasProgramCode, IsPlaced, IsReadyForKey, plain_session};

use crate::answer::{Answer, Refusal};
use crate::session::Session;
use back_steps::NoHistory;
use file_store::FileRefusal;
use plcs_base::{OutOfMemory, Work};
use plcs_code::programs_have_one_code;
use plcs_machine::code_begins_as_tree;
use plcs_store::{RunReason, new_runs_fit, runs_ignore_room_and_elision, unedited_may_resume};
use resume_rule::{
    answers_ignore_room_and_elision, fitting_runs_are_resolved, kept_has_entries, resumed_runs_fit,
};
use session_words::Notice;
use std::alloc::Global;
use suspend_state::fitting_runs_are_kept;
use template_tree::room_is_not_shown;

/// How many steps `.run` and `.resume` ask for where no step is shown.
pub const MOST_RUN_STEPS: u32 = 10_000;

/// How many steps `.run` and `.resume` ask for where each is shown.
pub const MOST_TRACED_STEPS: u32 = 100;

impl<W: Work> Session<W> {
    /// Does what `.run` asks for: begins a new run.
    pub(crate) fn run_anew(&mut self, alloc: Global, work: &mut W) -> Result<Answer, OutOfMemory>
        requires ready { IsReadyForKey self.old }
        ensures does { Does true (run_outcome (plain_session self.old)) self.old self.new result }
        ensures counts { CountsOutcome (run_outcome (plain_session self.old))
            (W.counts work.old) (W.counts work.new) result }
    {
        let steps = most_steps(self.trace);
        self.begin_run(alloc, steps, work)
    }

    /// Does what `.step` asks for: so many steps of the run that stands, or of a new one.
    pub(crate) fn step_on(
        &mut self,
        alloc: Global,
        steps: u32,
        work: &mut W,
    ) -> Result<Answer, OutOfMemory>
        requires ready { IsReadyForKey self.old }
        ensures does { DoesByRun (is_none (plain_session self.old).run)
            (step_outcome (plain_session self.old) steps (plain_session self.old).run) self.old self.new
            (W.counts work.old) (W.counts work.new) result }
    {
        match self.run.reason() {
            Some(reason) => Ok(self.go_on(steps, reason)),
            None => self.begin_run(alloc, steps, work),
        }
    }

    /// Does what `.resume` asks for: lets the run that stands go on.
    pub(crate) fn resume(&mut self) -> Answer
        requires ready { IsReadyForKey self.old }
        ensures { HasOutcomeByReply (resume_outcome (plain_session self.old) (plain_session self.old).run)
            self.old self.new result }
    {
        match self.run.reason() {
            Some(reason) => {
                let steps = most_steps(self.trace);
                self.go_on(steps, reason)
            }
            None => self.refuse(Refusal::NoRun),
        }
    }

    /// Does what `.back` asks for: takes so many steps back, or as many as are held.
    pub(crate) fn go_back(&mut self, steps: u32) -> Answer
        requires { IsReadyForKey self.old }
        ensures { HasOutcome (back_outcome (plain_session self.old) steps (plain_session self.old).run)
            self.old self.new result }
    {
        if !self.run.stands() {
            return self.refuse(Refusal::NoRun);
        }
        match self.run.back(steps) {
            Ok(()) => {
                self.go_to_run();
                self.accept_line_with(Notice::Paused)
            }
            Err(NoHistory) => self.refuse(Refusal::NoHistory),
        }
    }

    /// Does what `.trace` asks for: each step is shown from now on, or isn't.
    pub(crate) fn turn_trace(&mut self) -> Answer
        requires ready { IsReadyForKey self.old }
        ensures { HasOutcome (trace_outcome (plain_session self.old)) self.old self.new result }
    {
        self.trace = !self.trace;
        if self.trace {
            self.accept_line_with(Notice::TraceOn)
        } else {
            self.accept_line_with(Notice::TraceOff)
        }
    }

    /// Does what `.input` asks for: puts the text behind the input, with a line end.
    pub(crate) fn add_input(&mut self, text: &[u8]) -> Result<Answer, OutOfMemory>
        requires { IsReadyForKey self.old }
        ensures { Does true (input_outcome (plain_session self.old) text.now) self.old self.new result }
    {
        if !self.input.has_room(text) {
            return Ok(self.refuse(Refusal::File(FileRefusal::TooLong)));
        }
        match self.input.add_line(text) {
            Ok(()) => {
                self.run.forget();
                Ok(self.accept_line())
            }
            Err(OutOfMemory) => Err(OutOfMemory),
        }
    }

    /// Begins a run for so many steps, in place of the one that stands.
    fn begin_run(&mut self, alloc: Global, steps: u32, work: &mut W) -> Result<Answer, OutOfMemory>
        requires ready { IsReadyForKey self.old }
        ensures does { Does true (begun_outcome (plain_session self.old) steps) self.old self.new result }
        ensures counts { CountsOutcome (begun_outcome (plain_session self.old) steps)
            (W.counts work.old) (W.counts work.new) result }
    {
        code_begins_as_tree();
        programs_have_one_code();
        room_is_not_shown();
        new_runs_fit();
        match self.run.begin(alloc, &self.program.dependents.code, work) {
            Ok(()) => Ok(self.accept_running(steps)),
            Err(OutOfMemory) => Err(OutOfMemory),
        }
    }

    /// Lets the run that stands for this reason go on for so many steps, if it may.
    fn go_on(&mut self, steps: u32, reason: RunReason) -> Answer
        requires ready { IsReadyForKey self.old }
        requires stands { option_map (λ run. run.reason) (plain_session self.old).run ≡ Some reason }
        ensures { (run : PlainRun) → (plain_session self.old).run ≡ Some run →
            HasOutcomeByReply (going_outcome (plain_session self.old) steps run) self.old self.new result }
    {
        if let RunReason::Ended = reason {
            return self.refuse(Refusal::RunEnded);
        }
        room_is_not_shown();
        runs_ignore_room_and_elision();
        kept_has_entries();
        unedited_may_resume();
        fitting_runs_are_kept();
        answers_ignore_room_and_elision();
        fitting_runs_are_resolved();
        resumed_runs_fit();
        match self
            .run
            .may_go_on(&self.program.tree, &self.program.dependents.decls)
        {
            Ok(()) => {
                self.run.go_on(&self.program.tree);
                self.accept_running(steps)
            }
            Err(refusal) => self.refuse(Refusal::Resume(refusal)),
        }
    }

    /// Accepts a key in which the run goes on for so many steps; none of them is made yet.
    fn accept_running(&mut self, steps: u32) -> Answer
        requires agrees { Agrees self.old.program }
        requires placed { IsPlaced (plain_session self.old) }
        requires code { HasProgramCode self.old }
        requires run { HasFittingRun self.old }
        requires edits { HasFittingEdits self.old }
        requires stands { IsSome (plain_session self.old).run }
        ensures { (fetches : ℕ) → (run : PlainRun) → (plain_session self.old).run ≡ Some run →
            HasOutcome (running_outcome (plain_session self.old) steps fetches run) self.old self.new result }
    {
        self.asked = steps;
        self.made = 0;
        let _ = self.accept_line();
        Answer::Running
    }
}

/// How many steps `.run` and `.resume` ask for, by whether each is shown.
fn most_steps(trace: bool) -> u32
    ensures { result ≡ most_steps trace }
{
    if trace {
        MOST_TRACED_STEPS
    } else {
        MOST_RUN_STEPS
    }
}
