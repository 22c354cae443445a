//! The run that a session holds, with the records of its latest steps.
ghost use Rattle.std.specs.Prelude.{◌≡◌, ◌↔◌, ◌≤◌, [], None, Some, IfOk, IfSome, IsErr, IsSome, OnErr, OnOk, is_some, length, option_and_then, option_map};
ghost use Rattle.std.specs.Option.{option_map_or};
ghost use Rattle.std.specs.Result.{result_err};
ghost use Rattle.decl_table.specs.Agreement.{IsDeclsOf};
ghost use Rattle.template_tree.specs.Programs.Tree.{IsTree};
ghost use Rattle.plcs_store.specs.Configuration.{plain_configuration, plain_place, top_place};
ghost use Rattle.back_steps.specs.EarlierConfigurations.{CanGoBack};
ghost use Rattle.plcs_machine.specs.Enter.{Enter};
ghost use Rattle.plcs_machine.specs.Exec.{Exec};
ghost use Rattle.plcs_machine.specs.Fetched.{FetchesAtMost, FetchesBy, fetches_of, result_of};
ghost use Rattle.plcs_machine.specs.StepMade.{MakesFrame};
ghost use Rattle.resume_rule.specs.ResumeAnswer.{IsResumeAnswer};
ghost use Rattle.suspend_state.specs.Suspension.{FitsUnlessKept, with_reason};
ghost use Rattle.template_tree.specs.Programs.PlainTree.{Forest};
ghost use Rattle.synth_session.specs.RunNotice.{stop_reason};
ghost use Rattle.synth_session.specs.SessionScreen.{run_place};
ghost use Rattle.synth_session.specs.SessionView.{plain_run};
ghost use Rattle.synth_session.specs.Private.HeldRunKept.{BeginsRun, CanBeAsked, GoesOnIfStands, KeepsIfStands, StaysIfHeld, StepsBack, TriesStep, TriesStepIfStands, WentBack, WentBackIfStands};

use back_steps::{History, NoHistory, states_keep_limits};
use decl_table::Decls;
use plcs_base::{OutOfMemory, Place, Work};
use plcs_code::CodeView;
use plcs_machine::{StepAnswer, start, step};
use plcs_store::{Reason, ResumeRefusal, Run, RunReason, RunState, Undo};
use resume_rule::may_resume;
use std::alloc::Global;
use std::marker::Model;
use std::mem;
use suspend_state::Suspending;
use template_tree::Tree;

/// The run that a session holds, if one stands, with the records of its latest steps.
#[derive(Drop)]
pub struct HeldRun {
    run: Option<Run>,
    history: History,
}

impl Model for HeldRun {
    ghost use Rattle.synth_session.specs.PlainHeldRun.{PlainHeldRun, IsSteady};
    ghost use Rattle.synth_session.specs.Private.HeldRunCode.{held_run_code};

    ghost Value = { PlainHeldRun };

    ghost coded = { held_run_code };

    ghost view = { λ a. record { run = a.run; undos = a.history } };

    ghost invariant = { λ a. IsSteady a.run a.history };
}

impl HeldRun {
    /// No run, with room for the records of steps.
    pub(crate) fn new(alloc: Global) -> Result<HeldRun, OutOfMemory>
        ensures run { IfOk result (λ held. held.run ≡ None) }
        ensures undos { IfOk result (λ held. held.undos ≡ []) }
    {
        match History::new(alloc) {
            Ok(history) => Ok(HeldRun { run: None, history }),
            Err(OutOfMemory) => Err(OutOfMemory),
        }
    }

    /// Whether a run stands.
    pub(crate) fn stands(&self) -> bool
        ensures { result ≡ is_some self.now.run }
    {
        self.run.is_some()
    }

    /// Begins a run of the code, in place of the one that stands. If memory runs out, that one stays.
    pub(crate) fn begin<W: Work, C: CodeView<W>>(
        &mut self,
        alloc: Global,
        code: &C,
        work: &mut W,
    ) -> Result<(), OutOfMemory>
        requires begins { IsSome (Enter (C.code code.now)) }
        ensures began { OnOk result (BeginsRun (result_of (Enter (C.code code.now))) self.new.run) }
        ensures undos { OnOk result (self.new.undos ≡ []) }
        ensures refused { OnErr result (self.new ≡ self.old) }
        ensures counted { OnOk result (FetchesBy (fetches_of (Enter (C.code code.now)))
            (W.counts work.old) (W.counts work.new)) }
        ensures counts { FetchesAtMost (fetches_of (Enter (C.code code.now))) (W.counts work.old) (W.counts work.new) }
    {
        match start(alloc, code, work) {
            Ok(state) => {
                self.history.clear();
                drop(mem::replace(&mut self.run, Some(Run::new(state))));
                Ok(())
            }
            Err(OutOfMemory) => Err(OutOfMemory),
        }
    }

    /// Drops the run that stands, if one does.
    pub(crate) fn end(&mut self)
        ensures run { self.new.run ≡ None }
        ensures undos { self.new.undos ≡ [] }
    {
        self.history.clear();
        drop(self.run.take());
    }

    /// Keeps of the program, before it is edited, what is asked for when the run goes on.
    pub(crate) fn keep(
        &mut self,
        alloc: Global,
        tree: &Tree,
        decls: &Decls,
    ) -> Result<(), OutOfMemory>
        requires tree { IsTree tree.now }
        requires decls { IsDeclsOf decls.now tree.now.items }
        requires fits { IfSome self.old.run (FitsUnlessKept tree.now.items) }
        ensures kept { OnOk result (KeepsIfStands tree.now.items self.old.run self.new.run) }
        ensures undos { self.new.undos ≡ self.old.undos }
        ensures refused { OnErr result (self.new ≡ self.old) }
    {
        match &mut self.run {
            Some(run) => run.keep(alloc, tree, decls),
            None => Ok(()),
        }
    }

    /// Lets go of all records of steps, so that the run goes back no more.
    pub(crate) fn forget(&mut self)
        ensures run { self.new.run ≡ self.old.run }
        ensures undos { self.new.undos ≡ [] }
    {
        self.history.clear();
    }

    /// Why the run stands still, if one stands.
    pub(crate) fn reason(&self) -> Option<RunReason>
        ensures { result ≡ option_map (λ run. run.reason) self.now.run }
    {
        match &self.run {
            Some(run) => Some(run.reason),
            None => None,
        }
    }

    /// Whether the run that stands may go on in the tree.
    pub(crate) fn may_go_on(&self, tree: &Tree, decls: &Decls) -> Result<(), ResumeRefusal>
        requires tree { IsTree tree.now }
        requires decls { IsDeclsOf decls.now tree.now.items }
        requires asked { IfSome self.now.run (CanBeAsked tree.now.items) }
        ensures unedited { IfSome self.now.run (λ run. run.kept ≡ None → result_err result ≡ None) }
        ensures asked { IfSome self.now.run (λ run. IfSome run.kept (λ kept.
            IsResumeAnswer kept (plain_configuration run.state) tree.now.items (result_err result))) }
    {
        match &self.run {
            Some(run) => may_resume(run, tree, decls),
            None => Ok(()),
        }
    }

    /// Makes the run that stands ready to go on in the tree.
    pub(crate) fn go_on(&mut self, tree: &Tree)
        requires tree { IsTree tree.now }
        requires stays { IfSome self.old.run (StaysIfHeld tree.now.items self.old.undos) }
        ensures run { GoesOnIfStands tree.now.items self.old.run self.new.run }
        ensures undos { self.new.undos ≡ self.old.undos }
    {
        if let Some(run) = &mut self.run {
            run.resumed(tree);
        }
    }

    /// Says why the run that stands does so.
    pub(crate) fn rest(&mut self, reason: RunReason)
        ensures run { self.new.run ≡ option_map (with_reason reason) self.old.run }
        ensures undos { self.new.undos ≡ self.old.undos }
    {
        if let Some(run) = &mut self.run {
            run.set_reason(reason);
        }
    }

    /// Takes so many steps of the run back, or as many as are held.
    pub(crate) fn back(&mut self, steps: u32) -> Result<(), NoHistory>
        requires stands { IsSome self.old.run }
        ensures none { IsErr result ↔ (self.old.undos ≡ []) }
        ensures back { OnOk result (WentBackIfStands steps self.old.undos self.new.undos self.old.run self.new.run) }
        ensures refused { OnErr result (self.new ≡ self.old) }
    {
        let Some(run) = &mut self.run else {
            unreachable!()
        };
        go_back(run, &mut self.history, steps)
    }

    /// Tries the next step of the run by the code, with this input: `None` where it was made, and else why the run
    /// stands still.
    pub(crate) fn try_step<W: Work, C: CodeView<W>>(
        &mut self,
        alloc: Global,
        code: &C,
        input: &[u8],
        work: &mut W,
    ) -> Result<Option<RunReason>, OutOfMemory>
        requires stands { IsSome self.old.run }
        requires short { length input.now ≤ 4294967295 }
        requires defined { IfSome self.old.run (λ run.
            IsSome (Exec (C.code code.now) input.now (plain_configuration run.state))) }
        ensures tried { IfOk result (λ tried. TriesStepIfStands (λ c. result_of (Exec (C.code code.now) input.now c))
            self.old.undos self.new.undos self.old.run self.new.run tried) }
        ensures counted { IfSome self.old.run (λ run.
            OnOk result (FetchesBy (fetches_of (Exec (C.code code.now) input.now (plain_configuration run.state)))
            (W.counts work.old) (W.counts work.new))) }
        ensures counts { IfSome self.old.run (λ run.
            FetchesAtMost (fetches_of (Exec (C.code code.now) input.now (plain_configuration run.state)))
            (W.counts work.old) (W.counts work.new)) }
        ensures refused { OnErr result (self.new ≡ self.old) }
        ensures calls { OnErr result (IfSome self.old.run (λ run.
            MakesFrame (Exec (C.code code.now) input.now (plain_configuration run.state))
            (plain_configuration run.state))) }
    {
        let Some(run) = &mut self.run else {
            unreachable!()
        };
        make_step(alloc, code, input, run, &mut self.history, work)
    }

    /// Where the run stands, if one does.
    pub(crate) fn place(&self) -> Option<Place>
        ensures { option_map plain_place result
            ≡ option_and_then (λ run. top_place run.state.frames) self.now.run }
    {
        match &self.run {
            Some(run) => run.state.frames.place(),
            None => None,
        }
    }

    /// Where the screen shows that the run stands: its place, if one stands and isn't over.
    pub(crate) fn shown_place(&self) -> Option<Place>
        ensures { (program : Forest) → result ≡ run_place (option_map (plain_run program self.now.undos) self.now.run) }
    {
        match self.reason() {
            None => None,
            Some(RunReason::Ended) => None,
            Some(_) => self.place(),
        }
    }

    /// What the run wrote, or nothing where none stands.
    pub(crate) fn output(&self) -> &[u8]
        ensures { result.now ≡ option_map_or (λ run. run.state.output) self.now.run [] }
    {
        match &self.run {
            Some(run) => run.state.output.as_slice(),
            None => b"",
        }
    }
}

/// Makes the next step of the run by the code, with this input, and notes it in the history: `None` where it was made,
/// and else why the run stands still.
fn make_step<W: Work, C: CodeView<W>>(
    alloc: Global,
    code: &C,
    input: &[u8],
    run: &mut Run,
    history: &mut History,
    work: &mut W,
) -> Result<Option<RunReason>, OutOfMemory>
    requires short { length input.now ≤ 4294967295 }
    requires defined { IsSome (Exec (C.code code.now) input.now (plain_configuration run.old.state)) }
    requires able { CanGoBack history.old (plain_configuration run.old.state) }
    requires values { run.old.state.operands.values ≡ [] }
    requires arguments { run.old.state.operands.arguments ≡ [] }
    ensures tried { IfOk result (TriesStep history.old history.new run.old run.new
        (result_of (Exec (C.code code.now) input.now (plain_configuration run.old.state)))) }
    ensures counted { OnOk result
        (FetchesBy (fetches_of (Exec (C.code code.now) input.now (plain_configuration run.old.state)))
        (W.counts work.old) (W.counts work.new)) }
    ensures counts { FetchesAtMost (fetches_of (Exec (C.code code.now) input.now (plain_configuration run.old.state)))
        (W.counts work.old) (W.counts work.new) }
    ensures run { OnErr result (run.new ≡ run.old) }
    ensures history { OnErr result (history.new ≡ history.old) }
    ensures calls { OnErr result
        (MakesFrame (Exec (C.code code.now) input.now (plain_configuration run.old.state))
        (plain_configuration run.old.state)) }
    ensures able { CanGoBack history.new (plain_configuration run.new.state) }
    ensures values { run.new.state.operands.values ≡ [] }
    ensures arguments { run.new.state.operands.arguments ≡ [] }
{
    let mut undo = Undo::new();
    states_keep_limits(&run.state);
    match step(alloc, code, input, &mut run.state, &mut undo, work) {
        Ok(StepAnswer::Stepped) => {
            history.note(undo);
            drop(run.kept.take());
            Ok(None)
        }
        Ok(StepAnswer::Stopped(reason)) => {
            drop(undo);
            Ok(Some(stop_reason(reason)))
        }
        Ok(StepAnswer::Ended) => {
            drop(undo);
            Ok(Some(RunReason::Ended))
        }
        Err(OutOfMemory) => {
            drop(undo);
            Err(OutOfMemory)
        }
    }
}

/// Takes so many steps of a run back, or as many as are held; it is paused then.
fn go_back(run: &mut Run, history: &mut History, steps: u32) -> Result<(), NoHistory>
    requires able { CanGoBack history.old (plain_configuration run.old.state) }
    ensures none { IsErr result ↔ (history.old ≡ []) }
    ensures back { OnOk result (WentBack steps history.old history.new run.old run.new) }
    ensures run { OnErr result (run.new ≡ run.old) }
    ensures history { OnErr result (history.new ≡ history.old) }
    ensures able { CanGoBack history.new (plain_configuration run.new.state) }
    ensures operands { run.new.state.operands ≡ run.old.state.operands }
{
    if let Err(NoHistory) = history.back(&mut run.state) {
        return Err(NoHistory);
    }
    take_back(history, &mut run.state, steps.saturating_sub(1));
    run.reason = RunReason::Paused;
    drop(run.kept.take());
    Ok(())
}

/// Takes so many steps more of a run back, or as many as are held.
fn take_back(history: &mut History, state: &mut RunState, steps: u32)
    requires able { CanGoBack history.old (plain_configuration state.old) }
    ensures back { StepsBack steps history.old (plain_configuration state.old)
        history.new (plain_configuration state.new) }
    ensures able { CanGoBack history.new (plain_configuration state.new) }
    ensures operands { state.new.operands ≡ state.old.operands }
{
    let mut taken = 0;
    while taken < steps {
        if history.back(state).is_err() {
            return;
        }
        taken += 1;
    }
}

/// Why a run stands still of which a step isn't made for this reason.
fn stop_reason(reason: Reason) -> RunReason
    ensures { result ≡ stop_reason reason }
{
    match reason {
        Reason::Placeholder => RunReason::Placeholder,
        Reason::Marked => RunReason::Marked,
        Reason::Fault(kind) => RunReason::Fault(kind),
        Reason::InputWanted => RunReason::InputWanted,
    }
}
