//! Whether the run of a bench may be resumed, and where it goes on.
ghost use Rattle.std.specs.Prelude.{IfSome};
ghost use Rattle.std.specs.Result.{result_err};
ghost use Rattle.template_tree.specs.Programs.Tree.{IsTree};
ghost use Rattle.plcs_store.specs.Configuration.{plain_configuration};
ghost use Rattle.resume_rule.specs.ResumeAnswer.{IsResumeAnswer};
ghost use Rattle.resume_cases.specs.Private.BenchRun.{IsBench, SuspendedIn};

use crate::bench::Bench;
use crate::suspended::Suspended;
use crate::telling::tell_place;
use case_script::Told;
use decl_table::Decls;
use plcs_store::ResumeRefusal;
use resume_rule::{fitting_runs_are_resolved, kept_has_entries, may_resume, resumed_runs_fit};
use std::alloc::Global;
use suspend_state::Suspending;
use template_tree::Tree;

/// Asks whether the bench's run may be resumed, and tells the answer.
pub(crate) fn ask(bench: &Bench, told: &mut Told) -> Option<()>
    requires { IsBench bench.now }
{
    let Some(suspended) = &bench.suspended else {
        return None;
    };
    told.value_line(&answer_of(told.alloc(), &bench.tree, suspended)?);
    Some(())
}

/// Whether the run of the program may be resumed there, or `None` where memory runs out.
fn answer_of(alloc: Global, tree: &Tree, suspended: &Suspended) -> Option<Result<(), ResumeRefusal>>
    requires tree { IsTree tree.now }
    requires stands { SuspendedIn tree.now suspended.now }
    ensures { IfSome result (λ answer. IfSome suspended.now.run.kept (λ kept.
        IsResumeAnswer kept (plain_configuration suspended.now.run.state) tree.now.items (result_err answer))) }
{
    kept_has_entries();
    match Decls::new(alloc, tree) {
        Ok(decls) => {
            let answer = may_resume(&suspended.run, tree, &decls);
            drop(decls);
            Some(answer)
        }
        Err(_) => None,
    }
}

/// Makes the bench's run ready to go on and tells where it does, or why it may not be resumed.
pub(crate) fn resume(bench: &mut Bench, told: &mut Told) -> Option<()>
    requires { IsBench bench.old }
    ensures { IsBench bench.new }
{
    let Some(suspended) = &mut bench.suspended else {
        return None;
    };
    resume_run(&bench.tree, suspended, told)
}

/// Makes the run of the program ready to go on and tells where it does, or why it may not be resumed.
fn resume_run(tree: &Tree, suspended: &mut Suspended, told: &mut Told) -> Option<()>
    requires tree { IsTree tree.now }
    requires stands { SuspendedIn tree.now suspended.old }
    ensures { SuspendedIn tree.now suspended.new }
{
    resumed_runs_fit();
    fitting_runs_are_resolved();
    match answer_of(told.alloc(), tree, suspended)? {
        Ok(()) => {
            suspended.run.resumed(tree);
            tell_place(suspended, told);
        }
        Err(refusal) => told.value_line(&refusal),
    }
    Some(())
}
