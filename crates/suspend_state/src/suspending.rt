//! The calls of a run that stands still.
use crate::kept_copy::kept_of;
use crate::start::resolve_frames;
use decl_table::Decls;
use plcs_base::OutOfMemory;
use plcs_store::{Run, RunReason, RunState};
use std::alloc::Global;
use template_tree::Tree;

/// The trait of a run that stands still.
pub trait Suspending: Sized {
    ghost use Rattle.std.specs.Prelude.{◌≡◌, None, OnErr, OnOk};
    ghost use Rattle.template_tree.specs.Programs.Tree.{IsTree};
    ghost use Rattle.decl_table.specs.Agreement.{IsDeclsOf};
    ghost use Rattle.plcs_store.specs.declared.run_state.Run.{Run};
    ghost use Rattle.plcs_store.specs.Configuration.{plain_configuration};
    ghost use Rattle.plcs_store.specs.Resume.{resolved};
    ghost use Rattle.suspend_state.specs.Suspension.{FitsUnlessKept, Keeps, paused, with_reason};

    ghost run: { Self → Run };

    /// A run in the state, paused, which keeps nothing of its program. It takes no memory.
    fn new(state: RunState) -> Self
        ensures { run result ≡ paused state };

    /// Keeps what the program is now, before it is edited, or changes nothing where something is kept already.
    /// Where memory runs out nothing is changed.
    fn keep(&mut self, alloc: Global, tree: &Tree, decls: &Decls) -> Result<(), OutOfMemory>
        requires tree { IsTree tree.now }
        requires decls { IsDeclsOf decls.now tree.now.items }
        requires fits { FitsUnlessKept tree.now.items (run self.old) }
        ensures kept { OnOk result (Keeps tree.now.items (run self.old) (run self.new)) }
        ensures refused { OnErr result (run self.new ≡ run self.old) };

    /// Says for a run that stands still why it does. It takes no memory.
    fn set_reason(&mut self, reason: RunReason)
        ensures { run self.new ≡ with_reason reason (run self.old) };

    /// Makes the run ready to go on in the program as it is now, where it may be resumed there: what was kept is
    /// dropped, and its newest frame stands where a run begins that comes to its slot, unless it stands at another
    /// point. It takes no memory.
    fn resumed(&mut self, tree: &Tree)
        requires tree { IsTree tree.now }
        ensures goes_on { plain_configuration (run self.new).state
            ≡ resolved tree.now.items (plain_configuration (run self.old).state) }
        ensures operands { (run self.new).state.operands ≡ (run self.old).state.operands }
        ensures reason { (run self.new).reason ≡ (run self.old).reason }
        ensures dropped { (run self.new).kept ≡ None };
}

impl Suspending for Run {
    ghost run = { λ run. run };

    fn new(state: RunState) -> Run {
        Run {
            state,
            reason: RunReason::Paused,
            kept: None,
        }
    }

    fn keep(&mut self, alloc: Global, tree: &Tree, decls: &Decls) -> Result<(), OutOfMemory> {
        if self.kept.is_some() {
            return Ok(());
        }
        self.kept = Some(kept_of(alloc, tree, decls, &self.state)?);
        Ok(())
    }

    fn set_reason(&mut self, reason: RunReason) {
        self.reason = reason;
    }

    fn resumed(&mut self, tree: &Tree) {
        self.kept = None;
        resolve_frames(tree, &mut self.state.frames);
    }
}
