//! What is wrong with declared lists, gone through once for each procedure that has some that are due for a check.
ghost use Rattle.std.specs.Prelude.{◌≡◌, [], IfOk, OnOk};
ghost use Rattle.template_tree.specs.Programs.Tree.{IsTree};
ghost use Rattle.type_marks.specs.Private.CheckedLists.{AreListsOf, offence_on};

use crate::procedures::procedure_item_on;
use decl_table::ListOffences;
use indexmap::IndexMap;
use plcs_base::{MarkKind, OutOfMemory};
use std::alloc::Global;
use template_tree::{Path, Tree};

/// What is wrong with the declared lists of procedures, under the slots of those that were asked for.
#[derive(Drop)]
pub(crate) struct ListChecks {
    pub(crate) procedures: IndexMap<u32, ListOffences>,
}

impl ListChecks {
    /// No procedure was asked for yet. It takes no memory.
    pub(crate) fn new(alloc: Global) -> ListChecks
        ensures { result.procedures.entries ≡ [] }
    {
        ListChecks {
            procedures: IndexMap::new(alloc),
        }
    }

    /// The first offence of the declared list in the node of this number inside main or the procedure to which the
    /// path leads, or in which it leads to a node, if the list has one.
    pub(crate) fn offence(
        &mut self,
        alloc: Global,
        tree: &Tree,
        path: &Path,
        k: u32,
    ) -> Result<Option<MarkKind>, OutOfMemory>
        requires tree { IsTree tree.now }
        requires lists { AreListsOf tree.now.items self.old.procedures.entries }
        ensures offence { IfOk result (λ offence. offence ≡ offence_on tree.now.items path.now.items k) }
        ensures lists { OnOk result (AreListsOf tree.now.items self.new.procedures.entries) }
    {
        let Some(procedure) = procedure_item_on(tree, path) else {
            return Ok(None);
        };
        let slot = procedure.slot().0;
        if let Some(offences) = self.procedures.get(&slot) {
            return Ok(offences.offence(k));
        }
        let offences = ListOffences::of(alloc, procedure)?;
        let offence = offences.offence(k);
        self.procedures.insert(slot, offences)?;
        Ok(offence)
    }
}
