//! What is wrong with the declared lists of a procedure.
ghost use Rattle.std.specs.Prelude.{◌≡◌, ◌<◌, [], IfOk, OnOk, slice_get};
ghost use Rattle.std.specs.Option.{option_flatten};
ghost use Rattle.decl_table.specs.ListOffences.{list_offences};
ghost use Rattle.template_tree.specs.Programs.Limit.{most_slots};
ghost use Rattle.template_tree.specs.Programs.Slots.{count};

use crate::item_fold::ItemFold;
use plcs_base::{MarkKind, OutOfMemory};
use std::alloc::Global;
use std::marker::Model;
use template_tree::{Node, items_are_nodes};

/// What is wrong with the declared lists of a procedure: for each of its nodes, in order, the first offence of what
/// the node declares, which contracts see as a list.
#[derive(Drop)]
pub struct ListOffences {
    list: Vec<Option<MarkKind>>,
}

impl Model for ListOffences {
    ghost use Rattle.std.specs.Prelude.{List, Option};
    ghost use Rattle.plcs_base.specs.declared.mark.MarkKind.{MarkKind};
    ghost use Rattle.decl_table.specs.Private.ItemFoldView.{list_offences_code};

    ghost Value = { List (Option MarkKind) };

    ghost coded = { list_offences_code };

    ghost view = { λ a. a.list.items };
}

impl ListOffences {
    /// What is wrong with the declared lists of main or a procedure, all of which are gone through once.
    pub fn of(alloc: Global, procedure: &Node) -> Result<ListOffences, OutOfMemory>
        requires few { count procedure.now.inner < most_slots }
        ensures { IfOk result (λ offences. offences ≡ list_offences [] procedure.now.inner) }
    {
        let mut offences = ListOffences {
            list: Vec::new(alloc),
        };
        offences.note(alloc, procedure).and(Ok(offences))
    }

    /// Notes what is wrong with the declared lists of the procedure, where nothing is noted yet.
    fn note(&mut self, alloc: Global, procedure: &Node) -> Result<(), OutOfMemory>
        requires few { count procedure.now.inner < most_slots }
        requires none { self.old ≡ [] }
        ensures { OnOk result (self.new ≡ list_offences [] procedure.now.inner) }
    {
        let mut fold = ItemFold::new(alloc);
        let noted = self.note_all(&mut fold, procedure);
        drop(fold);
        noted
    }

    /// Notes the offences of the nodes of the procedure, whose items are taken one after the other, where nothing is
    /// noted and none is taken yet.
    fn note_all(&mut self, fold: &mut ItemFold, procedure: &Node) -> Result<(), OutOfMemory>
        requires few { count procedure.now.inner < most_slots }
        requires none { self.old ≡ [] }
        requires bare { fold.old ≡ [] }
        ensures { OnOk result (self.new ≡ list_offences [] procedure.now.inner) }
    {
        items_are_nodes();
        let mut k = 0;
        while let Some(node) = procedure.child(k) {
            let offence = fold.declare_all(node)?;
            self.list.push(offence)?;
            k += 1;
        }
        Ok(())
    }

    /// The first offence of what the node of this number declares inside the procedure, counted from 0, or `None`
    /// where nothing is wrong with it. It takes no memory.
    pub fn offence(&self, k: u32) -> Option<MarkKind>
        ensures { result ≡ option_flatten (slice_get self.now k) }
    {
        match self.list.get(k as usize) {
            Some(offence) => *offence,
            None => None,
        }
    }
}
