//! Phrases set at stops.
ghost use Rattle.std.specs.Prelude.{◌≡◌, IfErr, IfOk, IsSomeAnd};
ghost use Rattle.template_tree.specs.Edits.EditAnswer.{Edits, TakesAtStop};
ghost use Rattle.template_tree.specs.Programs.Part.{IsPhrasePlace};
ghost use Rattle.template_tree.specs.Positions.Path.{node_at};
ghost use Rattle.template_tree.specs.Programs.PlainPhrasePlace.{plain_phrase_place};
ghost use Rattle.template_tree.specs.Edits.Receipt.{NeedsNoRoom};
ghost use Rattle.template_tree.specs.Programs.Tree.{IsTree};
ghost use Rattle.template_tree.specs.Edits.TreeEdit.{TreeEdit};
ghost use Rattle.template_tree.specs.declared.tree_fault.TreeFault.{TreeFault};

use crate::change::{Change, What};
use crate::hole::is_assignment;
use crate::path::copy_path;
use crate::phrase_place::PhrasePlace;
use crate::receipt::{Receipt, Undoing};
use crate::stop::Stop;
use crate::tree::Tree;
use crate::tree_fault::TreeFault;

impl Tree {
    /// Sets the part at the stop, which need not be visible, to this phrase, or to nothing. `NotHere`
    /// where there is no such stop, and where the part doesn't take it; it is given back then. It takes
    /// no memory.
    pub fn set_phrase(
        &mut self,
        stop: &Stop,
        place: PhrasePlace,
    ) -> Result<Receipt, (TreeFault, PhrasePlace)>
        requires tree { IsTree self.old }
        requires phrase { IsPhrasePlace (plain_phrase_place place) }
        ensures edited { IfOk result (λ receipt. IsSomeAnd stop.now.part
            (λ part. Edits (TreeEdit.set_part part (plain_phrase_place place))
            (node_at self.old.items stop.now.path.items) (TakesAtStop part (plain_phrase_place place))
            self.old self.new receipt)) }
        ensures no_room { IfOk result NeedsNoRoom }
        ensures refused { IfErr result (λ back. (back.0 ≡ TreeFault.NotHere)
            × (IsSomeAnd stop.now.part (λ part. IsSomeAnd (node_at self.old.items stop.now.path.items)
            (TakesAtStop part (plain_phrase_place place))) → ⊥)) }
        ensures tree { IsTree self.new }
        ensures unchanged { IfErr result (λ back. (back.1 ≡ place) × (self.new ≡ self.old)) }
    {
        let (drawn, live) = (self.drawn, self.live);
        let Some(part) = stop.part else {
            return Err((TreeFault::NotHere, place));
        };
        let Some(_) = self.node(&stop.path) else {
            return Err((TreeFault::NotHere, place));
        };
        let procedure = self.procedure_at(&stop.path);
        let Some(node) = self.node_mut(&stop.path) else {
            unreachable!()
        };
        if is_assignment(node.kind) {
            return Err((TreeFault::NotHere, place));
        }
        let slot = node.slot;
        let old = match node.put_part(part, place) {
            Ok(old) => old,
            Err(back) => return Err((TreeFault::NotHere, back)),
        };
        let change = Change {
            slot,
            procedure,
            what: What::Part(part),
        };
        Ok(Receipt {
            change,
            path: copy_path(&stop.path),
            undoing: Undoing::SetPart(part, old),
            drawn,
            live,
        })
    }
}
