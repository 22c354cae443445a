//! Templates and phrase text entered at the cursor.
ghost use Rattle.std.specs.Prelude.{◌≡◌, IsSome, None, Some, false, true};
ghost use Rattle.plcs_grammar.specs.PlainPhrase.{plain_phrase};
ghost use Rattle.template_tree.specs.Programs.Part.{IsPhrasePlace};
ghost use Rattle.template_tree.specs.Programs.PlainTree.{roomless_tree};
ghost use Rattle.template_tree.specs.Positions.Stop.{IsStop, plain_stop};
ghost use Rattle.template_tree.specs.Programs.Tree.{IsTree};
ghost use Rattle.session_edit.specs.AppliedEdit.{IsAnswer, takes_memory};
ghost use Rattle.session_edit.specs.Edited.{edited};
ghost use Rattle.session_edit.specs.PlainEdit.{PlainEdit};

use crate::applied::Applied;
use crate::next_stop::onward;
use crate::room_laws::room_laws;
use plcs_grammar::{Phrase, Template};
use std::alloc::Global;
use template_tree::{PhrasePlace, Stop, Tree, TreeFault, slot_edit_is_path_edit};

/// The hole at the cursor becomes the template, and the cursor goes onward.
pub(crate) fn fill(
    alloc: Global,
    tree: &mut Tree,
    at: &Stop,
    template: Template,
) -> Result<Applied, TreeFault>
    requires tree { IsTree tree.old }
    requires stop { IsStop (roomless_tree tree.old).items (plain_stop at.now) }
    ensures { IsAnswer true (edited (roomless_tree tree.old) (plain_stop at.now) (PlainEdit.fill template)) tree.old
        tree.new result }
{
    room_laws();
    if at.part.is_some() {
        return Err(TreeFault::NotHere);
    }
    slot_edit_is_path_edit();
    match tree.fill(alloc, &at.path, template) {
        Ok(receipt) => Ok(Applied {
            receipt,
            taken: None,
            stop: onward(tree, at),
        }),
        Err(fault) => Err(fault),
    }
}

/// The phrase text that was entered comes where its category is wanted, and the cursor goes onward.
pub(crate) fn enter(
    alloc: Global,
    tree: &mut Tree,
    at: &Stop,
    phrase: Phrase,
) -> Result<Applied, TreeFault>
    requires tree { IsTree tree.old }
    requires stop { IsStop (roomless_tree tree.old).items (plain_stop at.now) }
    requires phrase { IsPhrasePlace (Some (plain_phrase phrase)) }
    ensures { IsAnswer (takes_memory (PlainEdit.enter (plain_phrase phrase)) (plain_stop at.now))
        (edited (roomless_tree tree.old) (plain_stop at.now) (PlainEdit.enter (plain_phrase phrase))) tree.old tree.new
        result }
{
    match at.part {
        None => enter_assignment(alloc, tree, at, phrase),
        Some(_) => enter_in_part(tree, at, phrase),
    }
}

/// The node at the cursor becomes the assignment that was entered.
fn enter_assignment(
    alloc: Global,
    tree: &mut Tree,
    at: &Stop,
    phrase: Phrase,
) -> Result<Applied, TreeFault>
    requires tree { IsTree tree.old }
    requires stop { IsStop (roomless_tree tree.old).items (plain_stop at.now) }
    requires phrase { IsPhrasePlace (Some (plain_phrase phrase)) }
    requires node { at.now.part ≡ None }
    ensures { IsAnswer true (edited (roomless_tree tree.old) (plain_stop at.now)
        (PlainEdit.enter (plain_phrase phrase))) tree.old tree.new result }
{
    room_laws();
    slot_edit_is_path_edit();
    match tree.fill_assign(alloc, &at.path, phrase) {
        Ok(receipt) => Ok(Applied {
            receipt,
            taken: None,
            stop: onward(tree, at),
        }),
        Err((fault, _)) => Err(fault),
    }
}

/// The phrase that was entered comes into the part at the cursor, in place of what stands there.
fn enter_in_part(tree: &mut Tree, at: &Stop, phrase: Phrase) -> Result<Applied, TreeFault>
    requires tree { IsTree tree.old }
    requires stop { IsStop (roomless_tree tree.old).items (plain_stop at.now) }
    requires phrase { IsPhrasePlace (Some (plain_phrase phrase)) }
    requires part { IsSome at.now.part }
    ensures { IsAnswer false (edited (roomless_tree tree.old) (plain_stop at.now)
        (PlainEdit.enter (plain_phrase phrase))) tree.old tree.new result }
{
    room_laws();
    slot_edit_is_path_edit();
    match tree.set_phrase(at, PhrasePlace::Filled(phrase)) {
        Ok(receipt) => Ok(Applied {
            receipt,
            taken: None,
            stop: onward(tree, at),
        }),
        Err((fault, _)) => Err(fault),
    }
}
