//! The command that hides the refinement of a comment, or shows it again.
ghost use Rattle.std.specs.Prelude.{◌≡◌};
ghost use Rattle.template_tree.specs.Edits.Elision.{is_comment};
ghost use Rattle.template_tree.specs.Programs.PlainTree.{roomless_tree};
ghost use Rattle.template_tree.specs.Positions.Stop.{plain_stop};
ghost use Rattle.template_tree.specs.Programs.Tree.{IsTree};
ghost use Rattle.synth_session.specs.ElideCommand.{comment_toggled, is_at_comment};
ghost use Rattle.synth_session.specs.Private.MemorylessKey.{HasOutcome};
ghost use Rattle.synth_session.specs.SessionView.{IsReadyForKey, plain_session};

use crate::answer::{Answer, Refusal};
use crate::session::Session;
use edit_undo::{toggles_leave_earlier, undone_trees_check_alike};
use plcs_base::Work;
use plcs_grammar::{NodeKind, Template};
use plcs_store::runs_ignore_room_and_elision;
use template_tree::{Stop, Tree, room_is_not_shown};
use tree_steps::{agreement_lasts, edits_follow};

impl<W: Work> Session<W> {
    /// Does what `.elide` asks for: hides the refinement of the comment at the cursor, or shows it again.
    pub(crate) fn toggle_comment(&mut self) -> Answer
        requires { IsReadyForKey self.old }
        ensures { HasOutcome (comment_toggled (plain_session self.old)) self.old self.new result }
    {
        if !is_at_comment(&self.program.tree, &self.stop) {
            return self.refuse(Refusal::NotHere);
        }
        room_is_not_shown();
        edits_follow();
        agreement_lasts();
        toggles_leave_earlier();
        undone_trees_check_alike();
        runs_ignore_room_and_elision();
        self.program.toggle_elision(&self.stop.path);
        self.accept_line()
    }
}

/// Whether the stop is at a comment, or at its text.
#[tactic(auto, unfolding(crate::specs::ElideCommand::is_at_comment))]
fn is_at_comment(tree: &Tree, at: &Stop) -> bool
    requires { IsTree tree.now }
    ensures { result ≡ is_at_comment (roomless_tree tree.now) (plain_stop at.now) }
{
    room_is_not_shown();
    match tree.node(&at.path) {
        Some(node) => is_comment(node.kind()),
        None => false,
    }
}

/// Whether nodes of the kind are comments, whose refinement the command turns.
fn is_comment(kind: NodeKind) -> bool
    ensures { result ≡ is_comment kind }
{
    kind == NodeKind::Filled(Template::Comment)
}
