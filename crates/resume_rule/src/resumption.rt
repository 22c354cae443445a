//! Whether a run may be resumed: the questions for its frames, one frame after the other.
ghost use Rattle.std.specs.Prelude.{◌≡◌, ◌↔◌, length, IfSome, Option, None, Ok};
ghost use Rattle.std.specs.Result.{result_err};
ghost use Rattle.decl_table.specs.Agreement.{IsDeclsOf};
ghost use Rattle.template_tree.specs.Programs.Tree.{IsTree};
ghost use Rattle.plcs_store.specs.Configuration.{plain_configuration};
ghost use Rattle.plcs_store.specs.Fits.{Fits};
ghost use Rattle.resume_rule.specs.ResumeAnswer.{HasEntries, IsResumeAnswer, IsFrameAnswer, IsFramesAnswer};

use crate::frame_question::{heading_differs, items_differ, template_differs};
use decl_table::Decls;
use plcs_store::{CopiedParts, DeclaredList, Frame, HeldTemplate, ResumeRefusal, Run};
use template_tree::Tree;

/// Whether the run may be resumed in the tree, of which this is the table of declarations: yes, or else the first
/// refusal, frame by frame from main upward. Where nothing is kept, nothing was edited, and it is a yes.
///
/// It takes no memory, and for each slot that it asks for time in proportion to the tree at most.
pub fn may_resume(run: &Run, tree: &Tree, decls: &Decls) -> Result<(), ResumeRefusal>
    requires tree { IsTree tree.now }
    requires decls { IsDeclsOf decls.now tree.now.items }
    requires fits { run.now.kept ≡ None → Fits tree.now.items (plain_configuration run.now.state) }
    requires entries { IfSome run.now.kept (HasEntries (plain_configuration run.now.state)) }
    ensures unedited { run.now.kept ≡ None → result_err result ≡ None }
    ensures asked { IfSome run.now.kept (λ kept.
        IsResumeAnswer kept (plain_configuration run.now.state) tree.now.items (result_err result)) }
{
    let Some(kept) = &run.kept else {
        return Ok(());
    };
    let refusal = first_refusal(
        tree,
        decls,
        run.state.frames.as_slice(),
        kept.headings.as_slice(),
        kept.declared.as_slice(),
        kept.held.as_slice(),
    );
    match refusal {
        None => Ok(()),
        Some(refusal) => Err(refusal),
    }
}

/// The first refusal for the frames from main upward, each with what is kept for it.
fn first_refusal(
    tree: &Tree,
    decls: &Decls,
    frames: &[Frame],
    headings: &[CopiedParts],
    declared: &[DeclaredList],
    held: &[HeldTemplate],
) -> Option<ResumeRefusal>
    requires tree { IsTree tree.now }
    requires decls { IsDeclsOf decls.now tree.now.items }
    requires headings { length headings.now ≡ length frames.now }
    requires declared { length declared.now ≡ length frames.now }
    requires held { length held.now ≡ length frames.now }
    ensures { IsFramesAnswer tree.now.items frames.now headings.now declared.now held.now result }
{
    let Some((frame, frames_above)) = frames.split_first() else {
        return None;
    };
    let Some((heading, headings_above)) = headings.split_first() else {
        unreachable!()
    };
    let Some((items, declared_above)) = declared.split_first() else {
        unreachable!()
    };
    let Some((template, held_above)) = held.split_first() else {
        unreachable!()
    };
    match frame_refusal(tree, decls, frame, heading, items, template) {
        Some(refusal) => Some(refusal),
        None => first_refusal(
            tree,
            decls,
            frames_above,
            headings_above,
            declared_above,
            held_above,
        ),
    }
}

/// Whether a run may be resumed, as far as this one of its frames goes, with what is kept for it: the first
/// cause against it, of its heading, then of what is declared, and then of what stands at its place.
fn frame_refusal(
    tree: &Tree,
    decls: &Decls,
    frame: &Frame,
    heading: &CopiedParts,
    items: &DeclaredList,
    template: &HeldTemplate,
) -> Option<ResumeRefusal>
    requires tree { IsTree tree.now }
    requires decls { IsDeclsOf decls.now tree.now.items }
    ensures { IsFrameAnswer tree.now.items frame.now heading.now items.now template.now result }
{
    if heading_differs(tree, frame, heading) {
        return Some(ResumeRefusal::HeadingChanged(frame.procedure));
    }
    if items_differ(tree, decls, frame, items) {
        return Some(ResumeRefusal::DeclarationChanged(frame.procedure));
    }
    if template_differs(tree, frame, template) {
        return Some(ResumeRefusal::TemplateChanged(frame.place.slot));
    }
    None
}
