//! The three questions that are asked of a frame.
ghost use Rattle.std.specs.Prelude.{◌≡◌, ◌↔◌, IsTrue};
ghost use Rattle.decl_table.specs.Agreement.{IsDeclsOf};
ghost use Rattle.template_tree.specs.Programs.Tree.{IsTree};
ghost use Rattle.plcs_store.specs.Resume.{HeadingDiffers, ItemsDiffer, TemplateDiffers, asks_for_parts, asks_for_template_parts};

use crate::equal_copy::{has_items, has_kind, has_parts};
use crate::live_node::{node_in, procedure_in};
use decl_table::Decls;
use plcs_grammar::{NodeKind, Template};
use plcs_store::{CopiedParts, DeclaredList, Frame, HeldTemplate, items_keep_limits};
use template_tree::Tree;

/// Whether the frame's procedure is gone, or its heading has other phrases.
pub(crate) fn heading_differs(tree: &Tree, frame: &Frame, kept: &CopiedParts) -> bool
    requires tree { IsTree tree.now }
    ensures { IsTrue result ↔ HeadingDiffers tree.now.items frame.now kept.now }
{
    let Some(procedure) = procedure_in(tree, frame.procedure) else {
        return true;
    };
    !has_parts(procedure, kept)
}

/// Whether the frame's procedure has other effective items.
pub(crate) fn items_differ(tree: &Tree, decls: &Decls, frame: &Frame, kept: &DeclaredList) -> bool
    requires tree { IsTree tree.now }
    requires decls { IsDeclsOf decls.now tree.now.items }
    ensures { IsTrue result ↔ ItemsDiffer tree.now.items frame.now kept.now }
{
    items_keep_limits();
    !has_items(decls, frame.procedure, kept)
}

/// Whether nothing stands in the slot of the frame's place, or, where the place isn't its start, what stands there is
/// of another kind or has other parts than those that it is asked for.
pub(crate) fn template_differs(tree: &Tree, frame: &Frame, kept: &HeldTemplate) -> bool
    requires tree { IsTree tree.now }
    ensures { IsTrue result ↔ TemplateDiffers tree.now.items frame.now kept.now }
{
    let Some(node) = node_in(tree, frame.place.slot) else {
        return true;
    };
    if frame.place.point.0 == 0 {
        return false;
    }
    !has_kind(node, kept.kind) || (asks_for_parts(kept.kind) && !has_parts(node, &kept.parts))
}

/// Whether a resumption asks that the parts of a node of the kind are as they were, where a run stands at another point
/// than its start.
fn asks_for_parts(kind: NodeKind) -> bool
    ensures { result ≡ asks_for_parts kind }
{
    match kind {
        NodeKind::DeclarationHole
        | NodeKind::StatementHole
        | NodeKind::ProcedureHole
        | NodeKind::Main
        | NodeKind::Assign => true,
        NodeKind::Filled(template) => asks_for_template_parts(template),
    }
}

/// Whether a resumption asks that the parts of the template are as they were, where a run stands at another point than
/// its start: not those of an Until, whose condition is tested as it is by then.
fn asks_for_template_parts(template: Template) -> bool
    ensures { result ≡ asks_for_template_parts template }
{
    match template {
        Template::Until => false,
        Template::Fixed
        | Template::Bit
        | Template::Char
        | Template::If
        | Template::IfElse
        | Template::While
        | Template::For
        | Template::Group
        | Template::Get
        | Template::Put
        | Template::PutSkip
        | Template::Call
        | Template::Return
        | Template::Comment
        | Template::Proc
        | Template::ProcP => true,
    }
}
