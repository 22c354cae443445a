//! The effective items of a procedure, as a scope tells them.
ghost use Rattle.std.specs.Prelude.{◌≡◌, IfOk};
ghost use Rattle.template_tree.specs.Programs.Program.{sort_of};
ghost use Rattle.template_tree.specs.Checks.ProgramMaps.{items_in};
ghost use Rattle.plcs_code.specs.Private.LaidCode.{HasItems, has_items};

use plcs_base::{Declared, OutOfMemory, Scope, Slot};
use plcs_grammar::{NodeKind, Sort};
use std::alloc::Global;
use template_tree::Node;

/// The effective items of a node, as far as its own code depends on them: none where it is no procedure.
pub(crate) fn procedure_items<D: Scope>(
    alloc: Global,
    scope: &D,
    node: &Node,
) -> Result<Vec<Declared>, OutOfMemory>
    ensures { IfOk result (λ items. HasItems (D.items scope.now) node.now.label items.items) }
{
    if !has_items(node.kind()) {
        return Ok(Vec::new(alloc));
    }
    items_in(alloc, scope, node.slot())
}

/// The effective items of the procedure in the slot, as the scope tells them, in listing order.
fn items_in<D: Scope>(alloc: Global, scope: &D, slot: Slot) -> Result<Vec<Declared>, OutOfMemory>
    ensures { IfOk result (λ items. items.items ≡ items_in (D.items scope.now) slot.0) }
{
    let mut items = Vec::new(alloc);
    let mut k = 0;
    while let Some(item) = scope.declared(slot, k) {
        let Ok(()) = items.push(item) else {
            drop(items);
            return Err(OutOfMemory);
        };
        if k == u32::MAX {
            drop(items);
            return Err(OutOfMemory);
        }
        k += 1;
    }
    Ok(items)
}

/// Whether the own code of a node of the kind depends on items: that of a procedure does.
fn has_items(kind: NodeKind) -> bool
    ensures { result ≡ has_items (sort_of kind) }
{
    match kind.row().sort {
        Sort::Main => true,
        Sort::Procedure => true,
        Sort::Declaration => false,
        Sort::Statement => false,
    }
}
