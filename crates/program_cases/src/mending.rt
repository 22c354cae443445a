//! Edits of a program, after each of which one layout is mended.
ghost use Rattle.std.specs.Prelude.{OnSome};
ghost use Rattle.template_tree.specs.Programs.Tree.{IsTree};
ghost use Rattle.unparse_layout.specs.Agreement.{IsLayoutOf};

use crate::lines::same_lines;
use crate::node_edit::{NODE_EDITS, NodeEdit, edited_at};
use crate::program::path_to;
use case_script::{Told, meaning, number_of};
use plcs_base::{Counts, OutOfMemory};
use std::alloc::Global;
use template_tree::{Path, Tree, TreeFault};
use unparse_layout::Layout;

/// Edits the program: does at each slot what the last word before it names, and mends one layout each time.
pub fn mend(alloc: Global, tree: &mut Tree, words: &[Vec<u8>], told: &mut Told) -> Option<()>
    requires { IsTree tree.old }
    ensures { IsTree tree.new }
{
    match Layout::new(alloc, tree) {
        Ok(mut layout) => {
            let done = mend_each(alloc, &mut layout, tree, words, told);
            drop(layout);
            done
        }
        Err(OutOfMemory) => None,
    }
}

/// Edits a program that was read: does at each slot what the last word before it names, and mends this layout.
fn mend_each(
    alloc: Global,
    layout: &mut Layout<Counts>,
    tree: &mut Tree,
    words: &[Vec<u8>],
    told: &mut Told,
) -> Option<()>
    requires tree { IsTree tree.old }
    requires agrees { IsLayoutOf layout.old tree.old }
    ensures { IsTree tree.new }
{
    let mut edit = NodeEdit::Take;
    for word in words {
        match meaning(&NODE_EDITS, word.as_slice()) {
            Some(named) => edit = named,
            None => {
                let slot = number_of(word.as_slice())?;
                tell_mended(alloc, layout, tree, edit, slot, told)?;
            }
        }
    }
    Some(())
}

/// Edits the program at the slot and mends the layout, and tells the fault, if there is one, how many lines there are
/// now, and whether a layout that is made anew has the same.
fn tell_mended(
    alloc: Global,
    layout: &mut Layout<Counts>,
    tree: &mut Tree,
    edit: NodeEdit,
    slot: u32,
    told: &mut Told,
) -> Option<()>
    requires tree { IsTree tree.old }
    requires agrees { IsLayoutOf layout.old tree.old }
    ensures tree { IsTree tree.new }
    ensures agrees { OnSome result (IsLayoutOf layout.new tree.new) }
{
    let path = path_to(tree, slot);
    let fault = edit_and_mend(alloc, layout, tree, edit, &path)?;
    told.value(&fault);
    told.text(", ");
    told.value(&layout.lines());
    told.text(" lines, same as made anew: ");
    told.value_line(&same_lines(alloc, layout, tree)?);
    Some(())
}

/// Edits the program at the path and mends the layout, or tells why the edit is refused; `None` where there is no
/// memory for the layout.
fn edit_and_mend(
    alloc: Global,
    layout: &mut Layout<Counts>,
    tree: &mut Tree,
    edit: NodeEdit,
    path: &Path,
) -> Option<Option<TreeFault>>
    requires tree { IsTree tree.old }
    requires agrees { IsLayoutOf layout.old tree.old }
    ensures tree { IsTree tree.new }
    ensures agrees { OnSome result (IsLayoutOf layout.new tree.new) }
{
    match edited_at(alloc, tree, edit, path) {
        Ok(change) => match layout.prepare(alloc, tree, &change) {
            Ok(prepared) => {
                layout.commit(prepared);
                Some(None)
            }
            Err(OutOfMemory) => None,
        },
        Err(fault) => Some(Some(fault)),
    }
}
