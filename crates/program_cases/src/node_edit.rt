//! Edits of a program that say no more than at which node they are made.
ghost use Rattle.std.specs.Prelude.{◌≡◌, IfErr, IfOk};
ghost use Rattle.template_tree.specs.Edits.Edit.{Differs};
ghost use Rattle.template_tree.specs.Programs.Tree.{IsTree};

use std::alloc::Global;
use template_tree::{Change, Path, Receipt, Side, Tree, TreeFault};

/// An edit of a program at a node.
#[derive(Clone, Copy)]
pub enum NodeEdit {
    /// The node is taken out, and a hole stays.
    Take,
    /// A hole is added on this side of the item.
    Add(Side),
    /// The hole is dropped from its list.
    Drop,
}

/// The edits of a program at a node, with their names.
pub static NODE_EDITS: [(&[u8], NodeEdit); 4] = [
    (b"take", NodeEdit::Take),
    (b"before", NodeEdit::Add(Side::Before)),
    (b"after", NodeEdit::Add(Side::After)),
    (b"drop", NodeEdit::Drop),
];

/// Edits the program at the path, and tells what was changed.
pub fn edited_at(
    alloc: Global,
    tree: &mut Tree,
    edit: NodeEdit,
    path: &Path,
) -> Result<Change, TreeFault>
    requires { IsTree tree.old }
    ensures tree { IsTree tree.new }
    ensures edited { IfOk result (Differs tree.old tree.new) }
    ensures refused { IfErr result (λ _. tree.new ≡ tree.old) }
{
    match edit {
        NodeEdit::Take => match tree.take(alloc, path) {
            Ok((node, receipt)) => {
                drop(node);
                Ok(changed(receipt))
            }
            Err(fault) => Err(fault),
        },
        NodeEdit::Add(side) => match tree.add_hole(alloc, path, side) {
            Ok(receipt) => Ok(changed(receipt)),
            Err(fault) => Err(fault),
        },
        NodeEdit::Drop => match tree.drop_hole(path) {
            Ok(receipt) => Ok(changed(receipt)),
            Err(fault) => Err(fault),
        },
    }
}

/// What the edit of the receipt changed, of which nothing else is kept.
pub fn changed(receipt: Receipt) -> Change
    ensures { result ≡ receipt.change }
{
    let change = receipt.change();
    drop(receipt);
    change
}
