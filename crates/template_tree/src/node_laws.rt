//! The laws of nodes in order; a function that does nothing and whose contract states them.
ghost use Rattle.template_tree.specs.Laws.NodeLaws.{ItemsAreFew, ItemsAreFound, ItemsAreSubtrees, ItemsHoldFewer};

/// What is known of the items of nodes, as main and the procedures are of a program: they are found by
/// their numbers, as subtrees, and there are no more of them than nodes.
pub fn items_are_nodes()
    ensures few { ItemsAreFew }
    ensures found { ItemsAreFound }
    ensures fewer { ItemsHoldFewer }
    ensures subtrees { ItemsAreSubtrees }
{}
