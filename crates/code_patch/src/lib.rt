//! Patched code: the code of a program kept node by node, which an edit of the program mends where it changed.
//!
//! `code_node` is what is kept of a node, with how long the codes inside it are. `code_tree` keeps a program, and is a
//! view of its code: `instructions`, `located` and `names` find what a view is asked, and `homes` notes where nodes
//! stand. `fresh` makes nodes anew from the tree, whose nodes it finds by `outer`. An edit of the tree is prepared
//! beside the kept code, which takes all memory: `preparation` finds where it is among the `kept_paths`, takes `room`
//! for what comes, and goes by a `plan` through what is kept, as `list_edit` says. What comes of it are steps
//! (`code_edit`). These are then put in place, which takes none (`commitment`).
#![tactic(auto)]

mod code_edit;
mod code_node;
mod code_tree;
mod commitment;
mod fresh;
mod homes;
mod instructions;
mod kept_code_laws;
mod kept_paths;
mod list_edit;
mod located;
mod names;
mod outer;
mod plan;
mod preparation;
mod room;

pub use code_edit::Prepared;
pub use code_tree::CodeTree;
pub use kept_code_laws::{kept_code_ignores_room_and_elision, kept_code_is_told};
