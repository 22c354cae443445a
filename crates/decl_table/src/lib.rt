//! The table of declarations: the effective items of each procedure, the effective headings, and the
//! phrases that mention each name.
//!
//! `decls` is the table: `scopes` has the items (`items`, as `item_fold` takes them from declarations;
//! `list_offences` says what is wrong with these), `headings` the effective headings, `uses` the mentions
//! (`mention_list`), and `name_node` the names that each node mentions (`name_list`), so that an edit finds what
//! went. An edit is prepared in `preparation`: `name_edit` is what becomes of the names of nodes, which `name_mends`
//! puts in place, `changed_nodes` what stood and stands there, `reach` how far it reaches, `heading_changes` which
//! names get another heading, `name_set` which names are affected, `due_phrases` what is due for a check, and
//! `known_table` what has to be known there. `decl_edit` is the prepared edit, `decls_after` the items with it, and
//! `commitment` puts it in place.
#![tactic(auto)]

mod changed_nodes;
mod commitment;
mod decl_edit;
mod decl_laws;
mod decls;
mod decls_after;
mod due_phrases;
mod heading_changes;
mod headings;
mod item_fold;
mod items;
mod kind;
mod known_table;
mod list_offences;
mod mention_list;
mod name_edit;
mod name_list;
mod name_mends;
mod name_node;
mod name_set;
mod preparation;
mod reach;
mod scopes;
mod uses;

pub use decl_edit::DeclEdit;
pub use decl_laws::{
    due_are_counted, due_are_few, due_ignores_room, due_is_one, list_offences_are_verdicts,
    put_in_place_agrees, tables_ignore_room_and_elision,
};
pub use decls::Decls;
pub use decls_after::DeclsAfter;
pub use kind::kind_of_type;
pub use list_offences::ListOffences;
