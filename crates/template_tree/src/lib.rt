//! The tree of templates: programs, their listing, and how they are read.
//!
//! `declarations` and `headings` read what these say from the parts of their nodes, and tell which names may be
//! called; `filled_part` finds the phrase in a part. `node_laws` states what is known of nodes in order.
//!
//! One file an edit: `fill`, `fill_assign`, `set_phrase`, `take`, `insert`, `list_edit` (`add_hole`,
//! `drop_hole`), `elide`. They stand on `exchange` (a node in place of another; also the procedure that a change
//! names), `list_change` (into a list or out of it), `put_part` (a part set to what it takes) and `descent` (a
//! node lent for writing). `limit_reached` asks for the limits, depth and number of slots, before nodes come in;
//! their values are in `limit`. Found by a path: `node_at` a node, `around_path` its sections and neighbours,
//! `beside` the next path in a list, the path before, and on which side of an item another lies, `list_item`
//! whether it is in a list, and whether two of its sort are; by a slot: `path_of` its path. `hole` is which hole
//! stands for which kind. `build` makes nodes and trees from their leaves, and draws the slots of nodes, also
//! of those that come into a slot. `change` says what an edit changed, `receipt` what undoes it; `undo` does,
//! with the slots that were drawn then, and `revert`, with those that are drawn by now.
#![tactic(auto)]

mod around_path;
mod beside;
mod build;
mod change;
mod check_laws;
mod copy;
mod declarations;
mod descent;
mod elide;
mod exchange;
mod fill;
mod fill_assign;
mod filled_part;
mod headings;
mod hole;
mod homes;
mod insert;
mod limit;
mod limit_reached;
mod list_change;
mod list_edit;
mod list_item;
mod listing;
mod listing_laws;
mod node;
mod node_at;
mod node_laws;
mod path;
mod path_of;
mod phrase_place;
mod put_part;
mod receipt;
mod revert;
mod room_laws;
mod sections_left;
mod set_phrase;
mod side;
mod slot_count;
mod stop;
mod take;
mod tree;
mod tree_fault;
mod tree_laws;
mod undo;

pub use beside::{added_path, path_before};
pub use build::BuildLimit;
pub use change::{Change, What};
pub use check_laws::checks_ignore_room_and_elision;
pub use declarations::{cells_of, list_items, type_given};
pub use filled_part::phrase_in;
pub use headings::{heading_name, heading_parameters, may_be_called, parameters_given};
pub use hole::hole_left;
pub use limit::{DEEPEST_PATH, LONGEST_PHRASE, MOST_CELLS, MOST_DRAWN_SLOTS, MOST_SLOTS};
pub use listing_laws::listing_splits_in_lines;
pub use node::{Node, Nodes};
pub use node_laws::items_are_nodes;
pub use path::{Path, copy_path, path_of_item};
pub use phrase_place::PhrasePlace;
pub use put_part::part_category;
pub use receipt::Receipt;
pub use room_laws::{edits_ignore_room, room_is_not_shown};
pub use sections_left::SectionsLeft;
pub use side::Side;
pub use stop::{Stop, copy_stop};
pub use tree::Tree;
pub use tree_fault::TreeFault;
pub use tree_laws::{
    add_keeps_tree, drop_keeps_tree, part_keeps_tree, put_keeps_tree, receipts_revert_to_undone,
    reverts_ignore_elision, set_part_keeps_tree, slot_edit_is_path_edit, undo_stays_possible,
};
