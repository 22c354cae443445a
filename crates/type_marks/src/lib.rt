//! The verdicts of phrases, and the marks of a program.
#![tactic(auto)]

mod calls;
mod chain;
mod declared_items;
mod due_checks;
mod kind_table;
mod kinds;
mod list_checks;
mod mark_edit;
mod marks;
mod names;
mod preparation;
mod procedures;
mod statements;
mod verdict;
mod verdict_laws;

pub use mark_edit::{MarkEdit, MarksAfter};
pub use marks::Marks;
pub use verdict::{Verdict, check_phrase};
pub use verdict_laws::verdicts_stay_unless_due;
