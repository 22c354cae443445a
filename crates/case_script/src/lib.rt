//! Scripts of cases: their lines cut into words, what a word stands for, and what is told of a case. The programs
//! whose names end in `_cases` play them.
#![tactic(auto)]

mod quoting;
mod table;
mod telling;
mod words;

pub use quoting::quoted;
pub use table::meaning;
pub use telling::{Told, print_told};
pub use words::{number_of, numbers_of, words_of};
