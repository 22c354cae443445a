//! Files of the system, of which only the regular ones are read and replaced.
#![tactic(auto)]

mod beside;
mod regular_files;

pub use regular_files::RegularFiles;
