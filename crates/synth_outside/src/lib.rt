//! What the editor reads from and writes to: a source of bytes, a sink of bytes and files by name,
//! each as a trait, in memory, and over std's streams.
#![tactic(auto)]

mod calls;
mod entries;
mod faults;
mod files;
mod mem_files;
mod mem_sink;
mod mem_source;
mod sink;
mod source;
mod std_files;
mod std_sink;
mod std_source;
mod unread;

pub use calls::Calls;
pub use faults::{FilesFault, SinkFault, SourceFault};
pub use files::{Files, commit_sets_one_name};
pub use mem_files::MemFiles;
pub use mem_sink::MemSink;
pub use mem_source::MemSource;
pub use sink::Sink;
pub use source::Source;
pub use std_files::StdFiles;
pub use std_sink::StdSink;
pub use std_source::StdSource;
