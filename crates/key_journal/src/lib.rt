//! A journal of keys: each key is kept on a disk before it is given, so that no crash loses a key that
//! was given.
#![tactic(auto)]

mod disk;
mod disk_file;
mod journal;
mod keeping;
mod mem_disk;
mod replaying;
mod stage;
mod std_disk;
mod writes;

pub use disk::{DISK_END, Disk, DiskFault, a_disk_is_an_image, a_disk_reads_as_an_image};
pub use disk_file::DiskFile;
pub use journal::JournalKeys;
pub use mem_disk::{DiskCall, MemDisk, Piece};
pub use std_disk::{FileDisk, JOURNAL, StdDisk};
