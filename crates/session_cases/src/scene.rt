//! What a script holds from line to line.

use crate::playing::Played;
use case_script::Told;
use std::alloc::Global;
use synth_outside::MemFiles;

/// What a script holds from line to line.
#[derive(Drop)]
pub struct Scene {
    /// The keys behind which the session at hand stands.
    pub keys: Vec<u8>,
    /// The files that runs find and leave.
    pub files: MemFiles,
    /// The words of the last run.
    pub words: Vec<String>,
    /// The keys of the last run.
    pub given: Vec<u8>,
    /// The last run.
    pub played: Played,
    /// What was painted of a session, and how long that was after each byte of its keys.
    pub painted: Vec<u8>,
    pub ends: Vec<usize>,
    /// Whether the screen that was painted anew at last was as the one before it.
    pub same: bool,
    /// The lines of text for the next file.
    pub text: Vec<u8>,
    /// The answer to the case at hand.
    pub told: Told,
}

impl Scene {
    /// The scene at the beginning of a script: no keys, no files, no run.
    pub fn new(alloc: Global) -> Self {
        Scene {
            keys: Vec::new(alloc),
            files: MemFiles::new(alloc, Vec::new(alloc)),
            words: Vec::new(alloc),
            given: Vec::new(alloc),
            played: Played::none(alloc),
            painted: Vec::new(alloc),
            ends: Vec::new(alloc),
            same: true,
            text: Vec::new(alloc),
            told: Told::new(alloc),
        }
    }
}
