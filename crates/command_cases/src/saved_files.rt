//! The files that runs of saved programs find, and the writes of their output that are to fail.

use case_script::{Told, numbers_of};
use std::alloc::Global;
use synth_outside::{Files, FilesFault, MemFiles, MemSink};

/// Files in memory, and which writes of a run's output fail.
#[derive(Drop)]
pub(crate) struct SavedFiles {
    /// The files that runs find.
    pub(crate) files: MemFiles,
    /// The numbers of the writes, from 1, that fail in a run.
    failing_writes: Vec<u64>,
}

impl SavedFiles {
    /// No files yet, and no write that fails.
    pub(crate) fn new(alloc: Global) -> SavedFiles {
        SavedFiles {
            files: MemFiles::new(alloc, Vec::new(alloc)),
            failing_writes: Vec::new(alloc),
        }
    }

    /// Runs of saved programs find no files again; the calls on the files of these numbers fail.
    pub(crate) fn renew(&mut self, fails: &[Vec<u8>], told: &mut Told) -> Option<()> {
        let alloc = told.alloc();
        self.files = MemFiles::new(alloc, numbers_of(alloc, fails)?);
        told.line("none");
        Some(())
    }

    /// The writes of an output of these numbers fail in each run from now on.
    pub(crate) fn set_failing_writes(&mut self, fails: &[Vec<u8>], told: &mut Told) -> Option<()> {
        self.failing_writes = numbers_of(told.alloc(), fails)?;
        told.line("Ok");
        Some(())
    }

    /// The sink for the output of a run, of which those writes fail.
    pub(crate) fn sink(&self, alloc: Global) -> Option<MemSink> {
        let fails = self.failing_writes.as_slice().to_vec(alloc).ok()?;
        Some(MemSink::new(alloc, fails))
    }

    /// Puts a file of these bytes among those that runs of saved programs find.
    pub(crate) fn put(&mut self, name: &[u8], bytes: &[u8], told: &mut Told) {
        let put = self.try_put(name, bytes);
        told.value_line(&put);
    }

    /// Puts a file of these bytes among those that runs of saved programs find, if no call on the files fails.
    fn try_put(&mut self, name: &[u8], bytes: &[u8]) -> Result<(), FilesFault> {
        self.files.begin(name)?;
        if !bytes.is_empty() {
            self.files.write(bytes)?;
        }
        self.files.commit()
    }
}
