//! A stream of which one call alone fails.

use std::io;
use std::io::{Error, ErrorKind, Read, Write};

/// A stream of which one call alone fails, so that whoever tries again succeeds.
#[derive(Drop)]
pub(crate) struct Stumbling {
    calls: u32,
    failing: u32,
}

impl Stumbling {
    /// A stream whose call of this number, from 1, fails.
    pub(crate) fn new(failing: u32) -> Self {
        Stumbling { calls: 0, failing }
    }

    /// Counts one more call of the stream of which one alone fails.
    fn step(&mut self) -> io::Result<()> {
        self.calls = self.calls.saturating_add(1);
        if self.calls == self.failing {
            return Err(Error::from(ErrorKind::Interrupted));
        }
        Ok(())
    }
}

impl Read for Stumbling {
    fn read(&mut self, _buf: &mut [u8]) -> io::Result<usize> {
        self.step()?;
        Ok(0)
    }
}

impl Write for Stumbling {
    fn write(&mut self, piece: &[u8]) -> io::Result<usize> {
        self.step()?;
        Ok(piece.len())
    }

    fn flush(&mut self) -> io::Result<()> {
        self.step()
    }
}
