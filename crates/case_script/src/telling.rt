//! What is told of a case: the lines of its answer.

use crate::quoting::quoted;
use plcs_base::{ByteOut, put_bytes};
use std::alloc::Global;
use std::fmt::Debug;
use std::io;

/// Lines that are told of a case.
#[derive(Drop)]
pub struct Told {
    alloc: Global,
    bytes: Vec<u8>,
    /// Whether there was memory for all of them.
    whole: bool,
}

impl ByteOut for Told {
    ghost puts = { λ _ _ _. Unit {0} };

    fn put(&mut self, byte: u8) {
        if self.bytes.push(byte).is_err() {
            self.whole = false;
        }
    }
}

impl Told {
    /// No lines that are told yet.
    pub fn new(alloc: Global) -> Told {
        Told {
            alloc,
            bytes: Vec::new(alloc),
            whole: true,
        }
    }

    /// The allocator for what is made on the way to what is told.
    pub fn alloc(&self) -> Global {
        self.alloc
    }

    /// The bytes that were told so far.
    pub fn as_bytes(&self) -> &[u8] {
        self.bytes.as_slice()
    }

    /// What was told, or that memory ran out.
    pub fn as_str(&self) -> &str {
        match std::str::from_utf8(self.bytes.as_slice()) {
            Ok(text) if self.whole => text,
            _ => "OUT OF MEMORY",
        }
    }

    /// Whether the other tells the same of a case.
    pub fn is_same(&self, other: &Told) -> bool {
        self.whole && other.whole && self.bytes.as_slice() == other.bytes.as_slice()
    }

    /// Forgets what was told.
    pub fn clear(&mut self) {
        self.bytes.clear();
        self.whole = true;
    }

    /// Puts a text behind what is told.
    pub fn text(&mut self, text: &str) {
        put_bytes(text.as_bytes(), self);
    }

    /// Puts a text behind what is told, and ends the line.
    pub fn line(&mut self, text: &str) {
        self.text(text);
        self.put(b'\n');
    }

    /// Puts a value behind what is told, as it is shown where code is traced.
    pub fn value<T: Debug>(&mut self, value: &T) {
        match format!(in self.alloc; "{value:?}") {
            Ok(text) => self.text(text.as_str()),
            Err(_) => self.whole = false,
        }
    }

    /// Puts a value so behind what is told of a case, and ends the line of its answer.
    pub fn value_line<T: Debug>(&mut self, value: &T) {
        self.value(value);
        self.put(b'\n');
    }

    /// Puts bytes behind what is told, as a word of scripts, in quotes.
    pub fn word(&mut self, bytes: &[u8]) {
        match quoted(self.alloc, bytes) {
            Ok(text) => self.text(text.as_str()),
            Err(_) => self.whole = false,
        }
    }

    /// Puts bytes so behind what is told, and ends the line.
    pub fn word_line(&mut self, bytes: &[u8]) {
        self.word(bytes);
        self.put(b'\n');
    }
}

/// Prints each line that is told as one of an answer.
pub fn print_told<R: Print + Alloc>(rt: &R, told: &Told) -> io::Result<()> {
    for line in told.as_str().lines() {
        match line {
            "" => println!(rt; "=")?,
            line => println!(rt; "= {line}")?,
        }
    }
    Ok(())
}
