//! The output of a run: the bytes that were written, and how values come behind them.
ghost use Rattle.std.specs.Prelude.{◌≡◌, ◌≤◌, ◌+◌, ◌<◌, ◌↔◌, ◌++◌, [], length, take, true, vec_capacity, IfOk, IsOk, OnErr, OnOk};
ghost use Rattle.plcs_store.specs.Limit.{most_output};
ghost use Rattle.plcs_store.specs.OutputItem.{at_line_start, output_with, value_bytes, with_item_written, with_items_written, with_line_ended};

use crate::limit::MOST_OUTPUT;
use itoa::Buffer;
use plcs_base::{OutOfMemory, Value};
use std::alloc::Global;
use std::marker::Model;

/// The output has no room for what is written.
#[derive(Clone, Copy, Debug, PartialEq, Eq)]
pub struct OutputFull;

/// What a run wrote, at most 100,000 bytes, which contracts see as a list. There is always room for that
/// many.
#[derive(Drop)]
pub struct Output {
    bytes: Vec<u8>,
}

impl Model for Output {
    ghost use Rattle.std.specs.Prelude.{List, ℕ, ◌≤◌, length, vec_capacity};
    ghost use Rattle.plcs_store.specs.Limit.{most_output};

    ghost Value = { List ℕ };

    ghost view = { λ a. a.bytes.items };

    ghost invariant = { λ a. (most_output ≤ vec_capacity a.bytes) × (length a.bytes.items ≤ most_output) };
}

impl Output {
    /// Nothing written, with room for 100,000 bytes.
    pub fn new(alloc: Global) -> Result<Output, OutOfMemory>
        ensures { IfOk result (λ output. output ≡ []) }
    {
        Ok(Output {
            bytes: Vec::with_capacity(alloc, MOST_OUTPUT)?,
        })
    }

    /// The bytes that were written to the output.
    pub fn as_slice(&self) -> &[u8]
        ensures bytes { result.now ≡ self.now }
        ensures few { length self.now ≤ most_output }
    {
        self.bytes.as_slice()
    }

    /// Keeps so many first bytes of the output, or all where there are no more. It takes no memory.
    pub fn truncate(&mut self, count: usize)
        ensures { self.new ≡ take count self.old }
    {
        self.bytes.truncate(count);
    }

    /// Writes the values behind the bytes of the output that were written, on a new line or not; where not all
    /// fit, nothing.
    ///
    /// `OutputFull` where the output would have over 100,000 bytes; then nothing is changed.
    pub fn write(&mut self, skip: bool, items: &[Value]) -> Result<(), OutputFull>
        ensures fits { IsOk result ↔ (length (output_with skip self.old items.now) ≤ most_output) }
        ensures written { OnOk result (self.new ≡ output_with skip self.old items.now) }
        ensures refused { OnErr result (self.new ≡ self.old) }
    {
        let before = self.bytes.len();
        match self.write_some(skip, items) {
            Ok(()) => Ok(()),
            Err(full) => {
                self.bytes.truncate(before);
                Err(full)
            }
        }
    }

    /// Puts the values behind the bytes of the output that were written, on a new line or not; where not all
    /// fit, as many as do.
    fn write_some(&mut self, skip: bool, items: &[Value]) -> Result<(), OutputFull>
        ensures fits { IsOk result ↔ (length (output_with skip self.old items.now) ≤ most_output) }
        ensures written { OnOk result (self.new ≡ output_with skip self.old items.now) }
        ensures kept { OnErr result (take (length self.old) self.new ≡ self.old) }
    {
        if skip {
            self.write_on_new_line(items)
        } else {
            self.write_all(items)
        }
    }

    /// Ends the line of the output, unless nothing was written yet, and has the values come behind the bytes
    /// that were written; where not all fit, as many as do.
    fn write_on_new_line(&mut self, items: &[Value]) -> Result<(), OutputFull>
        ensures fits { IsOk result ↔ (length (output_with true self.old items.now) ≤ most_output) }
        ensures written { OnOk result (self.new ≡ output_with true self.old items.now) }
        ensures kept { OnErr result (take (length self.old) self.new ≡ self.old) }
    {
        self.end_line()?;
        self.write_all(items)
    }

    /// Ends the line of the output, unless nothing was written yet.
    fn end_line(&mut self) -> Result<(), OutputFull>
        ensures fits { IsOk result ↔ (length (with_line_ended self.old) ≤ most_output) }
        ensures written { OnOk result (self.new ≡ with_line_ended self.old) }
        ensures refused { OnErr result (self.new ≡ self.old) }
    {
        if self.bytes.is_empty() {
            return Ok(());
        }
        self.put(b"\n")
    }

    /// Writes the values behind the bytes of the output; where not all fit, as many as do.
    fn write_all(&mut self, items: &[Value]) -> Result<(), OutputFull>
        ensures fits { IsOk result ↔ (length (with_items_written self.old items.now) ≤ most_output) }
        ensures written { OnOk result (self.new ≡ with_items_written self.old items.now) }
        ensures kept { OnErr result (take (length self.old) self.new ≡ self.old) }
    {
        let _ = &self.bytes;
        for value in items {
            self.write_one(value)?;
        }
        Ok(())
    }

    /// Writes a value behind what separates it from what stands before; where it doesn't fit, perhaps the
    /// separator alone.
    fn write_one(&mut self, value: &Value) -> Result<(), OutputFull>
        ensures fits { IsOk result ↔ (length (with_item_written self.old value.now) ≤ most_output) }
        ensures written { OnOk result (self.new ≡ with_item_written self.old value.now) }
        ensures kept { OnErr result (take (length self.old) self.new ≡ self.old) }
    {
        if !self.is_at_line_start() {
            self.put(b" ")?;
        }
        self.put_value(value)
    }

    /// Whether the output is empty or ends in a line end.
    fn is_at_line_start(&self) -> bool
        ensures { result ≡ at_line_start self.now }
    {
        match self.as_slice().last() {
            None => true,
            Some(byte) => *byte == b'\n',
        }
    }

    /// Has a value come behind the bytes of the output, or nothing where it doesn't fit.
    fn put_value(&mut self, value: &Value) -> Result<(), OutputFull>
        ensures fits { IsOk result ↔ (length (self.old ++ value_bytes value.now) ≤ most_output) }
        ensures written { OnOk result (self.new ≡ self.old ++ value_bytes value.now) }
        ensures refused { OnErr result (self.new ≡ self.old) }
    {
        match value {
            Value::Fixed(number) => self.put(Buffer::new().format(*number).as_bytes()),
            Value::Bit(false) => self.put(b"'0'B"),
            Value::Bit(true) => self.put(b"'1'B"),
            Value::Text(text) => self.put(text.as_bytes()),
        }
    }

    /// Puts the bytes into the output, or nothing where they don't fit.
    fn put(&mut self, bytes: &[u8]) -> Result<(), OutputFull>
        ensures fits { IsOk result ↔ (length (self.old ++ bytes.now) ≤ most_output) }
        ensures written { OnOk result (self.new ≡ self.old ++ bytes.now) }
        ensures refused { OnErr result (self.new ≡ self.old) }
    {
        if bytes.len() > MOST_OUTPUT - self.bytes.len() {
            return Err(OutputFull);
        }
        if self.bytes.extend_from_slice(bytes).is_err() {
            unreachable!()
        }
        Ok(())
    }
}
