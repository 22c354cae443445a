//! Sources that are read, and sinks that are written to.

ghost use Rattle.std.specs.Prelude.{◌<◌, IfSome, length};

use crate::call::StreamCall;
use crate::stumbling::Stumbling;
use case_script::{Told, number_of, numbers_of, words_of};
use plcs_base::ByteOut;
use std::alloc::Global;
use std::fs::File;
use std::io;
use std::io::BufWriter;
use std::rt::Files;
use synth_outside::{MemSink, MemSource, Sink, Source, StdSink, StdSource};

/// Makes a source or a sink of the first word, and reads pieces of these sizes from it, or writes these pieces to
/// it. Of a source in memory the first word behind has the numbers of the calls that are to fail.
pub(crate) fn play<R: Files<File = File>>(
    rt: &R,
    call: StreamCall,
    first: &[u8],
    rest: &[Vec<u8>],
    told: &mut Told,
) -> Option<()> {
    match call {
        StreamCall::Source => read_memory(first, rest, told),
        StreamCall::SliceSource => reads(&mut StdSource::new(first), rest, told),
        StreamCall::StumblingSource => read_stumbling(number_of(first)?, rest, told),
        StreamCall::FileSource => read_file(File::open(rt, name_of(first)?), rest, told),
        StreamCall::UnreadableSource => read_file(File::create(rt, name_of(first)?), rest, told),
        StreamCall::Sink => write_memory(first, rest, told),
        StreamCall::SliceSink => write_slice(first, rest, told),
        StreamCall::StumblingSink => write_stumbling(number_of(first)?, rest, told),
        StreamCall::FileSink => write_buffered(File::create(rt, name_of(first)?), rest, told),
        StreamCall::UnwritableSink => write_file(File::open(rt, name_of(first)?), rest, told),
    }
}

/// The name of a file of the system, from which a source or a sink is made.
fn name_of(word: &[u8]) -> Option<&str> {
    str::from_utf8(word).ok()
}

/// Reads from a source in memory with the bytes; the first word has the numbers of the calls that are to fail.
fn read_memory(bytes: &[u8], words: &[Vec<u8>], told: &mut Told) -> Option<()> {
    let (fails, sizes) = words.split_first()?;
    match memory_source(told.alloc(), bytes, fails) {
        Some(mut source) => {
            let read = reads(&mut source, sizes, told);
            drop(source);
            read
        }
        None => None,
    }
}

/// A source in memory with the bytes, of which the calls of these numbers are to fail.
fn memory_source(alloc: Global, bytes: &[u8], fails: &[u8]) -> Option<MemSource> {
    match bytes.to_vec(alloc) {
        Ok(bytes) => match fails_of(alloc, fails) {
            Some(fails) => Some(MemSource::new(bytes, fails)),
            None => {
                drop(bytes);
                None
            }
        },
        Err(_) => None,
    }
}

/// The numbers of the calls of a source or a sink that are to fail, in a word.
fn fails_of(alloc: Global, word: &[u8]) -> Option<Vec<u64>> {
    match words_of(alloc, word) {
        Ok(Some(words)) => {
            let fails = numbers_of(alloc, words.as_slice());
            drop(words);
            fails
        }
        Ok(None) | Err(_) => None,
    }
}

/// Reads pieces of these sizes from a source whose stream fails in its call of this number.
fn read_stumbling(failing: u32, sizes: &[Vec<u8>], told: &mut Told) -> Option<()> {
    reads(&mut StdSource::new(Stumbling::new(failing)), sizes, told)
}

/// Reads a source over a file of the system, if that could be opened.
fn read_file(file: io::Result<File>, sizes: &[Vec<u8>], told: &mut Told) -> Option<()> {
    match file {
        Ok(file) => {
            let mut source = StdSource::new(file);
            let read = reads(&mut source, sizes, told);
            drop(source);
            read
        }
        Err(_) => tell_refused(told),
    }
}

/// Tells that the file of a source or a sink couldn't be opened.
fn tell_refused(told: &mut Told) -> Option<()> {
    told.line("refused by the system");
    Some(())
}

/// Reads a source into buffers of these sizes, of blanks, and tells each answer and what the buffer has.
fn reads<S: Source>(source: &mut S, sizes: &[Vec<u8>], told: &mut Told) -> Option<()> {
    for size in sizes {
        read(source, size, told)?;
    }
    Some(())
}

/// Reads a source into a buffer of the size.
fn read<S: Source>(source: &mut S, size: &[u8], told: &mut Told) -> Option<()> {
    match buffer(told.alloc(), size) {
        Some(mut buf) => {
            told.value(&source.read(buf.as_mut_slice()));
            told.put(b' ');
            told.word_line(buf.as_slice());
            drop(buf);
            Some(())
        }
        None => None,
    }
}

/// A buffer of the size, of blanks, for reading a source, if that isn't 0.
pub(crate) fn buffer(alloc: Global, size: &[u8]) -> Option<Vec<u8>>
    ensures { IfSome result (λ buffer. 0 < length buffer.items) }
{
    match number_of(size)? {
        0 => None,
        size => match vec![in alloc; b' '; size as usize] {
            Ok(buffer) => Some(buffer),
            Err(_) => None,
        },
    }
}

/// Writes to a sink in memory whose calls of these numbers are to fail, and tells what it took.
fn write_memory(fails: &[u8], pieces: &[Vec<u8>], told: &mut Told) -> Option<()> {
    match fails_of(told.alloc(), fails) {
        Some(fails) => {
            let mut sink = MemSink::new(told.alloc(), fails);
            let written = writes(&mut sink, pieces, told);
            told.word_line(sink.bytes());
            drop(sink);
            written
        }
        None => None,
    }
}

/// Writes to a sink over a stream that takes as many bytes as the room has.
fn write_slice(room: &[u8], pieces: &[Vec<u8>], told: &mut Told) -> Option<()> {
    match room.to_vec(told.alloc()) {
        Ok(mut room) => {
            let written = writes(&mut StdSink::new(room.as_mut_slice()), pieces, told);
            drop(room);
            written
        }
        Err(_) => None,
    }
}

/// Writes these pieces to a sink whose stream fails in its call of this number.
fn write_stumbling(failing: u32, pieces: &[Vec<u8>], told: &mut Told) -> Option<()> {
    writes(&mut StdSink::new(Stumbling::new(failing)), pieces, told)
}

/// Writes to a sink over a file of the system, if that could be opened.
fn write_file(file: io::Result<File>, pieces: &[Vec<u8>], told: &mut Told) -> Option<()> {
    match file {
        Ok(file) => {
            let mut sink = StdSink::new(file);
            let written = writes(&mut sink, pieces, told);
            drop(sink);
            written
        }
        Err(_) => tell_refused(told),
    }
}

/// Writes to a sink over a file of the system, by a writer with a buffer, if that could be made.
fn write_buffered(file: io::Result<File>, pieces: &[Vec<u8>], told: &mut Told) -> Option<()> {
    match file {
        Ok(file) => match BufWriter::new(told.alloc(), file) {
            Ok(writer) => {
                let mut sink = StdSink::new(writer);
                let written = writes(&mut sink, pieces, told);
                drop(sink);
                written
            }
            Err(_) => None,
        },
        Err(_) => tell_refused(told),
    }
}

/// Writes the pieces to a sink, none of which may be empty, and tells each answer.
fn writes<S: Sink>(sink: &mut S, pieces: &[Vec<u8>], told: &mut Told) -> Option<()> {
    for piece in pieces {
        if piece.is_empty() {
            return None;
        }
        told.value_line(&sink.write(piece));
    }
    Some(())
}
