//! The calls on rows and texts that a script may name.
use crate::rows::{
    put_differences, put_first_difference, put_last_difference, put_last_nonblank, put_nonblanks,
};
use crate::texts::{put_all_printable, put_line_end_count, put_line_ends, put_unprintables};
use case_script::{Told, number_of};

/// A call on rows or texts, which a script may name.
#[derive(Clone, Copy)]
pub enum Call {
    FirstDifference,
    LastDifference,
    LastNonblank,
    AllPrintable,
    CountLineEnds,
    Differences,
    Nonblanks,
    Unprintables,
    LineEnds,
}

/// The calls on rows and texts, each with its word.
pub static CALLS: [(&[u8], Call); 9] = [
    (b"first_difference", Call::FirstDifference),
    (b"last_difference", Call::LastDifference),
    (b"last_nonblank", Call::LastNonblank),
    (b"all_printable", Call::AllPrintable),
    (b"count_line_ends", Call::CountLineEnds),
    (b"differences", Call::Differences),
    (b"nonblanks", Call::Nonblanks),
    (b"unprintables", Call::Unprintables),
    (b"line_ends", Call::LineEnds),
];

/// Makes this one of the calls that a script may name, on rows or texts, with these arguments, and puts what it
/// answers, if it takes such arguments.
pub fn play(call: Call, arguments: &[Vec<u8>], told: &mut Told) -> Option<()> {
    match (call, arguments) {
        (Call::FirstDifference, [a, b]) => put_first_difference(a, b, told),
        (Call::LastDifference, [a, b]) => put_last_difference(a, b, told),
        (Call::LastNonblank, [row]) => put_last_nonblank(row, told),
        (Call::AllPrintable, [text]) => put_all_printable(text, told),
        (Call::CountLineEnds, [text]) => put_line_end_count(text, told),
        (Call::Differences, [most]) => put_differences(number_of(most)?, told),
        (Call::Nonblanks, [most, other]) => put_nonblanks(number_of(most)?, other, told),
        (Call::Unprintables, [most, other]) => put_unprintables(number_of(most)?, other, told),
        (Call::LineEnds, [most]) => put_line_ends(number_of(most)?, told),
        _ => None,
    }
}
