//! Runs of bytes of one class.
ghost use Rattle.std.specs.Prelude.{◌≡◌, ◌≤◌, length};
ghost use Rattle.std.specs.List.{prefix_len};
ghost use Rattle.phrase_parser.specs.Private.Front.{is_in};

use plcs_base::{is_digit, is_name_byte};

/// The classes of bytes of which runs are counted.
#[derive(Clone, Copy)]
pub enum ByteClass {
    /// The blank between tokens.
    Blank,
    /// `0` to `9`.
    Digit,
    /// What may follow in a name: a letter, a digit or `_`.
    NameByte,
}

/// How long the run of bytes of the class is that the text begins with.
pub fn leading(class: ByteClass, text: &[u8]) -> usize
    ensures counted { result ≡ prefix_len (is_in class) text.now }
    ensures within { result ≤ length text.now }
{
    let mut count = 0;
    while count < text.len() && is_in(class, text[count]) {
        count += 1;
    }
    count
}

/// Whether a byte is of the class, so that the run goes on.
fn is_in(class: ByteClass, byte: u8) -> bool
    ensures { result ≡ is_in class byte }
{
    match class {
        ByteClass::Blank => byte == b' ',
        ByteClass::Digit => is_digit(byte),
        ByteClass::NameByte => is_name_byte(byte),
    }
}
