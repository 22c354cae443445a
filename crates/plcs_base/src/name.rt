//! Names.
ghost use Rattle.std.specs.Prelude.{◌≡◌, ◌↔◌, IsSome, IfSome, IsTrue};
ghost use Rattle.std.specs.Str.{bytes_eq};
ghost use Rattle.std.specs.List.{list_all, list_any};
ghost use Rattle.plcs_base.specs.Byte.{is_name_byte};
ghost use Rattle.plcs_base.specs.Name.{is_keyword, is_word, is_name, IsName};

use crate::byte::{is_letter, is_name_byte};
use arrayvec::ArrayVec;
use std::marker::Model;

/// The keywords of 2 bytes, which are no names, as are those of each other length.
const KEYWORDS_OF_2: [&[u8]; 4] = [b"BY", b"DO", b"IF", b"TO"];

/// The keywords of 3 bytes, which are no names.
const KEYWORDS_OF_3: [&[u8]; 4] = [b"BIT", b"END", b"GET", b"PUT"];

/// The keywords of 4 bytes, which are no names.
const KEYWORDS_OF_4: [&[u8]; 7] = [
    b"CALL", b"ELSE", b"LIST", b"MAIN", b"SKIP", b"THEN", b"WHEN",
];

/// The keywords of 5 bytes, which are no names.
const KEYWORDS_OF_5: [&[u8]; 4] = [b"FIXED", b"FLOAT", b"UNTIL", b"WHILE"];

/// The keywords of 6 bytes, which are no names.
const KEYWORDS_OF_6: [&[u8]; 2] = [b"RETURN", b"SELECT"];

/// The keywords of 7 bytes, which are no names.
const KEYWORDS_OF_7: [&[u8]; 3] = [b"DECLARE", b"OPTIONS", b"VARYING"];

/// The keywords of 9 bytes, which are no names; none has 8, and none has more.
const KEYWORDS_OF_9: [&[u8]; 3] = [b"CHARACTER", b"OTHERWISE", b"PROCEDURE"];

/// How many bytes a name may have.
pub const LONGEST_NAME: usize = 31;

/// A name, which contracts see as its bytes.
#[derive(Clone, Debug, Drop, PartialEq, Eq, Hash)]
pub struct Name {
    bytes: ArrayVec<u8, LONGEST_NAME>,
}

impl Model for Name {
    ghost use Rattle.std.specs.Prelude.{List, ℕ};
    ghost use Rattle.plcs_base.specs.Name.{IsName};

    ghost Value = { List ℕ };

    ghost view = { λ name. name.bytes.items };

    ghost invariant = { λ name. IsName name.bytes.items };

    ghost inverse = { λ bytes. record { bytes = record { items = bytes } } };
}

impl Name {
    /// The bytes as a name: a letter, then letters, digits or `_`, at most 31 bytes in all, and no
    /// keyword. `None` for anything else.
    pub fn read(bytes: &[u8]) -> Option<Name>
        ensures names { IsSome result ↔ (IsName bytes.now) }
        ensures same { IfSome result (λ name. name ≡ bytes.now) }
    {
        if is_name(bytes) {
            Some(Name::of(bytes))
        } else {
            None
        }
    }

    /// The name that the bytes are, which `read` tests. It takes no memory.
    #[tactic(auto, using(crate::proofs::Words::name_short))]
    pub fn of(bytes: &[u8]) -> Name
        requires { IsName bytes.now }
        ensures { result ≡ bytes.now }
    {
        let Ok(bytes) = ArrayVec::try_from(bytes) else {
            unreachable!()
        };
        Name { bytes }
    }

    /// The bytes of the name.
    pub fn as_bytes(&self) -> &[u8]
        ensures bytes { result.now ≡ self.now }
        ensures name { IsName self.now }
    {
        self.bytes.as_slice()
    }

    /// A copy of the name, made without memory.
    pub fn copy(&self) -> Name
        ensures { result ≡ self.now }
    {
        Name::of(self.as_bytes())
    }
}

/// Whether the bytes are a name.
fn is_name(bytes: &[u8]) -> bool
    ensures { result ≡ is_name bytes.now }
{
    is_word(bytes) && bytes.len() <= LONGEST_NAME && !is_keyword(bytes)
}

/// Whether the bytes are a word, as names and keywords are: a letter and then letters, digits or `_`.
fn is_word(bytes: &[u8]) -> bool
    ensures { result ≡ is_word bytes.now }
{
    match bytes {
        [] => false,
        [first, rest @ ..] => is_letter(*first) && all_name_bytes(rest),
    }
}

/// Whether each of the bytes may follow behind the first one of a name.
fn all_name_bytes(bytes: &[u8]) -> bool
    ensures { result ≡ list_all is_name_byte bytes.now }
{
    bytes.iter().all(|byte| is_name_byte(*byte))
}

/// Whether the bytes are one of the keywords, which are no names. They are compared with the keywords of their length
/// alone.
#[tactic(auto, using(crate::proofs::Words::no_keyword))]
pub fn is_keyword(bytes: &[u8]) -> bool
    ensures { result ≡ is_keyword bytes.now }
{
    match bytes.len() {
        2 => is_one_of(bytes, &KEYWORDS_OF_2),
        3 => is_one_of(bytes, &KEYWORDS_OF_3),
        4 => is_one_of(bytes, &KEYWORDS_OF_4),
        5 => is_one_of(bytes, &KEYWORDS_OF_5),
        6 => is_one_of(bytes, &KEYWORDS_OF_6),
        7 => is_one_of(bytes, &KEYWORDS_OF_7),
        9 => is_one_of(bytes, &KEYWORDS_OF_9),
        _ => false,
    }
}

/// Whether the bytes are one of these words, such as the keywords, which are no names.
fn is_one_of(bytes: &[u8], words: &[&[u8]]) -> bool
    ensures { result ≡ list_any (λ word. bytes_eq bytes.now word.now) words.now }
{
    words.iter().any(|word| bytes == *word)
}
