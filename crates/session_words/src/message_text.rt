//! The text of a message: the bytes of its words, with a number behind them.
ghost use Rattle.std.specs.Prelude.{◌≡◌, [], ◌≤◌, ◌+◌, ◌++◌, length};
ghost use Rattle.arrayvec.specs.ArrayVec.{array_vec_len};
ghost use Rattle.session_words.specs.Message.{with_value};

use arrayvec::ArrayVec;
use std::marker::Model;

/// How many bytes the text of a message may have.
const LONGEST_MESSAGE: usize = 80;

/// The text of a message, which contracts see as its bytes.
#[derive(Debug, Drop)]
pub struct MessageText {
    bytes: ArrayVec<u8, LONGEST_MESSAGE>,
}

impl Model for MessageText {
    ghost use Rattle.std.specs.Prelude.{List, ℕ};

    ghost Value = { List ℕ };

    ghost view = { λ text. text.bytes.items };
}

impl MessageText {
    /// The text of a message where there is none: no bytes.
    pub fn none() -> MessageText
        ensures { result ≡ [] }
    {
        MessageText {
            bytes: ArrayVec::new(),
        }
    }

    /// The text of a message of these words, with the number behind a blank, if there is one.
    pub(crate) fn new(words: &[u8], value: Option<u32>) -> MessageText
        requires { length words.now ≤ 20 }
        ensures { result ≡ with_value words.now value }
    {
        let mut bytes = ArrayVec::new();
        put(&mut bytes, words);
        if let Some(number) = value {
            put(&mut bytes, b" ");
            put(&mut bytes, itoa::Buffer::new().format(number).as_bytes());
        }
        MessageText { bytes }
    }

    /// The bytes of the text of a message.
    pub fn as_bytes(&self) -> &[u8]
        ensures { result.now ≡ self.now }
    {
        self.bytes.as_slice()
    }
}

/// Appends bytes to the text of a message that has room for them.
fn put(text: &mut ArrayVec<u8, LONGEST_MESSAGE>, bytes: &[u8])
    requires { array_vec_len text.old + length bytes.now ≤ LONGEST_MESSAGE }
    ensures { text.new.items ≡ text.old.items ++ bytes.now }
{
    if text.try_extend_from_slice(bytes).is_err() {
        unreachable!()
    }
}
