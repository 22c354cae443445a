//! The reader that turns bytes into keys.

ghost use Rattle.std.specs.Prelude.{◌≡◌, [], ◌∷◌, None, Some, option_to_list};
ghost use Rattle.synth_session.specs.declared.key.Key.TheVariants.{Other};
ghost use Rattle.synth_top.specs.declared.key.Held.TheVariants.{Nothing};
ghost use Rattle.synth_top.specs.Keys.{Feeds, IsHeld, held_bytes, key_of, keys, move_of};

use plcs_base::is_printable;
use std::marker::Model;
use synth_session::Key;

/// The keys that one byte completes: none, one, or two in the order in which they are pressed. The
/// second is `None` where the first is.
#[derive(Clone, Copy, Debug, PartialEq, Eq)]
pub struct Keys {
    /// The key that is pressed first.
    pub first: Option<Key>,
    /// The key that is pressed after it.
    pub second: Option<Key>,
}

/// ESC, the byte of keys with which the sequence of a move begins.
const ESCAPE: u8 = 27;

/// The bytes that the reader holds back: they are read and are no key yet.
#[derive(Clone, Copy, Debug)]
enum Held {
    /// None.
    Nothing,
    /// ESC.
    Escape,
    /// ESC and `[`.
    Bracket,
}

/// Turns bytes into keys, one byte after the other. A reader is seen as the bytes that it holds
/// back, which aren't a key yet: none, ESC, or ESC and `[`.
#[derive(Debug, Drop)]
pub struct KeyReader {
    held: Held,
}

impl Model for KeyReader {
    ghost use Rattle.std.specs.Prelude.{ℕ, List};
    ghost use Rattle.synth_top.specs.Keys.{held_bytes};

    ghost Value = { List ℕ };

    ghost view = { λ reader. held_bytes reader.held };
}

impl KeyReader {
    /// A reader of keys that has read nothing.
    pub fn new() -> Self
        ensures { result ≡ [] }
    {
        KeyReader {
            held: Held::Nothing,
        }
    }

    /// Takes the next byte, and gives the keys that it completes.
    pub fn feed(&mut self, byte: u8) -> Keys
        ensures keys { Feeds self.old byte result self.new }
        ensures held { IsHeld self.new }
        ensures order { result.first ≡ None → result.second ≡ None }
    {
        let fed = next_byte(self.held, byte);
        self.held = fed.held;
        fed.keys
    }

    /// The key of the bytes held back, where no byte comes any more.
    #[tactic(auto, unfolding(crate::specs::Keys::keys))]
    pub fn end(&mut self) -> Option<Key>
        ensures key { option_to_list result ≡ keys self.old }
        ensures held { self.new ≡ [] }
    {
        let key = match self.held {
            Held::Nothing => None,
            Held::Escape => Some(Key::Other),
            Held::Bracket => Some(Key::Other),
        };
        self.held = Held::Nothing;
        key
    }
}

/// What a byte gives to the reader: the keys that it completes, and what is held back after it.
#[derive(Clone, Copy)]
struct Fed {
    keys: Keys,
    held: Held,
}

impl Fed {
    /// A byte gives no key yet, and this is held back.
    fn held(held: Held) -> Self
        ensures { result ≡ record { keys = record { first = None; second = None }; held = held } }
    {
        Fed {
            keys: Keys {
                first: None,
                second: None,
            },
            held,
        }
    }

    /// A byte gives one key, and nothing is held back.
    fn complete(key: Key) -> Self
        ensures { result ≡
            record { keys = record { first = Some key; second = None }; held = Nothing } }
    {
        Fed {
            keys: Keys {
                first: Some(key),
                second: None,
            },
            held: Held::Nothing,
        }
    }

    /// What a byte gives after an ESC that is a key of its own.
    fn after_escape(self) -> Self
        ensures { result ≡ record {
          keys = record { first = Some Other; second = self.keys.first };
          held = self.held;
        } }
    {
        Fed {
            keys: Keys {
                first: Some(Key::Other),
                second: self.keys.first,
            },
            held: self.held,
        }
    }
}

/// Takes a byte after those that the reader holds back.
#[tactic(auto, unfolding(crate::specs::Keys::keys, crate::specs::Keys::completed))]
fn next_byte(held: Held, byte: u8) -> Fed
    ensures keys { Feeds (held_bytes held) byte result.keys (held_bytes result.held) }
    ensures order { result.keys.first ≡ None → result.keys.second ≡ None }
{
    match held {
        Held::Nothing => first_byte(byte),
        Held::Escape => byte_after_escape(byte),
        Held::Bracket => Fed::complete(move_of(byte)),
    }
}

/// Takes a byte where the reader holds nothing back.
fn first_byte(byte: u8) -> Fed
    ensures keys { Feeds [] byte result.keys (held_bytes result.held) }
    ensures one { result.keys.second ≡ None }
{
    if byte == ESCAPE {
        return Fed::held(Held::Escape);
    }
    Fed::complete(key_of(byte))
}

/// Takes a byte after ESC: a bracket is held back too, and before any other byte the ESC is a key
/// of its own.
fn byte_after_escape(byte: u8) -> Fed
    ensures keys { Feeds (27 ∷ []) byte result.keys (held_bytes result.held) }
    ensures order { result.keys.first ≡ None → result.keys.second ≡ None }
{
    if byte == b'[' {
        return Fed::held(Held::Bracket);
    }
    first_byte(byte).after_escape()
}

/// The key of a byte by itself.
pub fn key_of(byte: u8) -> Key
    ensures { result ≡ key_of byte }
{
    match byte {
        b'\r' | b'\n' => Key::Enter,
        127 | 8 => Key::Erase,
        21 => Key::Clear,
        9 => Key::Tab,
        _ if is_printable(byte) => Key::Char(byte),
        _ => Key::Other,
    }
}

/// The key of ESC, `[` and a byte.
fn move_of(byte: u8) -> Key
    ensures { result ≡ move_of byte }
{
    match byte {
        b'A' => Key::Up,
        b'B' => Key::Down,
        b'C' => Key::Right,
        b'D' => Key::Left,
        _ => Key::Other,
    }
}
