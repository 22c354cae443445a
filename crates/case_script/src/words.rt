//! The words of a line, and numbers among them.

use std::alloc::{AllocError, Global};

/// The most times that a piece of a word is repeated.
const MOST_TIMES: u32 = 100_000_000;

/// The words of a line, or none where it isn't cut into words. They stand apart by blanks. A word is
/// plain, and then its bytes stand for themselves; or it is made of pieces in double quotes, each followed
/// by `*N` where it stands N times. In quotes `\"`, `\\`, `\n`, `\r`, `\t`, `\e` for byte 27, and `\xHH` with
/// two hexadecimal digits are one byte each.
pub fn words_of(alloc: Global, line: &[u8]) -> Result<Option<Vec<Vec<u8>>>, AllocError> {
    let mut cutter = Cutter {
        words: Vec::new(alloc),
        word: Vec::new(alloc),
        piece: Vec::new(alloc),
        state: State::Between,
    };
    for byte in line {
        cutter.take(alloc, *byte)?;
    }
    cutter.end_word(alloc)?;
    Ok(match cutter.state {
        State::Between => Some(cutter.words),
        _ => None,
    })
}

/// The number that a word of a script's line is, in decimal digits, up to 4294967295.
pub fn number_of(word: &[u8]) -> Option<u32> {
    if word.is_empty() {
        return None;
    }
    let mut number: u32 = 0;
    for byte in word {
        number = number.checked_mul(10)?.checked_add(digit_of(*byte)?)?;
    }
    Some(number)
}

/// The numbers that the words are, if each is one.
pub fn numbers_of(alloc: Global, words: &[Vec<u8>]) -> Option<Vec<u64>> {
    let mut numbers = Vec::new(alloc);
    for word in words {
        numbers.push(u64::from(number_of(word.as_slice())?)).ok()?;
    }
    Some(numbers)
}

/// The value of a decimal digit of a word of a line, as numbers in scripts are spelled.
fn digit_of(byte: u8) -> Option<u32> {
    match byte {
        b'0'..=b'9' => Some((byte - b'0') as u32),
        _ => None,
    }
}

/// The value of a hexadecimal digit in a word of a line, of which two stand for a byte.
fn hex_of(byte: u8) -> Option<u8> {
    match byte {
        b'0'..=b'9' => Some(byte - b'0'),
        b'a'..=b'f' => Some(byte - b'a' + 10),
        _ => None,
    }
}

/// Where the cut of a line into words stands.
#[derive(Clone, Copy)]
enum State {
    /// Behind a blank, or at the line's beginning.
    Between,
    /// In a plain word.
    Plain,
    /// In quotes.
    Quoted,
    /// Behind a backslash in quotes.
    Escaped,
    /// Behind `\x` in quotes.
    Hex,
    /// Behind `\x` and the first digit, in quotes.
    HexLow(u8),
    /// Behind a closing quote.
    Closed,
    /// Behind `*` and the digits of this number, if there are any.
    Times(Option<u32>),
    /// Where no word goes on so.
    Wrong,
}

/// The words so far, and what of the word at hand has been read: its earlier pieces, and the last one.
#[derive(Drop)]
struct Cutter {
    words: Vec<Vec<u8>>,
    word: Vec<u8>,
    piece: Vec<u8>,
    state: State,
}

impl Cutter {
    /// Takes the next byte of the line that is cut into words.
    fn take(&mut self, alloc: Global, byte: u8) -> Result<(), AllocError> {
        match self.state {
            State::Between | State::Plain => self.take_plain(alloc, byte),
            State::Quoted => self.take_quoted(byte),
            State::Escaped => self.take_escaped(byte),
            State::Hex => {
                self.state = match hex_of(byte) {
                    Some(high) => State::HexLow(high),
                    None => State::Wrong,
                };
                Ok(())
            }
            State::HexLow(high) => self.take_low(high, byte),
            State::Closed | State::Times(_) => self.take_behind(alloc, byte),
            State::Wrong => Ok(()),
        }
    }

    /// Takes a byte of the line that stands outside of a word's quotes.
    fn take_plain(&mut self, alloc: Global, byte: u8) -> Result<(), AllocError> {
        if byte == b' ' {
            return self.end_word(alloc);
        }
        if byte == b'"' && matches!(self.state, State::Between) {
            self.state = State::Quoted;
            return Ok(());
        }
        self.state = State::Plain;
        self.piece.push(byte)?;
        Ok(())
    }

    /// Takes a byte of a word in quotes.
    fn take_quoted(&mut self, byte: u8) -> Result<(), AllocError> {
        match byte {
            b'"' => self.state = State::Closed,
            b'\\' => self.state = State::Escaped,
            _ => self.piece.push(byte)?,
        }
        Ok(())
    }

    /// Takes the byte of a word behind a backslash.
    fn take_escaped(&mut self, byte: u8) -> Result<(), AllocError> {
        let meant = match byte {
            b'"' | b'\\' => byte,
            b'n' => b'\n',
            b'r' => b'\r',
            b't' => b'\t',
            b'e' => 27,
            b'x' => {
                self.state = State::Hex;
                return Ok(());
            }
            _ => {
                self.state = State::Wrong;
                return Ok(());
            }
        };
        self.state = State::Quoted;
        self.piece.push(meant)?;
        Ok(())
    }

    /// Takes the second digit of a byte of a word.
    fn take_low(&mut self, high: u8, byte: u8) -> Result<(), AllocError> {
        match hex_of(byte) {
            Some(low) => {
                self.state = State::Quoted;
                self.piece.push((high & 15) << 4 | low)?;
                Ok(())
            }
            None => {
                self.state = State::Wrong;
                Ok(())
            }
        }
    }

    /// Takes a byte behind a closing quote of a word: a blank, the quote of a next piece, `*`, or a digit behind it.
    fn take_behind(&mut self, alloc: Global, byte: u8) -> Result<(), AllocError> {
        if byte == b' ' {
            return self.end_word(alloc);
        }
        if byte == b'"' {
            self.end_piece(alloc)?;
            self.state = match self.state {
                State::Between => State::Quoted,
                _ => State::Wrong,
            };
            return Ok(());
        }
        self.state = times_behind(self.state, byte);
        Ok(())
    }

    /// Ends the last piece of the word: it stands in the word as many times as was said. It is wrong where it
    /// doesn't end here.
    fn end_piece(&mut self, alloc: Global) -> Result<(), AllocError> {
        let times = match self.state {
            State::Plain | State::Closed => 1,
            State::Times(Some(times)) => times,
            _ => {
                self.state = State::Wrong;
                return Ok(());
            }
        };
        for _ in 0..times {
            self.word.extend_from_slice(self.piece.as_slice())?;
        }
        self.piece = Vec::new(alloc);
        self.state = State::Between;
        Ok(())
    }

    /// Ends the word at hand, if there is one.
    fn end_word(&mut self, alloc: Global) -> Result<(), AllocError> {
        if matches!(self.state, State::Between) {
            return Ok(());
        }
        self.end_piece(alloc)?;
        let word = std::mem::replace(&mut self.word, Vec::new(alloc));
        self.words.push(word)?;
        Ok(())
    }
}

/// The state of the cut behind a closing quote of a word and this byte: `*`, or a digit behind it.
fn times_behind(state: State, byte: u8) -> State {
    match state {
        State::Closed if byte == b'*' => State::Times(None),
        State::Times(number) => match longer(number.unwrap_or(0), byte) {
            Some(longer) => State::Times(Some(longer)),
            None => State::Wrong,
        },
        _ => State::Wrong,
    }
}

/// The number in a word of a line that says how many times a piece is repeated, with one more digit, up to the
/// most times.
fn longer(number: u32, byte: u8) -> Option<u32> {
    let number = number.checked_mul(10)?.checked_add(digit_of(byte)?)?;
    if number > MOST_TIMES {
        None
    } else {
        Some(number)
    }
}
