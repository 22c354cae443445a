//! The keys of a making: those that make a program of so many statements and run it, one after the other.

ghost use Rattle.std.specs.Prelude.{◌∷◌, [], decimal, map};
ghost use Rattle.synth_top.specs.Keys.{key_of};
ghost use Rattle.synth_top.specs.Private.MakingKeys.{MakesKeys};
ghost use Rattle.synth_top.specs.Private.MakingText.{all_keys, first_keys, one_more_keys, statements_keys};
ghost use Rattle.synth_top.specs.Turn.{EditorState};

use crate::key::key_of;
use itoa::Buffer;
use plcs_base::{OutOfMemory, Work};
use std::alloc::Global;
use synth_session::Key;

/// A making of a program, which takes its keys one after the other.
pub trait Making<W: Work> {
    /// The state that the making is in.
    ghost state: { Self → EditorState };

    /// That the making can take the next key.
    ghost can_press: { Self → Type 0 };

    /// Presses a key of the making, whose turn comes to its end unless memory runs out.
    fn press(&mut self, alloc: Global, key: Key, work: &mut W) -> Result<(), OutOfMemory>
        requires { can_press self.old }
        ensures made { MakesKeys (key ∷ []) (state self.old) (state self.new)
            (W.counts work.old) (W.counts work.new) result }
        ensures ready { can_press self.new };
}

/// Presses all keys that make and run a program of so many statements.
pub fn press_all<M: Making<W>, W: Work>(
    alloc: Global,
    number: u32,
    making: &mut M,
    work: &mut W,
) -> Result<(), OutOfMemory>
    requires { M.can_press making.old }
    ensures made { MakesKeys (all_keys number) (M.state making.old) (M.state making.new)
        (W.counts work.old) (W.counts work.new) result }
    ensures ready { M.can_press making.new }
{
    press_first(alloc, making, work)?;
    press_statements(alloc, number, making, work)?;
    press_text(alloc, b".after\r.puts\rx\r.run\r", making, work)
}

/// Presses the keys of a making before those for its statements: they declare the variable, and set it to 0.
fn press_first<M: Making<W>, W: Work>(
    alloc: Global,
    making: &mut M,
    work: &mut W,
) -> Result<(), OutOfMemory>
    requires { M.can_press making.old }
    ensures made { MakesKeys first_keys (M.state making.old) (M.state making.new)
        (W.counts work.old) (W.counts work.new) result }
    ensures ready { M.can_press making.new }
{
    making.press(alloc, Key::Up, work)?;
    press_text(alloc, b".fixed\rx\r", making, work)?;
    making.press(alloc, Key::Down, work)?;
    press_text(alloc, b"x = 0\r", making, work)
}

/// Presses the keys of a making for its statements, one statement after the other.
fn press_statements<M: Making<W>, W: Work>(
    alloc: Global,
    number: u32,
    making: &mut M,
    work: &mut W,
) -> Result<(), OutOfMemory>
    requires { M.can_press making.old }
    ensures made { MakesKeys (statements_keys number) (M.state making.old) (M.state making.new)
        (W.counts work.old) (W.counts work.new) result }
    ensures ready { M.can_press making.new }
{
    for before in 0..number {
        press_statement(alloc, before + 1, making, work)?;
    }
    Ok(())
}

/// Presses the keys of a making for its statement of this number, after the others.
fn press_statement<M: Making<W>, W: Work>(
    alloc: Global,
    number: u32,
    making: &mut M,
    work: &mut W,
) -> Result<(), OutOfMemory>
    requires { M.can_press making.old }
    ensures made { MakesKeys (one_more_keys number) (M.state making.old) (M.state making.new)
        (W.counts work.old) (W.counts work.new) result }
    ensures ready { M.can_press making.new }
{
    press_text(alloc, b".after\rx = MOD(x * 3 + ", making, work)?;
    press_number(alloc, number, making, work)?;
    press_text(alloc, b", 1000)\r", making, work)
}

/// Presses the keys of a number of a making, in decimal digits.
fn press_number<M: Making<W>, W: Work>(
    alloc: Global,
    number: u32,
    making: &mut M,
    work: &mut W,
) -> Result<(), OutOfMemory>
    requires { M.can_press making.old }
    ensures made { MakesKeys (map key_of (decimal number)) (M.state making.old) (M.state making.new)
        (W.counts work.old) (W.counts work.new) result }
    ensures ready { M.can_press making.new }
{
    press_text(alloc, Buffer::new().format(number).as_bytes(), making, work)
}

/// Presses the keys of a text of a making, a key a byte.
fn press_text<M: Making<W>, W: Work>(
    alloc: Global,
    text: &[u8],
    making: &mut M,
    work: &mut W,
) -> Result<(), OutOfMemory>
    requires { M.can_press making.old }
    ensures made { MakesKeys (map key_of text.now) (M.state making.old) (M.state making.new)
        (W.counts work.old) (W.counts work.new) result }
    ensures ready { M.can_press making.new }
{
    for byte in text {
        making.press(alloc, key_of(*byte), work)?;
    }
    Ok(())
}
