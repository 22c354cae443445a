//! The rows of code that are shown in place of the program.
ghost use Rattle.std.specs.Prelude.{◌≡◌, ◌+◌, ◌-◌, ◌≤◌, ◌∷◌, [], ◌++◌, IfOk, IfSome, decimal, drop, length, map, option_map, take, vec_capacity};
ghost use Rattle.plcs_base.specs.Put.{PutsAll};
ghost use Rattle.plcs_code.specs.InstrText.{instr_text};
ghost use Rattle.plcs_code.specs.PlainInstr.{plain_instr};
ghost use Rattle.plcs_machine.specs.Fetched.{FetchesBy};
ghost use Rattle.screen_window.specs.declared.limit.TheConstants.{MOST_COLS};
ghost use Rattle.synth_session.specs.declared.code_rows.TheConstants.{LONGEST_CODE_ROW, MOST_CODE_ROWS};
ghost use Rattle.synth_session.specs.ProgramCode.{code_lines, instrs_in};

use arrayvec::ArrayVec;
use plcs_base::{ByteOut, OutOfMemory, Work};
use plcs_code::{CodeView, Instr, show_instr};
use plcs_grammar::put_decimal;
use std::alloc::Global;
use std::marker::Model;

/// How many bytes a row of code has at most: as many as the widest screen may show of it.
const LONGEST_CODE_ROW: usize = 160;

/// How many rows of code there are: as many as the window of the largest screen has.
const MOST_CODE_ROWS: u16 = 94;

/// Rows for the code that a session shows, with room for all that a window may show.
#[derive(Drop)]
pub struct CodeRows {
    rows: Vec<Vec<u8>>,
}

impl Model for CodeRows {
    ghost use Rattle.std.specs.Prelude.{◌≡◌, ℕ, ◌≤◌, List, All, length, map, vec_capacity};
    ghost use Rattle.synth_session.specs.declared.code_rows.TheConstants.{LONGEST_CODE_ROW, MOST_CODE_ROWS};

    ghost Value = { List (List ℕ) };

    ghost view = { λ rows. map (λ text. text.items) rows.rows.items };

    ghost invariant = { λ rows. (length rows.rows.items ≡ MOST_CODE_ROWS)
        × All (λ row. LONGEST_CODE_ROW ≤ vec_capacity row) rows.rows.items };
}

impl CodeRows {
    /// Empty rows, with room for the longest row that is shown in each.
    pub(crate) fn new(alloc: Global) -> Result<CodeRows, OutOfMemory> {
        let mut rows = Vec::new(alloc);
        for _ in 0..MOST_CODE_ROWS {
            rows.push(Vec::with_capacity(alloc, LONGEST_CODE_ROW)?)?;
        }
        Ok(CodeRows { rows })
    }

    /// The first rows of code, so many, if any are shown.
    pub(crate) fn first(&self, shown: Option<usize>) -> Option<&[Vec<u8>]>
        requires { IfSome shown (λ count. count ≤ length self.now) }
        ensures { option_map (λ rows. map (λ text. text.items) rows.now) result
            ≡ option_map (λ count. take count self.now) shown }
    {
        match shown {
            Some(count) => Some(&self.rows[..count]),
            None => None,
        }
    }

    /// Fills the first rows, at most so many, with the instructions from this number on, of those in the code
    /// from the start on, and tells how many rows are filled; each is counted as fetched.
    pub(crate) fn fill<W: Work, C: CodeView<W>>(
        &mut self,
        code: &C,
        start: u32,
        count: u32,
        from: u32,
        rows: u16,
        work: &mut W,
    ) -> usize
        requires few { rows ≤ MOST_CODE_ROWS }
        requires whole { length (instrs_in (C.code code.now) (start, count)) ≡ count }
        ensures rows { take result self.new
            ≡ take rows (map (take MOST_COLS) (drop from (code_lines 0 (instrs_in (C.code code.now) (start, count))))) }
        ensures within { result ≤ length self.new }
        ensures counted { FetchesBy result (W.counts work.old) (W.counts work.new) }
    {
        // That its addresses are numbers is known once it is asked for its length.
        let _ = code.length();
        let mut filled = 0;
        let mut number = from;
        while filled < rows as usize && number < count {
            fill_row(
                &mut self.rows[filled],
                number,
                code.fetch(start + number, work).instr(),
            );
            filled += 1;
            number += 1;
        }
        filled
    }
}

/// Fills a row with an instruction behind its number, as far as it is shown.
fn fill_row(row: &mut Vec<u8>, number: u32, instr: &Instr)
    requires room { LONGEST_CODE_ROW ≤ vec_capacity row.old }
    ensures text { row.new.items ≡ take LONGEST_CODE_ROW (decimal number ++ (32 ∷ instr_text (plain_instr instr.now))) }
    ensures room { LONGEST_CODE_ROW ≤ vec_capacity row.new }
{
    let mut line = CodeLine {
        bytes: ArrayVec::new(),
    };
    put_code_line(number, instr, &mut line);
    row.clear();
    if row.extend_from_slice(line.bytes.as_slice()).is_err() {
        unreachable!()
    }
}

/// Puts an instruction as code is shown: its number, a blank, and its text.
pub(crate) fn put_code_line<O: ByteOut>(number: u32, instr: &Instr, out: &mut O)
    ensures { PutsAll O.puts out.old (decimal number ++ (32 ∷ instr_text (plain_instr instr.now))) out.new }
{
    put_decimal(number, out);
    out.put(b' ');
    show_instr(instr, out);
}

/// A line of code as it is put, as far as it has room.
#[derive(Drop)]
pub struct CodeLine {
    bytes: ArrayVec<u8, LONGEST_CODE_ROW>,
}

impl ByteOut for CodeLine {
    ghost use Rattle.synth_session.specs.Private.CodeLine.{PutsInCodeLine};

    ghost puts = { PutsInCodeLine };

    fn put(&mut self, byte: u8) {
        if !self.bytes.is_full() {
            self.bytes.push(byte);
        }
    }
}
