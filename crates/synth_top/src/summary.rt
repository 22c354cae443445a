//! The summary of a program that was made and run.

ghost use Rattle.std.specs.Prelude.{◌≡◌, ◌++◌, codes, decimal};
ghost use Rattle.screen_window.specs.Writes.{Writes};
ghost use Rattle.template_tree.specs.Listings.Listing.{Listing};
ghost use Rattle.synth_session.specs.SessionView.{IsSession, plain_session};
ghost use Rattle.synth_top.specs.Private.CountedLines.{counted_after};
ghost use Rattle.synth_top.specs.Summary.{lines_in, summary, summary_line};

use file_store::listings_are_short;
use itoa::Buffer;
use plcs_base::{ByteOut, Work};
use screen_window::{write_piece, writes_in_turn};
use synth_outside::{Sink, SinkFault};
use synth_session::Session;
use template_tree::room_is_not_shown;

/// The byte that ends a line of a listing.
const LINE_END: u8 = b'\n';

/// Writes the summary of the session: the live slots, the lines of the listing, the steps made, and the output.
pub fn write_summary<W: Work, K: Sink>(
    session: &Session<W>,
    screen: &mut K,
) -> Result<(), SinkFault>
    requires { IsSession session.now }
    ensures { Writes (summary (plain_session session.now)) result
        (K.taken screen.old) (K.taken screen.new)
        (K.faults screen.old) (K.faults screen.new) (K.wants screen.old) (K.wants screen.new) }
{
    write_lines(
        session.slots(),
        lines_of(session),
        session.steps(),
        session.output(),
        screen,
    )
}

/// Writes the lines of a summary that tells these numbers and this output.
fn write_lines<K: Sink>(
    slots: u32,
    lines: u32,
    steps: u32,
    output: &[u8],
    screen: &mut K,
) -> Result<(), SinkFault>
    ensures { Writes
        (summary_line (codes "slots") (decimal slots) ++ (summary_line (codes "lines") (decimal lines)
        ++ (summary_line (codes "steps") (decimal steps) ++ summary_line (codes "output") output.now))) result
        (K.taken screen.old) (K.taken screen.new)
        (K.faults screen.old) (K.faults screen.new) (K.wants screen.old) (K.wants screen.new) }
{
    writes_in_turn();
    write_number(b"slots", slots, screen)?;
    write_number(b"lines", lines, screen)?;
    write_number(b"steps", steps, screen)?;
    write_line(b"output", output, screen)
}

/// Writes a line of a summary that tells a number.
fn write_number<K: Sink>(word: &[u8], number: u32, screen: &mut K) -> Result<(), SinkFault>
    ensures { Writes (summary_line word.now (decimal number)) result
        (K.taken screen.old) (K.taken screen.new)
        (K.faults screen.old) (K.faults screen.new) (K.wants screen.old) (K.wants screen.new) }
{
    write_line(word, Buffer::new().format(number).as_bytes(), screen)
}

/// Writes a line of a summary: its word, a blank, what it tells, and the line end.
fn write_line<K: Sink>(word: &[u8], told: &[u8], screen: &mut K) -> Result<(), SinkFault>
    ensures { Writes (summary_line word.now told.now) result
        (K.taken screen.old) (K.taken screen.new)
        (K.faults screen.old) (K.faults screen.new) (K.wants screen.old) (K.wants screen.new) }
{
    writes_in_turn();
    write_piece(screen, word)?;
    write_piece(screen, b" ")?;
    write_piece(screen, told)?;
    write_piece(screen, b"\n")
}

/// How many lines the listing of the session's program has, for its summary.
fn lines_of<W: Work>(session: &Session<W>) -> u32
    requires { IsSession session.now }
    ensures { result ≡ lines_in (Listing (plain_session session.now).tree.items) }
{
    room_is_not_shown();
    listings_are_short();
    let mut lines = LinesOut { count: 0 };
    session.listing(&mut lines);
    lines.count
}

/// A sink of a listing that only counts its line ends for a summary; at its last value the count stays.
#[derive(Drop)]
struct LinesOut {
    count: u32,
}

impl ByteOut for LinesOut {
    ghost puts = { λ before byte after. after.count ≡ counted_after before.count byte };

    fn put(&mut self, byte: u8) {
        if byte == LINE_END {
            self.count = self.count.saturating_add(1);
        }
    }
}
