//! Painting: the bytes that turn one screen into another, and writing them.

ghost use Rattle.std.specs.Prelude.{◌≡◌, ◌+◌, ◌≤◌, [], ◌++◌, false, decimal, length, nat_eq, take};
ghost use Rattle.std.specs.Cmp.Lexicographic.{pointwise};
ghost use Rattle.arrayvec.specs.ArrayVec.{array_vec_len};
ghost use Rattle.screen_window.specs.declared.limit.TheConstants.{MOST_COLS};
ghost use Rattle.screen_window.specs.Paint.{Paint, go_to, image_change, row_piece, row_paint, rows_paint, spelled, visible};
ghost use Rattle.screen_window.specs.Writes.{Writes, WritesInTurn};

use crate::grid::Grid;
use crate::limit::MOST_COLS;
use arrayvec::ArrayVec;
use lane_rows::{first_difference, last_nonblank};
use synth_outside::{Sink, SinkFault};

/// The bytes that paint one row with all its changes of image.
type Piece = ArrayVec<u8, 1024>;

/// Writes the bytes that turn a terminal which shows the old grid into one which shows the new: each
/// row that differs as one piece, and then the cursor's place. After a fault a front of them was
/// written. Want of memory is answered only where the sink wanted some.
#[tactic(auto, unfolding(crate::specs::Paint::Paint))]
pub fn paint<K: Sink>(old: &Grid, new: &Grid, sink: &mut K) -> Result<(), SinkFault>
    requires rows { old.now.rows ≡ new.now.rows }
    requires cols { old.now.cols ≡ new.now.cols }
    ensures { Writes (Paint old.now new.now) result
        (K.taken sink.old) (K.taken sink.new)
        (K.faults sink.old) (K.faults sink.new) (K.wants sink.old) (K.wants sink.new) }
{
    paint_rows(old, new, sink)?;
    paint_cursor(new, sink)
}

/// Paints the rows that differ, from the top.
fn paint_rows<K: Sink>(old: &Grid, new: &Grid, sink: &mut K) -> Result<(), SinkFault>
    requires rows { old.now.rows ≡ new.now.rows }
    requires cols { old.now.cols ≡ new.now.cols }
    ensures { Writes (rows_paint 1 old.now.lines new.now.lines) result
        (K.taken sink.old) (K.taken sink.new)
        (K.faults sink.old) (K.faults sink.new) (K.wants sink.old) (K.wants sink.new) }
{
    for row in 0..old.rows() {
        paint_row(row + 1, old.cells(row + 1), new.cells(row + 1), sink)?;
    }
    Ok(())
}

/// Paints one row, whose number counts from 1, where it differs.
fn paint_row<K: Sink>(number: u16, old: &[u16], new: &[u16], sink: &mut K) -> Result<(), SinkFault>
    requires width { length old.now ≡ length new.now }
    requires short { length new.now ≤ MOST_COLS }
    ensures { Writes (row_paint number old.now new.now) result
        (K.taken sink.old) (K.taken sink.new)
        (K.faults sink.old) (K.faults sink.new) (K.wants sink.old) (K.wants sink.new) }
{
    if are_equal(old, new) {
        return Ok(());
    }
    let mut piece = Piece::new();
    put_row_piece(&mut piece, number, new);
    write_piece(sink, piece.as_slice())
}

/// Whether two rows of one width are equal, so that nothing has to be painted.
fn are_equal(old: &[u16], new: &[u16]) -> bool
    requires { length old.now ≡ length new.now }
    ensures { result ≡ pointwise nat_eq old.now new.now }
{
    first_difference(old, new).is_none()
}

/// Paints the place of the cursor.
fn paint_cursor<K: Sink>(grid: &Grid, sink: &mut K) -> Result<(), SinkFault>
    ensures { Writes (go_to grid.now.row grid.now.col) result
        (K.taken sink.old) (K.taken sink.new)
        (K.faults sink.old) (K.faults sink.new) (K.wants sink.old) (K.wants sink.new) }
{
    let mut piece = Piece::new();
    let (row, col) = grid.cursor();
    put_go_to(&mut piece, row, col);
    write_piece(sink, piece.as_slice())
}

/// Puts the bytes that paint one row, whose number counts from 1, into an empty piece.
#[tactic(auto, unfolding(crate::specs::Paint::row_piece), using(std::proofs::Common::append_assoc))]
fn put_row_piece(piece: &mut Piece, number: u16, cells: &[u16])
    requires empty { piece.old.items ≡ [] }
    requires short { length cells.now ≤ MOST_COLS }
    ensures { piece.new.items ≡ row_piece number cells.now }
{
    put_go_to(piece, number, 1);
    put_cells(piece, &cells[..visible_len(cells)]);
    put(piece, b"\x1b[K");
}

/// Appends the bytes of cells to a piece, each in its image.
fn put_cells(piece: &mut Piece, cells: &[u16])
    requires room { array_vec_len piece.old ≤ 100 }
    requires short { length cells.now ≤ MOST_COLS }
    ensures cells { piece.new.items ≡ piece.old.items ++ spelled false cells.now }
    ensures fits { array_vec_len piece.new ≤ 1000 }
{
    let mut image = false;
    for cell in cells {
        let negative = *cell >= 256;
        put_image_change(piece, image, negative);
        put(piece, &[(*cell % 256) as u8]);
        image = negative;
    }
    put_image_change(piece, image, false);
}

/// Appends to a piece the sequence that turns negative image on or off, where it isn't so already.
fn put_image_change(piece: &mut Piece, image: bool, negative: bool)
    requires { array_vec_len piece.old ≤ 1000 }
    ensures change { piece.new.items ≡ piece.old.items ++ image_change image negative }
    ensures short { array_vec_len piece.new ≤ array_vec_len piece.old + 4 }
{
    match (image, negative) {
        (true, false) => put(piece, b"\x1b[0m"),
        (false, true) => put(piece, b"\x1b[7m"),
        _ => {}
    }
}

/// Puts into an empty piece, for painting, the sequence that moves the cursor.
#[tactic(auto, unfolding(crate::specs::Paint::go_to), using(std::proofs::Common::append_assoc))]
fn put_go_to(piece: &mut Piece, row: u16, col: u16)
    requires { piece.old.items ≡ [] }
    ensures place { piece.new.items ≡ go_to row col }
    ensures short { array_vec_len piece.new ≤ 100 }
{
    put(piece, b"\x1b[");
    put_number(piece, row);
    put(piece, b";");
    put_number(piece, col);
    put(piece, b"H");
}

/// Appends the number of a row or a column that is painted to a piece, in decimal.
fn put_number(piece: &mut Piece, number: u16)
    requires { array_vec_len piece.old ≤ 900 }
    ensures number { piece.new.items ≡ piece.old.items ++ decimal number }
    ensures short { array_vec_len piece.new ≤ array_vec_len piece.old + 40 }
{
    put(piece, itoa::Buffer::new().format(number).as_bytes());
}

/// Appends bytes to the piece of a row that is painted; they have to fit.
fn put(piece: &mut Piece, bytes: &[u8])
    requires { array_vec_len piece.old + length bytes.now ≤ 1024 }
    ensures { piece.new.items ≡ piece.old.items ++ bytes.now }
{
    match piece.try_extend_from_slice(bytes) {
        Ok(()) => {}
        Err(_) => unreachable!(),
    }
}

/// How many cells of a row are painted: those up to the last that isn't a blank in default image.
fn visible_len(cells: &[u16]) -> usize
    ensures cells { take result cells.now ≡ visible cells.now }
    ensures within { result ≤ length cells.now }
{
    match last_nonblank(cells) {
        Some(last) => last + 1,
        None => 0,
    }
}

/// Writes a piece of bytes to the sink; what that takes in part is written on. It takes no memory of its
/// own.
pub fn write_piece<K: Sink>(sink: &mut K, piece: &[u8]) -> Result<(), SinkFault>
    ensures { Writes piece.now result
        (K.taken sink.old) (K.taken sink.new)
        (K.faults sink.old) (K.faults sink.new) (K.wants sink.old) (K.wants sink.new) }
{
    let mut at = 0;
    while at < piece.len() {
        at += sink.write(&piece[at..])?;
    }
    Ok(())
}

/// The law of writing in turn: writing some bytes and then others is writing both.
pub fn writes_in_turn()
    ensures { WritesInTurn }
{}
