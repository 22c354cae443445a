//! Bytes that wait until they are passed on.
ghost use Rattle.std.specs.Prelude.{◌≡◌, ◌+◌, ◌*◌, ◌≤◌, ◌<◌, ◌∷◌, ◌++◌, [], IsFalse, IsTrue, length, replicate, take};
ghost use Rattle.file_store.specs.declared.waiting.TheConstants.{FEW, MOST_WAITING};

use std::marker::Model;

/// How many bytes wait at most until they are passed on.
pub(crate) const MOST_WAITING: usize = 4_096;

/// How many bytes are few.
const FEW: usize = 16;

/// The bytes that wait, in the order in which they came. Contracts see them as a list.
#[derive(Drop)]
pub(crate) struct Waiting {
    bytes: [u8; MOST_WAITING],
    count: usize,
}

impl Model for Waiting {
    ghost use Rattle.std.specs.Prelude.{List, ℕ, ◌≤◌, take};
    ghost use Rattle.file_store.specs.declared.waiting.TheConstants.{MOST_WAITING};

    ghost Value = { List ℕ };

    ghost view = { λ waiting. take waiting.count waiting.bytes };

    ghost invariant = { λ waiting. waiting.count ≤ MOST_WAITING };
}

impl Waiting {
    /// No bytes that wait.
    pub(crate) fn none() -> Waiting
        ensures { result ≡ [] }
    {
        Waiting {
            bytes: [0; MOST_WAITING],
            count: 0,
        }
    }

    /// Whether all of these bytes may wait, too.
    #[inline(always)]
    pub(crate) fn has_room_for(&self, bytes: &[u8]) -> bool
        ensures room { IsTrue result → length self.now + length bytes.now ≤ MOST_WAITING }
        ensures lack { IsFalse result → 0 < length bytes.now }
    {
        self.count + bytes.len() <= MOST_WAITING
    }

    /// Whether so many times are few, and as many bytes as are few may wait, too.
    #[inline(always)]
    pub(crate) fn has_room_for_few(&self, times: usize) -> bool
        ensures few { IsTrue result → times ≤ FEW }
        ensures room { IsTrue result → length self.now + FEW ≤ MOST_WAITING }
    {
        times <= FEW && self.count + FEW <= MOST_WAITING
    }

    /// Whether no more byte may wait.
    #[inline(always)]
    pub(crate) fn is_full(&self) -> bool
        ensures { IsFalse result → length self.now < MOST_WAITING }
    {
        self.count == MOST_WAITING
    }

    /// The bytes that wait.
    pub(crate) fn as_slice(&self) -> &[u8]
        ensures { result.now ≡ self.now }
    {
        &self.bytes[..self.count]
    }

    /// Has no byte wait any more.
    pub(crate) fn clear(&mut self)
        ensures { self.new ≡ [] }
    {
        self.count = 0;
    }

    /// Has one more byte wait.
    pub(crate) fn push(&mut self, byte: u8)
        requires room { length self.old < MOST_WAITING }
        ensures { self.new ≡ self.old ++ byte ∷ [] }
    {
        self.bytes[self.count] = byte;
        self.count += 1;
    }

    /// Has the byte wait so many times, which are few.
    #[inline(always)]
    pub(crate) fn extend_repeated(&mut self, byte: u8, times: usize)
        requires few { times ≤ FEW }
        requires room { length self.old + FEW ≤ MOST_WAITING }
        ensures { self.new ≡ self.old ++ replicate times byte }
    {
        write_repeated(&mut self.bytes, self.count, byte, times);
        self.count += times;
    }

    /// Has these bytes wait, too.
    #[inline(always)]
    pub(crate) fn extend(&mut self, bytes: &[u8])
        requires room { length self.old + length bytes.now ≤ MOST_WAITING }
        ensures { self.new ≡ self.old ++ bytes.now }
    {
        match bytes.len() {
            0..=1 => self.extend_by_first(bytes),
            2..=4 => self.extend_by_ends::<2>(bytes),
            5..=8 => self.extend_by_ends::<4>(bytes),
            9..=16 => self.extend_by_ends::<8>(bytes),
            _ => self.extend_by_all(bytes),
        }
    }

    /// Has the one byte wait, or none.
    #[inline(always)]
    fn extend_by_first(&mut self, bytes: &[u8])
        requires room { length self.old + length bytes.now ≤ MOST_WAITING }
        requires few { length bytes.now ≤ 1 }
        ensures { self.new ≡ self.old ++ bytes.now }
    {
        if let [byte] = bytes {
            self.push(*byte);
        }
    }

    /// Has bytes wait whose first and last so many are all of them, and may overlap.
    #[inline(always)]
    fn extend_by_ends<const ENDS: usize>(&mut self, bytes: &[u8])
        requires room { length self.old + length bytes.now ≤ MOST_WAITING }
        requires ends { (ENDS ≤ length bytes.now) × (length bytes.now ≤ 2 * ENDS) }
        ensures { self.new ≡ self.old ++ bytes.now }
    {
        write_ends::<ENDS>(&mut self.bytes, self.count, bytes);
        self.count += bytes.len();
    }

    /// Has any number of bytes wait.
    #[inline(never)]
    fn extend_by_all(&mut self, bytes: &[u8])
        requires room { length self.old + length bytes.now ≤ MOST_WAITING }
        ensures { self.new ≡ self.old ++ bytes.now }
    {
        write(&mut self.bytes, self.count, bytes);
        self.count += bytes.len();
    }
}

/// Writes a byte that waits so many times, from the place on.
///
/// It writes as many as are few, since a write whose length is known when this is compiled takes no loop.
#[inline(always)]
fn write_repeated(bytes: &mut [u8], start: usize, byte: u8, times: usize)
    requires few { times ≤ FEW }
    requires room { start + FEW ≤ length bytes.old }
    ensures written { take (start + times) bytes.new ≡ take start bytes.old ++ replicate times byte }
    ensures len { length bytes.new ≡ length bytes.old }
{
    write(bytes, start, &[byte; FEW]);
}

/// Writes a piece that waits from the place on: its first and its last so many bytes, which are all of it and may
/// overlap.
///
/// Two writes whose lengths are known when this is compiled take no loop.
#[inline(always)]
fn write_ends<const ENDS: usize>(bytes: &mut [u8], start: usize, piece: &[u8])
    requires ends { (ENDS ≤ length piece.now) × (length piece.now ≤ 2 * ENDS) }
    requires room { start + length piece.now ≤ length bytes.old }
    ensures written { take (start + length piece.now) bytes.new ≡ take start bytes.old ++ piece.now }
    ensures len { length bytes.new ≡ length bytes.old }
{
    let Some(first) = piece.first_chunk::<ENDS>() else {
        unreachable!()
    };
    let Some(last) = piece.last_chunk::<ENDS>() else {
        unreachable!()
    };
    let first = *first;
    let last = *last;
    write(bytes, start, &first);
    write(bytes, start + piece.len() - ENDS, &last);
}

/// Writes a piece that waits from the place on, over the bytes that are there.
#[inline(always)]
fn write(bytes: &mut [u8], start: usize, piece: &[u8])
    requires room { start + length piece.now ≤ length bytes.old }
    ensures written { take (start + length piece.now) bytes.new ≡ take start bytes.old ++ piece.now }
    ensures len { length bytes.new ≡ length bytes.old }
{
    bytes[start..start + piece.len()].copy_from_slice(piece);
}
