//! What bytes are put into.
ghost use Rattle.std.specs.Prelude.{ℕ, replicate};
ghost use Rattle.plcs_base.specs.Put.{PutsAll};

/// Something that bytes are put into, one after the other.
///
/// What a byte changes is the implementation's own: it may keep the byte, keep only what it has room
/// for, or pass it on. Putting several bytes is `PutsAll` of `specs/Put.antt`.
pub trait ByteOut {
    /// The value before, the byte, and a value that may be there after.
    ghost puts: { Self → ℕ → Self → Type 0 };

    /// Puts one byte behind those that were put before.
    fn put(&mut self, byte: u8)
        ensures { puts self.old byte self.new };

    /// Puts the byte so many times behind those that were put before: one after the other, or at once where that comes
    /// to the same.
    fn put_repeated(&mut self, byte: u8, times: usize)
        ensures { PutsAll puts self.old (replicate times byte) self.new }
    {
        'times: for _ in 0..times {
            self.put(byte);
        }
    }

    /// Puts the bytes behind those that were put before: one after the other, or at once where that comes to the same.
    fn put_all(&mut self, bytes: &[u8])
        ensures { PutsAll puts self.old bytes.now self.new }
    {
        for byte in bytes {
            self.put(*byte);
        }
    }
}

/// Puts the bytes, one after the other.
pub fn put_bytes<O: ByteOut>(bytes: &[u8], out: &mut O)
    ensures { PutsAll O.puts out.old bytes.now out.new }
{
    out.put_all(bytes);
}
