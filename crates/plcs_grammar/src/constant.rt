//! Numbers, and the constants of phrases, as they are written; the value of a numeral.
ghost use Rattle.std.specs.Prelude.{◌≡◌, ◌≤◌, ◌-◌, ◌^◌, if◌then◌else◌, [], ◌∷◌, decimal, min};
ghost use Rattle.std.specs.Fmt.{signed_decimal};
ghost use Rattle.plcs_base.specs.Put.{PutsAll};
ghost use Rattle.plcs_grammar.specs.Token.{bit_bytes, numeral_value, quoted, with_quotes_doubled};

use plcs_base::{ByteOut, put_bytes};

/// Puts the digits of a number as it is written, without leading zeros.
#[cycle(digits)]
#[inline(always)]
pub fn put_decimal<O: ByteOut>(number: u32, out: &mut O)
    ensures { PutsAll O.puts out.old (decimal number) out.new }
{
    if number < 10 {
        out.put(b'0' + number as u8);
    } else {
        put_digits(number, out);
    }
}

/// Puts the digits of a number that has several.
#[cycle(digits)]
#[inline(never)]
fn put_digits<O: ByteOut>(number: u32, out: &mut O)
    requires several { 10 ≤ number }
    ensures { PutsAll O.puts out.old (decimal number) out.new }
{
    put_decimal(number / 10, out);
    out.put(b'0' + (number % 10) as u8);
}

/// Puts a number as it is written, with its sign before it where it is negative.
#[inline(always)]
pub fn put_number<O: ByteOut>(number: i32, out: &mut O)
    ensures { PutsAll O.puts out.old (signed_decimal number) out.new }
{
    if number < 0 {
        put_negative(number.unsigned_abs(), out);
    } else {
        put_decimal(number as u32, out);
    }
}

/// Puts a negative number as it is written: its digits behind its sign.
#[inline(never)]
fn put_negative<O: ByteOut>(number: u32, out: &mut O)
    ensures { PutsAll O.puts out.old (45 ∷ decimal number) out.new }
{
    out.put(b'-');
    put_decimal(number, out);
}

/// Puts a character constant: the bytes between quotes, with each quote among them doubled.
#[inline(never)]
pub fn put_quoted<O: ByteOut>(bytes: &[u8], out: &mut O)
    ensures { PutsAll O.puts out.old (quoted bytes.now) out.new }
{
    out.put(b'\'');
    put_with_quotes_doubled(bytes, out);
    out.put(b'\'');
}

/// Puts the bytes of a character constant's value, each quote among them twice.
fn put_with_quotes_doubled<O: ByteOut>(bytes: &[u8], out: &mut O)
    ensures { PutsAll O.puts out.old (with_quotes_doubled bytes.now) out.new }
{
    for byte in bytes {
        put_with_quote_doubled(*byte, out);
    }
}

/// Puts one byte of a character constant's value, twice if it is a quote.
fn put_with_quote_doubled<O: ByteOut>(byte: u8, out: &mut O)
    ensures { PutsAll O.puts out.old (with_quotes_doubled (byte ∷ [])) out.new }
{
    if byte == b'\'' {
        put_bytes(b"''", out);
    } else {
        out.put(byte);
    }
}

/// Puts a bit constant.
pub fn put_bit<O: ByteOut>(bit: bool, out: &mut O)
    ensures { PutsAll O.puts out.old (bit_bytes bit) out.new }
{
    put_bytes(if bit { b"'1'B" } else { b"'0'B" }, out);
}

/// The value of a numeral: the number that its digits write, or 18446744073709551615 where it is greater.
pub fn numeral_value(digits: &[u8]) -> u64
    ensures { result ≡ min (numeral_value digits.now) (2 ^ 64 - 1) }
{
    let mut value: u64 = 0;
    for digit in digits {
        let ones = u64::from(digit.saturating_sub(b'0'));
        value = value.saturating_mul(10).saturating_add(ones);
    }
    value
}
