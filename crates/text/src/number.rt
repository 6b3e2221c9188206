// Numbers into a lent buffer, as text.rt does bytes.
ghost use Rattle.std.specs.Prelude.{◌≡◌};
ghost use Rattle.text.specs.Numerals.{numeral, most_digits, decimal, hex, hex_byte, signed, with_sign, apart, behind};
ghost use Rattle.text.specs.Numerals.{extended as Numerals·extended};
ghost use Rattle.text.specs.Lent.{Says, given};

use crate::digits::{MOST_DIGITS, Numeral, Pairs, glyph};
use crate::text::{put_byte, put_text};

// The digits are made beside, and cut as any text is.
fn put_numeral(out: &mut [u8], at: usize, number: Numeral) -> usize
    ensures { Says out at result (numeral number.base most_digits number.n) }
{
    let mut made = [0u8; MOST_DIGITS];
    let end = Pairs::new().put_digits(&mut made, 0, number);
    put_text(out, at, &made[..end])
}

pub fn put_decimal(out: &mut [u8], at: usize, n: u64) -> usize
    ensures { Says out at result (decimal n) }
{
    put_numeral(out, at, Numeral { base: 10, n })
}

pub fn put_hex(out: &mut [u8], at: usize, n: u64) -> usize
    ensures { Says out at result (hex n) }
{
    put_numeral(out, at, Numeral { base: 16, n })
}

pub fn put_hex_byte(out: &mut [u8], at: usize, x: u8) -> usize
    ensures { Says out at result (hex_byte x) }
{
    let next = put_byte(out, at, glyph(u64::from(x / 16)));
    put_byte(out, next, glyph(u64::from(x % 16)))
}

// A number in two's complement behind the text for its sign.
fn put_behind(out: &mut [u8], at: usize, plus: &[u8], minus: &[u8], x: u64) -> usize
    ensures { Says out at result (behind (given plus) (given minus) x) }
{
    let number = x.cast_signed();
    let next = put_text(out, at, if number < 0 { minus } else { plus });
    put_decimal(out, next, number.unsigned_abs())
}

// A number in two's complement, with a minus where it is negative.
pub fn put_signed(out: &mut [u8], at: usize, x: u64) -> usize
    ensures { Says out at result (signed x) }
{
    put_behind(out, at, b"", b"-", x)
}

// The same with its sign always.
pub fn put_with_sign(out: &mut [u8], at: usize, x: u64) -> usize
    ensures { Says out at result (with_sign x) }
{
    put_behind(out, at, b"+", b"-", x)
}

// The same with its sign apart, as a sum or a difference.
pub fn put_apart(out: &mut [u8], at: usize, x: u64) -> usize
    ensures { Says out at result (apart x) }
{
    put_behind(out, at, b"+ ", b"- ", x)
}

// A 32-bit two's complement number at 64 bits.
pub fn extended(x: u32) -> u64
    ensures { result ≡ Numerals·extended x }
{
    i64::from(x.cast_signed()).cast_unsigned()
}
