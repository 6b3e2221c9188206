// Text with gaps, filled from a list of numbers: specs/Forms.antt has the seven characters that stand for a number.
ghost use Rattle.std.specs.Prelude.{◌≡◌, ◌≤◌, get_or};
ghost use Rattle.text.specs.Lent.{Says, given};
ghost use Rattle.text.specs.Forms.{piece_of, takes, formed};

use crate::{number, text};

fn put_piece(out: &mut [u8], at: usize, character: u8, x: u64) -> usize
    ensures { Says out at result (piece_of character x) }
{
    match character {
        b'#' => number::put_decimal(out, at, x),
        b'~' => number::put_signed(out, at, x),
        b'^' => number::put_with_sign(out, at, x),
        b'_' => number::put_apart(out, at, x),
        b'$' => number::put_hex(out, at, x),
        b'@' => number::put_hex_byte(out, at, (x % 256) as u8),
        b'%' => text::put_byte(out, at, (x % 256) as u8),
        _ => text::put_byte(out, at, character),
    }
}

fn numbers_taken(character: u8) -> usize
    ensures { (result ≡ takes character) × (result ≤ 1) }
{
    match character {
        b'#' | b'~' | b'^' | b'_' | b'$' | b'@' | b'%' => 1,
        _ => 0,
    }
}

fn number_at(numbers: &[u64], k: usize) -> u64
    ensures { result ≡ get_or (given numbers) k 0 }
{
    numbers.get(k).copied().unwrap_or(0)
}

pub fn put_form(out: &mut [u8], at: usize, form: &[u8], numbers: &[u64]) -> usize
    ensures { Says out at result (formed (given form) (given numbers)) }
{
    let mut next = at;
    let mut k = 0;
    for &character in form {
        next = put_piece(out, next, character, number_at(numbers, k));
        k += numbers_taken(character);
    }
    next
}
